// How many bytes a job handed up.
ghost use Rattle.std.specs.Prelude.{◌≡◌};
ghost use Rattle.answer.specs.Ending.{number_of};
ghost use Rattle.runs.specs.OneRun.{handed_count};

use address::number::Direction;
use answer::ending::Ending;
use service::job::Job;

// How many bytes a job with this answer hands up.
#[tactic(auto, using(notation::proofs::Cases::cases), unfolding(runs::specs::OneRun::handed_count, address::specs::Number::bit_of))]
pub(crate) fn count_handed(job: Job, ending: Ending) -> usize
    ensures { result ≡ handed_count job (number_of ending) }
{
    match (ending, job.direction) {
        (Ending::Done, Direction::Read) => job.n as usize,
        _ => 0,
    }
}
