// Handing up (document 01's term): the bytes of a finished read, written to the caller's destination.
ghost use Rattle.std.specs.Prelude.{◌≡◌, ◌≤◌, length};
ghost use Rattle.answer.specs.Ending.{number_of};
ghost use Rattle.driver.specs.Run.{hands_up};
ghost use Rattle.notation.specs.Overlay.{laid};

use address::number::Direction;
use answer::ending::Ending;
use service::job::Job;

// Answer 0 of a read: its n bytes are handed up. Any other job leaves the destination as it was.
pub(crate) fn hand_up(job: Job, ending: Ending, fetched: &[u8; 68], destination: &mut [u8])
    requires fits { job.n ≤ 68 }
    requires lent { job.direction ≡ Direction.Read → job.n ≤ length destination.old }
    ensures { destination.new ≡ laid (hands_up job (number_of ending) fetched.now) destination.old }
{
    if ending == Ending::Done && job.direction == Direction::Read {
        let n = job.n as usize;
        destination[..n].copy_from_slice(&fetched[..n]);
    }
}
