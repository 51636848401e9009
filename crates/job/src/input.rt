// The program's input: kind, address, n, data for a write, script.
ghost use Rattle.std.specs.Prelude.{◌≡◌, MatchOption, true};
ghost use Rattle.job.specs.Program.{bad_input, IsParsed, program_text};

use answer::ending::Ending;
use console::fixed::{put_job, tell_job};
use driver::result::JobResult;
use requests::jobs::{data_len, fresh_enabled, job_for};
use service::job::Job;
use text::Text;

// The job that the input asks for, its data and its script. None where the input is over 4,096 bytes, cut short or of another kind.
#[tactic(auto, using(notation::proofs::Cases::cases), unfolding(crate::specs::Program::bad_input, crate::specs::Program::data_size))]
fn parse(input: &[u8]) -> Option<(Job, &[u8], &[u8])>
    ensures { MatchOption result (bad_input input.now ≡ true) (λ parts. IsParsed input.now parts.0 parts.1.now parts.2.now) }
{
    if 4096 < input.len() {
        return None;
    }
    let [kind, address, n, rest @ ..] = input else {
        return None;
    };
    if 1 < *kind {
        return None;
    }
    let job = job_for(*kind, *address, *n);
    let (payload, script) = rest.split_at_checked(data_len(job))?;
    Some((job, payload, script))
}

// The text printed of an input: of a bad one answer 21, else what the job gives on a fresh controller enabled by 40h.
pub(crate) fn run(input: &[u8]) -> Text<1024>
    ensures { result ≡ program_text input.now }
{
    let mut text = Text::new();
    let c = fresh_enabled();
    if let Some((job, payload, script)) = parse(input) {
        tell_job(c, job, payload, script, &mut text);
    } else {
        let declined = JobResult::declined(c, Ending::Malformed);
        put_job(&mut text, &declined, b"", b"");
    }
    text
}
