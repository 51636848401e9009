// A job, run.
ghost use Rattle.std.specs.Prelude.{◌≡◌, length};
ghost use Rattle.driver.specs.Run.{job_of, result_of};
ghost use Rattle.notation.specs.Overlay.{laid};

use crate::hand_up::hand_up;
use crate::pairs::run_pairs;
use crate::result::JobResult;
use answer::ending::Ending;
use controller::record::Controller;
use service::checks::{is_malformed, is_ready};
use service::job::Job;
use service::table::start;

// Runs a job: the data of a write is `payload`, a read's bytes go to `destination`, the bytes sent to `out`.
pub fn run_job(
    c: Controller,
    job: Job,
    payload: &[u8],
    destination: &mut [u8],
    out: &mut [u8],
    script: &[u8],
) -> JobResult
    ensures result { result_of result ≡ (job_of job payload.now (length destination.old) (length out.old) script.now c).result }
    ensures handed { destination.new ≡ laid (job_of job payload.now (length destination.old) (length out.old) script.now c).handed destination.old }
    ensures sent { out.new ≡ laid (job_of job payload.now (length destination.old) (length out.old) script.now c).sent out.old }
    ensures number { result.sent ≡ length (job_of job payload.now (length destination.old) (length out.old) script.now c).sent }
{
    if is_malformed(
        job,
        payload.len(),
        destination.len(),
        out.len(),
        script.len(),
    ) {
        return JobResult::declined(c, Ending::Malformed);
    }
    if !is_ready(&c) {
        return JobResult::declined(c, Ending::NotReady);
    }
    let mut p = start(job, c);
    let result = run_pairs(&mut p, job, payload, out, script);
    hand_up(job, result.ending, &p.fetched, destination);
    result
}
