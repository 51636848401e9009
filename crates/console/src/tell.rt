// A job run and told: what both programs do with one.
ghost use Rattle.std.specs.Prelude.{◌≡◌};
ghost use Rattle.console.specs.JobText.{report_text};
ghost use Rattle.driver.specs.Run.{job_of};
ghost use Rattle.text.specs.Text.{Holds};

use crate::handed::count_handed;
use crate::report::put_job;
use controller::record::Controller;
use driver::job::run_job;
use service::job::Job;

// The record after a job, and the length of its text.
#[derive(Clone, Copy, Debug, PartialEq, Eq)]
pub struct Told {
    pub controller: Controller,
    pub end: usize,
}

// Runs a job with a destination of 68 and an out record of 69 bytes, and puts its three lines at the start of the text.
pub fn tell_job(c: Controller, job: Job, payload: &[u8], script: &[u8], text: &mut [u8]) -> Told
    ensures next { result.controller ≡ (job_of job payload.now 68 69 script.now c).result.next }
    ensures lines { Holds 0 (report_text (job_of job payload.now 68 69 script.now c)) text.old text.new result.end }
{
    let mut destination = [0; 68];
    let mut out = [0; 69];
    let ran = run_job(c, job, payload, &mut destination, &mut out, script);
    let handed = count_handed(job, ran.ending);
    let end = put_job(text, 0, &ran, &out[..ran.sent], &destination[..handed]);
    Told {
        controller: ran.controller,
        end,
    }
}
