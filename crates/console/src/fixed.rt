// The same texts, put into fixed memory.
ghost use Rattle.std.specs.Prelude.{◌≡◌};
ghost use Rattle.console.specs.JobText.{job_text, report_text};
ghost use Rattle.console.specs.ReasonText.{reason_text};
ghost use Rattle.console.specs.WardLog.{ward_note};
ghost use Rattle.driver.specs.Run.{job_of, result_of};
ghost use Rattle.text.specs.Text.{appended};

use crate::{reason, report, tell, ward_log};
use control::reason::Reason;
use controller::record::Controller;
use driver::result::JobResult;
use service::job::Job;
use text::Text;

// ` reason nack`
#[tactic(auto, using(text::proofs::Appended::as_lent))]
pub fn put_reason<const N: usize>(text: &mut Text<N>, reason: Reason)
    ensures { text.new ≡ appended N text.old (reason_text reason) }
{
    text.len = reason::put_reason(&mut text.bytes, text.len, reason);
}

// The three lines of a job.
#[tactic(auto, using(text::proofs::Appended::as_lent))]
pub fn put_job<const N: usize>(text: &mut Text<N>, res: &JobResult, sent: &[u8], handed: &[u8])
    ensures { text.new ≡ appended N text.old (job_text (result_of res.now) sent.now handed.now) }
{
    text.len = report::put_job(&mut text.bytes, text.len, res, sent, handed);
}

// Runs a job with a destination of 68 and an out record of 69 bytes, and puts its three lines. Gives the record after it. (What is left of the
// memory is lent as a part of a slice: a part of an array of N places can't be.)
#[tactic(auto, using(text::proofs::Appended::as_lent))]
pub fn tell_job<const N: usize>(
    c: Controller,
    job: Job,
    payload: &[u8],
    script: &[u8],
    text: &mut Text<N>,
) -> Controller
    ensures next { result ≡ (job_of job payload.now 68 69 script.now c).result.next }
    ensures lines { text.new ≡ appended N text.old (report_text (job_of job payload.now 68 69 script.now c)) }
{
    let memory = &mut text.bytes[..];
    let told = tell::tell_job(c, job, payload, script, &mut memory[text.len..]);
    text.len += told.end;
    told.controller
}

// What the ward log notes of a group of a trace.
#[tactic(auto, using(text::proofs::Appended::as_lent))]
pub fn put_ward_note<const N: usize>(
    text: &mut Text<N>,
    c: &Controller,
    kind: u8,
    number: u8,
    argument: u8,
    refused: u8,
)
    ensures { text.new ≡ appended N text.old (ward_note c.now kind number argument refused) }
{
    text.len = ward_log::put_ward_note(
        &mut text.bytes,
        text.len,
        c,
        kind,
        number,
        argument,
        refused,
    );
}
