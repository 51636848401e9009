// The functions that C and Rust call for a job and a trace. C passes each slice as a pointer and a length.
ghost use Rattle.std.specs.Prelude.{◌≡◌, length};
ghost use Rattle.notation.specs.Overlay.{laid};
ghost use Rattle.perlovasta.specs.Job.{job_call};
ghost use Rattle.perlovasta.specs.Trace.{trace_call};

use crate::job::run_reported;
use crate::trace::{is_bad, put_log};
use answer::ending::Ending;
use controller::record::Controller;
use requests::jobs::fresh_enabled;

// One job on a fresh controller enabled by 40h; it returns the answer. The report begins with 12 bytes: the answer, the number beside it, the count, how
// many bytes were sent, and the events used as eight bytes, low byte first. 21 where the report is shorter: nothing is done then.
pub fn perlovasta_job(
    kind: u8,
    address: u8,
    n: u8,
    payload: &[u8],
    destination: &mut [u8],
    out: &mut [u8],
    script: &[u8],
    report: &mut [u8],
) -> u8
    ensures answer { result
        ≡ (job_call kind address n payload.now
        (length destination.old) (length out.old) script.now (length report.old)).answer }
    ensures handed { destination.new
        ≡ laid (job_call kind address n payload.now
        (length destination.old) (length out.old)
        script.now (length report.old)).handed destination.old }
    ensures sent { out.new
        ≡ laid (job_call kind address n payload.now
        (length destination.old) (length out.old) script.now (length report.old)).sent out.old }
    ensures told { report.new
        ≡ laid (job_call kind address n payload.now
        (length destination.old) (length out.old) script.now (length report.old)).told report.old }
{
    let Some(report) = report.first_chunk_mut() else {
        return Ending::Malformed.number();
    };
    run_reported(
        fresh_enabled(),
        kind,
        address,
        n,
        payload,
        destination,
        out,
        script,
        report,
        &mut [],
    )
}

// One trace of three-byte groups on a fresh controller: 0. The log begins with eight bytes for each group. 21 where the trace is not
// whole groups of the kinds 0 to 2, or the log has no room: nothing is written then.
pub fn perlovasta_trace(trace: &[u8], log: &mut [u8]) -> u8
    ensures answer { result ≡ (trace_call trace.now (length log.old)).answer }
    ensures logged { log.new ≡ laid (trace_call trace.now (length log.old)).logged log.old }
{
    if is_bad(trace) || log.len() / 8 < trace.len() / 3 {
        return Ending::Malformed.number();
    }
    put_log(Controller::fresh(), trace, log);
    0
}
