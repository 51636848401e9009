// The job that a call asks for.
ghost use Rattle.std.specs.Prelude.{◌≡◌, length};
ghost use Rattle.driver.specs.Run.{result_of};
ghost use Rattle.notation.specs.Overlay.{laid};
ghost use Rattle.perlovasta.specs.Job.{request_report, result_left};
ghost use Rattle.perlovasta.specs.ReportBytes.{report_of_job};

use crate::report::put_report;
use answer::ending::Ending;
use controller::record::Controller;
use driver::job::run_job;
use driver::result::JobResult;
use requests::jobs::job_for;
use virtual_chip::record::store;

// Runs it; of another kind it is answered 21. (Numbers and slices by themselves, as C passes them and `run_job` takes them: a struct would be made and
// taken apart at once.)
#[tactic(auto, unfolding(crate::specs::Job::request_report, driver::specs::Run::declines, notation::specs::Overlay::laid), using(notation::proofs::Cases::cases))]
fn run_request(
    c: Controller,
    kind: u8,
    address: u8,
    n: u8,
    payload: &[u8],
    destination: &mut [u8],
    out: &mut [u8],
    script: &[u8],
) -> JobResult
    ensures result { result_of result
        ≡ (request_report c kind address n payload.now
        (length destination.old) (length out.old) script.now).result }
    ensures handed { destination.new
        ≡ laid (request_report c kind address n payload.now
        (length destination.old) (length out.old) script.now).handed destination.old }
    ensures sent { out.new
        ≡ laid (request_report c kind address n payload.now
        (length destination.old) (length out.old) script.now).sent out.old }
    ensures number { result.sent
        ≡ length (request_report c kind address n payload.now
        (length destination.old) (length out.old) script.now).sent }
{
    if 1 < kind {
        return JobResult::declined(c, Ending::Malformed);
    }
    run_job(
        c,
        job_for(kind, address, n),
        payload,
        destination,
        out,
        script,
    )
}

// The record that a job left is stored, where there is room for it; 21 and 22 left it as it was.
#[tactic(auto, unfolding(crate::specs::Job::result_left, driver::specs::Run::result_of, answer::specs::Ending::number_of, notation::specs::Overlay::laid), using(notation::proofs::Cases::cases))]
fn keep(chip: &mut [u8], res: JobResult)
    ensures { chip.new ≡ laid (result_left (length chip.old) (result_of res)) chip.old }
{
    if !matches!(res.ending, Ending::Malformed | Ending::NotReady) {
        store(chip, res.controller);
    }
}

// Runs it, reports, and stores the record left. It gives the answer alone, so that no record is copied on the way out.
#[tactic(auto, unfolding(driver::specs::Run::result_of), using(crate::proofs::Few::few))]
pub(crate) fn run_reported(
    c: Controller,
    kind: u8,
    address: u8,
    n: u8,
    payload: &[u8],
    destination: &mut [u8],
    out: &mut [u8],
    script: &[u8],
    report: &mut [u8; 12],
    chip: &mut [u8],
) -> u8
    ensures answer { result
        ≡ (request_report c kind address n payload.now
        (length destination.old) (length out.old) script.now).result.answer }
    ensures handed { destination.new
        ≡ laid (request_report c kind address n payload.now
        (length destination.old) (length out.old) script.now).handed destination.old }
    ensures sent { out.new
        ≡ laid (request_report c kind address n payload.now
        (length destination.old) (length out.old) script.now).sent out.old }
    ensures told { report.new
        ≡ report_of_job (request_report c kind address n payload.now
        (length destination.old) (length out.old) script.now) }
    ensures chip { chip.new
        ≡ laid (result_left (length chip.old) (request_report c kind address n payload.now
        (length destination.old) (length out.old) script.now).result) chip.old }
{
    let result = run_request(c, kind, address, n, payload, destination, out, script);
    put_report(report, result);
    keep(chip, result);
    result.ending.number()
}
