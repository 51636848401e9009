// The report of a job.
ghost use Rattle.std.specs.Prelude.{◌≡◌, ◌≤◌};
ghost use Rattle.driver.specs.Run.{result_of};
ghost use Rattle.perlovasta.specs.ReportBytes.{report_bytes};

use driver::result::JobResult;

// The 12 bytes.
#[tactic(auto, unfolding(crate::specs::ReportBytes::report_bytes, driver::specs::Run::result_of), using(crate::proofs::Numbers::low_bytes))]
pub(crate) fn put_report(report: &mut [u8; 12], res: JobResult)
    requires { res.sent ≤ 69 }
    ensures { report.new ≡ report_bytes (result_of res) res.sent }
{
    let (head, events) = report.split_at_mut(4);
    head.copy_from_slice(&[
        res.ending.number(),
        res.ending.beside(),
        res.count,
        res.sent as u8,
    ]);
    events.copy_from_slice(&res.events.to_le_bytes());
}
