// A trace, worked on a fresh controller.
ghost use Rattle.std.specs.Prelude.{◌≡◌, true, ℕ, ◌+◌, ◌*◌, ◌/◌, ◌<◌, ◌≤◌, length, slice_index, IsTrue, IsFalse};
ghost use Rattle.controller.specs.Record.{sound};
ghost use Rattle.notation.specs.Overlay.{laid};
ghost use Rattle.perlovasta.specs.Trace.{bad_trace, log_of};

use crate::log::log_entry;
use controller::record::Controller;
use requests::groups::Request;

// Every third byte, from the first on, is at most 2.
fn all_known(trace: &[u8]) -> bool
    ensures known { IsTrue result → (k : ℕ) → k * 3 < length trace.now → slice_index trace.now (k * 3) ≤ 2 }
    ensures strange { IsFalse result → (k : ℕ) × (k * 3 < length trace.now) × (2 < slice_index trace.now (k * 3)) }
{
    trace.iter().step_by(3).all(|kind| *kind <= 2)
}

// The trace ends amid a group, or a group is of another kind.
pub(crate) fn is_bad(trace: &[u8]) -> bool
    ensures { result ≡ bad_trace trace.now }
{
    trace.len() % 3 != 0 || !all_known(trace)
}

// Works the groups from this record on and puts the log. (An index for the log: of a zip with `chunks_exact_mut` no proof knows
// what the bytes are after it.)
pub(crate) fn put_log(mut c: Controller, trace: &[u8], log: &mut [u8])
    requires { (8 * (length trace.now / 3) ≤ length log.old) × (sound c ≡ true) }
    ensures { log.new ≡ laid (log_of c trace.now) log.old }
{
    let (groups, _) = trace.as_chunks::<3>();
    for (i, group) in groups.iter().enumerate() {
        let answer = Request::from(*group).perform(&mut c);
        log[8 * i..8 * i + 8].copy_from_slice(&log_entry(answer, &c));
    }
}
