// Bytes put into the lent state.
ghost use Rattle.std.specs.Prelude.{◌≡◌, ◌+◌, ◌≤◌, get_or};
ghost use Rattle.notation.specs.Overlay.{laid_at};
ghost use Rattle.port.specs.Port.{padded};

use crate::layout::{PLACES, State};

// 68 from this place on: the bytes, and zeros after them. (No `copy_from_slice` and `fill`: they would call memmove and memset, and
// include/perlovasta_dock.h promises that the library calls nothing outside itself.)
pub(crate) fn put_padded(state: &mut State, at: usize, bytes: &[u8])
    requires { at + 68 ≤ 148 }
    ensures { state.new ≡ laid_at at (padded bytes.now) state.old }
{
    for i in 0..PLACES {
        state[at + i] = byte_or_zero(bytes, i);
    }
}

// One of the bytes, or zero after them.
fn byte_or_zero(bytes: &[u8], i: usize) -> u8
    ensures { result ≡ get_or bytes.now i 0 }
{
    bytes.get(i).copied().unwrap_or(0)
}
