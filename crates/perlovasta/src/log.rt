// The eight bytes of the log for one group.
ghost use Rattle.std.specs.Prelude.{◌≡◌, true};
ghost use Rattle.controller.specs.Record.{sound};
ghost use Rattle.perlovasta.specs.Log.{logged_turn, pointer_byte, leaves, entry_of};

use answer::{Answer, refusal_of, value_of};
use control::reason::Reason;
use control::turn::{Edge, Turn};
use controller::record::Controller;
use virtual_chip::numbers::turn_number;

// The turn's number. That a START came is told at A0h alone.
#[tactic(auto, unfolding(crate::specs::Log::logged_turn, virtual_chip::specs::Numbers::turn_number, virtual_chip::specs::Numbers::host_number, control::specs::Turn::status_of), using(notation::proofs::Cases::cases))]
fn log_turn(turn: Turn) -> u8
    ensures { result ≡ logged_turn turn }
{
    match turn {
        Turn::Host(0xA0, Edge::Start) => 17,
        Turn::Host(_, _) => 1,
        _ => turn_number(turn),
    }
}

// The pointer, the reason's number above it, and the highest bit where a software reset is armed.
#[tactic(auto, unfolding(crate::specs::Log::pointer_byte), using(notation::proofs::Cases::cases))]
fn mark_pointer(pointer: u8, reason: Reason, armed: bool) -> u8
    ensures { result ≡ pointer_byte pointer reason armed }
{
    let digits = 16 * reason.number() + pointer % 16;
    if armed { 128 + digits } else { digits }
}

// The bytes for one group: what it answered, and the record after it. (Of a sound record registers 0 and 3 read these two bytes.)
pub(crate) fn log_entry(answer: Answer, c: &Controller) -> [u8; 8]
    requires { sound c.now ≡ true }
    ensures { result ≡ entry_of (leaves answer c.now) }
{
    [
        refusal_of(answer),
        value_of(answer),
        c.turn.status(),
        c.control.byte(c.turn.interrupts()),
        c.hand,
        c.moved,
        mark_pointer(c.pointer, c.reason, c.armed),
        log_turn(c.turn),
    ]
}
