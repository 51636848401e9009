// The turn and the reason as numbers in the record's bytes. (Functions: both types are of another crate, so no `TryFrom` can stand here, and a turn is made
// of two numbers.)
ghost use Rattle.std.specs.Prelude.{◌≡◌, true, false, ltb, MatchOption};
ghost use Rattle.virtual_chip.specs.Numbers.{turn_number, is_turn, turn_for, reason_for};

use control::reason::Reason;
use control::turn::{Called, Edge, Turn};

// The turn's number.
#[tactic(auto, unfolding(crate::specs::Numbers::turn_number, crate::specs::Numbers::host_number, crate::specs::Numbers::slave_number))]
pub fn turn_number(turn: Turn) -> u8
    ensures { result ≡ turn_number turn }
{
    match turn {
        Turn::Off => 0,
        Turn::Host(_, Edge::Stop) => 1,
        Turn::Free => 2,
        Turn::Busy => 3,
        Turn::Listen => 4,
        Turn::Address => 5,
        Turn::Send => 6,
        Turn::Receive => 7,
        Turn::SlaveReceive(Called::Own) => 8,
        Turn::SlaveSend => 9,
        Turn::Stopping => 10,
        Turn::Restarting => 11,
        Turn::Host(_, Edge::Start) => 17,
        Turn::SlaveReceive(Called::General) => 24,
    }
}

// The turn with this number, and with this status if it is Host.
#[tactic(auto, unfolding(crate::specs::Numbers::turn_for, crate::specs::Numbers::is_turn), using(notation::proofs::Cases::cases))]
pub(crate) fn turn_for(k: u8, status: u8) -> Option<Turn>
    ensures { MatchOption result (is_turn k ≡ false) (λ turn. (is_turn k ≡ true) × (turn ≡ turn_for k status)) }
{
    Some(match k {
        0 => Turn::Off,
        1 => Turn::Host(status, Edge::Stop),
        2 => Turn::Free,
        3 => Turn::Busy,
        4 => Turn::Listen,
        5 => Turn::Address,
        6 => Turn::Send,
        7 => Turn::Receive,
        8 => Turn::SlaveReceive(Called::Own),
        9 => Turn::SlaveSend,
        10 => Turn::Stopping,
        11 => Turn::Restarting,
        17 => Turn::Host(status, Edge::Start),
        24 => Turn::SlaveReceive(Called::General),
        _ => return None,
    })
}

// The reason with this number.
#[tactic(auto, unfolding(crate::specs::Numbers::reason_for), using(notation::proofs::Cases::cases))]
pub(crate) fn reason_for(k: u8) -> Option<Reason>
    ensures { MatchOption result (ltb k 7 ≡ false) (λ reason. (ltb k 7 ≡ true) × (reason ≡ reason_for k)) }
{
    Some(match k {
        0 => Reason::NoneYet,
        1 => Reason::CountReached,
        2 => Reason::Nack,
        3 => Reason::Outside,
        4 => Reason::ArbitrationLost,
        5 => Reason::Fault,
        6 => Reason::Reset,
        _ => return None,
    })
}
