// Writing I2CCON with ENSIO 1: the next turn, or none where the write is not listed.
ghost use Rattle.std.specs.Prelude.{◌≡◌};
ghost use Rattle.control.specs.Writing.{end_or, after_edge, responds_at, response};

use crate::flags::Control;
use crate::turn::{Called, Edge, Turn};

// STO leads to Stopping, also beside STA; STA alone to Restarting.
fn end_or(k: Control, otherwise: Option<Turn>) -> Option<Turn>
    ensures { result ≡ end_or k otherwise }
{
    if k.sto {
        Some(Turn::Stopping)
    } else if k.sta {
        Some(Turn::Restarting)
    } else {
        otherwise
    }
}

// Where a write at A0h leads.
pub fn after_edge(edge: Edge) -> Turn
    ensures { result ≡ after_edge edge }
{
    match edge {
        Edge::Stop => Turn::Free,
        Edge::Start => Turn::Listen,
    }
}

fn respond_at(status: u8, edge: Edge, k: Control) -> Option<Turn>
    ensures { result ≡ responds_at status edge k }
{
    match status {
        0x08 | 0x10 => if k.mode { None } else { Some(Turn::Address) },
        0x18 | 0x20 | 0x28 | 0x30 => end_or(k, Some(Turn::Send)),
        0x40 | 0x50 => if k.sta || k.sto {
            None
        } else {
            Some(Turn::Receive)
        },
        0x48 | 0x58 => end_or(k, None),
        // The turn stays: only the bus, a reset or ENSIO 0 leaves 38h.
        0x38 => Some(Turn::Host(0x38, edge)),
        0x60 | 0x68 | 0x80 => Some(Turn::SlaveReceive(Called::Own)),
        0xD0 | 0xD8 | 0xE0 => Some(Turn::SlaveReceive(Called::General)),
        0x88 | 0xC0 | 0xC8 | 0xE8 => Some(Turn::Busy),
        0xA0 => Some(after_edge(edge)),
        0xA8 | 0xB0 | 0xB8 => Some(Turn::SlaveSend),
        _ => None,
    }
}

// The next turn after an I2CCON write with ENSIO 1.
pub fn respond(turn: Turn, k: Control) -> Option<Turn>
    ensures { result ≡ response turn k }
{
    match turn {
        Turn::Off => Some(Turn::Free),
        Turn::Host(status, edge) => respond_at(status, edge, k),
        _ => Some(turn),
    }
}
