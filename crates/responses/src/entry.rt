// What an entry of the response table names.
ghost use Rattle.std.specs.Prelude.{◌≡◌};
ghost use Rattle.responses.specs.Entry.{names};

use answer::Refusal;
use control::turn::{Called, Turn};

#[derive(Clone, Copy, Debug, PartialEq, Eq)]
pub enum Entry {
    // No event gives the status.
    Never,
    // A rule beside the table says what the write does: A0h and F8h.
    Beside,
    // The write is accepted, and Host keeps its status: 38h.
    Stays,
    Refused(Refusal),
    // The write is accepted, and this is the next turn.
    Next(Turn),
}

// What a number in the table names.
impl From<u8> for Entry {
    ghost from_gives = { λ number entry. entry ≡ names number };

    fn from(number: u8) -> Entry {
        match number {
            1 => Entry::Beside,
            2 => Entry::Stays,
            3 => Entry::Next(Turn::Busy),
            4 => Entry::Refused(Refusal::Locked),
            5 => Entry::Refused(Refusal::Unlisted),
            6 => Entry::Next(Turn::SlaveReceive(Called::Own)),
            7 => Entry::Next(Turn::SlaveReceive(Called::General)),
            8 => Entry::Next(Turn::SlaveSend),
            9 => Entry::Next(Turn::Stopping),
            10 => Entry::Next(Turn::Restarting),
            11 => Entry::Next(Turn::Address),
            12 => Entry::Next(Turn::Send),
            13 => Entry::Next(Turn::Receive),
            _ => Entry::Never,
        }
    }
}
