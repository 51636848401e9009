// What the ward log says of an address byte.
ghost use Rattle.std.specs.Prelude.{◌≡◌};
ghost use Rattle.console.specs.WardLog.{call_word, match_text, ward_note};
ghost use Rattle.text.specs.Text.{Holds};

use address::matching::{AddressMatch, Match};
use address::number::Direction;
use controller::record::Controller;
use text::put::{put_hex, put_word};

// What was called, with the direction where there is one.
#[tactic(auto, unfolding(crate::specs::WardLog::call_word))]
fn call_word(call: Match) -> &'static [u8]
    ensures { result.now ≡ call_word call }
{
    match call {
        Match::Own(Direction::Write) => b"own write ",
        Match::Own(Direction::Read) => b"own read ",
        Match::General => b"general ",
        Match::Nothing => b"none ",
    }
}

// ` called own write 70`
#[tactic(auto, using(text::proofs::Holds::joins), unfolding(crate::specs::WardLog::match_text))]
fn put_match(text: &mut [u8], at: usize, found: AddressMatch) -> usize
    ensures { Holds at (match_text found) text.old text.new result }
{
    let next = put_word(text, at, b" called ");
    let next = put_word(text, next, call_word(found.call));
    put_hex(text, next, found.address.0)
}

// What the ward log notes of a group of a trace, at the end of its line: of an accepted event 5 or 8 what the byte called, of any other group
// nothing. `kind` is the group's, 2 for an event; `c` is the record that the group was given to. (Numbers: the definition
// `ward_note` is of any bytes that a group can have.)
#[tactic(auto, using(text::proofs::Holds::joins, notation::proofs::Cases::cases), unfolding(crate::specs::WardLog::ward_note, crate::specs::WardLog::tells_call))]
pub fn put_ward_note(
    text: &mut [u8],
    at: usize,
    c: &Controller,
    kind: u8,
    number: u8,
    argument: u8,
    refused: u8,
) -> usize
    ensures { Holds at (ward_note c.now kind number argument refused) text.old text.new result }
{
    if kind == 2 && matches!(number, 5 | 8) && refused == 0 {
        put_match(text, at, c.match_on_bus(argument))
    } else {
        at
    }
}
