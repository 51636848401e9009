// The word for an entry of the table.
ghost use Rattle.std.specs.Prelude.{◌≡◌};
ghost use Rattle.table.specs.Words.{turn_word, entry_word};
ghost use Rattle.text.specs.Text.{appended};

use console::turn::{called_name, turn_name};
use control::turn::Turn;
use responses::entry::Entry;
use text::Text;

// A turn's name; of SlaveReceive with the address called.
#[tactic(auto, using(text::proofs::Appended::puts), unfolding(crate::specs::Words::turn_word))]
fn put_turn<const N: usize>(text: &mut Text<N>, turn: Turn)
    ensures { text.new ≡ appended N text.old (turn_word turn) }
{
    text.put_word(turn_name(turn));
    if let Turn::SlaveReceive(called) = turn {
        text.put(b'/');
        text.put_word(called_name(called));
    }
}

// An entry's word.
#[tactic(auto, using(text::proofs::Appended::puts), unfolding(crate::specs::Words::entry_word))]
pub(crate) fn put_entry<const N: usize>(text: &mut Text<N>, entry: Entry)
    ensures { text.new ≡ appended N text.old (entry_word entry) }
{
    match entry {
        Entry::Never => text.put_word(b"never"),
        Entry::Beside => text.put_word(b"beside"),
        Entry::Stays => text.put_word(b"stays"),
        Entry::Refused(why) => {
            text.put_word(b"refused");
            text.put_decimal(why.number() as usize);
        }
        Entry::Next(turn) => put_turn(text, turn),
    }
}
