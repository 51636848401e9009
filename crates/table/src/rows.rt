// The heading, and a row for each status.
ghost use Rattle.std.specs.Prelude.{◌≡◌, ◌*◌, ◌/◌, ◌<◌};
ghost use Rattle.table.specs.TableText.{heading, cells, row_text, rows, table_text};
ghost use Rattle.text.specs.Text.{appended};

use crate::cells::put_entry;
use responses::table::{entry_at, pattern};
use text::Text;

// `status` and the sixteen patterns of STA, STO, AA and MODE.
fn put_heading<const N: usize>(text: &mut Text<N>)
    ensures { text.new ≡ appended N text.old heading }
{
    text.put_word(
        b"status 0000 0001 0010 0011 0100 0101 0110 0111 1000 1001 1010 1011 1100 1101 1110 1111\n",
    );
}

// The sixteen cells for a status.
#[tactic(auto, using(text::proofs::Appended::puts, crate::proofs::OneMore::cell_more), unfolding(crate::specs::TableText::cells))]
fn put_cells<const N: usize>(text: &mut Text<N>, status: u8)
    ensures { text.new ≡ appended N text.old (cells (status / 8 * 8) 16) }
{
    for column in 0..16 {
        text.put(b' ');
        put_entry(text, entry_at(status, pattern(column)));
    }
}

// The row for a status: its two digits and its cells.
#[tactic(auto, using(text::proofs::Appended::puts, crate::proofs::OneMore::eights), unfolding(crate::specs::TableText::row_text))]
fn put_row<const N: usize>(text: &mut Text<N>, row: u8)
    requires { row < 32 }
    ensures { text.new ≡ appended N text.old (row_text row) }
{
    let status = row * 8;
    text.put_hex(status);
    put_cells(text, status);
    text.put(b'\n');
}

// The thirty-two rows.
#[tactic(auto, using(text::proofs::Appended::puts, crate::proofs::OneMore::row_more), unfolding(crate::specs::TableText::rows))]
fn put_rows<const N: usize>(text: &mut Text<N>)
    ensures { text.new ≡ appended N text.old (rows 32) }
{
    for row in 0..32 {
        put_row(text, row);
    }
}

// The whole table.
#[tactic(auto, using(text::proofs::Appended::puts, crate::proofs::Size::whole), unfolding(crate::specs::TableText::table_text))]
pub(crate) fn table_text() -> Text<6144>
    ensures { result ≡ table_text }
{
    let mut text = Text::new();
    put_heading(&mut text);
    put_rows(&mut text);
    text
}
