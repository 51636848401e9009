// The response table, and the entry for a status and the four bits.
ghost use Rattle.std.specs.Prelude.{◌≡◌, ◌<◌, ◌*◌, ◌/◌};
ghost use Rattle.responses.specs.Table.{entry_at, column_of, pattern_of, Agrees};

use crate::entry::Entry;
use control::flags::Control;

// A row for each status, from 00h to F8h; in a row the sixteen patterns of STA, STO, AA and MODE, from 0000 to 1111. What a number names is
// `Entry::from`.
const TABLE: [[u8; 16]; 32] = [
    [4, 4, 4, 4, 4, 4, 4, 4, 4, 4, 4, 4, 4, 4, 4, 4], // 00h
    [11, 5, 11, 5, 11, 5, 11, 5, 11, 5, 11, 5, 11, 5, 11, 5], // 08h
    [11, 5, 11, 5, 11, 5, 11, 5, 11, 5, 11, 5, 11, 5, 11, 5], // 10h
    [12, 12, 12, 12, 9, 9, 9, 9, 10, 10, 10, 10, 9, 9, 9, 9], // 18h
    [12, 12, 12, 12, 9, 9, 9, 9, 10, 10, 10, 10, 9, 9, 9, 9], // 20h
    [12, 12, 12, 12, 9, 9, 9, 9, 10, 10, 10, 10, 9, 9, 9, 9], // 28h
    [12, 12, 12, 12, 9, 9, 9, 9, 10, 10, 10, 10, 9, 9, 9, 9], // 30h
    [2, 2, 2, 2, 2, 2, 2, 2, 2, 2, 2, 2, 2, 2, 2, 2], // 38h
    [13, 13, 13, 13, 5, 5, 5, 5, 5, 5, 5, 5, 5, 5, 5, 5], // 40h
    [5, 5, 5, 5, 9, 9, 9, 9, 10, 10, 10, 10, 9, 9, 9, 9], // 48h
    [13, 13, 13, 13, 5, 5, 5, 5, 5, 5, 5, 5, 5, 5, 5, 5], // 50h
    [5, 5, 5, 5, 9, 9, 9, 9, 10, 10, 10, 10, 9, 9, 9, 9], // 58h
    [6, 6, 6, 6, 6, 6, 6, 6, 6, 6, 6, 6, 6, 6, 6, 6], // 60h
    [6, 6, 6, 6, 6, 6, 6, 6, 6, 6, 6, 6, 6, 6, 6, 6], // 68h
    [4, 4, 4, 4, 4, 4, 4, 4, 4, 4, 4, 4, 4, 4, 4, 4], // 70h
    [4, 4, 4, 4, 4, 4, 4, 4, 4, 4, 4, 4, 4, 4, 4, 4], // 78h
    [6, 6, 6, 6, 6, 6, 6, 6, 6, 6, 6, 6, 6, 6, 6, 6], // 80h
    [3, 3, 3, 3, 3, 3, 3, 3, 3, 3, 3, 3, 3, 3, 3, 3], // 88h
    [0, 0, 0, 0, 0, 0, 0, 0, 0, 0, 0, 0, 0, 0, 0, 0], // 90h
    [0, 0, 0, 0, 0, 0, 0, 0, 0, 0, 0, 0, 0, 0, 0, 0], // 98h
    [1, 1, 1, 1, 1, 1, 1, 1, 1, 1, 1, 1, 1, 1, 1, 1], // A0h
    [8, 8, 8, 8, 8, 8, 8, 8, 8, 8, 8, 8, 8, 8, 8, 8], // A8h
    [8, 8, 8, 8, 8, 8, 8, 8, 8, 8, 8, 8, 8, 8, 8, 8], // B0h
    [8, 8, 8, 8, 8, 8, 8, 8, 8, 8, 8, 8, 8, 8, 8, 8], // B8h
    [3, 3, 3, 3, 3, 3, 3, 3, 3, 3, 3, 3, 3, 3, 3, 3], // C0h
    [3, 3, 3, 3, 3, 3, 3, 3, 3, 3, 3, 3, 3, 3, 3, 3], // C8h
    [7, 7, 7, 7, 7, 7, 7, 7, 7, 7, 7, 7, 7, 7, 7, 7], // D0h
    [7, 7, 7, 7, 7, 7, 7, 7, 7, 7, 7, 7, 7, 7, 7, 7], // D8h
    [7, 7, 7, 7, 7, 7, 7, 7, 7, 7, 7, 7, 7, 7, 7, 7], // E0h
    [3, 3, 3, 3, 3, 3, 3, 3, 3, 3, 3, 3, 3, 3, 3, 3], // E8h
    [0, 0, 0, 0, 0, 0, 0, 0, 0, 0, 0, 0, 0, 0, 0, 0], // F0h
    [1, 1, 1, 1, 1, 1, 1, 1, 1, 1, 1, 1, 1, 1, 1, 1], // F8h
];

// The table as a value, so that what is proved of it once, over all its entries, can be cited.
fn table() -> [[u8; 16]; 32]
    ensures { Agrees result }
{
    TABLE
}

// The column of these flags; ENSIO has no part in it.
fn column(k: Control) -> usize
    ensures column { result ≡ column_of k }
    ensures below { result < 16 }
{
    8 * usize::from(k.sta) + 4 * usize::from(k.sto) + 2 * usize::from(k.aa) + usize::from(k.mode)
}

// The flags of a column, with ENSIO 1. (A number over 15 stands for its low four bits.)
pub fn pattern(column: u8) -> Control
    ensures { result ≡ pattern_of column }
{
    Control {
        aa: column / 2 % 2 == 1,
        ensio: true,
        sta: column / 8 % 2 == 1,
        sto: column / 4 % 2 == 1,
        mode: column % 2 == 1,
    }
}

// The entry for a status and flags, ENSIO not looked at. (A status that is no multiple of 8 stands for the next one below it that is.)
pub fn entry_at(status: u8, k: Control) -> Entry
    ensures { result ≡ entry_at (status / 8 * 8) k }
{
    let rows = table();
    let row = (status / 8) as usize;
    Entry::from(rows[row][column(k)])
}
