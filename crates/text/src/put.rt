// Text put into lent memory: each function gives the place after what it put. What has no place is left out.
ghost use Rattle.std.specs.Prelude.{◌≡◌, [], ◌∷◌, ◌<◌};
ghost use Rattle.text.specs.Text.{digit, hex_of, decimal_of, listed, Holds};

// One byte.
#[tactic(auto, using(crate::proofs::Holds::one_byte))]
pub fn put(text: &mut [u8], at: usize, byte: u8) -> usize
    ensures { Holds at (byte ∷ []) text.old text.new result }
{
    if at < text.len() {
        text[at] = byte;
        at + 1
    } else {
        at
    }
}

// A word.
#[tactic(auto, using(crate::proofs::Holds::joins))]
pub fn put_word(text: &mut [u8], at: usize, word: &[u8]) -> usize
    ensures { Holds at word.now text.old text.new result }
{
    let mut next = at;
    for &byte in word {
        next = put(text, next, byte);
    }
    next
}

// A digit, in upper case.
#[tactic(auto, using(notation::proofs::Cases::cases), unfolding(crate::specs::Text::digit))]
fn digit(n: u8) -> u8
    requires { n < 16 }
    ensures { result ≡ digit n }
{
    if n < 10 { b'0' + n } else { b'A' + (n - 10) }
}

// A byte in hexadecimal.
#[tactic(auto, using(crate::proofs::Holds::joins), unfolding(crate::specs::Text::hex_of))]
pub fn put_hex(text: &mut [u8], at: usize, byte: u8) -> usize
    ensures { Holds at (hex_of byte) text.old text.new result }
{
    let next = put(text, at, digit(byte / 16));
    put(text, next, digit(byte % 16))
}

// A number in decimal, of at most so many digits. (It calls itself, as `decimal_of` does: a loop finds the last digit first.)
#[tactic(auto, using(crate::proofs::Holds::joins, crate::proofs::Digits::digits), unfolding(crate::specs::Text::decimal_of))]
fn put_digits(text: &mut [u8], at: usize, n: usize, places: usize) -> usize
    ensures { Holds at (decimal_of places n) text.old text.new result }
{
    if places == 0 {
        return at;
    }
    if n < 10 {
        return put(text, at, digit(n as u8));
    }
    let next = put_digits(text, at, n / 10, places - 1);
    put(text, next, digit((n % 10) as u8))
}

// A number in decimal.
pub fn put_decimal(text: &mut [u8], at: usize, n: usize) -> usize
    ensures { Holds at (decimal_of 20 n) text.old text.new result }
{
    put_digits(text, at, n, 20)
}

// Bytes in hexadecimal, a space before each.
#[tactic(auto, using(crate::proofs::Holds::joins, crate::proofs::First::listing), unfolding(crate::specs::Text::listed))]
pub fn put_listed(text: &mut [u8], at: usize, bytes: &[u8]) -> usize
    ensures { Holds at (listed bytes.now) text.old text.new result }
{
    let mut next = at;
    for &byte in bytes {
        let spaced = put(text, next, b' ');
        next = put_hex(text, spaced, byte);
    }
    next
}
