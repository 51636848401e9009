// Text in fixed memory.
ghost use Rattle.std.specs.Prelude.{◌≡◌, [], ◌∷◌};
ghost use Rattle.text.specs.Text.{appended, hex_of, decimal_of, listed};

use crate::put;
use std::marker::Model;

// A text of at most `N` bytes, with their number beside them: fixed memory. What has no place is left out. (No `std::fmt::Write`: its `write` promises the
// text only for an `Ok`, and nothing promises the `Ok`.)
#[derive(Debug, Drop)]
pub struct Text<const N: usize> {
    pub bytes: [u8; N],
    pub len: usize,
}

// Clauses see the bytes put so far.
impl<const N: usize> Model for Text<N> {
    ghost use Rattle.std.specs.Prelude.{ℕ, List, take, ◌≤◌};

    ghost Value = { List ℕ };

    ghost view = { λ t. take t.len t.bytes };

    ghost invariant = { λ t. t.len ≤ N };
}

impl<const N: usize> Text<N> {
    // No text.
    pub fn new() -> Self
        ensures { result ≡ [] }
    {
        Text {
            bytes: [0; N],
            len: 0,
        }
    }

    // The bytes put so far.
    pub fn as_bytes(&self) -> &[u8]
        ensures { result.now ≡ self.now }
    {
        &self.bytes[..self.len]
    }

    // One byte.
    #[tactic(auto, using(crate::proofs::Appended::as_lent))]
    pub fn put(&mut self, byte: u8)
        ensures { self.new ≡ appended N self.old (byte ∷ []) }
    {
        self.len = put::put(&mut self.bytes, self.len, byte);
    }

    // A word.
    #[tactic(auto, using(crate::proofs::Appended::as_lent))]
    pub fn put_word(&mut self, word: &[u8])
        ensures { self.new ≡ appended N self.old word.now }
    {
        self.len = put::put_word(&mut self.bytes, self.len, word);
    }

    // A byte in hexadecimal.
    #[tactic(auto, using(crate::proofs::Appended::as_lent))]
    pub fn put_hex(&mut self, byte: u8)
        ensures { self.new ≡ appended N self.old (hex_of byte) }
    {
        self.len = put::put_hex(&mut self.bytes, self.len, byte);
    }

    // A number in decimal.
    #[tactic(auto, using(crate::proofs::Appended::as_lent))]
    pub fn put_decimal(&mut self, n: usize)
        ensures { self.new ≡ appended N self.old (decimal_of 20 n) }
    {
        self.len = put::put_decimal(&mut self.bytes, self.len, n);
    }

    // Bytes in hexadecimal, a space before each.
    #[tactic(auto, using(crate::proofs::Appended::as_lent))]
    pub fn put_listed(&mut self, bytes: &[u8])
        ensures { self.new ≡ appended N self.old (listed bytes.now) }
    {
        self.len = put::put_listed(&mut self.bytes, self.len, bytes);
    }
}
