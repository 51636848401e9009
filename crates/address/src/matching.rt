// Which address byte a controller answers to. Three branches decide it, those of `match_call`. The functions that it uses have none: `&` works
// out both its sides, where `&&` would be a branch.
ghost use Rattle.std.specs.Prelude.{◌≡◌};
ghost use Rattle.address.specs.Matching.{calls_all, calls_own, call_of, match_of};

use crate::number::{Address, AddressByte, Direction};

// What an address byte calls here. (No Option: "none" is one of the answers that request 5 lists.)
#[derive(Clone, Copy, Debug, PartialEq, Eq)]
pub enum Match {
    Own(Direction),
    General,
    Nothing,
}

// What the match answers: what was called and, in every case, the seven-bit address of the byte.
#[derive(Clone, Copy, Debug, PartialEq, Eq)]
pub struct AddressMatch {
    pub call: Match,
    pub address: Address,
}

// The byte is 00h and I2CADR's GC is 1. One comparison says both: below 1 there is only 0, and below 0 nothing.
fn calls_all(i2cadr: u8, byte: AddressByte) -> bool
    ensures { result ≡ calls_all i2cadr byte }
{
    byte.0 < i2cadr % 2
}

// The byte has the own address, which is not zero.
fn calls_own(i2cadr: u8, byte: AddressByte) -> bool
    ensures { result ≡ calls_own i2cadr byte }
{
    let own = AddressByte(i2cadr).address();
    let called = byte.address();
    (0 < own.0) & (called.0 == own.0)
}

// What an address byte calls, for a controller with this I2CADR and AA.
fn match_call(i2cadr: u8, aa: bool, byte: AddressByte) -> Match
    ensures { result ≡ call_of i2cadr aa byte }
{
    if aa {
        if calls_all(i2cadr, byte) {
            return Match::General;
        }
        // R where the byte has the own address; 2 more where it has not.
        let key = byte.0 % 2 + 2 * (!calls_own(i2cadr, byte) as u8);
        return match key {
            0 => Match::Own(Direction::Write),
            1 => Match::Own(Direction::Read),
            _ => Match::Nothing,
        };
    }
    Match::Nothing
}

// The whole answer for such a controller.
pub fn match_address(i2cadr: u8, aa: bool, byte: AddressByte) -> AddressMatch
    ensures { result ≡ match_of i2cadr aa byte }
{
    AddressMatch {
        call: match_call(i2cadr, aa, byte),
        address: byte.address(),
    }
}
