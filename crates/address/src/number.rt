// The seven-bit address and the address byte: two kinds of number. The functions here convert one into the other. (By name and no `From`: document 01
// wants them "converted by proved functions only", and an address byte gives two things, an address and a direction.)
ghost use Rattle.std.specs.Prelude.{◌≡◌};
ghost use Rattle.address.specs.Number.{bit_of, byte_of, address_of, direction_of};

// A seven-bit address.
#[derive(Clone, Copy, Debug, PartialEq, Eq)]
pub struct Address(pub u8);

// An address byte: 2 x address + R.
#[derive(Clone, Copy, Debug, PartialEq, Eq)]
pub struct AddressByte(pub u8);

// R: 0 for a write, 1 for a read.
#[derive(Clone, Copy, Debug, PartialEq, Eq)]
pub enum Direction {
    Write = 0,
    Read = 1,
}

impl Direction {
    pub fn bit(self) -> u8
        ensures { result ≡ bit_of self }
    {
        self as u8
    }
}

impl Address {
    pub fn byte(self, direction: Direction) -> AddressByte
        ensures { result ≡ byte_of self direction }
    {
        AddressByte(2 * (self.0 % 128) + direction.bit())
    }
}

impl AddressByte {
    pub fn address(self) -> Address
        ensures { result ≡ address_of self }
    {
        Address(self.0 / 2)
    }

    pub fn direction(self) -> Direction
        ensures { result ≡ direction_of self }
    {
        if self.0 % 2 == 1 {
            Direction::Read
        } else {
            Direction::Write
        }
    }
}
