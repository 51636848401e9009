// I2CCON's flags, and the byte that holds them.
ghost use Rattle.std.specs.Prelude.{◌≡◌};
ghost use Rattle.control.specs.Flags.{flags_of, reads_as};

// The stored flags of I2CCON. SI is not stored: it is 1 exactly in Host.
#[derive(Clone, Copy, Debug, PartialEq, Eq)]
pub struct Control {
    pub aa: bool,
    pub ensio: bool,
    pub sta: bool,
    pub sto: bool,
    pub mode: bool,
}

// The flags in a written byte.
impl From<u8> for Control {
    ghost from_gives = { λ value k. k ≡ flags_of value };

    fn from(value: u8) -> Control {
        Control {
            aa: value / 128 == 1,
            ensio: value / 64 % 2 == 1,
            sta: value / 32 % 2 == 1,
            sto: value / 16 % 2 == 1,
            mode: value % 2 == 1,
        }
    }
}

impl Control {
    // The byte that I2CCON reads.
    pub fn byte(self, si: bool) -> u8
        ensures { result ≡ reads_as self si }
    {
        128 * u8::from(self.aa)
            + 64 * u8::from(self.ensio)
            + 32 * u8::from(self.sta)
            + 16 * u8::from(self.sto)
            + 8 * u8::from(si)
            + u8::from(self.mode)
    }
}
