// Why a move ended (document 02, request 8).
ghost use Rattle.std.specs.Prelude.{◌≡◌};
ghost use Rattle.control.specs.Reason.{reason_of, reason_number};

// Set with each new status but F8h and by a reset, otherwise kept; a fresh controller has none yet.
#[derive(Clone, Copy, Debug, PartialEq, Eq)]
pub enum Reason {
    NoneYet = 0,
    // The address byte, or the last data byte of a move, was acknowledged.
    CountReached = 1,
    // A byte was not acknowledged, also the last.
    Nack = 2,
    // Another's START or STOP ended a slave reception.
    Outside = 3,
    ArbitrationLost = 4,
    // A bus fault: 00h, 70h or 78h.
    Fault = 5,
    Reset = 6,
}

impl Reason {
    // The reason that a status sets. (A rule of request 8, and no conversion.)
    pub fn of_status(status: u8) -> Reason
        ensures { result ≡ reason_of status }
    {
        match status {
            0x18 | 0x28 | 0x40 | 0x50 | 0x80 | 0xB8 | 0xC8 | 0xE0 => Reason::CountReached,
            0x20 | 0x30 | 0x48 | 0x58 | 0x88 | 0xC0 | 0xE8 => Reason::Nack,
            0xA0 => Reason::Outside,
            0x38 | 0x68 | 0xB0 | 0xD8 => Reason::ArbitrationLost,
            0x00 | 0x70 | 0x78 => Reason::Fault,
            _ => Reason::NoneYet,
        }
    }

    // The number in the library's log.
    pub fn number(self) -> u8
        ensures { result ≡ reason_number self }
    {
        self as u8
    }
}
