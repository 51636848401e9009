// The controller record, by value, and when it is sound.
ghost use Rattle.std.specs.Prelude.{◌≡◌};
ghost use Rattle.notation.specs.Choice.{among};
ghost use Rattle.controller.specs.Record.{given_statuses, host_sound, move_sound, sound};

use control::flags::Control;
use control::reason::Reason;
use control::turn::Turn;

// The registers at pointers 00h to 04h and 06h.
#[derive(Clone, Copy, Debug, PartialEq, Eq)]
pub struct Registers {
    // I2CCOUNT: LB in bit 7, BC below.
    pub count: u8,
    // I2CADR: the own address in bits 7..1, GC in bit 0.
    pub own: u8,
    // The clock's two registers, 02h and 03h.
    pub low: u8,
    pub high: u8,
    // I2CTO: TE in bit 7.
    pub timeout: u8,
    // I2CMODE.
    pub speed: u8,
}

#[derive(Clone, Copy, Debug, PartialEq, Eq)]
pub struct Controller {
    pub buffer: [u8; 68],
    // The hand place (document 01's term): the cursor of I2CDAT.
    pub hand: u8,
    // The moved count (document 01's term): data bytes moved since the last accepted I2CCON write.
    pub moved: u8,
    pub pointer: u8,
    // The last accepted write was A5h to I2CPRESET.
    pub armed: bool,
    pub registers: Registers,
    pub control: Control,
    pub turn: Turn,
    // Why a move ended: set with each new status but F8h, and by a reset.
    pub reason: Reason,
}

// Some event gives this status.
fn is_given(status: u8) -> bool
    ensures { result ≡ among status given_statuses }
{
    matches!(
        status,
        0x00 | 0x08
            | 0x10
            | 0x18
            | 0x20
            | 0x28
            | 0x30
            | 0x38
            | 0x40
            | 0x48
            | 0x50
            | 0x58
            | 0x60
            | 0x68
            | 0x70
            | 0x78
            | 0x80
            | 0x88
            | 0xA0
            | 0xA8
            | 0xB0
            | 0xB8
            | 0xC0
            | 0xC8
            | 0xD0
            | 0xD8
            | 0xE0
            | 0xE8
    )
}

fn host_is_sound(turn: Turn) -> bool
    ensures { result ≡ host_sound turn }
{
    match turn {
        Turn::Host(status, _) => is_given(status),
        _ => true,
    }
}

impl Controller {
    fn move_is_sound(&self) -> bool
        ensures { result ≡ move_sound self.now }
    {
        if !self.turn.moves_data() {
            return true;
        }
        if !self.control.mode {
            return self.moved == 0;
        }
        let count = self.registers.count % 128;
        self.moved < count && count <= 68
    }

    // Sound (document 01's term): the record obeys the paper's ranges, whatever the buffer holds.
    pub fn is_sound(&self) -> bool
        ensures { result ≡ sound self.now }
    {
        let in_range = (self.pointer <= 7)
            & (self.hand <= 68)
            & (self.moved <= 68)
            & (self.registers.speed <= 3);
        if !in_range {
            return false;
        }
        host_is_sound(self.turn) && self.move_is_sound()
    }
}
