// The reset pin, the software reset, and the fresh controller.
ghost use Rattle.std.specs.Prelude.{◌≡◌};
ghost use Rattle.controller.specs.Reply.{outcome};
ghost use Rattle.controller.specs.Reset.{reset, reset_with, fresh, completes_reset, write_preset};

use crate::record::{Controller, Registers};
use answer::Answer;
use control::flags::Control;
use control::reason::Reason;
use control::turn::Turn;

fn reset_with(buffer: [u8; 68], reason: Reason) -> Controller
    ensures { result ≡ reset_with buffer reason }
{
    Controller {
        buffer,
        hand: 0,
        moved: 0,
        pointer: 0,
        armed: false,
        registers: Registers {
            count: 0x01,
            own: 0xE0,
            low: 0x9D,
            high: 0x86,
            timeout: 0xFF,
            speed: 0x00,
        },
        control: Control {
            aa: false,
            ensio: false,
            sta: false,
            sto: false,
            mode: false,
        },
        turn: Turn::Off,
        reason,
    }
}

impl Controller {
    // As after reset, with all 68 places at zero and no reason yet.
    pub fn fresh() -> Controller
        ensures { result ≡ fresh }
    {
        reset_with([0; 68], Reason::NoneYet)
    }

    // A reset keeps the buffer.
    pub fn reset(&mut self)
        ensures { self.new ≡ reset self.old }
    {
        *self = reset_with(self.buffer, Reason::Reset);
    }

    // The value is 5Ah, and A5h was the accepted write before it.
    fn completes_reset(&self, value: u8) -> bool
        ensures { result ≡ completes_reset self.now value }
    {
        self.armed && value == 0x5A
    }

    // A write to I2CPRESET: it resets, or arms, or disarms.
    pub(crate) fn write_preset(&mut self, value: u8) -> Answer
        ensures { outcome self.new result ≡ write_preset self.old value }
    {
        if self.completes_reset(value) {
            self.reset();
        } else {
            self.armed = value == 0xA5;
        }
        Ok(0)
    }
}
