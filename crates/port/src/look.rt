// What the port makes of I2CCON and I2CSTA as a chip reads them.
ghost use Rattle.std.specs.Prelude.{◌≡◌};
ghost use Rattle.notation.specs.Choice.{among};
ghost use Rattle.port.specs.Look.{interrupt_in, idle_control, still_control, meets};

use address::number::Direction;
use control::flags::Control;

// SI.
#[tactic(auto, unfolding(crate::specs::Look::interrupt_in))]
pub(crate) fn interrupts(value: u8) -> bool
    ensures { result ≡ interrupt_in value }
{
    value / 8 % 2 == 1
}

// ENSIO 1, and STA, STO and SI 0.
#[tactic(auto, unfolding(crate::specs::Look::idle_control), using(notation::proofs::Cases::cases))]
pub(crate) fn is_idle(value: u8) -> bool
    ensures { result ≡ idle_control value }
{
    let flags = Control::from(value);
    flags.ensio && !flags.sta && !flags.sto && !interrupts(value)
}

// ENSIO 1 and SI 1.
#[tactic(auto, unfolding(crate::specs::Look::still_control), using(notation::proofs::Cases::cases))]
pub(crate) fn is_still(value: u8) -> bool
    ensures { result ≡ still_control value }
{
    Control::from(value).ensio && interrupts(value)
}

// A status that a job in this direction can meet.
pub(crate) fn is_met(direction: Direction, status: u8) -> bool
    ensures { result ≡ among status (meets direction) }
{
    match direction {
        Direction::Write => matches!(
            status,
            0x08 | 0x18 | 0x20 | 0x28 | 0x30 | 0x38 | 0x00 | 0x70 | 0x78
        ),
        Direction::Read => matches!(
            status,
            0x08 | 0x40 | 0x48 | 0x58 | 0x38 | 0x00 | 0x70 | 0x78
        ),
    }
}
