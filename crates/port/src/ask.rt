// What the port asks of the board.
ghost use Rattle.std.specs.Prelude.{◌≡◌};
ghost use Rattle.port.specs.Ask.{ask_number};

#[derive(Clone, Copy, Debug, PartialEq, Eq)]
pub enum Ask {
    // Write this register, with this value.
    Write(u8, u8),
    // Read this register; the value goes into the next step.
    Read(u8),
    // Wait for the chip's interrupt, or as long as the caller likes.
    Wait,
    // Wait for the chip's oscillator.
    Pause,
    // Nothing any more: the answer, and its count. (A number and no Ending, as `answer` of Stand is: `asks` tells any that the state holds.)
    Over(u8, u8),
}

// The step as one number.
impl From<Ask> for u32 {
    ghost from_gives = { λ ask k. k ≡ ask_number ask };

    #[tactic(auto, unfolding(crate::specs::Ask::ask_number))]
    fn from(ask: Ask) -> u32 {
        match ask {
            Ask::Write(register, value) => {
                1 + 256 * u32::from(register) + 65536 * u32::from(value)
            }
            Ask::Read(register) => 2 + 256 * u32::from(register),
            Ask::Wait => 3,
            Ask::Pause => 4,
            Ask::Over(answer, count) => 5 + 256 * u32::from(answer) + 65536 * u32::from(count),
        }
    }
}
