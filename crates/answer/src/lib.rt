// What a register access, a bus event or a job answers, and the paper's numbers for it.
#![tactic(auto)]

pub mod ending;

ghost use Rattle.std.specs.Prelude.{◌≡◌};
ghost use Rattle.answer.specs.Refusal.{refusal_number, refusal_of, value_of};

// Why an access or event is refused, with the number in document 01's table.
#[derive(Clone, Copy, Debug, PartialEq, Eq)]
pub enum Refusal {
    OutOfRange = 1,
    BadArgument = 2,
    OnTheWire = 3,
    Locked = 4,
    Unlisted = 5,
    BadCount = 6,
    BufferEnd = 7,
    Unexpected = 8,
    Inaccessible = 9,
    Unsound = 10,
}

impl Refusal {
    // (A method, as the other numbers here, and no `From`: the paper calls it the number, and so does each call.)
    pub fn number(self) -> u8
        ensures { result ≡ refusal_number self }
    {
        self as u8
    }
}

// What an access or event answers: the value, or why it is refused.
pub type Answer = Result<u8, Refusal>;

// The refusal's number, 0 where it is accepted.
pub fn refusal_of(answer: Answer) -> u8
    ensures { result ≡ refusal_of answer }
{
    match answer {
        Ok(_) => 0,
        Err(why) => why.number(),
    }
}

// The value, 0 where it is refused.
pub fn value_of(answer: Answer) -> u8
    ensures { result ≡ value_of answer }
{
    answer.unwrap_or(0)
}
