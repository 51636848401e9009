// What a job is answered, and the paper's numbers for it.
ghost use Rattle.std.specs.Prelude.{◌≡◌};
ghost use Rattle.answer.specs.Ending.{number_of, beside_of};

use crate::Refusal;

// (One enum, and no Result: document 01 has the ten answers in one table. By a match to its number, since `Refused` carries one, so `as` does not serve.)
#[derive(Clone, Copy, Debug, PartialEq, Eq)]
pub enum Ending {
    // Done, after own STOP.
    Done,
    // The job itself is wrong: its count, address, lengths or script.
    Malformed,
    // The controller is not ready for a job.
    NotReady,
    // The address was not acknowledged.
    AddressNacked,
    // A data byte was not acknowledged.
    DataNacked,
    // Arbitration was lost.
    Lost,
    // A bus fault: 00h, 70h or 78h.
    Fault,
    // The script ended first.
    Unfinished,
    // The controller refused the event.
    Refused(Refusal),
    // The reset pin was pulled.
    Reset,
}

impl Ending {
    // The number in document 01's table of answers.
    pub fn number(self) -> u8
        ensures { result ≡ number_of self }
    {
        match self {
            Ending::Done => 0,
            Ending::Malformed => 21,
            Ending::NotReady => 22,
            Ending::AddressNacked => 23,
            Ending::DataNacked => 24,
            Ending::Lost => 25,
            Ending::Fault => 26,
            Ending::Unfinished => 27,
            Ending::Refused(_) => 28,
            Ending::Reset => 29,
        }
    }

    // The number beside the answer: that of the refusal, else 0.
    pub fn beside(self) -> u8
        ensures { result ≡ beside_of self }
    {
        match self {
            Ending::Refused(why) => why.number(),
            _ => 0,
        }
    }
}
