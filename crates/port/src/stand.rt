// Where a job stands: what the port keeps from one step to the next, but the data of a write and the bytes read back.
ghost use Rattle.std.specs.Prelude.{◌≡◌, ◌<◌};
ghost use Rattle.answer.specs.Ending.{number_of};
ghost use Rattle.port.specs.Stand.{at_stage, advanced, at_work, awaiting, ended, no_job, broken_off};
ghost use Rattle.port.specs.declared.stage.Stage.TheVariants.{Working, Waiting};

use crate::stage::Stage;
use address::number::{Address, Direction};
use answer::ending::Ending;
use service::job::Job;

// The order is for speed: the job last, and no four fields in a row that one function sets to 0, or the compiler packs several fields into one register.
#[derive(Clone, Copy, Debug, PartialEq, Eq)]
pub struct Stand {
    // What was last asked for.
    pub stage: Stage,
    // The status that is worked on, or was last.
    pub status: u8,
    // Own STOP is due, and will give the answer. (A flag beside it and no Option: `stand_of`, crates/dock, reads any two bytes as the two.)
    pub due: bool,
    // The answer, once it is over or own STOP comes. (A number and no Ending: `stand_of`, crates/dock, reads any byte that the lent state holds.)
    pub answer: u8,
    // How many of the accesses in hand are made.
    pub made: u8,
    // The count that goes with the answer.
    pub count: u8,
    // The chip has to be brought back before the next job.
    pub stale: bool,
    pub job: Job,
}

impl Stand {
    // On to another stage.
    pub(crate) fn at(self, stage: Stage) -> Stand
        ensures { result ≡ at_stage self stage }
    {
        Stand { stage, ..self }
    }

    // One access more is made.
    pub(crate) fn advance(self) -> Stand
        requires { self.made < 255 }
        ensures { result ≡ advanced self }
    {
        Stand {
            made: self.made + 1,
            ..self
        }
    }

    // On to the first access of the work at a status, with this count noted; what was due is not any more.
    pub(crate) fn at_work(self, status: u8, count: u8) -> Stand
        ensures { result ≡ at_work self Working status count }
    {
        Stand {
            stage: Stage::Working,
            status,
            made: 0,
            due: false,
            count,
            ..self
        }
    }

    // Own STOP is due, and will give this answer.
    pub(crate) fn await_stop(self, ending: Ending) -> Stand
        ensures { result ≡ awaiting self Waiting (number_of ending) }
    {
        Stand {
            stage: Stage::Waiting,
            due: true,
            answer: ending.number(),
            ..self
        }
    }

    // It is over, with this answer and count 0.
    pub(crate) fn end(self, ending: Ending) -> Stand
        ensures { result ≡ ended self (number_of ending) 0 }
    {
        Stand {
            stage: Stage::Over,
            due: false,
            answer: ending.number(),
            count: 0,
            ..self
        }
    }

    // It is over, with the answer and the count noted.
    pub(crate) fn finish(self) -> Stand
        ensures { result ≡ ended self self.answer self.count }
    {
        Stand {
            stage: Stage::Over,
            due: false,
            ..self
        }
    }

    // Nothing is under way: an answer, and whether the chip has to be brought back.
    pub fn break_off(ending: Ending, stale: bool) -> Stand
        ensures { result ≡ broken_off (number_of ending) stale }
    {
        Stand {
            stage: Stage::Over,
            job: no_job(0),
            status: 0,
            made: 0,
            due: false,
            answer: ending.number(),
            count: 0,
            stale,
        }
    }
}

// No job: as it stands in a state that is new or was broken off, and in a recovery with n bytes of settings.
pub fn no_job(n: u8) -> Job
    ensures { result ≡ no_job n }
{
    Job {
        direction: Direction::Write,
        address: Address(0),
        n,
    }
}
