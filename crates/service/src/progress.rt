// How far a job has come.
ghost use Rattle.std.specs.Prelude.{◌≡◌};
ghost use Rattle.service.specs.Progress.{reaching};

use answer::ending::Ending;
use controller::record::Controller;

// What the driver keeps from one pair of the script to the next. (`over` stands beside `ending` and `count`, and not in one enum with them: the definitions
// of `Act` and `Serve`, and the theorems of `runs` and `noninterference`, speak of the three.)
#[derive(Clone, Copy, Debug, PartialEq, Eq)]
pub struct Progress {
    pub controller: Controller,
    // The job has ended.
    pub over: bool,
    // What it is answered if own STOP is next, or once it is over.
    pub ending: Ending,
    // The count that goes with that answer.
    pub count: u8,
    // Pairs taken.
    pub events: usize,
    // Bytes read back, held until own STOP. (Fixed memory: the definitions of `Act` and `driver/Run` speak of it.)
    pub fetched: [u8; 68],
}

impl Progress {
    // The record and the pairs taken, as they are now.
    #[tactic(auto, unfolding(crate::specs::Progress::reaching))]
    pub fn reach(&mut self, c: Controller, events: usize)
        ensures { self.new ≡ reaching self.old c events }
    {
        self.controller = c;
        self.events = events;
    }
}
