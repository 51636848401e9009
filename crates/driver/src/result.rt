// What a job gives beside the bytes.
ghost use Rattle.std.specs.Prelude.{◌≡◌};
ghost use Rattle.driver.specs.Run.{answering, result_of};

use answer::ending::Ending;
use controller::record::Controller;
use service::progress::Progress;

#[derive(Clone, Copy, Debug, PartialEq, Eq)]
pub struct JobResult {
    pub controller: Controller,
    pub ending: Ending,
    pub count: u8,
    // Pairs of the script that were taken.
    pub events: usize,
    // How many bytes were sent: so many the out record begins with. (A number: the record is lent by the caller, who keeps it.)
    pub sent: usize,
}

impl JobResult {
    // Of a job that is not begun.
    #[tactic(auto, unfolding(crate::specs::Run::result_of))]
    pub fn declined(controller: Controller, ending: Ending) -> JobResult
        ensures result { result_of result ≡ answering controller ending 0 0 }
        ensures sent { result.sent ≡ 0 }
    {
        JobResult {
            controller,
            ending,
            count: 0,
            events: 0,
            sent: 0,
        }
    }

    // Of a job that is over, as was noted.
    #[tactic(auto, unfolding(crate::specs::Run::result_of))]
    pub(crate) fn of(p: &Progress, sent: usize) -> JobResult
        ensures result { result_of result ≡ answering p.now.controller p.now.ending p.now.count p.now.events }
        ensures sent { result.sent ≡ sent }
    {
        JobResult {
            controller: p.controller,
            ending: p.ending,
            count: p.count,
            events: p.events,
            sent,
        }
    }
}
