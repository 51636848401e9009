// A job is begun, the chip brought back, or all given up.
ghost use Rattle.std.specs.Prelude.{false, ◌≡◌};
ghost use Rattle.notation.specs.Choice.{among};
ghost use Rattle.port.specs.Begin.{unsettled, start_of, settable, bad_pairs, bad_settings, recover_of, give_up_of};
ghost use Rattle.port.specs.Stand.{stand};

use crate::stage::Stage;
use crate::stand::{Stand, no_job};
use answer::ending::Ending;
use service::checks::is_malformed;
use service::job::Job;

// A pointer that a recovery can set.
fn is_settable(pointer: u8) -> bool
    ensures { result ≡ among pointer settable }
{
    matches!(pointer, 0 | 1 | 2 | 3 | 4 | 6)
}

// Not pairs of such a pointer and a value. (No `any` over the pieces: tried, and the check left its goal open.)
fn has_bad_pair(settings: &[u8]) -> bool
    ensures { result ≡ bad_pairs settings.now }
{
    for pair in settings.chunks(2) {
        if pair.len() < 2 || !is_settable(pair[0]) {
            return true;
        }
    }
    false
}

// Settings that no recovery takes.
#[tactic(auto, unfolding(crate::specs::Begin::bad_settings), using(notation::proofs::Cases::cases))]
fn is_bad(settings: &[u8]) -> bool
    ensures { result ≡ bad_settings settings.now }
{
    12 < settings.len() || has_bad_pair(settings)
}

// The first stage of something new, unfinished until it is over.
fn begin(stage: Stage, job: Job, stale: bool) -> Stand
    ensures { result ≡ stand stage job 0 0 false 27 0 stale }
{
    Stand {
        stage,
        job,
        stale,
        ..Stand::break_off(Ending::Unfinished, stale)
    }
}

impl Stand {
    // The chip has to be brought back first.
    #[tactic(auto, unfolding(crate::specs::Begin::unsettled), using(crate::proofs::Stages::tag_number, notation::proofs::Cases::cases))]
    fn is_unsettled(self) -> bool
        ensures { result ≡ unsettled self }
    {
        self.stage != Stage::Over || self.stale
    }

    // A job begins, with so many bytes of data lent.
    #[tactic(auto, unfolding(crate::specs::Begin::start_of), using(notation::proofs::Cases::cases))]
    pub fn start(self, job: Job, lent: usize) -> Stand
        ensures { result ≡ start_of self job lent }
    {
        let unsettled = self.is_unsettled();
        if is_malformed(job, lent, 68, 69, 0) {
            return Stand::break_off(Ending::Malformed, unsettled);
        }
        if unsettled {
            return Stand::break_off(Ending::NotReady, true);
        }
        begin(Stage::Control, job, false)
    }

    // A recovery begins.
    pub fn bring_back(self, settings: &[u8]) -> Stand
        ensures { result ≡ recover_of self settings.now }
    {
        if is_bad(settings) {
            return Stand::break_off(Ending::Malformed, self.is_unsettled());
        }
        begin(Stage::Recovering, no_job(settings.len() as u8), true)
    }

    // All is given up.
    #[tactic(auto, unfolding(crate::specs::Begin::give_up_of))]
    pub fn give_up(self) -> Stand
        ensures { result ≡ give_up_of self }
    {
        Stand::break_off(Ending::Unfinished, true)
    }
}
