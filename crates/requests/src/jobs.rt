// A job given in numbers, and the controller that it runs on.
ghost use Rattle.std.specs.Prelude.{◌≡◌};
ghost use Rattle.requests.specs.Jobs.{fresh_enabled, data_length, direction_for, job_for};

use address::number::{Address, Direction};
use control::flags::Control;
use control::turn::Turn;
use controller::record::Controller;
use service::job::Job;

// A fresh controller, enabled by 40h: written out, so that no write is run.
pub fn fresh_enabled() -> Controller
    ensures { result ≡ fresh_enabled }
{
    Controller {
        control: Control {
            aa: false,
            ensio: true,
            sta: false,
            sto: false,
            mode: false,
        },
        turn: Turn::Free,
        ..Controller::fresh()
    }
}

// Kind 0 is a write, any other a read. (A number, since it is a byte that was lent: `direction_for` and `job_for` of specs/ are of any.)
#[tactic(auto, unfolding(crate::specs::Jobs::direction_for), using(notation::proofs::Cases::cases))]
fn direction_for(kind: u8) -> Direction
    ensures { result ≡ direction_for kind }
{
    match kind {
        0 => Direction::Write,
        _ => Direction::Read,
    }
}

// The job of this kind, to or from this address, of n bytes.
pub fn job_for(kind: u8, address: u8, n: u8) -> Job
    ensures { result ≡ job_for kind address n }
{
    Job {
        direction: direction_for(kind),
        address: Address(address),
        n,
    }
}

// How many bytes of data go with a job: none with a read.
#[tactic(auto, unfolding(crate::specs::Jobs::data_length))]
pub fn data_len(job: Job) -> usize
    ensures { result ≡ data_length job.direction job.n }
{
    match job.direction {
        Direction::Write => job.n as usize,
        Direction::Read => 0,
    }
}
