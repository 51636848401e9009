// Whether a job is well formed, and the controller ready for one.
ghost use Rattle.std.specs.Prelude.{◌≡◌};
ghost use Rattle.service.specs.Request.{bad_length, bad_address, lent as lends, malformed, ready};

use crate::job::Job;
use address::number::{Address, Direction};
use control::turn::Turn;
use controller::record::Controller;

// n is not 1..68.
#[tactic(auto, unfolding(crate::specs::Request::bad_length), using(notation::proofs::Cases::cases))]
fn is_bad_length(n: u8) -> bool
    ensures { result ≡ bad_length n }
{
    n == 0 || 68 < n
}

// The address is not 08h..77h.
#[tactic(auto, unfolding(crate::specs::Request::bad_address), using(notation::proofs::Cases::cases))]
fn is_bad_address(address: Address) -> bool
    ensures { result ≡ bad_address address }
{
    address.0 < 0x08 || 0x77 < address.0
}

// The length of what the caller lent: the data of a write, the destination of a read.
#[tactic(auto, unfolding(crate::specs::Request::lent))]
fn lent(direction: Direction, given: usize, room: usize) -> usize
    ensures { result ≡ lends direction given room }
{
    match direction {
        Direction::Write => given,
        Direction::Read => room,
    }
}

// The job is wrong in itself. (Four lengths by themselves, as the definition `malformed` has them.)
#[tactic(auto, unfolding(crate::specs::Request::malformed), using(notation::proofs::Cases::calls))]
pub fn is_malformed(job: Job, given: usize, room: usize, places: usize, bytes: usize) -> bool
    ensures { result ≡ malformed job given room places bytes }
{
    is_bad_length(job.n)
        || is_bad_address(job.address)
        || lent(job.direction, given, room) < job.n as usize
        || places < 69
        || bytes % 2 == 1
}

// The controller is ready for a job.
pub fn is_ready(c: &Controller) -> bool
    ensures { result ≡ ready c.now }
{
    c.is_sound() && c.turn == Turn::Free && c.control.ensio && !c.control.sta
}
