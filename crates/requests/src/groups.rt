// A group of a trace: three bytes that ask for one access or event.
ghost use Rattle.std.specs.Prelude.{◌≡◌, slice_index};
ghost use Rattle.controller.specs.Reply.{outcome, outcome_of};
ghost use Rattle.requests.specs.Groups.{group_of, request_of, request_kind, request_place, request_value};

use answer::Answer;
use controller::record::Controller;
use controller::reply::Reply;

// What is asked of a controller.
#[derive(Clone, Copy, Debug, PartialEq, Eq)]
pub enum Request {
    // The register.
    Read(u8),
    // The register, and the value that is written to it.
    Write(u8, u8),
    // The event, and its argument.
    Event(u8, u8),
}

// Kind 0 is a read, 1 a write, any other an event.
impl From<[u8; 3]> for Request {
    ghost from_gives = { λ group r. r ≡ request_of (slice_index group 0) (slice_index group 1) (slice_index group 2) };

    #[tactic(auto, unfolding(crate::specs::Groups::request_of), using(notation::proofs::Cases::cases))]
    fn from(group: [u8; 3]) -> Request {
        match group {
            [0, register, _] => Request::Read(register),
            [1, register, value] => Request::Write(register, value),
            [_, event, argument] => Request::Event(event, argument),
        }
    }
}

impl Request {
    // It changes the record in place.
    #[tactic(auto, unfolding(crate::specs::Groups::group_of), using(notation::proofs::Cases::cases))]
    pub fn perform(self, c: &mut Controller) -> Answer
        ensures { outcome c.new result ≡ group_of c.old (request_kind self) (request_place self) (request_value self) }
    {
        match self {
            Request::Read(register) => c.on_read(register),
            Request::Write(register, value) => c.on_write(register, value),
            Request::Event(event, argument) => c.on_event(event, argument),
        }
    }
}

// The same of a record by value, with a group's bytes, which can be any: `bench` shows the record before it too.
pub fn access(mut c: Controller, kind: u8, place: u8, value: u8) -> Reply
    ensures { outcome_of result ≡ group_of c kind place value }
{
    let answer = Request::from([kind, place, value]).perform(&mut c);
    Reply {
        controller: c,
        answer,
    }
}
