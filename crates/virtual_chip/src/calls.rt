// What a virtual chip is asked.
ghost use Rattle.std.specs.Prelude.{◌≡◌, ◌+◌, ◌*◌, length};
ghost use Rattle.answer.specs.Refusal.{refusal_of, value_of};
ghost use Rattle.notation.specs.Overlay.{laid};
ghost use Rattle.requests.specs.Groups.{request_kind, request_place, request_value};
ghost use Rattle.virtual_chip.specs.Calls.{fresh_call, access_call, made_number};

use crate::record::{decode, encode, store};
use answer::{Answer, Refusal};
use controller::record::Controller;
use requests::groups::Request;

// The bytes hold a fresh controller from now on.
pub fn make_fresh(memory: &mut [u8]) -> Result<(), Refusal>
    ensures answer { made_number result ≡ (fresh_call memory.old).answer }
    ensures bytes { memory.new ≡ laid (fresh_call memory.old).bytes memory.old }
{
    let Some(memory) = memory.first_chunk_mut() else {
        return Err(Refusal::Unsound);
    };
    encode(memory, Controller::fresh());
    Ok(())
}

// A read, a write or an event.
pub fn ask(memory: &mut [u8], request: Request) -> Answer
    ensures answer { refusal_of result + 256 * value_of result
        ≡ (access_call memory.old (request_kind request) (request_place request) (request_value request)).answer }
    ensures bytes { memory.new
        ≡ laid (access_call memory.old (request_kind request) (request_place request) (request_value request)).bytes memory.old }
{
    let mut c = decode(memory).ok_or(Refusal::Unsound)?;
    let value = request.perform(&mut c)?;
    store(memory, c);
    Ok(value)
}
