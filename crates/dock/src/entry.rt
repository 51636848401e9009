// The functions that C and Rust call. C passes each slice as a pointer and a length. A state of under 148 bytes is answered as over with 21, and nothing is
// written.
#![tactic(auto, unfolding(crate::specs::Calls::start_call, crate::specs::Calls::recover_call, crate::specs::Calls::next_call, crate::specs::Calls::give_up_call, crate::specs::Calls::take_call, crate::specs::Calls::too_short, crate::specs::Calls::not_done, notation::specs::Overlay::laid), using(notation::proofs::Cases::cases))]

ghost use Rattle.std.specs.Prelude.{◌≡◌, length};
ghost use Rattle.notation.specs.Overlay.{laid};
ghost use Rattle.dock.specs.Calls.{not_done, job_asked, start_call, recover_call, next_call, give_up_call, take_call};
ghost use Rattle.port.specs.Port.{kept_data};

use crate::layout::{FETCHED, SIZE};
use crate::memory::put_padded;
use crate::state::{
    begin, fetched, is_marked, keep, load, load_marked, payload, store, tell, tell_first,
};
use address::number::Direction;
use answer::ending::Ending;
use port::ask::Ask;
use port::stand::{Stand, no_job};
use requests::jobs::job_for;
use service::job::Job;

// The step where the state is too short.
#[tactic(auto, unfolding(crate::specs::Calls::not_done, port::specs::Ask::ask_number))]
fn not_done() -> u32
    ensures { result ≡ not_done.step }
{
    u32::from(Ask::Over(Ending::Malformed.number(), 0))
}

// The job that three numbers ask for. (They are numbers, since C passes them: perlovasta_start, include/perlovasta_dock.h.)
#[tactic(auto, unfolding(crate::specs::Calls::job_asked), using(notation::proofs::Cases::cases))]
fn job_asked(kind: u8, address: u8, n: u8) -> Job
    ensures { result ≡ job_asked kind address n }
{
    if 1 < kind {
        no_job(0)
    } else {
        job_for(kind, address, n)
    }
}

// The data that are kept: of a read none.
#[tactic(auto, unfolding(port::specs::Port::kept_data), using(std::proofs::lemmas::List::take_min))]
fn kept(job: Job, bytes: &[u8]) -> &[u8]
    ensures { result.now ≡ kept_data job.direction job.n bytes.now }
{
    match job.direction {
        Direction::Write => &bytes[..usize::from(job.n).min(bytes.len())],
        Direction::Read => &[],
    }
}

// A job begins.
pub fn perlovasta_start(state: &mut [u8], kind: u8, address: u8, n: u8, bytes: &[u8]) -> u32
    ensures step { result ≡ (start_call state.old kind address n bytes.now).step }
    ensures state { state.new ≡ laid (start_call state.old kind address n bytes.now).state state.old }
{
    let Some(state) = state.first_chunk_mut::<SIZE>() else {
        return not_done();
    };
    let job = job_asked(kind, address, n);
    let stand = load(state).start(job, bytes.len());
    begin(state, stand, kept(job, bytes))
}

// A recovery begins.
pub fn perlovasta_recover(state: &mut [u8], settings: &[u8]) -> u32
    ensures step { result ≡ (recover_call state.old settings.now).step }
    ensures state { state.new ≡ laid (recover_call state.old settings.now).state state.old }
{
    let Some(state) = state.first_chunk_mut::<SIZE>() else {
        return not_done();
    };
    let stand = load(state).bring_back(settings);
    begin(state, stand, settings)
}

// The next step, with the value that the last access read.
pub fn perlovasta_next(state: &mut [u8], value: u8) -> u32
    ensures step { result ≡ (next_call state.old value).step }
    ensures state { state.new ≡ laid (next_call state.old value).state state.old }
{
    let Some(state) = state.first_chunk_mut::<SIZE>() else {
        return not_done();
    };
    // A state without the mark is told apart first, for speed: it has one way on, and the job's fields need no second source.
    if !is_marked(state) {
        return tell_first(state, Stand::break_off(Ending::NotReady, true));
    }
    let stand = load_marked(state);
    // Kept before the value is heard, for speed: the other way round a step takes 9 instructions more.
    keep(state, stand.place(), value);
    let next = stand.hear(payload(state), value);
    tell(state, next)
}

// All is given up.
pub fn perlovasta_give_up(state: &mut [u8]) -> u32
    ensures step { result ≡ (give_up_call state.old).step }
    ensures state { state.new ≡ laid (give_up_call state.old).state state.old }
{
    let Some(state) = state.first_chunk_mut::<SIZE>() else {
        return not_done();
    };
    tell_first(state, load(state).give_up())
}

// The bytes of a finished read go to the destination, once: they are gone from the state then.
pub fn perlovasta_take(state: &mut [u8], destination: &mut [u8]) -> u8
    ensures answer { result ≡ (take_call state.old (length destination.old)).answer }
    ensures handed { destination.new
        ≡ laid (take_call state.old (length destination.old)).handed destination.old }
    ensures state { state.new
        ≡ laid (take_call state.old (length destination.old)).state state.old }
{
    let Some(state) = state.first_chunk_mut::<SIZE>() else {
        return Ending::Malformed.number();
    };
    let stand = load(state);
    let answer = stand.hand_up(fetched(state), destination);
    if answer == Ending::Done.number() {
        put_padded(state, FETCHED, &[]);
        store(state, Stand::break_off(Ending::Malformed, stand.stale));
    }
    answer
}
