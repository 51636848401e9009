// The state in lent bytes.
ghost use Rattle.std.specs.Prelude.{true, ◌≡◌, ◌<◌, take, drop, set, replicate, IfSome};
ghost use Rattle.notation.specs.Overlay.{laid, laid_at};
ghost use Rattle.port.specs.Ask.{ask_number};
ghost use Rattle.port.specs.Hear.{place_number, asks, first_ask};
ghost use Rattle.port.specs.Port.{padded};
ghost use Rattle.dock.specs.StateBytes.{head_bytes, bytes_of, marked, stand_of};

use crate::layout::{FETCHED, HEAD, PLACES, State};
use crate::memory::put_padded;
use answer::ending::Ending;
use port::stage::Stage;
use port::stand::Stand;
use requests::jobs::job_for;

// The mark.
#[tactic(auto, unfolding(crate::specs::StateBytes::marked), using(notation::proofs::Cases::cases))]
pub(crate) fn is_marked(state: &State) -> bool
    ensures { result ≡ marked state.now }
{
    state[0] == 0x50 && state[1] == 0x76
}

// Where the job stands, by the bytes of a state with the mark. (Apart from `load` for speed: the step tests the mark itself.)
#[tactic(auto, unfolding(crate::specs::StateBytes::stand_of), using(notation::proofs::Cases::cases))]
pub(crate) fn load_marked(state: &State) -> Stand
    requires { marked state.now ≡ true }
    ensures { result ≡ stand_of state.now }
{
    Stand {
        stage: Stage::from(state[2]),
        job: job_for(state[3], state[4], state[5]),
        status: state[6],
        made: state[7],
        due: state[8] == 1,
        answer: state[9],
        count: state[10],
        stale: state[11] != 0,
    }
}

// Where the job stands, by the state's bytes; without the mark the state is new.
#[tactic(auto, unfolding(crate::specs::StateBytes::stand_of), using(notation::proofs::Cases::cases))]
pub(crate) fn load(state: &State) -> Stand
    ensures { result ≡ stand_of state.now }
{
    if is_marked(state) {
        load_marked(state)
    } else {
        Stand::break_off(Ending::NotReady, true)
    }
}

// The data of a write, or the settings of a recovery.
pub(crate) fn payload(state: &State) -> &[u8]
    ensures { result.now ≡ take 68 (drop 12 state.now) }
{
    &state[HEAD..FETCHED]
}

// The bytes read back.
pub(crate) fn fetched(state: &State) -> &[u8]
    ensures { result.now ≡ take 68 (drop 80 state.now) }
{
    &state[FETCHED..]
}

// Where the job stands, put into the state's bytes.
pub(crate) fn store(state: &mut State, s: Stand)
    ensures { state.new ≡ laid (head_bytes s) state.old }
{
    state[0] = 0x50;
    state[1] = 0x76;
    state[2] = u8::from(s.stage);
    state[3] = s.job.direction.bit();
    state[4] = s.job.address.0;
    state[5] = s.job.n;
    state[6] = s.status;
    state[7] = s.made;
    state[8] = u8::from(s.due);
    state[9] = s.answer;
    state[10] = s.count;
    state[11] = u8::from(s.stale);
}

// The value read from I2CDAT is noted at its place, if it has one.
pub(crate) fn keep(state: &mut State, place: Option<usize>, value: u8)
    requires { IfSome place (λ i. i < 68) }
    ensures { state.new ≡ laid_at 80 (set (take 68 (drop 80 state.old)) (place_number place) value) state.old }
{
    if let Some(i) = place {
        state[FETCHED + i] = value;
    }
}

// The state is put, and the step told.
pub(crate) fn tell(state: &mut State, s: Stand) -> u32
    ensures step { result ≡ ask_number (asks s (take 68 (drop 12 state.old))) }
    ensures state { state.new ≡ laid (head_bytes s) state.old }
{
    store(state, s);
    u32::from(s.ask(payload(state)))
}

// The state is put, and the first step told. (Apart from `tell` for speed: that has one caller, the step, and is compiled into it.)
pub(crate) fn tell_first(state: &mut State, s: Stand) -> u32
    ensures step { result ≡ ask_number (first_ask s) }
    ensures state { state.new ≡ laid (head_bytes s) state.old }
{
    store(state, s);
    u32::from(s.ask_begun())
}

// A job or a recovery begins, with these data or settings and no bytes read back; the first step is told.
pub(crate) fn begin(state: &mut State, s: Stand, bytes: &[u8]) -> u32
    ensures step { result ≡ ask_number (first_ask s) }
    ensures state { state.new
        ≡ laid (bytes_of (record { stand = s; payload = padded bytes.now; fetched = replicate 68 0 })) state.old }
{
    put_padded(state, FETCHED, &[]);
    put_padded(state, HEAD, bytes);
    tell_first(state, s)
}
