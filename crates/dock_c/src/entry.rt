// The functions that C and Rust call. C passes each slice as a pointer and a length. A state of under 148 bytes is answered as over with 21, and nothing is
// written.
ghost use Rattle.std.specs.Prelude.{◌≡◌, length};
ghost use Rattle.notation.specs.Overlay.{laid};
ghost use Rattle.dock.specs.Calls.{start_call, recover_call, next_call, give_up_call, take_call};

use dock::entry;

// A job begins.
#[unsafe(no_mangle)]
pub extern "C" fn perlovasta_start(
    state: &mut [u8],
    kind: u8,
    address: u8,
    n: u8,
    bytes: &[u8],
) -> u32
    ensures step { result ≡ (start_call state.old kind address n bytes.now).step }
    ensures state { state.new ≡ laid (start_call state.old kind address n bytes.now).state state.old }
{
    entry::perlovasta_start(state, kind, address, n, bytes)
}

// A recovery begins.
#[unsafe(no_mangle)]
pub extern "C" fn perlovasta_recover(state: &mut [u8], settings: &[u8]) -> u32
    ensures step { result ≡ (recover_call state.old settings.now).step }
    ensures state { state.new ≡ laid (recover_call state.old settings.now).state state.old }
{
    entry::perlovasta_recover(state, settings)
}

// The next step, with the value that the last access read.
#[unsafe(no_mangle)]
pub extern "C" fn perlovasta_next(state: &mut [u8], value: u8) -> u32
    ensures step { result ≡ (next_call state.old value).step }
    ensures state { state.new ≡ laid (next_call state.old value).state state.old }
{
    entry::perlovasta_next(state, value)
}

// All is given up.
#[unsafe(no_mangle)]
pub extern "C" fn perlovasta_give_up(state: &mut [u8]) -> u32
    ensures step { result ≡ (give_up_call state.old).step }
    ensures state { state.new ≡ laid (give_up_call state.old).state state.old }
{
    entry::perlovasta_give_up(state)
}

// The bytes of a finished read go to the destination, once: they are gone from the state then.
#[unsafe(no_mangle)]
pub extern "C" fn perlovasta_take(state: &mut [u8], destination: &mut [u8]) -> u8
    ensures answer { result ≡ (take_call state.old (length destination.old)).answer }
    ensures handed { destination.new
        ≡ laid (take_call state.old (length destination.old)).handed destination.old }
    ensures state { state.new
        ≡ laid (take_call state.old (length destination.old)).state state.old }
{
    entry::perlovasta_take(state, destination)
}
