// The bench program: reads a trace from standard input and prints what the model does, for comparison with a bench chip.
#![tactic(auto)]

mod group;
mod print;
mod state;
mod trace;

use console::read::read_full;

fn main(rt: HostRuntime) {
    let mut input = [0; 65537];
    let size = read_full(&mut rt.stdin(), &mut input);
    trace::run(&rt, &input[..size]);
}
