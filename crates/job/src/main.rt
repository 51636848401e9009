// The program: runs one job from standard input on a fresh controller and prints what it gave.
#![tactic(auto)]

mod input;

use console::read::read_full;
use std::io;
use std::io::Write;

fn main(rt: HostRuntime) {
    let mut bytes = [0; 4097];
    let size = read_full(&mut rt.stdin(), &mut bytes);
    let text = input::run(&bytes[..size]);
    let _ = io::writer(&rt).write_all(text.as_bytes());
}
