// The program: prints the response table, for the bench.
#![tactic(auto)]

mod cells;
mod rows;

use std::io;
use std::io::Write;

fn main(rt: HostRuntime) {
    let text = rows::table_text();
    let _ = io::writer(&rt).write_all(text.as_bytes());
}
