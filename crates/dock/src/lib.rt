// The port for C and Rust: its state in lent bytes. Its functions are in `entry`.
#![tactic(auto)]

pub mod entry;
mod layout;
mod memory;
mod state;
