// The library for C and Rust. `entry` has a job and a trace on a controller of their own, `chip` a virtual chip that lasts.
#![tactic(auto)]

pub mod chip;
pub mod entry;
mod job;
mod log;
mod report;
mod trace;
