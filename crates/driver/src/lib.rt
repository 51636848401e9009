// The driver: one read or write job against the controller, run over a script of bus events.
#![tactic(auto)]

mod hand_up;
pub mod job;
mod out_record;
mod pairs;
pub mod result;
