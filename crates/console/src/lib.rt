// What the programs read, and what they print of a job, of a turn, of why a move ended, and of an address byte.
#![tactic(auto)]

pub mod fixed;
mod handed;
pub mod read;
pub mod reason;
pub mod report;
pub mod tell;
pub mod turn;
pub mod ward_log;
