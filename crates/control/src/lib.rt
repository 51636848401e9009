// What the controller waits for, what a write to I2CCON makes of it, and why a move ended.
#![tactic(auto)]

pub mod flags;
pub mod reason;
pub mod turn;
pub mod writing;
