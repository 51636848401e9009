// Addresses on the bus: the seven-bit address, the address byte, and which byte a controller answers to.
#![tactic(auto)]

pub mod matching;
pub mod number;
