// A controller in lent bytes: a virtual chip that lasts as long as its caller keeps the bytes.
#![tactic(auto)]

pub mod calls;
pub mod numbers;
pub mod record;
