// A model of the PCA9665 controller: register accesses and bus events in, the next record and an answer out.
#![tactic(auto)]

pub mod access;
mod change;
mod condition;
pub mod event;
mod i2ccon;
pub mod record;
mod registers;
pub mod reply;
mod reset;
mod transfer;
