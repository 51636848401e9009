// The port: the driver for a chip, which asks for one register access at a time and makes none itself.
#![tactic(auto)]

pub mod ask;
mod asking;
mod begin;
mod hand_up;
mod hear;
mod in_hand;
mod look;
pub mod stage;
pub mod stand;
