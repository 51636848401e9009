// Requests given in numbers, as the programs and the library get them.
#![tactic(auto)]

pub mod groups;
pub mod jobs;
