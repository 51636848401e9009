// What a driver does about a job: which it refuses, what it does at each status, all of it by register accesses, and what it notes.
#![tactic(auto)]

mod acts;
pub mod checks;
pub mod job;
pub mod progress;
pub mod table;
