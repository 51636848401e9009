// The library for C and Rust: each function that they call is that of the crate perlovasta, under its own name and with its own clauses. The archive
// is named libperlovasta.a where it is handed on.
#![tactic(auto)]

mod chip;
mod entry;
