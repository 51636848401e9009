// The port for C and Rust: each function that they call is that of the crate dock, under its own name and with its own clauses. The archive is named
// libdock.a where it is handed on.
#![tactic(auto)]

mod entry;
