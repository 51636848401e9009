// I2CCON writes by a table (document 02, request 4): the table, what its entries name, and the engine that goes by it.
#![tactic(auto)]

pub mod engine;
pub mod entry;
pub mod table;
#[cfg(test)]
mod tests;
