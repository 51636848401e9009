// Words, numbers and bytes as text: put into memory that the caller lends, or kept in fixed memory.
#![tactic(auto)]

mod fixed;
pub mod put;

pub use fixed::Text;
