// What a job asks for.
use address::number::{Address, Direction};

// Write or read, to or from this address, this many bytes.
#[derive(Clone, Copy, Debug, PartialEq, Eq)]
pub struct Job {
    pub direction: Direction,
    pub address: Address,
    pub n: u8,
}
