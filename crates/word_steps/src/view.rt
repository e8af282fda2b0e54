//! What a proof knows of a worker's seat: its net, its blocks' labels, its operation, and the steps that it
//! made. No value of it exists when the program runs.

use closure_net::Net;
use machine_law::{Event, Operation};
use ordered_group::Scaled;

/// What a seat knows. No value of it is made. The seat serves the blocks b with b mod workers = number, unless
/// it is spent.
pub struct View {
    /// The net.
    pub net: Net<Scaled>,
    /// Whether it isn't spent.
    pub live: bool,
    /// Its number.
    pub number: u32,
    /// How many seats there are.
    pub workers: u32,
    /// The label of each block that it serves. A clause reads an array as a list, of any length.
    pub labels: [u64; 0],
    /// The block that it serves now.
    pub block: u32,
    /// What that block is doing.
    pub operation: Operation<u64>,
    /// Whether it makes no more steps.
    pub stopped: bool,
    /// The steps that it made.
    pub made: [Event; 0],
    /// What it loaded of the arrivals: each time the word, and the number that it had.
    pub loaded: [(u64, u64); 0],
}
