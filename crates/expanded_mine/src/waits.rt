//! Which blocks are dug at least so many periods after which others, as a sink rate asks.

use prec_file::Predecessors;

/// The pairs of a block and one for which it waits, and how many periods it waits.
#[derive(Drop)]
pub struct Waits {
    /// The pairs, by the block that waits.
    pub pairs: Predecessors,
    /// How many periods.
    pub lag: u32,
}
