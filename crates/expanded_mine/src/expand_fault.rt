//! Why there is no expanded mine: too many nodes or pairs, a worth that doesn't fit, or no memory.

/// Why there is no expanded mine.
#[derive(Clone, Copy, Debug, PartialEq, Eq)]
pub enum ExpandFault {
    /// There are more than 2^24 nodes: blocks times periods.
    TooManyNodes,
    /// There are more than 2^36 pairs of nodes.
    TooManyPairs,
    /// What a node is worth doesn't fit 128 bits.
    TooLarge,
    /// Memory was refused.
    NoMemory,
}
