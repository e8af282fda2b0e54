//! What holds pairs: a list or places, or nodes in periods.

use places::{Held, Nodes};

/// A list of pairs or places in a box, or nodes of either in periods.
#[derive(Drop)]
pub(crate) enum Kept {
    /// Of the blocks of a mine.
    Mine(Held),
    /// Of blocks in periods.
    InTime(Nodes),
}
