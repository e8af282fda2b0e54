//! What commands need of a mine, in three kinds, and which commands take which.

use crate::worths::Worths;
use certificate_file::Price;
use held_pairs::HeldPairs;
use prec_file::{Predecessors, Rests};

/// What its blocks are worth, and who rests on whom by a list or by the places of the blocks: for `check`, `value` and
/// `solve`, which ask either who rests on whom.
#[derive(Drop)]
pub struct HeldMine {
    /// What its blocks are worth.
    pub worths: Worths,
    /// Who rests on whom.
    pub predecessors: HeldPairs,
}

/// What its blocks are worth, and who rests on whom by a list alone: for `schedule`, `bound` and `solve --periods`, and
/// for an [`IndexedMine`].
#[derive(Drop)]
pub struct ListedMine {
    /// What its blocks are worth.
    pub worths: Worths,
    /// The predecessors of each block.
    pub predecessors: Predecessors,
}

/// What each block is worth at one factor, and a list that also finds the pairs by predecessor: for `replay`, and for
/// `solve --trace` and `solve --method lock-free`.
#[derive(Drop)]
pub struct IndexedMine {
    /// What each block is worth, in billionths.
    pub nanos: Vec<i128>,
    /// What rests on what.
    pub rests: Rests,
    /// The price that its certificates name.
    pub price: Price,
}
