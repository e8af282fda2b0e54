//! The mine of some of a mine's blocks, with numbers of their own: the laws of its best pits, and its pairs.
//!
//! Stands on `closure_net`, which says what a mine and its best pit are, and on `prec_file` and `places`, whose pairs
//! it takes.
//! Promises upward:
//!
//! - `laws`: where the best pit is known to lie between two pits, it is the lower one with the best pit of the blocks
//!   between them; and best pits of the same blocks at lower and at higher worths are such bounds.
//! - `rests_among` keeps exactly the pairs of which both blocks are kept, and an `AmongGrid` has no others.
//!
//! An example: of three blocks the first two rest on the third, by the pairs (0, 2) and (1, 2). `rests_among`, which
//! keeps blocks 1 and 2, gives them the numbers 0 and 1, and has one pair, (0, 1). If the best pit at a lower price is
//! known to be block 2 alone, and that at a higher one lies within all three, then the latter is block 2 with the best
//! pit of the other two, among which there is no pair. Tried by way of `series_pits`, in
//! `tests/cases/shells/two_prices_by_pseudoflow`.
#![tactic(auto)]

mod among;
mod among_grid;
pub mod laws;

pub use among::rests_among;
pub use among_grid::AmongGrid;
