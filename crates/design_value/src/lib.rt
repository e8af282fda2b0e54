//! What a set of marked blocks comes to in a mine: how many blocks it has, what they are worth, and which pairs lead
//! out of it.
//!
//! It stands on `held_pairs` and `places` for the pairs of a mine, which a list or places hold, and on `ordered_group`
//! for the words of its promises. Promises upward: the number of the blocks, the sum of their worths, and of the pairs
//! how many lead out and the first of them, are exactly those of the set. All but the pairs of a block of which some
//! lead out, which are sorted, takes time that is linear in blocks and pairs.
//!
//! An example: three blocks are worth 6, 5 and -10, and the first two rest on the third. Of the first two, marked,
//! `count_marked` is 2, `worth_of_marked` is 11, and `open_pairs_of` has two pairs, (0, 2) and (1, 2), so that
//! `is_closed` is false. Of all three they are 3 and 1, and no pair leads out. Tried in
//! `tests/cases/value/two_blocks_that_need_the_third` and `all_three_blocks_beside_the_best_pit`.
#![tactic(auto)]

mod open_pairs;
mod rows;
mod sums;

pub use open_pairs::{OpenPairs, count_marked, is_closed, open_pairs_of};
pub use sums::worth_of_marked;
