//! Slopes: which blocks must be dug before which, from where the blocks are.
//!
//! A pattern lists the offsets from a block to those that must be dug before it (`slope_offsets`). `rests_of` and
//! `predecessors_of` look up, for each block of a model and each offset, the block that stands there;
//! `predecessors_by_region` does so by the offsets of each block's own region.
//!
//! It stands on `slope_offsets` for patterns, on `blocks_file` for places and on `prec_file` for the pairs that it
//! makes.
//!
//! Above it, callers may count on this: the pairs are exactly those of all pairs of blocks whose places differ by an
//! offset, over whole numbers without bound, and the reduced pairs exactly those of them that lead over no third block;
//! each fault is answered exactly where it stands. Places are sorted once. An offset is looked up at each block, and
//! for reduced pairs at far fewer; each lookup begins where the last one of its offset from its level lets expect it,
//! whatever the order of the blocks.
//!
//! An example: three by three by two blocks, numbered 9z + 3y + x. By `Pattern::nine` they have 49 pairs: block 4, in
//! the middle below, rests on all nine above it, and block 0, at a corner, on four. `predecessors_of` gives pairs
//! without their index by predecessor: by `Pattern::five` block 0 rests on three. Tried in
//! `lower_tests/src/slope_patterns.rt`.
//!
//! ```rust
//! Ok(rests_of(alloc, &model, &pattern, up, Selection::Every)?)
//!
//! let rests = pairs_of(alloc, CUBE, Pattern::nine(alloc), Up::PlusZ)?;
//! equal(&rt, rests.pairs(), 49);
//! let of_middle = [9, 10, 11, 12, 13, 14, 15, 16, 17];
//! equal(&rt, above(&rests, 4), of_middle.as_slice());
//! equal(&rt, above(&rests, 0), [9, 10, 12, 13].as_slice());
//!
//! let five = Pattern::five(alloc)?;
//! let cube = model(alloc, CUBE)?;
//! let predecessors = predecessors_of(alloc, &cube, &five, Up::PlusZ, Selection::Every)?;
//! let above: &[u32] = &[9, 10, 12];
//! equal(&rt, predecessors.above(0), above);
//! ```
#![tactic(auto)]

mod ground;
mod guesses;
pub mod laws;
mod offset_places;
mod place_index;
mod place_search;
mod region_fault;
mod region_slopes;
mod sight;
mod slope_fault;
mod slope_pairs;
mod surroundings;

pub use region_fault::RegionFault;
pub use region_slopes::{MOST_REGIONS, predecessors_by_region};
pub use slope_fault::SlopeFault;
pub use slope_pairs::{predecessors_of, rests_of};
