//! The pairs of a mine, held by a list or by places, and those of its nodes in periods.
//!
//! [`HeldPairs`] is either, and contracts see a list of pairs in each case: that which is held, or that which places or
//! nodes denote. [`held_by_region`] gives the pairs of the slopes of regions, and makes no list of them where a grid
//! holds the places. Who needs a list has it by [`into_list`], or by [`rests_of`] with an index by predecessor.
//!
//! It stands on `places` for lists and grids, on `slope`, `slope_offsets`, `blocks_file` and `prec_file` for the pairs
//! that slopes give, and on `fixed_worth` for the number of blocks.
//!
//! Promises upward:
//!
//! - The pairs are of few blocks, in order and each once, and none is of a block with itself. A list has at most 2^27
//!   of them, and places and nodes have at most 2^36.
//! - [`held_by_region`] gives the very pairs of `slope::predecessors_by_region`, or the very fault.
//! - [`list_of`], [`into_list`] and [`rests_of`] give the very pairs.
//!
//! An example: fifty made-up mines in a box of five by four by three, with two regions. [`held_by_region`] holds the
//! places of each, and its pairs are those that `predecessors_by_region` of `slope` lists. Where two blocks stand 2^32
//! apart, it lists the pairs. Tried in `lower_tests/src/grids_of_places.rt`.
//!
//! ```rust
//! for seed in 0..50 {
//!     let model = mine_of_regions(alloc, seed)?;
//!     for up in [Up::PlusZ, Up::MinusZ] {
//!         let held = held_by_region(alloc, &model, &slopes, up)?;
//!         let list = predecessors_by_region(alloc, &model, &slopes, up, Selection::Every)?;
//!         assert!(rt; matches!(held.as_ref(), HeldRef::Placed(_)));
//!         assert!(rt; are_held(held.as_ref(), &list));
//!     }
//! }
//!
//! let apart = read_blocks(alloc, b"0 -2147483648 0 0 0\n1 2147483647 0 1 0\n", &[0])?;
//! let held = held_by_region(alloc, &apart, &slopes, Up::PlusZ)?;
//! assert!(rt; matches!(held.as_ref(), HeldRef::Listed(_)));
//! ```
#![tactic(auto)]

mod by_region;
mod held_lists;
mod kept;
mod offsets;
mod own_regions;
mod pairs;

pub use by_region::{Holder, held_by_region, pairs_by_region};
pub use held_lists::{into_list, list_of, rests_of};
pub use pairs::HeldPairs;
