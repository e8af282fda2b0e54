//! Who precedes whom, whoever holds it: a list of pairs, places and offsets in a padded box, or the nodes of either in
//! periods.
//!
//! A [`Precedence`] answers which blocks a block rests on, way by way, and whether it rests on one. A list of pairs is
//! one holder. A [`Grid`] is the other: a cell for each place, and for each offset of a region how far its cell is from
//! a block's; so the block at an offset is found by one sum and one look, and no pair is held. [`Held`] is either, and
//! [`HeldRef`] is either, lent. [`Nodes`] are blocks of either in periods: what precedes a node is found by two sums.
//!
//! It stands on `prec_file` for the list, on `blocks_file`, `slope` and `slope_offsets` for places, offsets and which
//! way is up, and on `fixed_worth` for the number of blocks.
//!
//! Promises upward:
//!
//! - The ways of a block lead to just the blocks that it rests on.
//! - In the grid that [`grid_of`] makes, b rests on p exactly where p stands at an offset of b's own region from it;
//!   and no two blocks have one place.
//! - A node rests on those of its period that its block rests on, on its block's in the next one, and on those for
//!   which its block waits, so many periods before.
//! - Every precedence has one list of pairs, in order and each once, though a grid and nodes hold none
//!   ([`laws::implied_pairs`]). So what is said of pairs by their numbers holds of either.
//!
//! An example: [`grid_of`] makes a grid of blocks of one region with one offset. It refuses five blocks of which block
//! 3 stands where block 1 does, and takes one block alone. In each of fifty made-up mines a block rests on just the
//! blocks that its slope lists. Tried in `lower_tests/src/grids_of_places.rt`.
//!
//! ```rust
//! for p in 0..n {
//!     if grid.has(b, p) != list.find(b, p).is_some() {
//!         return false;
//!     }
//! }
//!
//! let regions = vec![in alloc; 0; model.len() as usize]?;
//! let mut slopes = Vec::new(alloc);
//! slopes.push(vec![in alloc; offset; 1]?)?;
//! Ok(grid_of(alloc, &model, regions, &slopes, Up::PlusZ).err())
//!
//! let twice = b"0 0 0 0\n1 1 0 0\n2 0 0 1\n3 1 0 0\n4 0 0 0\n";
//! assert_eq!(rt;
//!     fault_of(alloc, twice, (0, 0, 1))?,
//!     Some(GridFault::SamePlace(1, 3))
//! );
//! assert_eq!(rt; fault_of(alloc, b"0 0 0 0\n", (0, 0, 1))?, None);
//! ```
#![tactic(auto)]

mod cells;
mod grid;
mod holders;
pub mod laws;
mod laying;
mod listed;
mod nodes;
mod padded_box;
mod region_column_fault;
mod regions;
mod ways;

pub use cells::GridFault;
pub use grid::{Grid, GridParts};
pub use holders::{Held, HeldRef};
pub use laying::grid_of;
pub use nodes::Nodes;
pub use region_column_fault::RegionColumnFault;
pub use regions::{MOST_REGIONS, regions_of};
pub use ways::Precedence;
