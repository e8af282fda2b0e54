//! A quick search for the best pit of a mine whose blocks rest on one another by their places, without a list of pairs.
//!
//! It is the search of `pseudoflow`, over whatever tells who precedes whom ([`places::Precedence`]):
//!
//! - Only ore and what it rests on is searched. These blocks are numbered depth first (`numbering`), so that what a
//!   walk looks at stands close together, and the others take no memory but a link each.
//! - The first labels (`first_labels`) are at most how many steps up lead from a block, at the fewest, to one of no
//!   positive worth.
//! - Who precedes a block is asked each time anew (`placed_above`), and no pair is kept.
//! - The arcs of the forest that the search leaves are the pairs over which anything flows, at most one for each block.
//!
//! It stands on `pseudoflow` for the search, on `net_part` for what is searched, and on `places` for the precedence.
//! Promises upward: the call ends, within the number of turns that it is given, and the pairs are of the mine's blocks.
//! Nothing is claimed of pit and forest: a checker decides, so a mistake in here would cost time and never a wrong
//! answer.
//!
//! An example: four blocks have their region, revenue and cost in the last three columns. Block 0 rests on the one
//! right above it, block 2, and block 1 on the one above it by -1 in x, block 3; they earn 6 and 3, and cost 4 and 5.
//! The search finds the pit of the blocks 0 and 2. Tried in `tests/cases/solve/slopes_by_pseudoflow`. The blocks, the
//! settings, and the pit and the flow as they are written:
//!
//! ```text
//! 0 0 0 0 0 6 0
//! 1 2 0 0 1 3 0
//! 2 0 0 1 0 0 4
//! 3 1 0 1 0 0 5
//!
//! region = 0
//! revenue = 1
//! cost = 2
//! slopes = [[[0, 0, 1]], [[-1, 0, 1]]]
//!
//! PIT 0
//! PIT 2
//! SOURCE 0 4000000000 1
//! SOURCE 1 3000000000 -1
//! REST 0 2 4000000000 1
//! REST 1 3 3000000000 -1
//! SINK 2 4000000000 1
//! SINK 3 3000000000 -1
//! ```
#![tactic(auto)]

mod first_labels;
mod growing;
mod numbering;
mod placed_above;

pub use growing::grow_by_places;
