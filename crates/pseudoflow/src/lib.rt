//! A quick search for a greatest flow of a closure problem's network, which is the ultimate pit problem: highest-label
//! pseudoflow.
//!
//! The algorithm is Hochbaum's (The pseudoflow algorithm: a new algorithm for the maximum-flow problem, Operations
//! Research, 2008), in the form with highest labels of Chandran and Hochbaum (A computational study of the pseudoflow
//! and push-relabel algorithms for the maximum flow problem, Operations Research, 2009). It grew out of the trees of
//! Lerchs and Grossmann (Optimum design of open-pit mines, 1965):
//!
//! - What is searched is the part of the net among whose blocks something can flow, with their first labels
//!   (`net_part`).
//! - All arcs of the source and the sink are saturated at first, so that each block has its worth as its excess, or as
//!   its deficit where it is negative. The other arcs that carry something form a forest (`forest`). A tree is strong
//!   where its root has an excess, and weak otherwise.
//! - The strong tree whose root has the highest label (`buckets`) is searched for a merger arc, a pair that leads to a
//!   block of the next lower label (`finding`). The tree is hung under that block (`merging`), and its excess is pushed
//!   up to the new root. A block whose arc can't take all of it is split off as a new strong tree (`pushing`).
//! - A strong tree over a gap in the labels has no merger arc left, and is lifted out of the search (`lifting`). When
//!   no other strong tree is left, the blocks that were lifted are the pit.
//! - The search hands on its forest alone (`branches`). What an arc of it carries is what the blocks under it are
//!   worth, in the net's amounts; what the roots have left, or lack, is taken off the arcs that brought it
//!   (`recovery`).
//!
//! Stands on `net_part`, `closure_net` and `ordered_group`. Promises upward: [`solve`] ends within the number of turns
//! that it is given, and the flow has the lengths of the net; so does [`grow`], which leaves the forest and the pit
//! that it found. Nothing is claimed of the amounts in a flow, nor of forest and pit: a checker decides whether it is a
//! greatest flow, so a mistake in here would cost time and never a wrong answer.
//!
//! An example: three blocks are worth 1, -5 and 1, and the first rests on the second. [`solve`], with a bound on its
//! turns and [`Silent`], gives a flow in which the source gives block 0 its 1, the pair carries it on, and the sink
//! takes it from block 1. The source could still give block 2 its 1, and nothing else, so `pit_of` of `closure_net`
//! gives the pit of block 2 alone, which `check` of `check_pit` accepts. With one turn [`solve`] answers `Unsettled`.
//! Tried through the program, in `tests/cases/solve/prices_at_half_by_pseudoflow` and
//! `pseudoflow_needs_more_than_one_step`. Of the first case, the certificate of that flow, in billionths:
//!
//! ```text
//! PITCERT 1
//! BLOCKS 3
//! PRICE 500
//! GROUP PAIR
//! PIT 2
//! SOURCE 0 1000000000 -1
//! REST 0 1 1000000000 -1
//! SINK 1 1000000000 -1
//! END
//! ```
#![tactic(auto)]

mod branches;
mod buckets;
mod finding;
mod forest;
mod lifting;
mod merging;
mod preorder;
mod pushing;
mod recovery;
mod reporting;
mod search;
mod solving;

pub use branches::{Branch, pairs_of};
pub use forest::Direction;
pub use recovery::flow_of_forest;
pub use reporting::{Progress, Silent};
pub use solving::{Grown, grow, solve};
