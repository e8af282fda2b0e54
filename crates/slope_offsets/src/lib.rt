//! Slope patterns: the offsets from a block to those that must be dug before it.
//!
//! A pit's wall may not be steeper than the rock bears. A pattern says so for blocks: the cross of five, the square of
//! nine, a cone that opens by a run for each rise (`cone`), or offsets that somebody lists (`pattern`). Which offsets
//! are made of two others (`two_steps`) says which pairs the others imply, so that they can be left out.
//!
//! It stands on `prec_file` alone, for what the first place is at which something fails.
//!
//! Above it, callers may count on this: a pattern holds exactly the offsets of its definition, each once and in order,
//! over whole numbers; each fault is answered exactly where it stands; and the first steps to an offset are exactly
//! those after which another offset leads on.
//!
//! An example: the five offsets of `Pattern::five` are those of a cone of one level that opens by 1 for each 1; a cone
//! of two such levels has 18. Listed offsets are held once and in order, and one that doesn't lead up is refused by its
//! place. Tried in `lower_tests/src/slope_patterns.rt`.
//!
//! ```rust
//! let wanted = [(-1, 0, 1), (0, -1, 1), (0, 0, 1), (0, 1, 1), (1, 0, 1)];
//! has_offsets(&rt, Pattern::five(alloc), &wanted)?;
//! has_offsets(&rt, Pattern::cone(alloc, 1, 1, 1), &wanted)
//!
//! equal(&rt, count(Pattern::cone(alloc, 2, 1, 1)), Ok(18));
//!
//! let listed = Pattern::custom(alloc, &[(1, 0, 2), (0, 0, 1), (1, 0, 2)]);
//! has_offsets(&rt, listed, &[(0, 0, 1), (1, 0, 2)])?;
//! let level = Pattern::custom(alloc, &[(0, 0, 1), (0, 0, 0)]);
//! equal(&rt, count(level), Err(PatternFault::NotUpward(1)));
//! ```
#![tactic(auto)]

mod cone;
mod offset_order;
mod pattern;
mod pattern_fault;
mod selection;
mod two_steps;
mod up;

pub use pattern::{MOST_CONE_NUMBER, MOST_OFFSETS, Pattern, first_not_upward};
pub use pattern_fault::PatternFault;
pub use selection::Selection;
pub use two_steps::{RegionSteps, leads_on_at, steps_at, steps_of_regions};
pub use up::Up;
