//! The part of a net that a search for a greatest flow looks at: its blocks, with their first labels and numbers, what
//! they rest on, and what they are worth.
//!
//! - The first labels (`first_labels`) are exact: how many pairs lead from a block, at the fewest, to one of no
//!   positive worth. Where none leads to such a block, it is in the pit, and takes no more part.
//! - Only the other blocks of positive worth and what they rest on are searched (`part`). They are numbered depth first
//!   (`numbering`), so that what a walk looks at stands close together, with the pairs among them (`arcs`).
//! - A search asks what a block rests on of whoever can tell (`leading`): here of a list of these pairs, in `grid_flow`
//!   of the places of the blocks.
//! - Amounts are single numbers of 64 bits, or of 128, where the worths can be scaled to such in the same order
//!   (`units`), and else those of the net (`amounts`).
//! - Labels (`labels`) say how far a block is, at the fewest, from one of label 0, and turns (`budget`) how long a
//!   search may go on.
//!
//! Stands on `closure_net`, `ordered_group` and `prec_file`. Promises upward: a part is made within the number of turns
//! that its budget has, and its labels, pairs and amounts are of its blocks, and of no others. Nothing is claimed of
//! their values: a checker decides whether a flow is a greatest one, so a mistake in here would cost time and never a
//! wrong answer.
//!
//! An example: blocks 0 and 1, worth 6 and 5, rest on block 2, worth -10. `Part::of` their net, with
//! `Budget::of_turns(1_000)`, has all three, numbered depth first: 0, 2 and 1, with the labels 1, 0 and 1.
//! [`small_worths`] are 6, -10 and 5 in billionths; `Scale::of` these, by three blocks, divides by a thousand million
//! and takes each four times, less 1: `small_units` are 23, -41 and 19. Tried by way of `pseudoflow`,
//! in `tests/cases/solve/prices_at_half_by_pseudoflow`.
#![tactic(auto)]

mod amounts;
mod arcs;
mod budget;
mod fault;
mod first_labels;
mod labels;
mod leading;
mod links;
mod numbering;
mod part;
mod units;

pub use amounts::{Amount, OfGroup, amounts_of};
pub use arcs::Arcs;
pub use budget::Budget;
pub use fault::PseudoflowFault;
pub use labels::Labels;
pub use leading::{Look, WaysUp};
pub use links::{Link, NO_LINK};
pub use part::Part;
pub use units::{Scale, small_worths};
