//! The production of some of a mine's blocks alone, numbered anew: the law that a bound on its schedules bounds those
//! of the whole mine where the blocks are those of a richest pit, and its pairs.
//!
//! Stands on `schedules` and `expanded_mine` for productions and bounds, on `sub_mines` for the pairs among some
//! blocks, and on `closure_net`, `prec_file` and `fixed_worth`. Promises upward: `laws`; and that of the pairs of the
//! whole mine the part has just those among the blocks that are kept.
//!
//! An example: of three blocks, worth -1, 10 and -4, the second rests on the third; so the best pit is these two.
//! [`predecessors_among`], which keeps blocks 1 and 2, gives them the numbers 0 and 1, and has one pair, (0, 1). A
//! bound of 5 on the schedules of these two bounds those of all three, by `laws`. Tried in
//! `tests/cases/bound/within_a_pit`.
#![tactic(auto)]

pub mod laws;
mod pairs;

pub use pairs::predecessors_among;
