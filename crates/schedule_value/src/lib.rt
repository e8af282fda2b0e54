//! Judges a schedule: how many blocks it digs, what they are worth in their periods, which pairs it breaks, which
//! blocks it digs too early after those for which they wait, and where it uses more of a resource than there is.
//!
//! Stands on `production_figures` for the figures of a production, on `schedules` for what a schedule is, and on
//! `prec_file`, `design_value`, `ordered_group` and `fixed_worth`. Promises upward: all of that is exactly the
//! schedule's, and it is feasible and keeps its lag exactly where no pair is broken, none is too early and nowhere is
//! more used than there is. No sum leaves 128 bits.
//!
//! An example: three blocks are worth 6, 5 and -10, the first two rest on the third, and they use 1, 1 and 2 of a
//! resource, of which two periods have 3 and 1; the second weighs 0.9. [`judge_schedule`] of the periods 0, 1 and 0
//! digs three blocks, worth 0.5, with nothing broken, early or over. Of the periods 0, 2 and 1, where 2 is never, it
//! digs two, worth 6 - 9 = -3, breaks the pair (0, 2), and uses 2 in period 1, which has 1. Tried in
//! `tests/cases/schedule/a_feasible_schedule` and `a_pair_is_broken_and_a_period_overused`.
#![tactic(auto)]

mod broken;
mod digging;
mod judging;
mod usage;
mod worth;

pub use broken::BrokenPairs;
pub use judging::{Judged, judge_schedule};
pub use usage::Over;
