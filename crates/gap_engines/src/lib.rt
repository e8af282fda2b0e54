//! The engine of `schedule` where a certificate of the expanded mine is given: a schedule is judged beside the bound on
//! the worth of every schedule.
//!
//! Stands on `schedule_engines`, which reads a schedule and tells it, and on `bound_engines`, which judges
//! certificates. Promises upward, over the bytes of the texts: what is written as a gap is what the bound is more than
//! the worth of the schedule, which is feasible; and a fault of a text that is answered stands there, a certificate's
//! apart.
//!
//! An example: a feasible schedule of three blocks is worth 0.5, and a certificate of their expanded mine bounds every
//! schedule by 2.4. [`compare_schedule_engine`] writes `SCHEDULE 3 0.5`, `BROKEN 0`, `BOUND 2.4` and `GAP 1.9`. Where a
//! pair is broken, it writes no gap. Tried in `tests/cases/schedule/a_schedule_below_a_bound` and
//! `no_gap_where_a_pair_is_broken`. Of the first case, the schedule and what is written:
//!
//! ```text
//! 2 0
//! 1 1
//! 0 0
//!
//! SCHEDULE 3 0.5
//! BROKEN 0
//! BOUND 2.4
//! GAP 1.9
//! ```
#![tactic(auto)]

mod compared_inputs;
mod compared_judge;
mod compared_lines;
mod compared_within;
mod comparing_engine;

pub use comparing_engine::compare_schedule_engine;
