//! The engine of `schedule`: a schedule is judged over a mine and its periods.
//!
//! Stands on `mine_inputs`, which reads the texts of a mine and says what they denote, on
//! `periods_file` and `schedule_file`, which read these texts, and on `production_figures` and `schedule_value`, which
//! judge. Promises upward, over the bytes of the texts: what is written is how many blocks the schedule digs, what they
//! are worth in their periods, which pairs of the mine it breaks, which blocks it digs too early after those for which
//! they wait, and where it uses more of a resource than there is; and it is answered whether the schedule is feasible.
//! Other engines read periods, uses and schedules by the same calls, and tell a schedule in the same lines.
//!
//! An example: blocks worth 6 and 5 rest on one of worth -10; they use 1, 1 and 2 of a resource, of which two periods
//! have 3 and 1; and the second weighs 0.9. Of the lines `2 0`, `1 1` and `0 0` [`schedule_engine`] writes
//! `SCHEDULE 3 0.5` and `BROKEN 0`, and answers true. Of `0 0` and `2 1` it writes `SCHEDULE 2 -3`, `BROKEN 1`,
//! `BREAKS 0 2` and `OVER 0 1 2 1`, for 2 of resource 0 in period 1, where there is 1, and answers false. Tried in
//! `tests/cases/schedule/a_feasible_schedule` and `a_pair_is_broken_and_a_period_overused`. Of the first case, what the
//! blocks use, in the last column, the periods, the schedule, and what is written:
//!
//! ```text
//! 0 0 0 0 1
//! 1 1 0 0 1
//! 2 0 0 1 2
//!
//! weights = [1_000_000, 900_000]
//! resources = [0]
//! capacities = [[3, 1]]
//!
//! 2 0
//! 1 1
//! 0 0
//!
//! SCHEDULE 3 0.5
//! BROKEN 0
//! ```
#![tactic(auto)]

mod choice;
mod plan_fault;
mod plan_read;
mod problem_line;
mod schedule_inputs;
mod schedule_judge;
mod schedule_lines;
mod scheduling_engine;
mod uses;
mod way_lists;
mod way_uses;
mod weighed;

pub use plan_fault::{PeriodsProblem, PlanFault, ScheduleProblem};
pub use plan_read::PlanRead;
pub use problem_line::{write_periods_problem, write_schedule_problem};
pub use schedule_inputs::{ScheduleInputs, entries_from, periods_by_from};
pub use schedule_judge::{is_clear, judge_chosen};
pub use schedule_lines::text_of_schedule;
pub use scheduling_engine::schedule_engine;
pub use uses::Uses;
pub use way_lists::{uses_by_way, worths_by_way};
pub use way_uses::way_uses_from;
pub use weighed::Weighed;
