//! The engine of `solve` over periods: it makes a certificate of the expanded mine.
//!
//! Stands on `planned_mine`, which reads what is needed beside a mine and makes the nodes, on `bound_engines`, which
//! judges the certificate of a pit, and on `solve_engines` for solvers. Promises upward, over the bytes of the texts:
//! what is written as a certificate has a flow that proves a richest pit of the expanded mine; and a fault of a text
//! that is answered stands there, a certificate's apart.
//!
//! An example: block 0, worth 6, rests on block 1, worth -4, and each uses 1 of a resource, of which two periods have 1
//! and 2, at the prices 1 and 0; both periods weigh 1. [`solve_plan_engine`] writes a certificate of four nodes, whose
//! pit has 2 and 3, both blocks in the second period: `SOURCE 2 4000000000000000 0` gives what node 3 takes, 4, counted
//! in 10^-15. `bound_engine` of `bound_engines` makes `BOUND 3` of it. Tried in `tests/cases/solve/over_periods` and
//! `tests/cases/bound/two_blocks_over_two_periods`. Of the first case, the precedence, the values, the periods and what
//! is written:
//!
//! ```text
//! 0 1 1
//! 1 0
//!
//! 0 6
//! 1 -4
//!
//! weights = [1_000_000, 1_000_000]
//! resources = [0]
//! capacities = [[1, 2]]
//! multipliers = [[1_000_000_000, 0]]
//!
//! PITCERT 1
//! BLOCKS 4
//! PRICE OBJECTIVE
//! GROUP WORTH
//! PIT 2
//! PIT 3
//! SOURCE 2 4000000000000000 0
//! REST 2 3 4000000000000000 0
//! SINK 3 4000000000000000 0
//! END
//! ```
#![tactic(auto)]

mod plan_solver;
mod plan_solving_engine;
mod plan_within;

pub use plan_solver::PlanAsked;
pub use plan_solving_engine::{PlanInputs, solve_plan_engine};
