//! A mine and its periods as they are read for a bound, what they make of nodes, and why there is no bound.
//!
//! Stands on `schedule_engines`, whose readers of periods and of uses it shares, on `expanded_mine`, which makes the
//! nodes, and on `pit_production`, which makes the lists of some blocks. Promises upward: what is read is what the
//! texts beside a mine say; the nodes are those of what was read, or of what some of its blocks have of it; a fault of
//! a text that is answered stands there; and the line of what is wrong with the nodes is written without memory.
//!
//! An example: blocks worth 6 and 5 rest on one of worth -10; they use 1, 1 and 2 of a resource, of which two periods
//! have 3 and 1, at the prices 0.5 and 0; and the second period weighs 0.9. [`beside_from`] reads the periods and the
//! uses, [`figured_of`] joins them with the worths, and [`nodes_of_figures`] makes six nodes, worth 0.1, 0, -2, 5.4,
//! 4.5 and -9, counted in 10^-15. Periods without prices are refused as `Missing(multipliers)`. Tried in
//! `tests/cases/bound/three_blocks_over_two_periods` and `no_multipliers`.
#![tactic(auto)]

mod bound_fault;
mod bound_inputs;
mod nodes_line;
mod planned;
mod planned_part;
mod way_figures;

pub use bound_fault::{BoundFault, NodesProblem, of_net};
pub use bound_inputs::{BesideRead, BoundInputs, beside_from, priced_periods_from};
pub use nodes_line::write_nodes_problem;
pub use planned::{Expanded, Figured, figured_of, nodes_of_figures};
pub use planned_part::{lent_list, part_of_plan};
