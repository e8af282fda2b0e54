//! The expanded mine of a production: the nodes' pairs and worths, and the bound on the worth of every schedule that a
//! richest pit of it gives.
//!
//! Stands on `schedules` for the laws, on `places` and `held_pairs` for who precedes whom without a list of the nodes'
//! pairs, on `production_figures`, and on `closure_net`, `prec_file`, `ordered_group` and `fixed_worth`. Promises
//! upward: the pairs and the worths of the nodes are exactly those of the expanded mine, where blocks may wait so many
//! periods for others and go several ways; what `bound_by` answers no feasible schedule exceeds that keeps this,
//! whichever ways its blocks go.
//!
//! That the relaxation at given prices is a maximum closure of blocks and periods is used so by Bienstock and
//! Zuckerberg (Solving LP relaxations of large-scale precedence constrained problems, Integer Programming and
//! Combinatorial Optimization, 2010).
//!
//! An example: three blocks are worth 6, 5 and -10, the first two rest on the third, and they use 1, 1 and 2 of a
//! resource that costs 0.5 in the first of two periods, which have 3 and 1 of it; the second weighs 0.9.
//! [`node_pairs_of`] has six nodes, the first period's before the second's, and the pairs (0, 2), (0, 3), (1, 2),
//! (1, 4), (2, 5), (3, 5) and (4, 5). [`node_worths_of`] gives 0.1, 0, -2, 5.4, 4.5 and -9, counted in 10^-15. The last
//! three are the richest pit, worth 0.9, of which [`bound_by`] makes 2.4: the capacities cost 1.5 more. Tried in
//! `tests/cases/bound/three_blocks_over_two_periods`.
#![tactic(auto)]

mod bound;
mod expand_fault;
mod node_pairs;
mod node_worths;
mod waits;

pub use bound::bound_by;
pub use expand_fault::ExpandFault;
pub use node_pairs::node_pairs_of;
pub use node_worths::node_worths_of;
pub use waits::Waits;
