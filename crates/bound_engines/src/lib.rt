//! The engine of `bound`: a certificate of the expanded mine is judged, which gives a bound on the worth of every
//! schedule.
//!
//! Stands on `planned_mine`, which reads what a bound needs beside a mine and makes the nodes, on `mine_inputs` and
//! `check_engines` for the texts of a mine and of a certificate, and on `check_pit`, which judges. Promises upward,
//! over the bytes of the texts: what is written as a bound is what the richest pit of the expanded mine is worth, with
//! all capacities at their prices, and no feasible schedule is worth more, whichever ways its blocks go; and a fault of
//! a text that is answered stands there, a certificate's apart. Where the certificate of a pit is given, the expanded
//! mine is that of its blocks. Other engines judge both certificates by the same calls.
//!
//! An example: blocks worth 6 and 5 rest on one of worth -10; they use 1, 1 and 2 of a resource, of which two periods
//! have 3 and 1, at the prices 0.5 and 0; and the second period weighs 0.9. A certificate of the expanded mine has the
//! nodes 3, 4 and 5 as its pit, which are the blocks in the second period. [`bound_engine`] writes `BOUND 2.4` and
//! answers `Done`: the pit is worth 0.9, and the capacities 1.5. With the certificate of a pit, the nodes are of its
//! blocks alone. Tried in `tests/cases/bound/three_blocks_over_two_periods` and `within_a_pit`. Of the first case, the
//! periods, the lines of the certificate that name the pit, and what is written:
//!
//! ```text
//! weights = [1_000_000, 900_000]
//! resources = [0]
//! capacities = [[3, 1]]
//! multipliers = [[500_000_000, 0]]
//!
//! BLOCKS 6
//! PIT 3
//! PIT 4
//! PIT 5
//!
//! BOUND 2.4
//! ```
#![tactic(auto)]

mod bound_judge;
mod bounding_engine;
mod certificates;
mod certificates_judge;
mod nodes_judge;
mod part_judge;
mod pit_check;
mod pit_judge;
mod pit_part;
mod same_price;

pub use bound_judge::{BoundJudgement, bound_after, factor_of_nodes};
pub use bounding_engine::{bound_engine, line_told};
pub use certificates::Certificates;
pub use nodes_judge::of_certificate;
pub use part_judge::{PartCase, judge_part};
pub use pit_part::{Parted, WholeMine, parted_by};
pub use same_price::is_same_price;
