//! The figures of a production: what blocks are worth and use, and what periods weigh and have.
//!
//! Stands on `schedules`, which says what a production is, and on `fixed_worth` and `prec_file`. Promises upward: the
//! figures of a `Figures` are as many as they should be, each is the one that the production has, and none is so large
//! that a sum of them over all blocks leaves 128 bits.
//!
//! An example: `Figures::new` takes the worths of three blocks, 6, 5 and -10 in billionths; the weights 1,000,000 and
//! 900,000; one resource; the uses 1,000,000, 1,000,000 and 2,000,000; and the capacities 3 and 1. Then `blocks` is 3,
//! `periods` is 2, `used(0, 2)` is 2,000,000, and `capacity(0, 0)` is 3,000,000, in millionths too. With two uses, or a
//! weight of 1,000,001, it gives none. Tried by way of the engines, in
//! `tests/cases/schedule/a_feasible_schedule`.
#![tactic(auto)]

mod tables;

pub use tables::{Figures, MOST_PERIODS, MOST_RESOURCES, MOST_WEIGHT, MOST_WORTH};
