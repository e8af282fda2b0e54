//! Amounts of money, alone or with a count of blocks, as an ordered group.
//!
//! The solver and the checker add, subtract and compare amounts, and nothing else. What an
//! amount is differs: worth alone, or worth with a count of blocks that breaks ties, so that the
//! smallest of the best pits is found, as two numbers or as one. `OrderedGroup` is what they need
//! of each. Every value stands for an `Amount`, a pair of whole numbers of any size, and the
//! contracts speak of that.
//!
//! Stands on nothing. Promises upward: exact sums, or `None` exactly where a number overflows its
//! type; the order of the amounts; that the sum of a set of blocks tells its worth; and for a
//! `SizeGroup` that sums are ordered as the sets are, by worth and then by the fewer blocks. The
//! functions of `laws` state these for every group. Lemmas on sums of amounts, for the crates
//! above, are in `proofs`.
//!
//! An example: three blocks worth 6, 5 and -10 billionths, each of the size -1, sum to 1 and -3, which as the sum of
//! three blocks of three is a worth of 1; and of two pits worth 5 that with two blocks is the greater. Tried in
//! `lower_tests/src/groups.rt`; both in one number, in `lower_tests/src/scaled_amounts.rt`.
//!
//! ```rust
//! fn pair(nanos: i128, size: i128) -> WorthSize {
//!     WorthSize { nanos, size }
//! }
//!
//! equal(
//!     &rt,
//!     try_sum(&[pair(6, -1), pair(5, -1), pair(-10, -1)]),
//!     Some(pair(1, -3)),
//! );
//!
//! let (more_blocks, fewer_blocks, more_worth) = (pair(5, -3), pair(5, -2), pair(6, -9));
//! assert!(rt; more_blocks < fewer_blocks && fewer_blocks < more_worth);
//!
//! equal(&rt, pair(1, -3).nanos_of_set(3, 3), Some(1));
//! ```
#![tactic(auto)]

mod amounts;
mod groups;
pub mod laws;
mod scaled;
mod size;
mod worth_alone;
mod worth_with_size;

pub use amounts::{at_most, is_zero, negative_part, positive_part, same, smaller, try_sum, zeros};
pub use groups::{Group, OrderedGroup};
pub use scaled::Scaled;
pub use size::SizeGroup;
pub use worth_alone::Worth;
pub use worth_with_size::WorthSize;
