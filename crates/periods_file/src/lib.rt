//! Reads periods: the TOML text that says what periods weigh, which columns of a block model have what blocks use of
//! resources, and what each period has of each resource.
//!
//! It stands on `toml_values`, which has the text as a table of values, and on `fixed_worth`.
//!
//! Upward it promises: [`read_periods`] gives exactly what `specs/Periods` says that the text denotes, or its first
//! fault. A document is what `toml`'s own grammar says; `specs/Keys` has the keys and `specs/Values` what a value at
//! one of them may be.
//!
//! An example: a text has the lines `weights = [1_000_000, 900_000]`, `resources = [0]`, `capacities = [[3, 1]]` and
//! `multipliers = [[500_000_000, 0]]`. With no ways to treat a block, [`read_periods`] gives two weights in millionths,
//! column 0 as the one resource, its capacities 3 and 1, and the prices 500,000,000 and 0 in billionths. No block
//! waits. Without `capacities` it answers `Missing(capacities)`. Tried in
//! `tests/cases/bound/three_blocks_over_two_periods` and `tests/cases/schedule/no_capacities`. Of the first case, the
//! whole text:
//!
//! ```text
//! weights = [1_000_000, 900_000]
//! resources = [0]
//! capacities = [[3, 1]]
//! multipliers = [[500_000_000, 0]]
//! ```
#![tactic(auto)]

mod arrays;
mod by_way;
mod keys;
mod periods;
mod periods_fault;
mod reading;
mod values;

pub use by_way::width_of;
pub use keys::PeriodKey;
pub use periods::Periods;
pub use periods_fault::PeriodsFault;
pub use reading::read_periods;
