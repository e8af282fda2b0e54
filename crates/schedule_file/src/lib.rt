//! Schedules: in which period each block of a mine is dug, and which way it goes, as a text with a line for each block
//! that is dug.
//!
//! It stands on `fixed_worth` for lines, fields and whole numbers.
//!
//! Promises upward: `read_schedule` refuses a text exactly where it has a fault, with the first faulty line, and
//! otherwise lists exactly the period and the way that the text gives each block, or the number of periods for a block
//! that it doesn't name.
//!
//! An example: `read_schedule` of the lines `2 0`, `1 1` and `0 0`, for three blocks, two periods and no ways, gives
//! the periods 0, 1 and 0, and no way. Without the line `1 1` it gives 2 for block 1, which isn't dug. The line `3 0`
//! is refused as `UnknownBlock(1)`. With two ways, `2 0 2` sends block 2 to waste. Tried in
//! `tests/cases/schedule/a_feasible_schedule`, `a_block_that_is_not_there` and `a_way_that_the_schedule_names`. Of the
//! first case, the whole text:
//!
//! ```text
//! % block period
//! 2 0
//! 1 1
//! 0 0
//! ```
#![tactic(auto)]

mod entry;
mod entry_words;
mod reading;
mod schedule_fault;

pub use entry::Entry;
pub use reading::read_schedule;
pub use schedule_fault::ScheduleFault;
