//! Designs: sets of blocks that somebody drew, as a text with a line for each block.
//!
//! It stands on `fixed_worth` for lines, fields and whole numbers.
//!
//! Promises upward: `read_design` refuses a text exactly where it has a fault, with the first faulty line, and
//! otherwise marks exactly the blocks that its lines name. A certificate is such a text too: its lines `PIT b` name the
//! blocks, and its other lines are passed over.
//!
//! An example: `read_design` of the lines `PIT 1` and `2`, for three blocks, marks the last two and not the first. The
//! lines `0`, `1` and `0` are refused as `Repeated(3)`. Tried in `tests/cases/value/lines_of_both_forms` and
//! `a_block_named_twice`. Of the first case, the text of the design, and what `pit value` writes of it, where the
//! blocks are worth 6, 5 and -10:
//!
//! ```text
//! PIT 1
//! 2
//!
//! DESIGN 2 -5
//! CLOSED
//! ```
#![tactic(auto)]

mod design_fault;
mod named_block;
mod reading;

pub use design_fault::DesignFault;
pub use reading::read_design;
