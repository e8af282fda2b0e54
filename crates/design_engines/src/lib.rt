//! The engine of `value`: a set of blocks that somebody designed is judged over a mine.
//!
//! Stands on `mine_inputs`, which reads the texts of a mine and says what they denote, on `check_engines`, which judges
//! certificates, on `design_file`, which reads designs, and on `design_value`, which counts and sums a set of blocks.
//! Promises upward, over the bytes of the texts: what is written is how many blocks the design has, what they are
//! worth, and which pairs of the mine lead out of it; `CLOSED` is written exactly where the design is a pit. Beside a
//! certificate that a check accepts, it is also what its pit is worth more than the design.
//!
//! An example: blocks worth 6 and 5 rest on one of worth -10, and a design names the first two. [`value_engine`] writes
//! `DESIGN 2 11`, `OPEN 2`, `NEEDS 0 2` and `NEEDS 1 2`, and answers `No`. Of a design of all three, beside a
//! certificate of the best pit, [`compare_engine`] writes `DESIGN 3 1`, `CLOSED` and `BEST 3 1 GAP 0`, and answers
//! `Done`. Tried in `tests/cases/value/two_blocks_that_need_the_third` and `all_three_blocks_beside_the_best_pit`. Of
//! the first case, the precedence, the values, the design and what is written:
//!
//! ```text
//! 0 1 2
//! 1 1 2
//!
//! 0 6
//! 1 5
//! 2 -10
//!
//! 0
//! 1
//!
//! DESIGN 2 11
//! OPEN 2
//! NEEDS 0 2
//! NEEDS 1 2
//! ```
#![tactic(auto)]

mod beside_judge;
mod compared_lines;
mod comparing_engine;
mod design_input;
mod design_lines;
mod mine_value;
mod problem_line;
mod value_fault;
mod valued;
mod valuing_engine;

pub use comparing_engine::compare_engine;
pub use problem_line::write_problem;
pub use value_fault::{DesignProblem, ValueFault};
pub use valuing_engine::value_engine;
