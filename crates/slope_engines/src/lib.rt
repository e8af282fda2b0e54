//! The engines of `slopes`: the blocks of a model in, the pairs of a slope out.
//!
//! The offsets are those of a pattern that a word names, or those that settings list; `slope` makes the pairs. Upward
//! it promises that the file has just the pairs that the offsets give, and that a slope's reduced pairs decide as all
//! of them do ([`laws`]).
//!
//! An example: blocks stand at (0, 0, 0), (0, 0, 1), (0, 0, 2) and (1, 0, 2), and settings list the offsets (0, 0, 1)
//! and (1, 0, 2). [`slopes_from_settings_engine`] writes `0 2 1 3`, `1 1 2`, `2 0` and `3 0`, a line each, and answers
//! `Done`. [`slopes_engine`] takes the offsets of a `PatternChoice`: of a cone with more than 4,096 it answers
//! `TooMany`, as a fault of the slope. Tried in `tests/cases/slopes/listed_offsets` and `cone_of_too_many_offsets`. Of
//! the first case, the blocks, the settings and what is written:
//!
//! ```text
//! 0 0 0 0
//! 1 0 0 1
//! 2 0 0 2
//! 3 1 0 2
//!
//! offsets = [[0, 0, 1], [1, 0, 2]]
//!
//! 0 2 1 3
//! 1 1 2
//! 2 0
//! 3 0
//! ```
#![tactic(auto)]

pub mod laws;
mod listed_slopes_engine;
mod pattern_slopes_engine;
mod slope_pairs;

pub use listed_slopes_engine::slopes_from_settings_engine;
pub use pattern_slopes_engine::slopes_engine;
