//! What the values of options name: a group of amounts, a factor, a number of steps or of workers, a method, a
//! pattern, a direction.
//!
//! It stands on the crates whose limits the numbers have. Upward it promises of each call just which words name what,
//! and that it gives nothing for any other: `specs/OptionWords`, `specs/PatternWords` and `specs/Methods` say it. What
//! a command does where a word names nothing, and what it takes where an option is left out, is the matter of
//! `pit_commands`.
//!
//! An example: [`group_named`] gives `Group::Pair` for `pair` and none for `PAIR`; [`factor_named`] 725 thousandths for
//! `725`, and none for `10001`; [`workers_named`] none for `65`. [`pattern_named`] takes `cone:2:1:1` as two levels
//! that open by 1 for each 1. [`method_named`] gives `Method::Auto` for `auto`, whose `where_steps_are(true)` is
//! `PushRelabel`. Tried in `tests/cases/usage/solve_with_group_in_upper_case`, `tests/cases/solve/prices_at_725` and
//! `auto_with_nine_steps_is_push_relabel`.
#![tactic(auto)]

mod effort;
mod method;
mod option_words;
mod pattern_choice;
mod pattern_words;
mod whole_numbers;

pub use effort::Effort;
pub use method::{Method, method_named};
pub use option_words::{factor_named, group_named, steps_named, workers_named};
pub use pattern_choice::PatternChoice;
pub use pattern_words::{pattern_named, up_named};
pub use whole_numbers::whole_within;
