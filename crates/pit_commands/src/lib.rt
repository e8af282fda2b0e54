//! The commands on files, but for those of a series: what the arguments of each ask for, or the value that names
//! nothing that there is; then each opens all files before any is read, and gives its engine's answer.
//!
//! Uses `command_line`, which has the arguments as texts, the engines of `check`, `solve`, `replay`, `value`,
//! `schedule`, `bound` and `slopes`, which read names and numbers, and `pit_files` for the files. It promises no more
//! than to be safe: an engine's contract says what it answers.
//!
//! An example: `solve_way` of a `solve` without options is `ByMethod` in pairs by `Method::Auto`, with one worker and
//! 1,000,000,000 steps. `threads_asked` of `65` gives the `WrongValue` of `--threads`, before any file is opened.
//! `check_files` with a certificate that isn't there answers `Device`, and has read nothing of the mine. Tried in
//! `tests/cases/usage/check_by_65_threads` and `tests/cases/program/all_files_are_opened_before_one_is_read`.
#![tactic(auto)]

mod files;
mod pit_certificate;
mod plan_files;
mod replay_args;
mod series_args;
mod slopes_args;
mod slopes_files;
mod solve_args;
mod solving;
mod threads_args;
mod value_args;

use command_line::{Commanded, NamedOption, WrongValue};
pub use files::{check_files, replay_files, value_files};
pub use plan_files::{bound_files, schedule_files};
pub use replay_args::replay_asked;
pub use series_args::{effort_for_series, table_over_an_input};
pub use slopes_args::{pattern_asked, up_asked};
pub use slopes_files::{listed_slopes_files, slopes_file};
pub use solve_args::{SolveWay, effort_over_periods, factor_asked, solve_way};
pub use solving::{solve_files, solve_plan_files};
pub use threads_args::threads_asked;
pub use value_args::{schedule_factor_asked, value_factor_asked};

// The value of an option of a command, which names nothing.
fn wrong<'a>(command: Commanded, option: NamedOption<'a>, value: &'a str) -> WrongValue<'a> {
    WrongValue {
        command,
        option,
        value,
    }
}
