//! The command line of `pit`: which command was asked for, with which arguments.
//!
//! Uses the `clap` library alone, and promises nothing except that it is safe. What an argument means is decided above,
//! where numbers and names are read; an argument that names nothing is reported here, in the library's form. A crate of
//! its own, because `clap` is dear to prove over and nothing else needs it.
//!
//! An example: of the words `pit check --prec a.prec --upit a.upit a.cert` `request_of` makes `Request::Check`. Its
//! `CheckArgs` name the three files, of which the values are in `ModelArgs::Values`, and ask for no number of threads.
//! Without the last word it gives a `Declined`, which prints what is missing and has the status 2; with `--help` one
//! that prints the help and has the status 0. `--threads many` is a request too: `pit_commands` finds that it is no
//! number, and `declined_for` makes the `Declined` that says what the option takes. Tried in `tests/cases/usage`.
#![tactic(auto)]

mod bound_command;
mod check_command;
mod declined;
mod escaped;
mod options;
mod replay_command;
mod report_command;
mod request;
mod schedule_command;
mod series_options;
mod shells_command;
mod slopes_command;
mod solve_command;
mod value_command;
mod version;
mod wrong_value;

pub use bound_command::BoundArgs;
pub use check_command::CheckArgs;
pub use declined::Declined;
pub use escaped::Escaped;
pub use options::ModelArgs;
pub use replay_command::ReplayArgs;
pub use request::{Request, request_of};
pub use schedule_command::ScheduleArgs;
pub use series_options::{SeriesArgs, SeriesCommand};
pub use slopes_command::{OffsetsArgs, SlopesArgs};
pub use solve_command::SolveArgs;
pub use value_command::ValueArgs;
pub use wrong_value::{Commanded, NamedOption, WrongValue, declined_for};
