//! The files of a command and its output: opened, with their failures counted, and telling the user on standard error
//! why they failed, where that is asked for.
//!
//! Uses `mine_inputs`, for what a mine is read from, and `settings_file` and `slope_offsets`, to say why an input is
//! refused. Of a device that it opens it promises that no failure is counted yet; and that what stands between the
//! device and an engine gives, takes and holds the bytes of the device, and hands on each failure.
//!
//! An example: `open_file` of `none`, which isn't there, answers `Device`, and where verbose is asked for tells
//! `reason: cannot open none: No such file or directory (os error 2)` on standard error. `offsets_of` a cone of two
//! levels that opens by 1 for each 1 is 18. `advice_to_solve`, where nine steps are asked for and no method, gives
//! after the line `UNSETTLED` the advice to leave the steps out. Tried in
//! `tests/cases/program/verbose_check_of_a_missing_prec` and
//! `tests/cases/solve/verbose_unsettled_by_the_machine_that_steps_chose`.
#![tactic(auto)]

mod advice;
mod input_notes;
mod mine_files;
mod pairs_bound;
mod replaced;
mod reporting_files;
mod settings_reasons;

pub use advice::{Advice, advice_for_series, advice_to_solve};
pub use input_notes::InputNotes;
pub use mine_files::open_mine;
pub use pairs_bound::offsets_of;
pub use replaced::Replaced;
pub use reporting_files::{ReportingFile, make_file, open_file, output};
