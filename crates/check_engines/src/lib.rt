//! The engine of `check`: bytes in, a line out, and what the line means.
//!
//! It reads a mine by `mine_inputs`, hands the certificate line by line to `check_pit`, and writes what that says: a
//! pit that is proved, or why the certificate proves none. Here too is how any engine ends, as [`Verdict`], and how the
//! program writes a fault as one line. The certificate is read up to its first fault, and every other input to its end.
//!
//! Upward it promises: [`check_engine`] writes that it accepts exactly where the certificate proves the best pit of the
//! mine that the texts denote. Certificates that are accepted at rising factors have nested pits ([`laws`]).
//!
//! An example: `stored_run` carries the texts of three blocks, worth 6, 5 and -10, of which the first two rest on the
//! third, and a certificate of all three with its flow. [`stored_check`] hands them to [`check_engine`], which writes
//! `ACCEPTED 3 1` and answers `Verdict::Done`; [`status`] of that is 0. Where the certificate leaves block 2 out of its
//! pit, it writes `REFUSED NotClosed(0, 2)` and answers `Verdict::No`, of status 1. Where the mine's prices have a
//! fault, [`write_fault`] writes it as `fault: prices NegativeRevenue(1)`, of status 3. Tried in
//! `tests/cases/program/stored_run`, `tests/cases/check/a_predecessor_left_out` and
//! `tests/cases/settings/a_negative_revenue_before_a_bad_precedence`. Of the second case, the precedence, the values,
//! the certificate and what is written:
//!
//! ```text
//! 0 1 2
//! 1 1 2
//!
//! 0 6
//! 1 5
//! 2 -10
//!
//! PITCERT 1
//! BLOCKS 3
//! PRICE OBJECTIVE
//! GROUP WORTH
//! PIT 0
//! PIT 1
//! SOURCE 0 6000000000 0
//! SOURCE 1 4000000000 0
//! REST 0 2 6000000000 0
//! REST 1 2 4000000000 0
//! SINK 2 10000000000 0
//! END
//!
//! REFUSED NotClosed(0, 2)
//! ```
#![tactic(auto)]

pub mod certificate_judge;
mod checking_engine;
mod fault_line;
mod judgement;
pub mod judgement_line;
pub mod laws;
pub mod stored_run;

pub use checking_engine::check_engine;
pub use fault_line::{push_at, status, write_fault};
pub use judgement::{Judgement, Verdict};
pub use stored_run::stored_check;
