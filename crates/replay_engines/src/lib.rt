//! The engine of `replay`: the steps of a trace are made one after the other over a mine, and the state that they lead
//! to is told.
//!
//! Stands on `mine_inputs`, which reads the texts of a mine, on `solve_engines`, which certifies flows and says what a
//! check's line means, on `trace_file`, which reads traces, on `async_step`, which makes the steps, and on `check_pit`.
//! Promises upward, over the bytes of the texts: what is written is that the steps of the trace are a run to a quiet
//! state, with what a check says of its flow; that they are a run to a state that isn't quiet; or the first step that
//! is refused. In `laws`: the history of a run that ended quiet, written as a trace and replayed, leads to the flow of
//! that run.
//!
//! An example: one block is worth 5, and a trace has the ten steps of its run, over pairs of worth and size.
//! [`replay_engine`] writes `REPLAYED 10 QUIET` and `ACCEPTED 1 5`, and answers `Done`. Two blocks of worth 4 rest on
//! one of worth -1: of a trace without a step it writes `REPLAYED 0 OPEN`, and of one whose eleventh step gives what
//! wasn't taken `REFUSED 11 OutOfTurn(TakeExcess)`; both times it answers `No`. Tried in `tests/cases/replay`:
//! `one_block_at_pair`, `no_steps` and `a_push_before_its_capacity_is_given`. Of the first case, the value of the
//! block, the trace and what is written:
//!
//! ```text
//! 0 5
//!
//! PITTRACE 1
//! RE 0
//! RC 0
//! RL 0
//! RA 0
//! RE 0
//! RC 0
//! RL 0
//! TC 0
//! TE 0
//! GE 0
//! END
//!
//! REPLAYED 10 QUIET
//! ACCEPTED 1 5
//! ```
#![tactic(auto)]

mod flow_judge;
pub mod laws;
mod outcome;
mod replay_asked;
mod replayed_mine;
mod replaying_engine;
mod trace_inputs;

pub use replay_asked::ReplayAsked;
pub use replaying_engine::replay_engine;
