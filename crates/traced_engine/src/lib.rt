//! Solving a mine with a history of its run: the engine of `solve` where a trace is asked for.
//!
//! Stands on `workers`, whose audited runs keep their histories, on `trace_file`, which writes them, on `mine_inputs`,
//! which reads the texts, and on `solve_engines`, which certifies flows. Promises upward, over the bytes of the texts
//! and of both outputs: where the answer is of a run, the trace has that run's whole history; the flow of a certificate
//! is the one to which a replay of the history leads, and where there is none the history shows why.
//!
//! An example: blocks worth 6 and 5 rest on one of worth -10. With at most 3 steps [`solve_traced_engine`] writes the
//! trace `PITTRACE 1`, `RE 0`, `RL 0`, `RC 0` and `END`, and as its answer `UNSETTLED`, with `Verdict::No`. Without
//! that limit the trace has all steps, and the answer is the certificate of a pit of all three. [`room_named`] gives 3
//! for `3`, and none for more than 2^24. Tried in `tests/cases/solve/trace_of_three_steps` and
//! `trace_of_a_settled_run`. Of the first case, the precedence, the values, the trace and the answer:
//!
//! ```text
//! 0 1 2
//! 1 1 2
//!
//! 0 6
//! 1 5
//! 2 -10
//!
//! PITTRACE 1
//! RE 0
//! RL 0
//! RC 0
//! END
//!
//! UNSETTLED
//! ```
#![tactic(auto)]

mod room_word;
mod traced_asked;
mod traced_outputs;
pub mod traced_run;
mod tracing_engine;

pub use room_word::room_named;
pub use traced_asked::TracedAsked;
pub use traced_outputs::TracedOutputs;
pub use tracing_engine::solve_traced_engine;
