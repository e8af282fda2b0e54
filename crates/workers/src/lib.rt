//! Whole runs of the machine by several threads (Hong, A lock-free multi-threaded algorithm for the
//! maximum flow problem, 2008), here with the state under one lock: each worker takes the lock for a
//! single step at a time, so the steps of the workers come in any order.
//!
//! Stands on `boards`, whose turns the workers take. Promises upward:
//!
//! - Whenever the lock is free, what a board's type keeps is true of the board.
//! - `solve` returns a flow only where it is a maximum flow of the net handed in.
//! - It returns `Unsettled` only where turns made all its steps and the state after them isn't quiet, and
//!   `TooLarge` only where the next step of some block after them leads to a number that doesn't fit.
//! - The history of `solve_audited` is a run over the net handed in. Its replay leads to the flow that is
//!   returned, or to where the run ended without one.
//!
//! No proof speaks of time: that workers run at once, and that a run ends settled, is shown by tests. A
//! call that may wait meets any promise by never returning, so what is promised here holds where the
//! call returns.
//!
//! An example: one block is worth 5. With at most 9 steps [`solve`] by one worker answers `Unsettled`, and with 10 it
//! gives a flow that takes nothing from the source. Tried in `machine_tests/src/known_runs.rt`; runs of 1 to 64
//! workers, in `machine_tests/src/whole_runs.rt`.
//!
//! ```rust
//! same(rt, ran.steps, 10);
//! let none = WorthSize { nanos: 0, size: 0 };
//! holds(rt, carry(ran.flow.source(), &[none]));
//!
//! let net: Net<WorthSize> = net_of(&rt, alloc, 1, &[], &[5_000_000_000]);
//! let fault = solve(&rt, alloc, &net, 1, 9, &OpenGate).err();
//! same(&rt, fault, Some(SolveFault::Unsettled));
//! let ran = solve(&rt, alloc, &net, 1, 10, &OpenGate).expect(&rt, "run");
//! took_nothing_in_ten(&rt, &ran);
//! ```
#![tactic(auto)]

mod auditing;
mod gate;
mod locked;
mod pause;
mod solving;
mod worker;

pub use auditing::{Audit, AuditEnd, AuditFault, solve_audited};
pub use boards::{Audited, Board, End, Turn, TurnBoard};
pub use gate::{Gate, OpenGate};
pub use locked::{Locked, Shared};
pub use pause::Pause;
pub use solving::{MOST_WORKERS, SolveFault, Solved, solve};
pub use worker::serve;
