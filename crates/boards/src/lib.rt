//! Boards: a net and a state of Hong's machine over it (Hong, A lock-free multi-threaded algorithm for
//! the maximum flow problem, 2008), on which one step at a time is made, whoever asks for it.
//!
//! Stands on `async_step`, whose state a `Board` holds together with its net. Nothing here knows of
//! threads or locks. Promises upward:
//!
//! - A board's type keeps a state of a run over its own net, so all that `machine_law` says of every run
//!   is true of it. A board gives a flow only where it is quiet, and then a maximum flow.
//! - A turn makes exactly one step, of the block that it is said to pick, or leaves the state as it was.
//! - On a `TurnBoard` nothing except turns makes steps. Its type keeps that no step of its run read an
//!   excess of zero, and why it is stuck.
//! - `finish` goes on with the run of the board that it takes, and says how it ends.
//! - An `Audited` board keeps the history of its steps, whose replay leads to its state.
//!
//! An example: blocks worth 6 and 5 rest on one worth -10. [`finish`] within 1,000 steps ends the run of a board quiet,
//! and what it settles leaves the pit of all three; within 3 steps the run ends at its limit. Tried in
//! `machine_tests/src/turn_boards.rt`; with a history, in `machine_tests/src/audited_runs.rt`.
//!
//! ```rust
//! TurnBoard::open(alloc, &net).expect(rt, "memory")
//!
//! assert!(rt; board.count() <= steps);
//! assert_eq!(rt; finish(board, steps), end);
//!
//! let mut board = turn_board(&rt, rt.alloc(), two_on_dear_waste(&rt, rt.alloc()));
//! ends(&rt, &mut board, 1_000, End::Quiet);
//! let (net, flow) = settled(&rt, board.into_board());
//! leaves(&rt, rt.alloc(), &net, &flow, &[0, 1, 2]);
//!
//! let mut board = turn_board(&rt, rt.alloc(), two_on_dear_waste(&rt, rt.alloc()));
//! ends(&rt, &mut board, 3, End::Limit);
//! let board = board.into_board();
//! same(&rt, board.count(), 3);
//! ```
#![tactic(auto)]

mod audited_board;
mod board;
mod common_board;
mod finishing;
mod turn;
mod turn_board;

pub use audited_board::Audited;
pub use board::Board;
pub use finishing::finish;
pub use turn::{End, Turn};
pub use turn_board::TurnBoard;
