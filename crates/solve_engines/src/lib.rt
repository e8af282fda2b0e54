//! The engine of `solve`: a mine in, a certificate out that `check` accepts.
//!
//! A solver computes a flow: `pseudoflow`, the push-relabel machine under a lock, or a search over places where
//! settings list slopes. None is believed: a flow becomes a pit by [`certification::certified`] alone, which checks it
//! as `check` does, and a certificate that was found by places is read and judged before it is written. Upward it
//! promises: [`solve_engine`] ends with `Done` only where `check` accepts what it wrote.
//!
//! An example: three blocks are worth 6, 5 and -10, and the first two rest on the third. [`solve_engine`] takes their
//! texts, the push-relabel machine as the method of its effort, and one worker; it writes the certificate of a pit of
//! all three, in which the source gives 5 to each of the first two and the sink takes 10, and answers `Done`. One block
//! worth 5 takes the machine ten steps: with nine it writes `UNSETTLED` and answers `No`. Without texts
//! [`solvers::solution_of`] gives the pit and the flow of a net, and [`certification::certified`] those of a flow that
//! something else computed. Tried in `tests/cases/solve`: `two_ore_blocks_share_one_waste_block_by_one_worker` and
//! `one_block_needs_more_than_nine_steps`. Of the first case, the precedence, the values and what is written:
//!
//! ```text
//! 0 1 2
//! 1 1 2
//!
//! 0 6
//! 1 5
//! 2 -10
//!
//! PITCERT 1
//! BLOCKS 3
//! PRICE OBJECTIVE
//! GROUP PAIR
//! PIT 0
//! PIT 1
//! PIT 2
//! SOURCE 0 5000000000 2
//! SOURCE 1 5000000000 -1
//! REST 0 2 5000000000 2
//! REST 1 2 5000000000 -1
//! SINK 2 10000000000 1
//! END
//! ```
#![tactic(auto)]

pub mod certification;
pub mod net_answer;
mod outcome;
pub mod placed_solver;
mod small_amounts;
mod solve_asked;
pub mod solvers;
mod solving_engine;
mod unwatched;

pub use outcome::Outcome;
pub use solve_asked::SolveAsked;
pub use solving_engine::solve_engine;
pub use unwatched::Unwatched;
