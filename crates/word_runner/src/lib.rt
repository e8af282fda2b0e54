//! The machine without a lock: whole runs of one or two workers over the words of a net.
//!
//! `opening` makes the words of a net, whose negative worths are cut (`clipped_worths`), and seats at them. A seat makes one
//! step at a time (`seats`), a worker takes turns at its seat until the gate closes or all has arrived (`serving`), and
//! what the words then show is settled as a flow (`settling`, `flows`).
//!
//! Stands on `word_steps` for the words and each step on them, and on `atomic_table` for what a seat at words may do.
//! Gates and the answers of a run are those of `workers`.
//!
//! Promises upward: at every interleaving of the workers' operations, a flow that is answered is a greatest one of the
//! net that was handed in. Doesn't promise that a run settles, nor that two workers run at once.
//!
//! An example: blocks worth 6 and 5, as units 23,999,999,999 and 19,999,999,999, rest on one worth -10. A run of one
//! worker or two leaves the pit of all three. Three workers are refused, and with 3 turns a run doesn't settle. Tried
//! in `machine_tests/src/word_runs.rt`; turn by turn, in `machine_tests/src/word_seats.rt`.
//!
//! ```rust
//! const DEAR_WASTE: [i128; 3] = [23_999_999_999, 19_999_999_999, -40_000_000_001];
//!
//! let solved = solve_words(rt, alloc, net, workers, MANY_TURNS, &OpenGate).ok();
//! let flow = solved.ok_or("solved")?.flow;
//! assert!(rt; flow.fits(net));
//! assert!(rt; pit_of(alloc, net, &flow)?.blocks() == pit);
//!
//! let cases: [(&[(u32, u32)], &[i128], u32, u64, SolveFault); 8] = [
//!     (&[(0, 2), (1, 2)], &DEAR_WASTE, 3, 1_000, BadWorkers),
//!     (&[(0, 2), (1, 2)], &DEAR_WASTE, 1, 3, Unsettled),
//! ];
//! for (pairs, units, workers, steps, fault) in cases {
//!     let net = net_of(rt.alloc(), pairs, units)?;
//!     let ran = solve_words(&rt, rt.alloc(), &net, workers, steps, &OpenGate);
//!     assert_eq!(rt; ran.err(), Some(fault));
//! }
//! ```
#![tactic(auto)]

mod amounts;
mod clipped_worths;
mod flows;
mod net_words;
mod opening;
mod runs;
mod seats;
mod serving;
mod settle_fault;
mod settling;
mod turns;
mod two_workers;
mod words_fault;

pub use net_words::Words;
pub use runs::solve_words;
pub use seats::WordSeat;
pub use settle_fault::SettleFault;
pub use turns::WordTurn;
pub use words_fault::WordsFault;
