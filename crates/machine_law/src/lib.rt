//! Hong's asynchronous push-relabel machine (Hong, A lock-free multi-threaded algorithm for the maximum
//! flow problem, 2008) in single atomic steps, as definitions and laws: what a state of it is, which step
//! is next for a block and what it leaves, and what holds after every interleaving of steps.
//!
//! In the definitions `Table` has the steps as a table, `Steps` the same as a function of a block's
//! operation, which code can follow, and `Reads` what a block does next by what it read. `Amounts`,
//! `Balances` and `Labels` have what holds after every step.
//!
//! Stands on `ordered_group`, `prec_file` and `closure_net`. Promises upward:
//!
//! - the types of an operation and of an event, and what a block does next where that doesn't depend on
//!   its amounts;
//! - definitions of a state as functions, so that vectors as well as words shared by threads can show it;
//! - in `laws`: each step keeps the law, nothing is lost, and a run that ends quiet leaves a maximum flow,
//!   over amounts of any size and in any order of steps.
//!
//! An example: blocks 0 and 2, worth 4 each, rest on block 1, worth -1. Block 0, of label 0, makes five steps: it reads
//! its excess, 4; the label of block 1 over its first port; at its second port the source's capacity and label; and
//! raises its label to 1, one more than that of block 1. A state has labels, excesses, flows of the pairs, what blocks
//! have of the source, and what block 1 gave the sink. Tried in `machine_tests/src/steps.rt`.
//!
//! ```rust
//! type After = ([u64; 3], [i128; 3], [i128; 2], [i128; 3], i128);
//!
//! const STEPS: [(u32, &'static [Kind]); 23] = [
//!     (0, &[RE, RL, RC, RL, RA]),
//! ];
//!
//! const AFTER: [After; 23] = [
//!     ([1, 0, 0], [4, 0, 4], [0, 0], [4, 0, 4], 0),
//! ];
//!
//! same(rt, state.next_kind(net, event.block), event.kind);
//! let saw = state.step(net, event).expect(rt, "a step");
//! ```
#![tactic(auto)]

mod events;
pub mod laws;
mod operations;
mod reads;

pub use events::{Event, Kind, MOST_EVENTS};
pub use operations::{Best, Operation};
pub use reads::{after_last_port, better, pass};
