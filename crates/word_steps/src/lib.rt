//! The machine's steps without a lock: its state lies in words that one or two workers share, and each step is one
//! operation on one word.
//!
//! - `layout` says where the numbers of a state lie among the words, and at which word a block's next step is.
//! - `next_step` says which kind of step that is, and `choices` what the block's operation is after it, by what the
//!   word was.
//! - `steps` makes it, by one atomic operation.
//! - `view` is what a proof knows of a worker's seat, and `plays` names what may happen at the words.
//!
//! Stands on `atomic_table`, whose steps are each one atomic operation, sequentially consistent, under a rule that
//! holds between any two of them. The rule here (`table`): a run of the machine leads to the state that the words and
//! the seats show. So the laws of `machine_law` serve as they stand, and nothing is proved of words again.
//!
//! Promises upward: each step keeps the rule, whatever the other worker did, and the seat has made the machine's next
//! step of its block.
//!
//! An example: a net has one block, worth 9,999,999,999 units, and no pair. Its state has six words: 0 and 1 for what
//! has arrived at the source and the sink, then the block's excess, label, source amount and room at the sink. A run
//! over these words takes 11 steps and two loads of what has arrived, so the gate lets 13 turns pass. Tried by whole
//! runs, in `machine_tests/src/word_runs.rt`.
//!
//! ```rust
//! let net = net_of(rt.alloc(), &[], &[9_999_999_999])?;
//! let gate = Counting {
//!     turns: AtomicU64::new(0),
//! };
//! let solved = solve_words(&rt, rt.alloc(), &net, 1, 1_000, &gate).ok();
//! assert_eq!(rt; solved.ok_or("solved")?.steps, 11);
//! assert_eq!(rt; gate.turns.load(SeqCst), 13);
//! ```
#![tactic(auto)]

mod choices;
mod layout;
mod next_step;
mod plays;
mod steps;
mod table;
mod view;

pub use choices::{after, push_units};
pub use layout::next_word;
pub use next_step::{is_idle, is_overfull, next_kind, raises_too_far};
pub use plays::{Halves, LookedUp, Turned, Whole};
pub use steps::{add_next, load_next, store_next, subtract_next};
pub use table::{Rule, SharedWords, TableSeat, WordTable};
pub use view::View;
