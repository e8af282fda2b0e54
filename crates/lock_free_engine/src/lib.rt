//! Solving a mine by the machine without a lock: the engine of `solve --method lock-free`.
//!
//! Stands on `word_runner`, whose runs leave greatest flows of the nets that are handed to them, on `mine_inputs`,
//! which reads the texts, and on `solve_engines`, which certifies flows. Promises upward, over the bytes of the texts
//! and of the output: at every interleaving of the workers' operations a certificate is one of the mine, and its flow
//! has passed the check of the mine's own net, whose worths aren't cut. Doesn't promise that a run settles, nor that it
//! settles wherever one under a lock does.
//!
//! An example: one block is worth 5, and nothing rests on anything. With `LockFreeEffort::new(1, 13)`, one worker and
//! 13 turns, [`solve_lock_free_engine`] writes the certificate of a pit of that block, and answers `Done`; with 9 turns
//! it writes `UNSETTLED`, and answers `No`. For three workers `LockFreeEffort::new` gives none. [`names_lock_free`]
//! holds of `lock-free` and of `words`. Tried in `tests/cases/solve/lock_free_one_block_at_its_limit_of_turns` and
//! `lock_free_one_block_needs_more_than_nine_turns`. Of the first case, the value of the block and what is written:
//!
//! ```text
//! 0 5
//!
//! PITCERT 1
//! BLOCKS 1
//! PRICE OBJECTIVE
//! GROUP SCALED
//! PIT 0
//! END
//! ```
#![tactic(auto)]

pub mod laws;
mod lock_free_asked;
mod lock_free_effort;
pub mod lock_free_run;
mod method_name;
mod solving_engine;

pub use lock_free_asked::LockFreeAsked;
pub use lock_free_effort::LockFreeEffort;
pub use lock_free_run::by_lock_free_run;
pub use method_name::names_lock_free;
pub use solving_engine::solve_lock_free_engine;
