//! What is asked for where a mine is solved without a lock: the factor, the workers and the most
//! turns.

use crate::lock_free_effort::LockFreeEffort;
use shells::Factor;

/// What a run without a lock is asked for.
#[derive(Clone, Copy)]
pub struct LockFreeAsked {
    /// The factor at which revenues count. Of no effect where blocks have values.
    pub factor: Factor,
    /// The workers, and the most turns.
    pub effort: LockFreeEffort,
}
