//! What is asked for where a mine is solved with a trace: the factor, the kind of amounts, the
//! effort and the most steps of the trace.

use option_words::Effort;
use ordered_group::Group;
use shells::Factor;

/// What a solve with a trace is asked for.
#[derive(Clone, Copy)]
pub struct TracedAsked {
    /// The factor at which revenues count. Of no effect where blocks have values.
    pub factor: Factor,
    /// What amounts count.
    pub group: Group,
    /// The workers of the run and its most steps, whatever its method.
    pub effort: Effort,
    /// The most steps of the trace.
    pub room: u32,
}
