//! What a caller of the engine of `solve` asks for: the factor, the kind of amounts and the effort.

use option_words::Effort;
use ordered_group::Group;
use shells::Factor;

/// What a solve is asked for.
#[derive(Clone, Copy)]
pub struct SolveAsked {
    /// The factor at which revenues count. Of no effect where blocks have values.
    pub factor: Factor,
    /// What amounts count.
    pub group: Group,
    /// The method, the threads, and the most steps and turns.
    pub effort: Effort,
}
