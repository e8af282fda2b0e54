//! What a caller of the engine of `replay` asks for: the factor and the kind of amounts.

use ordered_group::Group;
use shells::Factor;

/// What a replay is asked for.
#[derive(Clone, Copy)]
pub struct ReplayAsked {
    /// The factor at which revenues count. Of no effect where blocks have values.
    pub factor: Factor,
    /// What amounts count.
    pub group: Group,
}
