//! What a turn answers: the step that was made, that no block may begin one now, or why the run
//! ends.

/// What a turn did.
#[derive(Clone, Copy, Debug, PartialEq, Eq)]
pub enum Turn {
    /// One step of a block was made.
    Stepped {
        /// The block.
        block: u32,
        /// Whether its operation goes on.
        more: bool,
    },
    /// No block is ready to begin an operation, and the run isn't at its end.
    Idle,
    /// The run is at its end.
    Ended(End),
}

/// Why a run ends.
#[derive(Clone, Copy, Debug, PartialEq, Eq)]
pub enum End {
    /// No block has excess or an operation.
    Quiet,
    /// A number of the state after a step would overflow its type.
    Stuck,
    /// As many steps were made as the run may make.
    Limit,
    /// There is no room to write down another step. Boards that write none down don't answer it.
    Full,
}
