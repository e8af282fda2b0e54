//! Whether a slope gives all of its pairs, or only those that the others don't imply.

/// Which of the pairs that a pattern gives are listed.
#[derive(Clone, Copy, Debug, PartialEq, Eq)]
pub enum Selection {
    /// Each of them.
    Every,
    /// Those that lead over no third block, so that others imply the rest: a set of blocks is closed by these exactly
    /// where it is closed by every pair.
    Reduced,
}
