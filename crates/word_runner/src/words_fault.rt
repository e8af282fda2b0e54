//! Why a net gives no words: not one or two workers, worths that sum to too much, or memory.

/// Why there are no words of a net.
#[derive(Clone, Copy, Debug, PartialEq, Eq)]
pub enum WordsFault {
    /// There are neither one nor two workers.
    BadWorkers,
    /// The positive worths sum to 2^63 units or more.
    TooLarge,
    /// Memory was refused.
    NoMemory,
}
