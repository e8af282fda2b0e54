//! Why the words of a run give no flow: it isn't over yet, or memory was refused.

/// Why the words give no flow.
#[derive(Clone, Copy, Debug, PartialEq, Eq)]
pub enum SettleFault {
    /// A seat has an operation, or not all that the source gave has arrived.
    Unsettled,
    /// Memory was refused.
    NoMemory,
}
