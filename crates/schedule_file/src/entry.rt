//! When a schedule digs a block, and which way the block goes.

/// When a block is dug, and which way it goes.
#[derive(Clone, Copy, Debug, PartialEq, Eq)]
pub struct Entry {
    /// The period, counted from 0; their number where the block isn't dug.
    pub period: u32,
    /// The way, counted from 0, whose number is that of waste; none where the schedule names none.
    pub way: Option<u32>,
}
