//! Who is told how many blocks a proved pit has and what it is worth, once its certificate is
//! written.

/// Is told of a pit once its certificate is written.
pub trait Outcome {
    /// So many of the mine's blocks are in the pit, which is worth so many billionths.
    fn proved(&self, count: u32, blocks: u32, worth: i128);
}
