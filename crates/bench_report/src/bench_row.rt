//! A row of the bench table: how many blocks of one shell lie on one bench, their tonnes and their
//! worth.

/// The blocks of one bench and one shell.
#[derive(Clone, Copy, Debug, PartialEq, Eq)]
pub struct BenchRow {
    /// The bench: the height of its blocks, as their coordinate along the third axis.
    pub z: i32,
    /// The shell: the lowest factor, in thousandths, whose best pit holds the blocks.
    pub shell: u32,
    /// How many blocks there are.
    pub blocks: u32,
    /// Their tonnes, in millionths.
    pub tonnes: i128,
    /// What they are worth, in billionths.
    pub worth: i128,
}
