//! Why a column gives blocks no regions: the first block whose value is no region's number, or no memory.

/// Why blocks have no regions.
#[derive(Clone, Copy, Debug, PartialEq, Eq)]
pub enum RegionColumnFault {
    /// The value of this block, the first such, isn't a whole number, or no region has this number.
    NoRegion(u32),
    /// Memory was refused.
    NoMemory,
}
