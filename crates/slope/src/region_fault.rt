//! Why the slopes of regions give no pairs of a model.

ghost use Rattle.std.specs.Prelude.{Some};
ghost use Rattle.slope.specs.FaultText.{region_fault_text};

use std::fmt;

/// Why the slopes of regions give no pairs of a model. The fault that stands first here is answered. Regions and their
/// offsets are counted from 0.
#[derive(Clone, Copy, Debug, PartialEq, Eq)]
pub enum RegionFault {
    /// Two blocks have one place. The second is the first block that has an earlier block's place, and the first is
    /// that earlier block.
    SamePlace(u32, u32),
    /// The first block whose region is no whole number, or none for which offsets are listed.
    UnknownRegion(u32),
    /// The first region with an offset whose third number isn't at least 1, and the first such offset of it.
    NotUpward(usize, usize),
    /// The first region with more than 4,096 offsets, repeats counted.
    TooManyOffsets(usize),
    /// There are more than 64 regions.
    TooManyRegions,
    /// There are more than 2^27 pairs.
    TooMany,
    /// There is no memory for the places, the offsets or the pairs.
    NoMemory,
}

impl fmt::Display for RegionFault {
    ghost output = { λ fault. Some (region_fault_text fault) };

    fn fmt<W: fmt::Write>(&self, f: &mut fmt::Formatter<W>) -> fmt::Result {
        match self {
            RegionFault::SamePlace(b, c) => write!(f, "SamePlace({b}, {c})"),
            RegionFault::UnknownRegion(b) => write!(f, "UnknownRegion({b})"),
            RegionFault::NotUpward(r, i) => write!(f, "NotUpward({r}, {i})"),
            RegionFault::TooManyOffsets(r) => write!(f, "TooManyOffsets({r})"),
            RegionFault::TooManyRegions => write!(f, "TooManyRegions"),
            RegionFault::TooMany => write!(f, "TooMany"),
            RegionFault::NoMemory => write!(f, "NoMemory"),
        }
    }
}
