//! Why a pattern gives no pairs of a model: two blocks have one place, there are too many pairs, or there is no
//! memory for them.

ghost use Rattle.std.specs.Prelude.{Some};
ghost use Rattle.slope.specs.FaultText.{slope_fault_text};

use std::fmt;

/// Why a pattern gives no pairs of a model.
#[derive(Clone, Copy, Debug, PartialEq, Eq)]
pub enum SlopeFault {
    /// Two blocks have one place. The second is the first block that has an earlier block's place, and the first is
    /// that earlier block.
    SamePlace(u32, u32),
    /// There are more than 2^27 pairs.
    TooMany,
    /// There is no memory for the places, or for the pairs or their index.
    NoMemory,
}

impl fmt::Display for SlopeFault {
    ghost output = { λ fault. Some (slope_fault_text fault) };

    fn fmt<W: fmt::Write>(&self, f: &mut fmt::Formatter<W>) -> fmt::Result {
        match self {
            SlopeFault::SamePlace(b, c) => write!(f, "SamePlace({b}, {c})"),
            SlopeFault::TooMany => write!(f, "TooMany"),
            SlopeFault::NoMemory => write!(f, "NoMemory"),
        }
    }
}
