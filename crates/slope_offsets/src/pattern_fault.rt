//! Why offsets give no pattern: one doesn't lead up, there are too many, or there is no memory for
//! them.

ghost use Rattle.std.specs.Prelude.{Some};
ghost use Rattle.slope_offsets.specs.FaultText.{pattern_fault_text};

use std::fmt;

/// Why there is no such pattern.
#[derive(Clone, Copy, Debug, PartialEq, Eq)]
pub enum PatternFault {
    /// The place, counted from 0, of the first offset whose third number isn't at least 1.
    NotUpward(usize),
    /// There are more than 4,096 offsets, repeats counted.
    TooMany,
    /// There is no memory for the offsets.
    NoMemory,
}

impl fmt::Display for PatternFault {
    ghost output = { λ fault. Some (pattern_fault_text fault) };

    fn fmt<W: fmt::Write>(&self, f: &mut fmt::Formatter<W>) -> fmt::Result {
        match self {
            PatternFault::NotUpward(place) => write!(f, "NotUpward({place})"),
            PatternFault::TooMany => write!(f, "TooMany"),
            PatternFault::NoMemory => write!(f, "NoMemory"),
        }
    }
}
