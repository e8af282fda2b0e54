//! Why a list of pairs is refused: a block that isn't known, too many pairs, or no memory; and how each fault is
//! printed.

ghost use Rattle.std.specs.Prelude.{Some};
ghost use Rattle.prec_file.specs.Faults.{rests_fault_text};

use std::fmt;

/// What is wrong with a list of pairs.
#[derive(Clone, Copy, Debug, PartialEq, Eq)]
pub enum RestsFault {
    /// The place, counted from 0, of the first pair with a block that isn't known.
    UnknownBlock(usize),
    /// More than 2^27 pairs are listed.
    TooMany,
    /// Memory was refused, for the pairs or for their indexes.
    NoMemory,
}

impl fmt::Display for RestsFault {
    ghost output = { λ fault. Some (rests_fault_text fault) };

    fn fmt<W: fmt::Write>(&self, f: &mut fmt::Formatter<W>) -> fmt::Result {
        match self {
            RestsFault::UnknownBlock(place) => write!(f, "UnknownBlock({place})"),
            RestsFault::TooMany => write!(f, "TooMany"),
            RestsFault::NoMemory => write!(f, "NoMemory"),
        }
    }
}
