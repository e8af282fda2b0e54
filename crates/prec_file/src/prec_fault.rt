//! Why a precedence file is refused, with the number of the line, and how each fault is printed.

ghost use Rattle.std.specs.Prelude.{Some};
ghost use Rattle.prec_file.specs.Faults.{prec_fault_text};

use std::fmt;

/// What is wrong with a precedence file, and in which line; lines count from 1 on.
#[derive(Clone, Copy, Debug, PartialEq, Eq)]
pub enum PrecFault {
    /// The line is longer than 65,536 bytes, or has fewer than two fields.
    Text(u64),
    /// A field isn't a whole number below 2^64.
    Number(u64),
    /// The block or a predecessor isn't one of the n blocks.
    UnknownBlock(u64),
    /// The block had a record before.
    Repeated(u64),
    /// The second field isn't the number of the fields after it.
    WrongCount(u64),
    /// More than 2^27 predecessors are listed up to here, repeats counted.
    TooMany(u64),
    /// There is no memory for the pairs or their index.
    NoMemory,
}

impl fmt::Display for PrecFault {
    ghost output = { λ fault. Some (prec_fault_text fault) };

    fn fmt<W: fmt::Write>(&self, f: &mut fmt::Formatter<W>) -> fmt::Result {
        match self {
            PrecFault::Text(line) => write!(f, "Text({line})"),
            PrecFault::Number(line) => write!(f, "Number({line})"),
            PrecFault::UnknownBlock(line) => write!(f, "UnknownBlock({line})"),
            PrecFault::Repeated(line) => write!(f, "Repeated({line})"),
            PrecFault::WrongCount(line) => write!(f, "WrongCount({line})"),
            PrecFault::TooMany(line) => write!(f, "TooMany({line})"),
            PrecFault::NoMemory => write!(f, "NoMemory"),
        }
    }
}
