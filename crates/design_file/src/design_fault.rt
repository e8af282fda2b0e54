//! Why the text of a design is refused, with the number of the line where one is faulty, and how each fault is printed.

ghost use Rattle.std.specs.Prelude.{Some};
ghost use Rattle.design_file.specs.Records.{design_fault_text};

use std::fmt;

/// What is wrong with a design, and in which line; lines count from 1 on.
#[derive(Clone, Copy, Debug, PartialEq, Eq)]
pub enum DesignFault {
    /// The line is longer than 65,536 bytes, or neither `b` nor `PIT b`, nor one that a certificate has beside its pit.
    Text(u64),
    /// The block isn't a whole number below 2^64.
    Number(u64),
    /// The block isn't one of the n blocks.
    UnknownBlock(u64),
    /// The block was named before.
    Repeated(u64),
    /// A certificate begins in the text, and the text ends before its line `END`.
    Truncated,
    /// There is no memory for the marks of the blocks.
    NoMemory,
}

impl fmt::Display for DesignFault {
    ghost output = { λ fault. Some (design_fault_text fault) };

    fn fmt<W: fmt::Write>(&self, f: &mut fmt::Formatter<W>) -> fmt::Result {
        match self {
            DesignFault::Text(line) => write!(f, "Text({line})"),
            DesignFault::Number(line) => write!(f, "Number({line})"),
            DesignFault::UnknownBlock(line) => write!(f, "UnknownBlock({line})"),
            DesignFault::Repeated(line) => write!(f, "Repeated({line})"),
            DesignFault::Truncated => write!(f, "Truncated"),
            DesignFault::NoMemory => write!(f, "NoMemory"),
        }
    }
}
