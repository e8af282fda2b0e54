//! Why a text of blocks is refused, with the number of its first faulty line, and how each fault is printed.

use std::fmt;

/// What is wrong with a text, and in which line. Lines are numbered from 1 on, skipped ones too.
///
/// A line of more than 65,536 bytes comes before all else, and too many records come before what is wrong with one.
/// Otherwise the first faulty line is answered, and within a line the fault that stands first here.
#[derive(Clone, Copy, Debug, PartialEq, Eq)]
pub enum BlocksFault {
    /// The line has more than 65,536 bytes, or its record has fewer than four fields.
    Text(u64),
    /// The block, a coordinate or a chosen column is not a number of its kind, or a coordinate has more than 32 bits.
    Number(u64),
    /// The record has no such column as was chosen.
    NoColumn(u64),
    /// The block is not below the number of records.
    UnknownBlock(u64),
    /// The block had a record before.
    Repeated(u64),
    /// This record comes after the 2^24th.
    TooMany(u64),
    /// Memory was refused.
    NoMemory,
}

impl fmt::Display for BlocksFault {
    ghost use Rattle.std.specs.Prelude.{Some};
    ghost use Rattle.blocks_file.specs.Records.{blocks_fault_text};

    ghost output = { λ fault. Some (blocks_fault_text fault) };

    fn fmt<W: fmt::Write>(&self, f: &mut fmt::Formatter<W>) -> fmt::Result {
        match *self {
            BlocksFault::Text(line) => write!(f, "Text({line})"),
            BlocksFault::Number(line) => write!(f, "Number({line})"),
            BlocksFault::NoColumn(line) => write!(f, "NoColumn({line})"),
            BlocksFault::UnknownBlock(line) => write!(f, "UnknownBlock({line})"),
            BlocksFault::Repeated(line) => write!(f, "Repeated({line})"),
            BlocksFault::TooMany(line) => write!(f, "TooMany({line})"),
            BlocksFault::NoMemory => f.write_str("NoMemory"),
        }
    }
}
