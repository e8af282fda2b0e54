//! Why a text of block values is refused, with the number of its first faulty line, and how each
//! fault is printed.

use std::fmt;

/// What is wrong with a text, and in which line. Lines are numbered from 1 on, skipped ones too.
///
/// The first faulty line is answered, and within a line the fault that stands first here.
#[derive(Clone, Copy, Debug, PartialEq, Eq)]
pub enum UpitFault {
    /// The line has more than 65,536 bytes, or has not the number of fields that its record wants.
    Text(u64),
    /// A field is not a number of the kind that is wanted there.
    Number(u64),
    /// The text ends in its header: the number of the last line, or 0 where there is none.
    NoObjective(u64),
    /// The text says that it is of another type.
    NotUpit(u64),
    /// A number of blocks other than the wanted one, or over 2^24, or none before the header's end.
    WrongBlocks(u64),
    /// The record's block is not below the number of blocks.
    UnknownBlock(u64),
    /// The record's block had a record before.
    Repeated(u64),
    /// Memory was refused.
    NoMemory,
}

impl fmt::Display for UpitFault {
    ghost use Rattle.std.specs.Prelude.{Some};
    ghost use Rattle.upit_file.specs.Records.{upit_fault_text};

    ghost output = { λ fault. Some (upit_fault_text fault) };

    fn fmt<W: fmt::Write>(&self, f: &mut fmt::Formatter<W>) -> fmt::Result {
        match *self {
            UpitFault::Text(line) => write!(f, "Text({line})"),
            UpitFault::Number(line) => write!(f, "Number({line})"),
            UpitFault::NoObjective(line) => write!(f, "NoObjective({line})"),
            UpitFault::NotUpit(line) => write!(f, "NotUpit({line})"),
            UpitFault::WrongBlocks(line) => write!(f, "WrongBlocks({line})"),
            UpitFault::UnknownBlock(line) => write!(f, "UnknownBlock({line})"),
            UpitFault::Repeated(line) => write!(f, "Repeated({line})"),
            UpitFault::NoMemory => f.write_str("NoMemory"),
        }
    }
}
