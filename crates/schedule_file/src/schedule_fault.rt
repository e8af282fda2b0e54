//! Why the text of a schedule is refused, with the number of the line, and how each fault is printed.

ghost use Rattle.std.specs.Prelude.{Some};
ghost use Rattle.schedule_file.specs.Records.{schedule_fault_text};

use std::fmt;

/// What is wrong with a schedule, and in which line; lines count from 1 on.
#[derive(Clone, Copy, Debug, PartialEq, Eq)]
pub enum ScheduleFault {
    /// The line is longer than 65,536 bytes, or doesn't have two fields; where there are ways, or three.
    Text(u64),
    /// The block, the period or the way isn't a whole number below 2^64.
    Number(u64),
    /// The block isn't one of the n blocks.
    UnknownBlock(u64),
    /// The period isn't one of the periods.
    UnknownPeriod(u64),
    /// The way is none of the ways, and not waste.
    UnknownWay(u64),
    /// The block was named before.
    Repeated(u64),
    /// There is no memory for the periods of the blocks.
    NoMemory,
}

impl fmt::Display for ScheduleFault {
    ghost output = { λ fault. Some (schedule_fault_text fault) };

    fn fmt<W: fmt::Write>(&self, f: &mut fmt::Formatter<W>) -> fmt::Result {
        match self {
            ScheduleFault::Text(line) => write!(f, "Text({line})"),
            ScheduleFault::Number(line) => write!(f, "Number({line})"),
            ScheduleFault::UnknownBlock(line) => write!(f, "UnknownBlock({line})"),
            ScheduleFault::UnknownPeriod(line) => write!(f, "UnknownPeriod({line})"),
            ScheduleFault::UnknownWay(line) => write!(f, "UnknownWay({line})"),
            ScheduleFault::Repeated(line) => write!(f, "Repeated({line})"),
            ScheduleFault::NoMemory => write!(f, "NoMemory"),
        }
    }
}
