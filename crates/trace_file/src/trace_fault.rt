//! Why a text is no trace, with the number of its first faulty line, and how each fault is printed.

ghost use Rattle.std.specs.Prelude.{Some};
ghost use Rattle.trace_file.specs.Faults.{trace_fault_text};

use std::fmt;

/// Why a text is no trace. Lines are numbered from 1, and the fault is that of the first faulty line.
#[derive(Clone, Copy, Debug, PartialEq, Eq)]
pub enum TraceFault {
    /// The line isn't one that may come there, comes after `END`, or has more than 65,536 bytes.
    Text(u64),
    /// The text ends before its last line does.
    Truncated,
    /// There are more than [`crate::MOST_EVENTS`] events.
    TooMany,
    /// Memory was refused.
    NoMemory,
}

impl fmt::Display for TraceFault {
    ghost output = { λ fault. Some (trace_fault_text fault) };

    fn fmt<W: fmt::Write>(&self, f: &mut fmt::Formatter<W>) -> fmt::Result {
        match self {
            TraceFault::Text(line) => write!(f, "Text({line})"),
            TraceFault::Truncated => write!(f, "Truncated"),
            TraceFault::TooMany => write!(f, "TooMany"),
            TraceFault::NoMemory => write!(f, "NoMemory"),
        }
    }
}
