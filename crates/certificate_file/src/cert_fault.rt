//! Why a text is no certificate, with the number of its first faulty line, and how each fault is printed.

use std::fmt;

/// Why a text is no certificate. Lines are numbered from 1, and the fault is that of the first faulty line.
#[derive(Clone, Copy, Debug, PartialEq, Eq)]
pub enum CertFault {
    /// The line has none of the forms that may stand there, or more than 65,536 bytes.
    Text(u64),
    /// A number of the line is not written in its one spelling, or is out of range.
    Number(u64),
    /// The line doesn't come after the line before it in the order of kinds, blocks and predecessors.
    OutOfOrder(u64),
    /// The line gives an amount to a pair that the model doesn't have.
    UnknownPair(u64),
    /// The text ends before its last line does.
    Truncated,
    /// Memory was refused.
    NoMemory,
}

impl fmt::Display for CertFault {
    ghost use Rattle.std.specs.Prelude.{Some};
    ghost use Rattle.certificate_file.specs.Certificate.{cert_fault_text};

    ghost output = { λ fault. Some (cert_fault_text fault) };

    fn fmt<W: fmt::Write>(&self, f: &mut fmt::Formatter<W>) -> fmt::Result {
        match self {
            CertFault::Text(line) => write!(f, "Text({line})"),
            CertFault::Number(line) => write!(f, "Number({line})"),
            CertFault::OutOfOrder(line) => write!(f, "OutOfOrder({line})"),
            CertFault::UnknownPair(line) => write!(f, "UnknownPair({line})"),
            CertFault::Truncated => write!(f, "Truncated"),
            CertFault::NoMemory => write!(f, "NoMemory"),
        }
    }
}

/// Why a text is no line of a certificate, whatever stands around it. [`CertFault`] adds the line's number.
#[derive(Clone, Copy)]
pub enum LineFault {
    /// It has none of the forms of a line.
    Text,
    /// A number of it is not written in its one spelling, or is out of range.
    Number,
}
