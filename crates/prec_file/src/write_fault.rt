//! Why a precedence file could not be written.

ghost use Rattle.std.specs.Prelude.{Some};
ghost use Rattle.prec_file.specs.Faults.{write_fault_text};

use std::fmt;

/// Why a precedence file could not be written.
#[derive(Clone, Copy, Debug, PartialEq, Eq)]
pub enum PrecWriteFault {
    /// The first block that rests on more than 7,000 blocks.
    TooWide(u32),
    /// A write failed.
    Device,
}

impl fmt::Display for PrecWriteFault {
    ghost output = { λ fault. Some (write_fault_text fault) };

    fn fmt<W: fmt::Write>(&self, f: &mut fmt::Formatter<W>) -> fmt::Result {
        match self {
            PrecWriteFault::TooWide(block) => write!(f, "TooWide({block})"),
            PrecWriteFault::Device => write!(f, "Device"),
        }
    }
}
