//! Why there is no bench table: inputs of different numbers of blocks, a sum that doesn't fit, or
//! memory; and how each is printed.

ghost use Rattle.std.specs.Prelude.{Some};
ghost use Rattle.bench_report.specs.Faults.{report_fault_text};

use std::alloc::AllocError;
use std::error::Error;
use std::fmt;

/// Why there are no rows.
#[derive(Clone, Copy, Debug, PartialEq, Eq)]
pub enum ReportFault {
    /// The model, the series and the worths aren't of the same number of blocks.
    WrongModel,
    /// The tonnes or the worths of a row, added block by block, leave 128 bits.
    TooLarge,
    /// Memory was refused.
    NoMemory,
}

impl fmt::Display for ReportFault {
    ghost output = { λ fault. Some (report_fault_text fault) };

    fn fmt<W: fmt::Write>(&self, f: &mut fmt::Formatter<W>) -> fmt::Result {
        match self {
            ReportFault::WrongModel => f.write_str("WrongModel"),
            ReportFault::TooLarge => f.write_str("TooLarge"),
            ReportFault::NoMemory => f.write_str("NoMemory"),
        }
    }
}

impl Error for ReportFault {}

impl From<AllocError> for ReportFault {
    ghost use Rattle.std.specs.Prelude.{◌≡◌};
    ghost use Rattle.bench_report.specs.declared.report_fault.ReportFault.TheVariants as fault;

    ghost from_gives = { λ _ e. e ≡ fault.NoMemory };

    fn from(_: AllocError) -> ReportFault {
        ReportFault::NoMemory
    }
}
