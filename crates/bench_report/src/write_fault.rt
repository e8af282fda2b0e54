//! Why a bench table isn't written whole, and how each fault is printed.

ghost use Rattle.std.specs.Prelude.{Some};
ghost use Rattle.bench_report.specs.Faults.{report_write_fault_text};

use std::alloc::AllocError;
use std::error::Error;
use std::fmt;

/// Why a table isn't written whole.
#[derive(Clone, Copy, Debug, PartialEq, Eq)]
pub enum ReportWriteFault {
    /// A write failed: a prefix of the table was written.
    Device,
    /// Memory was refused: nothing was written.
    NoMemory,
}

impl fmt::Display for ReportWriteFault {
    ghost output = { λ fault. Some (report_write_fault_text fault) };

    fn fmt<W: fmt::Write>(&self, f: &mut fmt::Formatter<W>) -> fmt::Result {
        match self {
            ReportWriteFault::Device => f.write_str("Device"),
            ReportWriteFault::NoMemory => f.write_str("NoMemory"),
        }
    }
}

impl Error for ReportWriteFault {}

impl From<AllocError> for ReportWriteFault {
    ghost use Rattle.std.specs.Prelude.{◌≡◌};
    ghost use Rattle.bench_report.specs.declared.write_fault.ReportWriteFault.TheVariants as fault;

    ghost from_gives = { λ _ e. e ≡ fault.NoMemory };

    fn from(_: AllocError) -> ReportWriteFault {
        ReportWriteFault::NoMemory
    }
}
