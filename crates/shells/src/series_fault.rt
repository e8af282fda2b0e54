//! Why a series of shells can't be opened or doesn't take a pit, and how each fault is printed.

ghost use Rattle.std.specs.Prelude.{Some};
ghost use Rattle.shells.specs.FaultText.{series_fault_text};

use std::alloc::AllocError;
use std::error::Error;
use std::fmt;

/// Why there is no series, or why it doesn't take a pit.
#[derive(Clone, Copy, Debug, PartialEq, Eq)]
pub enum SeriesFault {
    /// The factor isn't above each factor that is held.
    NotHigher,
    /// The net in which the pit was accepted doesn't have the pairs of the series, or its worths at
    /// the factor. At the opening: there are more or fewer prices than blocks.
    WrongModel,
    /// 64 factors are held.
    Full,
    /// Memory was refused, at the opening.
    NoMemory,
}

impl fmt::Display for SeriesFault {
    ghost output = { λ fault. Some (series_fault_text fault) };

    fn fmt<W: fmt::Write>(&self, f: &mut fmt::Formatter<W>) -> fmt::Result {
        match self {
            SeriesFault::NotHigher => write!(f, "NotHigher"),
            SeriesFault::WrongModel => write!(f, "WrongModel"),
            SeriesFault::Full => write!(f, "Full"),
            SeriesFault::NoMemory => write!(f, "NoMemory"),
        }
    }
}

impl Error for SeriesFault {}

impl From<AllocError> for SeriesFault {
    ghost use Rattle.std.specs.Prelude.{◌≡◌};
    ghost use Rattle.shells.specs.declared.series_fault.SeriesFault.TheVariants as fault;

    ghost from_gives = { λ _ e. e ≡ fault.NoMemory };

    fn from(_: AllocError) -> SeriesFault {
        SeriesFault::NoMemory
    }
}
