//! Why a search gives no flow: its turns are used up, an amount doesn't fit, memory was refused, or a guard inside it
//! failed.

ghost use Rattle.std.specs.Prelude.{Some};
ghost use Rattle.net_part.specs.FaultText.{pseudoflow_fault_text};

use std::alloc::AllocError;
use std::fmt;

/// Why there is no flow.
#[derive(Clone, Copy, Debug, PartialEq, Eq)]
pub enum PseudoflowFault {
    /// The turns were used up.
    Unsettled,
    /// A sum or a difference of amounts doesn't fit.
    TooLarge,
    /// A guard inside the search failed: a label above the highest, a number that no block has, a tree arc that is no
    /// pair of the net. This is a mistake of the crate, and no net is known for which it comes.
    Broken,
    /// Memory was refused.
    NoMemory,
}

impl fmt::Display for PseudoflowFault {
    ghost output = { λ fault. Some (pseudoflow_fault_text fault) };

    fn fmt<W: fmt::Write>(&self, f: &mut fmt::Formatter<W>) -> fmt::Result {
        match self {
            PseudoflowFault::Unsettled => write!(f, "Unsettled"),
            PseudoflowFault::TooLarge => write!(f, "TooLarge"),
            PseudoflowFault::Broken => write!(f, "Broken"),
            PseudoflowFault::NoMemory => write!(f, "NoMemory"),
        }
    }
}

impl From<AllocError> for PseudoflowFault {
    ghost use Rattle.std.specs.Prelude.{◌≡◌};
    ghost use Rattle.net_part.specs.declared.fault.PseudoflowFault.TheVariants as fault;

    ghost from_gives = { λ _ e. e ≡ fault.NoMemory };

    fn from(_refused: AllocError) -> PseudoflowFault {
        PseudoflowFault::NoMemory
    }
}
