//! Why a pit and a flow are refused, with the block or pair at fault, and how each fault is printed.

ghost use Rattle.check_pit.specs.FaultText.{pit_fault_text};

use std::error::Error;
use std::fmt;

/// The first thing that is wrong with a pit and a flow, in the order of these variants but for
/// `TooLarge`, which comes where the sum is made that doesn't fit.
#[derive(Clone, Copy, Debug, PartialEq, Eq)]
pub enum PitFault {
    /// A list of the flow has not the net's length, or the pit has a block that the net hasn't.
    WrongSize,
    /// The first pair whose block is in the pit while its predecessor isn't.
    NotClosed(u32, u32),
    /// An amount of the flow is negative.
    Negative,
    /// The first block that gets more from the source than its positive part, or gives the sink more
    /// than its negative part.
    OverCapacity(u32),
    /// The first block that gets more, or less, than it gives.
    Unbalanced(u32),
    /// The pit's worth is not what the source could still give.
    NotTight,
    /// A sum doesn't fit its type.
    TooLarge,
}

impl fmt::Display for PitFault {
    ghost use Rattle.std.specs.Prelude.{Some};

    ghost output = { λ fault. Some (pit_fault_text fault) };

    fn fmt<W: fmt::Write>(&self, f: &mut fmt::Formatter<W>) -> fmt::Result {
        match *self {
            PitFault::WrongSize => write!(f, "WrongSize"),
            PitFault::NotClosed(b, p) => write!(f, "NotClosed({b}, {p})"),
            PitFault::Negative => write!(f, "Negative"),
            PitFault::OverCapacity(b) => write!(f, "OverCapacity({b})"),
            PitFault::Unbalanced(b) => write!(f, "Unbalanced({b})"),
            PitFault::NotTight => write!(f, "NotTight"),
            PitFault::TooLarge => write!(f, "TooLarge"),
        }
    }
}

impl Error for PitFault {}
