//! The kinds of step of the push-relabel machine, a step of a run as its kind and its block, and how many steps a
//! history may have.

ghost use Rattle.std.specs.Prelude.{◌≡◌, Some};
ghost use Rattle.machine_law.specs.KindText.{kind_text};

use std::fmt;

/// The most events that the history of a run, or its trace, may have.
pub const MOST_EVENTS: u32 = 1 << 24;

// Contracts cite the limit by its name, so a wrong number would change code and contract alike: this is the number.
fn number_of_events()
    ensures { MOST_EVENTS ≡ 16777216 }
{}

/// The kinds of step. Each reads or writes one number that several blocks may share.
#[derive(Clone, Copy, Debug, PartialEq, Eq)]
pub enum Kind {
    /// A block without an operation reads its excess, and begins one where that is positive.
    ReadExcess,
    /// The capacity of the present port is read.
    ReadCapacity,
    /// The label at the other end of the present port is read.
    ReadLabel,
    /// A push lowers the capacity that it uses.
    TakeCapacity,
    /// A push to a block that is rested on raises the flow of the pair.
    GiveCapacity,
    /// A push takes its amount out of the block's excess.
    TakeExcess,
    /// A push gives its amount to the block at the other end, the sink or the source.
    GiveExcess,
    /// The block's label is raised.
    RaiseLabel,
}

impl fmt::Display for Kind {
    ghost output = { λ kind. Some (kind_text kind) };

    fn fmt<W: fmt::Write>(&self, f: &mut fmt::Formatter<W>) -> fmt::Result {
        match self {
            Kind::ReadExcess => write!(f, "ReadExcess"),
            Kind::ReadCapacity => write!(f, "ReadCapacity"),
            Kind::ReadLabel => write!(f, "ReadLabel"),
            Kind::TakeCapacity => write!(f, "TakeCapacity"),
            Kind::GiveCapacity => write!(f, "GiveCapacity"),
            Kind::TakeExcess => write!(f, "TakeExcess"),
            Kind::GiveExcess => write!(f, "GiveExcess"),
            Kind::RaiseLabel => write!(f, "RaiseLabel"),
        }
    }
}

/// A step of a run: the block that makes it, and its kind.
#[derive(Clone, Copy, Debug, PartialEq, Eq)]
pub struct Event {
    /// The block.
    pub block: u32,
    /// The kind of step.
    pub kind: Kind,
}
