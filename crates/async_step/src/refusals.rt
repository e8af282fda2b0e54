//! Why a step is refused, and why a list of steps can't be repeated: memory, or the place of its
//! first refused step.

ghost use Rattle.std.specs.Prelude.{Some};
ghost use Rattle.async_step.specs.FaultText.{step_refusal_text, replay_fault_text};

use crate::saw::Saw;
use machine_law::Kind;
use std::fmt;

/// Why a step is refused. The first in this order that stands is answered.
#[derive(Clone, Copy, Debug, PartialEq, Eq)]
pub enum StepRefusal {
    /// The net has no such block.
    NoSuchBlock,
    /// The block's next step is of another kind: this one.
    OutOfTurn(Kind),
    /// A number of the state after the step would overflow its type.
    TooLarge,
    /// As many steps were made as are counted.
    TooManySteps,
}

impl fmt::Display for StepRefusal {
    ghost output = { λ refusal. Some (step_refusal_text refusal) };

    fn fmt<W: fmt::Write>(&self, f: &mut fmt::Formatter<W>) -> fmt::Result {
        match self {
            StepRefusal::NoSuchBlock => write!(f, "NoSuchBlock"),
            StepRefusal::OutOfTurn(kind) => write!(f, "OutOfTurn({kind})"),
            StepRefusal::TooLarge => write!(f, "TooLarge"),
            StepRefusal::TooManySteps => write!(f, "TooManySteps"),
        }
    }
}

/// That a step was made, or why it is refused.
pub(crate) type Made = Result<(), StepRefusal>;

/// What a step saw, moved or raised, or why it is refused.
pub(crate) type Seen<N> = Result<Saw<N>, StepRefusal>;

/// Why a list of steps can't be made.
#[derive(Clone, Copy, Debug, PartialEq, Eq)]
pub enum ReplayFault {
    /// The step at this place, counted from 1, is refused.
    Refused(usize, StepRefusal),
    /// Memory was refused.
    NoMemory,
}

impl fmt::Display for ReplayFault {
    ghost output = { λ fault. Some (replay_fault_text fault) };

    fn fmt<W: fmt::Write>(&self, f: &mut fmt::Formatter<W>) -> fmt::Result {
        match self {
            ReplayFault::Refused(place, refusal) => write!(f, "Refused({place}, {refusal})"),
            ReplayFault::NoMemory => write!(f, "NoMemory"),
        }
    }
}
