//! Why a design could not be judged: a fault of the design or of its mine, or memory or a device.

use design_file::DesignFault;
use engine_faults::EngineFault;
use std::alloc::AllocError;

/// What is wrong with a design.
#[derive(Clone, Copy, Debug, PartialEq, Eq)]
pub enum DesignProblem {
    /// The input has more than 2^32 bytes.
    InputTooLong,
    /// The text has this fault.
    Fault(DesignFault),
    /// A sum of the worths of its blocks, or what a pit is worth more than they, doesn't fit 128 bits.
    TooLarge,
}

/// Why a design could not be judged: a fault of the mine or of a device, as other engines answer them, or one of the
/// design.
#[derive(Clone, Copy, Debug, PartialEq, Eq)]
pub enum ValueFault {
    /// What is wrong isn't the design.
    Engine(EngineFault),
    /// The design.
    Design(DesignProblem),
}

impl From<EngineFault> for ValueFault {
    ghost use Rattle.std.specs.Prelude.{◌≡◌};
    ghost use Rattle.design_engines.specs.declared.value_fault.ValueFault.TheVariants as value;

    ghost from_gives = { λ fault e. e ≡ value.Engine fault };

    fn from(fault: EngineFault) -> ValueFault {
        ValueFault::Engine(fault)
    }
}

impl From<AllocError> for ValueFault {
    ghost use Rattle.std.specs.Prelude.{◌≡◌};
    ghost use Rattle.engine_faults.specs.declared.engine_fault.EngineFault.TheVariants as engine;
    ghost use Rattle.design_engines.specs.declared.value_fault.ValueFault.TheVariants as value;

    ghost from_gives = { λ _ e. e ≡ value.Engine engine.Memory };

    fn from(_refused: AllocError) -> ValueFault {
        ValueFault::Engine(EngineFault::Memory)
    }
}
