//! Why a schedule could not be judged: a fault of the schedule, of its periods or of its mine, or memory or a device.

use engine_faults::EngineFault;
use periods_file::PeriodsFault;
use schedule_file::ScheduleFault;
use std::alloc::AllocError;

/// What is wrong with periods.
#[derive(Clone, Copy, Debug, PartialEq, Eq)]
pub enum PeriodsProblem {
    /// The input has more than 2^32 bytes.
    InputTooLong,
    /// The text has this fault.
    Fault(PeriodsFault),
    /// The blocks whose columns have what is used are of another number than those of the mine.
    BlockCount,
    /// A block's use of a resource is negative: the resource, and the block.
    NegativeUse(u32, u32),
    /// What stands beside a block as that for which it waits is the number of no block: the column of these, and the
    /// block.
    UnknownWait(u32, u32),
    /// A block is worth or costs more than 10^14 units.
    TooLarge,
}

/// What is wrong with a schedule.
#[derive(Clone, Copy, Debug, PartialEq, Eq)]
pub enum ScheduleProblem {
    /// The input has more than 2^32 bytes.
    InputTooLong,
    /// The text has this fault.
    Fault(ScheduleFault),
}

/// Why a schedule could not be judged: a fault of the mine or of a device, as other engines answer them, or one of the
/// periods or of the schedule.
#[derive(Clone, Copy, Debug, PartialEq, Eq)]
pub enum PlanFault {
    /// What is wrong is neither the periods nor the schedule.
    Engine(EngineFault),
    /// The periods.
    Periods(PeriodsProblem),
    /// The schedule.
    Schedule(ScheduleProblem),
}

impl From<EngineFault> for PlanFault {
    ghost use Rattle.std.specs.Prelude.{◌≡◌};
    ghost use Rattle.schedule_engines.specs.declared.plan_fault.PlanFault.TheVariants as plan;

    ghost from_gives = { λ fault e. e ≡ plan.Engine fault };

    fn from(fault: EngineFault) -> PlanFault {
        PlanFault::Engine(fault)
    }
}

impl From<AllocError> for PlanFault {
    ghost use Rattle.std.specs.Prelude.{◌≡◌};
    ghost use Rattle.engine_faults.specs.declared.engine_fault.EngineFault.TheVariants as engine;
    ghost use Rattle.schedule_engines.specs.declared.plan_fault.PlanFault.TheVariants as plan;

    ghost from_gives = { λ _ e. e ≡ plan.Engine engine.Memory };

    fn from(_refused: AllocError) -> PlanFault {
        PlanFault::Engine(EngineFault::Memory)
    }
}
