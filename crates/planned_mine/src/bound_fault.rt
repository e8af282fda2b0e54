//! Why there is no bound: a fault of the texts, of the expanded mine, or memory or a device.

ghost use Rattle.std.specs.Prelude.{◌≡◌};
ghost use Rattle.engine_faults.specs.declared.engine_fault.EngineFault.TheVariants as engine;
ghost use Rattle.schedule_engines.specs.declared.plan_fault.PlanFault.TheVariants as plan;
ghost use Rattle.planned_mine.specs.declared.bound_fault.BoundFault.TheVariants as bound;
ghost use Rattle.planned_mine.specs.TextFaults.{IsBeyondTexts};

use closure_net::NetFault;
use engine_faults::EngineFault;
use expanded_mine::ExpandFault;
use schedule_engines::PlanFault;
use std::alloc::AllocError;

/// What is wrong with the expanded mine.
#[derive(Clone, Copy, Debug, PartialEq, Eq)]
pub enum NodesProblem {
    /// There are more than 2^24 nodes: blocks times periods.
    TooManyNodes,
    /// There are more than 2^36 pairs of nodes, or a block rests on more than 2^27 others.
    TooManyPairs,
    /// What a node is worth, a sum of its net, or the bound doesn't fit.
    TooLarge,
}

/// Why there is no bound: a fault of the texts, as other engines answer them, or one of the expanded mine.
#[derive(Clone, Copy, Debug, PartialEq, Eq)]
pub enum BoundFault {
    /// What is wrong isn't the expanded mine.
    Plan(PlanFault),
    /// The expanded mine.
    Nodes(NodesProblem),
}

impl From<PlanFault> for BoundFault {
    ghost use Rattle.std.specs.Prelude.{◌≡◌};
    ghost use Rattle.planned_mine.specs.declared.bound_fault.BoundFault.TheVariants as bound;

    ghost from_gives = { λ fault e. e ≡ bound.Plan fault };

    fn from(fault: PlanFault) -> BoundFault {
        BoundFault::Plan(fault)
    }
}

impl From<EngineFault> for BoundFault {
    ghost use Rattle.std.specs.Prelude.{◌≡◌};
    ghost use Rattle.schedule_engines.specs.declared.plan_fault.PlanFault.TheVariants as plan;
    ghost use Rattle.planned_mine.specs.declared.bound_fault.BoundFault.TheVariants as bound;

    ghost from_gives = { λ fault e. e ≡ bound.Plan (plan.Engine fault) };

    fn from(fault: EngineFault) -> BoundFault {
        BoundFault::Plan(PlanFault::Engine(fault))
    }
}

impl From<AllocError> for BoundFault {
    ghost use Rattle.std.specs.Prelude.{◌≡◌};
    ghost use Rattle.engine_faults.specs.declared.engine_fault.EngineFault.TheVariants as engine;
    ghost use Rattle.schedule_engines.specs.declared.plan_fault.PlanFault.TheVariants as plan;
    ghost use Rattle.planned_mine.specs.declared.bound_fault.BoundFault.TheVariants as bound;

    ghost from_gives = { λ _ e. e ≡ bound.Plan (plan.Engine engine.Memory) };

    fn from(_refused: AllocError) -> BoundFault {
        BoundFault::Plan(PlanFault::Engine(EngineFault::Memory))
    }
}

// What is answered where there is no expanded mine.
pub(crate) fn of_expansion(fault: ExpandFault) -> BoundFault
    ensures no_device { ¬ (result ≡ bound.Plan (plan.Engine engine.Device)) }
    ensures beyond { IsBeyondTexts result }
{
    match fault {
        ExpandFault::TooManyNodes => BoundFault::Nodes(NodesProblem::TooManyNodes),
        ExpandFault::TooManyPairs => BoundFault::Nodes(NodesProblem::TooManyPairs),
        ExpandFault::TooLarge => BoundFault::Nodes(NodesProblem::TooLarge),
        ExpandFault::NoMemory => BoundFault::Plan(PlanFault::Engine(EngineFault::Memory)),
    }
}

/// What is answered where the nodes have no net: there are as many worths as nodes.
pub fn of_net(fault: NetFault) -> BoundFault
    ensures no_device { ¬ (result ≡ bound.Plan (plan.Engine engine.Device)) }
    ensures beyond { IsBeyondTexts result }
{
    match fault {
        NetFault::NoMemory => BoundFault::Plan(PlanFault::Engine(EngineFault::Memory)),
        NetFault::WrongLength | NetFault::TooLarge => BoundFault::Nodes(NodesProblem::TooLarge),
    }
}
