//! Restricts what was read of a mine and its periods to the blocks of a pit, which are numbered anew in their order.

ghost use Rattle.std.specs.Prelude.{◌≡◌, ◌<◌, ◌≤◌, All, length, IfErr, IfOk, IsErrOf};
ghost use Rattle.closure_net.specs.Network.{IsAscending};
ghost use Rattle.sub_mines.specs.Renumbered.{IsPartPairs};
ghost use Rattle.engine_faults.specs.declared.engine_fault.EngineFault.TheVariants as engine;
ghost use Rattle.schedule_engines.specs.declared.plan_fault.PlanFault.TheVariants as plan;
ghost use Rattle.planned_mine.specs.declared.bound_fault.BoundFault.TheVariants as bound;
ghost use Rattle.planned_mine.specs.PlannedNodes.{IsPartFigured, IsSound};
ghost use Rattle.planned_mine.specs.TextFaults.{IsBeyondTexts};

use crate::bound_fault::BoundFault;
use crate::bound_inputs::BesideRead;
use crate::planned::Figured;
use crate::way_figures::{WayFigures, figures_of_ways};
use closure_net::NetFault;
use engine_faults::EngineFault;
use expanded_mine::Waits;
use held_pairs::HeldPairs;
use mine_inputs::Worths;
use pit_production::predecessors_among;
use places::HeldRef;
use prec_file::Predecessors;
use schedule_engines::PlanFault;
use shells::Factor;
use std::alloc::Global;

/// The list of pairs that is held. A mine that was read with one has it.
///
/// # Errors
/// `Model` where none is held.
pub fn lent_list(held: &HeldPairs) -> Result<&Predecessors, BoundFault>
    ensures is { IfOk result (λ list. list.now ≡ held.now) }
    ensures no_device { ¬ IsErrOf result (bound.Plan (plan.Engine engine.Device)) }
    ensures beyond { IfErr result IsBeyondTexts }
{
    match held.as_ref() {
        HeldRef::Listed(list) => Ok(list),
        HeldRef::Placed(_) | HeldRef::Timed(_) => {
            let fault = EngineFault::Model(NetFault::WrongLength);
            Err(BoundFault::Plan(PlanFault::Engine(fault)))
        }
    }
}

// The pairs among the kept blocks.
fn pairs_among(alloc: Global, list: &Predecessors, kept: &[u32]) -> Result<Predecessors, BoundFault>
    requires ascending { IsAscending kept.now }
    requires below { All (λ b. b < list.now.blocks) kept.now }
    requires size { length kept.now ≤ list.now.blocks }
    ensures is { IfOk result (λ r. (r.blocks ≡ length kept.now)
        × IsPartPairs kept.now list.now.pairs r.pairs) }
    ensures no_device { ¬ IsErrOf result (bound.Plan (plan.Engine engine.Device)) }
    ensures beyond { IfErr result IsBeyondTexts }
{
    match predecessors_among(alloc, list, kept) {
        Ok(pairs) => Ok(pairs),
        Err(_) => Err(BoundFault::Plan(PlanFault::Engine(EngineFault::Memory))),
    }
}

/// What the blocks of a pit have of what was read of a mine and its periods, at this factor.
///
/// # Errors
/// `Periods` with `TooLarge` where a figure is too large; `Memory` where memory is refused.
pub fn part_of_plan(
    alloc: Global,
    held: &HeldPairs,
    worths: &Worths,
    factor: Factor,
    beside: &BesideRead,
    kept: &[u32],
) -> Result<Figured, BoundFault>
    requires few { length beside.now.periods.shared.items ≤ 8 }
    requires ascending { IsAscending kept.now }
    requires below { All (λ b. b < held.now.blocks) kept.now }
    ensures is { IfOk result
        (IsPartFigured kept.now worths.now factor held.now beside.now) }
    ensures sound { IfOk result IsSound }
    ensures no_device { ¬ IsErrOf result (bound.Plan (plan.Engine engine.Device)) }
    ensures beyond { IfErr result IsBeyondTexts }
{
    let list = match lent_list(held) {
        Ok(list) => list,
        Err(fault) => return Err(fault),
    };
    // a pit has no more blocks than its mine, and what blocks are worth and those that wait are of as many
    let count = list.len();
    if kept.len() > count as usize || beside.waits.len() != count || worths.len() != count {
        let fault = EngineFault::Model(NetFault::WrongLength);
        return Err(BoundFault::Plan(PlanFault::Engine(fault)));
    }
    let predecessors = match pairs_among(alloc, list, kept) {
        Ok(pairs) => pairs,
        Err(fault) => return Err(fault),
    };
    let pairs = match pairs_among(alloc, &beside.waits, kept) {
        Ok(pairs) => pairs,
        Err(fault) => return Err(fault),
    };
    let found = match figures_of_ways(alloc, worths, factor, beside, kept) {
        Ok(found) => found,
        Err(fault) => return Err(fault),
    };
    let WayFigures {
        figures,
        others,
        prices,
    } = found;
    let lag = beside.periods.lag;
    let waits = Waits { pairs, lag };
    Ok(Figured {
        figures,
        others,
        prices,
        predecessors,
        waits,
    })
}
