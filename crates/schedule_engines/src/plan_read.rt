//! Reads periods, what blocks use, and a schedule, one after another.

ghost use Rattle.std.specs.Prelude.{◌≡◌, ◌+◌, ◌≤◌, length, IfOk, MatchResult, IsErrOf};
ghost use Rattle.engine_faults.specs.declared.engine_fault.EngineFault.TheVariants as engine;
ghost use Rattle.schedule_engines.specs.declared.plan_fault.PlanFault.TheVariants as plan;
ghost use Rattle.schedule_engines.specs.PlanDevices.{ForPlan, IsPlanRead, PlanCanCount, plan_failures};
ghost use Rattle.schedule_engines.specs.WayUses.{PlanReadFails};

use crate::plan_fault::PlanFault;
use crate::schedule_inputs::{ScheduleInputs, entries_from, periods_by_from};
use crate::way_uses::way_uses_from;
use counted_devices::CountedRead;
use fixed_worth::MOST_BLOCKS;
use periods_file::Periods;
use prec_file::Predecessors;
use schedule_file::Entry;
use std::alloc::Global;

/// What was read beside a mine.
#[derive(Drop)]
pub struct PlanRead {
    /// What periods weigh and have.
    pub periods: Periods,
    /// What blocks use, way by way and row by row for each resource.
    pub uses: Vec<u64>,
    /// The pairs of a block and one for which it waits.
    pub waits: Predecessors,
    /// The period and the way of each block.
    pub entries: Vec<Entry>,
}

/// Periods, what blocks use, and a schedule of n blocks, in this order, where there are so many ways to treat one.
///
/// # Errors
/// Those of `periods_by_from`, `way_uses_from` and `entries_from`.
pub(crate) fn plan_from<D: CountedRead>(
    alloc: Global,
    beside: &mut ScheduleInputs<D>,
    n: u32,
    ways: u32,
) -> Result<PlanRead, PlanFault>
    requires blocks { n ≤ MOST_BLOCKS }
    requires room { PlanCanCount beside.old D.failed }
    ensures read { ForPlan beside.old D.remaining (λ p u s. MatchResult result
        (λ r. IsPlanRead n ways r p u s)
        (PlanReadFails n ways p u s)) }
    ensures few { IfOk result (λ r. length r.periods.shared.items ≤ 8) }
    ensures each { IfOk result (λ r. length r.entries.items ≡ n) }
    ensures device { IsErrOf result (plan.Engine engine.Device)
        → plan_failures beside.new D.failed ≡ plan_failures beside.old D.failed + 1 }
    ensures kept { ¬ IsErrOf result (plan.Engine engine.Device)
        → plan_failures beside.new D.failed ≡ plan_failures beside.old D.failed }
{
    let periods = periods_by_from(alloc, &mut beside.periods, ways)?;
    let found = way_uses_from(alloc, &mut beside.uses, &periods, ways, n)?;
    let count = periods.weights.as_slice().len() as u32;
    let entries = entries_from(alloc, &mut beside.schedule, n, count, ways)?;
    Ok(PlanRead {
        periods,
        uses: found.amounts,
        waits: found.waits,
        entries,
    })
}
