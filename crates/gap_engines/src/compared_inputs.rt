//! Reads what a schedule and a bound on all need beside a mine: periods, what blocks use by each way to treat them, and
//! the schedule.

ghost use Rattle.std.specs.Prelude.{◌≡◌, ◌+◌, ◌≤◌, length, IfOk, MatchResult, IsErrOf};
ghost use Rattle.engine_faults.specs.declared.engine_fault.EngineFault.TheVariants as engine;
ghost use Rattle.schedule_engines.specs.PlanDevices.{ForPlan, IsPlanRead, PlanCanCount, plan_failures};
ghost use Rattle.schedule_engines.specs.declared.plan_fault.PlanFault.TheVariants as plan;
ghost use Rattle.gap_engines.specs.GapTexts.{ComparedFails};

use counted_devices::CountedRead;
use fixed_worth::MOST_BLOCKS;
use planned_mine::priced_periods_from;
use schedule_engines::{PlanFault, PlanRead, ScheduleInputs, entries_from, way_uses_from};
use std::alloc::Global;

// Periods with multipliers, what n blocks use, and a schedule of these, in this order, where there are so many ways to
// treat one beside waste.
pub(crate) fn plan_priced_from<D: CountedRead>(
    alloc: Global,
    beside: &mut ScheduleInputs<D>,
    n: u32,
    ways: u32,
) -> Result<PlanRead, PlanFault>
    requires blocks { n ≤ MOST_BLOCKS }
    requires room { PlanCanCount beside.old D.failed }
    ensures read { ForPlan beside.old D.remaining (λ p u s. MatchResult result
        (λ r. IsPlanRead n ways r p u s)
        (ComparedFails ways p u s n)) }
    ensures few { IfOk result (λ r. length r.periods.shared.items ≤ 8) }
    ensures each { IfOk result (λ r. length r.entries.items ≡ n) }
    ensures device { IsErrOf result (plan.Engine engine.Device)
        → plan_failures beside.new D.failed ≡ plan_failures beside.old D.failed + 1 }
    ensures kept { ¬ IsErrOf result (plan.Engine engine.Device)
        → plan_failures beside.new D.failed ≡ plan_failures beside.old D.failed }
{
    let periods = match priced_periods_from(alloc, &mut beside.periods, ways) {
        Ok(periods) => periods,
        Err(fault) => return Err(fault),
    };
    let found = match way_uses_from(alloc, &mut beside.uses, &periods, ways, n) {
        Ok(found) => found,
        Err(fault) => return Err(fault),
    };
    let count = periods.weights.as_slice().len() as u32;
    let entries = match entries_from(alloc, &mut beside.schedule, n, count, ways) {
        Ok(entries) => entries,
        Err(fault) => return Err(fault),
    };
    Ok(PlanRead {
        periods,
        uses: found.amounts,
        waits: found.waits,
        entries,
    })
}
