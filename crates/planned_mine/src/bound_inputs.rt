//! Reads what a bound needs beside a mine: periods, and what blocks use by each way to treat them.

ghost use Rattle.std.specs.Prelude.{◌≡◌, ◌+◌, ◌-◌, ◌*◌, ◌^◌, ◌<◌, ◌≤◌, length, IfOk, IfSome, MatchResult, IsErrOf};
ghost use Rattle.engine_faults.specs.declared.engine_fault.EngineFault.TheVariants as engine;
ghost use Rattle.periods_file.specs.Periods.{periods_view};
ghost use Rattle.periods_file.specs.ByWay.{width_of};
ghost use Rattle.schedule_engines.specs.PlanTexts.{ReadsPeriodsBy};
ghost use Rattle.schedule_engines.specs.declared.plan_fault.PlanFault.TheVariants as plan;
ghost use Rattle.planned_mine.specs.BesideTexts.{BesideCanCount, ForBeside, IsBesideRead, beside_failures};
ghost use Rattle.planned_mine.specs.TextFaults.{BesideFails, PricedPeriodsFail};

use counted_devices::CountedRead;
use fixed_worth::MOST_BLOCKS;
use periods_file::{PeriodKey, Periods, PeriodsFault};
use prec_file::Predecessors;
use schedule_engines::{PeriodsProblem, PlanFault, periods_by_from, way_uses_from};
use std::alloc::Global;

/// What a bound needs beside a mine. It is read in the order of these fields, each to its end.
#[derive(Drop)]
pub struct BoundInputs<D> {
    /// What periods weigh and have, at which prices, and which columns have what blocks use.
    pub periods: D,
    /// MineLib's `.blocks`, which has these columns.
    pub uses: D,
}

/// What was read of them.
#[derive(Drop)]
pub struct BesideRead {
    /// What periods weigh and have, and at which prices.
    pub periods: Periods,
    /// What blocks use, way by way and row by row for each resource.
    pub uses: Vec<u64>,
    /// The pairs of a block and one for which it waits.
    pub waits: Predecessors,
}

/// What a text says of periods, where there are so many ways to treat a block beside waste. Of periods without
/// multipliers no bound is asked.
///
/// # Errors
/// Those of `schedule_engines::periods_by_from`, and `Missing` without multipliers.
pub fn priced_periods_from<D: CountedRead>(
    alloc: Global,
    from: &mut D,
    ways: u32,
) -> Result<Periods, PlanFault>
    requires { D.failed from.old < 2 ^ 64 - 1 }
    ensures read { IfSome (D.remaining from.old) (λ text. MatchResult result
        (λ p. ReadsPeriodsBy ways text (periods_view p))
        (PricedPeriodsFail ways text)) }
    ensures few { IfOk result (λ p. (length p.weights.items ≤ 1000) × (length p.shared.items ≤ 8)) }
    ensures size { IfOk result
        (λ p. length p.resources.items ≡ length p.shared.items * width_of ways) }
    ensures waits { IfOk result (λ p. (length p.waits.items ≤ 8) × (p.lag ≤ 1000)) }
    ensures device { IsErrOf result (plan.Engine engine.Device)
        → D.failed from.new ≡ D.failed from.old + 1 }
    ensures kept { ¬ IsErrOf result (plan.Engine engine.Device)
        → D.failed from.new ≡ D.failed from.old }
{
    let periods = match periods_by_from(alloc, from, ways) {
        Ok(periods) => periods,
        Err(fault) => return Err(fault),
    };
    if periods.multipliers.is_none() {
        let fault = PeriodsFault::Missing(PeriodKey::Multipliers);
        return Err(PlanFault::Periods(PeriodsProblem::Fault(fault)));
    }
    Ok(periods)
}

/// Periods and what n blocks use, in this order, where there are so many ways to treat one beside waste.
///
/// # Errors
/// Those of [`priced_periods_from`](crate::priced_periods_from), then those of `schedule_engines::way_uses_from`.
pub fn beside_from<D: CountedRead>(
    alloc: Global,
    beside: &mut BoundInputs<D>,
    n: u32,
    ways: u32,
) -> Result<BesideRead, PlanFault>
    requires blocks { n ≤ MOST_BLOCKS }
    requires room { BesideCanCount beside.old D.failed }
    ensures read { ForBeside beside.old D.remaining (λ p u. MatchResult result
        (λ r. IsBesideRead n ways r p u)
        (BesideFails ways p u n)) }
    ensures few { IfOk result (λ r. length r.periods.shared.items ≤ 8) }
    ensures device { IsErrOf result (plan.Engine engine.Device)
        → beside_failures beside.new D.failed ≡ beside_failures beside.old D.failed + 1 }
    ensures kept { ¬ IsErrOf result (plan.Engine engine.Device)
        → beside_failures beside.new D.failed ≡ beside_failures beside.old D.failed }
{
    let periods = match priced_periods_from(alloc, &mut beside.periods, ways) {
        Ok(periods) => periods,
        Err(fault) => return Err(fault),
    };
    let found = match way_uses_from(alloc, &mut beside.uses, &periods, ways, n) {
        Ok(found) => found,
        Err(fault) => return Err(fault),
    };
    Ok(BesideRead {
        periods,
        uses: found.amounts,
        waits: found.waits,
    })
}
