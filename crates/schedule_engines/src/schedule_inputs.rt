//! Reads what a schedule is judged by, beside its mine: periods and the schedule itself.

ghost use Rattle.std.specs.Prelude.{◌≡◌, ◌+◌, ◌-◌, ◌*◌, ◌^◌, ◌<◌, ◌≤◌, ◌↔◌, ◌⊎◌, ◌++◌, ◌∷◌, [], length, map, IfOk, IfSome, MatchResult, IsErrOf, OnOk};
ghost use Rattle.mine_inputs.specs.Limits.{IsTooLong, IsWithinLimit};
ghost use Rattle.engine_faults.specs.declared.engine_fault.EngineFault.TheVariants as engine;
ghost use Rattle.periods_file.specs.Periods.{periods_view};
ghost use Rattle.periods_file.specs.ByWay.{width_of};
ghost use Rattle.schedule_engines.specs.declared.plan_fault.PlanFault.TheVariants as plan;
ghost use Rattle.schedule_engines.specs.PlanTexts.{EntriesFail, PeriodsByFail, ReadsEntries, ReadsPeriodsBy};

use crate::plan_fault::{PeriodsProblem, PlanFault, ScheduleProblem};
use counted_devices::{CountedRead, InputFault, read_whole};
use engine_faults::EngineFault;
use fixed_worth::{MOST_BLOCKS, MOST_BYTES};
use periods_file::{Periods, PeriodsFault, read_periods};
use schedule_file::{Entry, ScheduleFault, read_schedule};
use std::alloc::{AllocError, Global};

/// What a schedule is judged by, beside its mine. It is read in the order of these fields, each to its end.
#[derive(Drop)]
pub struct ScheduleInputs<D> {
    /// What periods weigh and have, and which columns have what blocks use.
    pub periods: D,
    /// MineLib's `.blocks`, which has these columns.
    pub uses: D,
    /// The period of each block that is dug.
    pub schedule: D,
}

// All bytes of an input; this fault where it is too long.
pub(crate) fn text_from<D: CountedRead>(
    alloc: Global,
    from: &mut D,
    too_long: PlanFault,
) -> Result<Vec<u8>, PlanFault>
    requires room { D.failed from.old < 2 ^ 64 - 1 }
    requires other { ¬ (too_long ≡ plan.Engine engine.Device) }
    ensures read { IfSome (D.remaining from.old) (λ text. MatchResult result (λ v. v.items ≡ text)
        (λ e. (e ≡ plan.Engine engine.Memory) ⊎ (e ≡ plan.Engine engine.Device)
        ⊎ ((e ≡ too_long) × IsTooLong text))) }
    ensures within { IfOk result (λ v. IsWithinLimit v.items) }
    ensures device { IsErrOf result (plan.Engine engine.Device)
        ↔ (D.failed from.new ≡ D.failed from.old + 1) }
    ensures kept { ¬ IsErrOf result (plan.Engine engine.Device)
        → D.failed from.new ≡ D.failed from.old }
{
    match read_whole(alloc, from, MOST_BYTES) {
        Ok(text) => Ok(text),
        Err(InputFault::Device) => Err(PlanFault::Engine(EngineFault::Device)),
        Err(InputFault::InputTooLong) => Err(too_long),
        Err(InputFault::NoMemory) => Err(PlanFault::Engine(EngineFault::Memory)),
    }
}

// What a text says of periods, where there are so many ways to treat a block.
fn periods_in(alloc: Global, text: &[u8], ways: u32) -> Result<Periods, PlanFault>
    requires { IsWithinLimit text.now }
    ensures read { MatchResult result
        (λ p. ReadsPeriodsBy ways text.now (periods_view p))
        (PeriodsByFail ways text.now) }
    ensures few { IfOk result (λ p. (length p.weights.items ≤ 1000) × (length p.shared.items ≤ 8)) }
    ensures size { IfOk result
        (λ p. length p.resources.items ≡ length p.shared.items * width_of ways) }
    ensures waits { IfOk result (λ p. (length p.waits.items ≤ 8) × (p.lag ≤ 1000)) }
    ensures no_device { ¬ IsErrOf result (plan.Engine engine.Device) }
{
    match read_periods(alloc, text, ways) {
        Ok(periods) => Ok(periods),
        Err(PeriodsFault::NoMemory) => Err(PlanFault::Engine(EngineFault::Memory)),
        Err(fault) => Err(PlanFault::Periods(PeriodsProblem::Fault(fault))),
    }
}

/// What the text of an input says of periods, where there are so many ways to treat a block beside waste.
///
/// # Errors
/// `Periods` for a text that is too long, or its first fault. `Memory` where memory is refused, `Device` where a read
/// fails.
pub fn periods_by_from<D: CountedRead>(
    alloc: Global,
    from: &mut D,
    ways: u32,
) -> Result<Periods, PlanFault>
    requires { D.failed from.old < 2 ^ 64 - 1 }
    ensures read { IfSome (D.remaining from.old) (λ text. MatchResult result
        (λ p. ReadsPeriodsBy ways text (periods_view p))
        (PeriodsByFail ways text)) }
    ensures few { IfOk result (λ p. (length p.weights.items ≤ 1000) × (length p.shared.items ≤ 8)) }
    ensures size { IfOk result
        (λ p. length p.resources.items ≡ length p.shared.items * width_of ways) }
    ensures waits { IfOk result (λ p. (length p.waits.items ≤ 8) × (p.lag ≤ 1000)) }
    ensures device { IsErrOf result (plan.Engine engine.Device)
        ↔ (D.failed from.new ≡ D.failed from.old + 1) }
    ensures kept { ¬ IsErrOf result (plan.Engine engine.Device)
        → D.failed from.new ≡ D.failed from.old }
{
    let too_long = PlanFault::Periods(PeriodsProblem::InputTooLong);
    let text = text_from(alloc, from, too_long)?;
    periods_in(alloc, text.as_slice(), ways)
}

// The period and the way that a text gives each block.
fn entries_in(
    alloc: Global,
    text: &[u8],
    n: u32,
    periods: u32,
    ways: u32,
) -> Result<Vec<Entry>, PlanFault>
    requires blocks { n ≤ MOST_BLOCKS }
    requires within { IsWithinLimit text.now }
    ensures read { MatchResult result
        (λ v. ReadsEntries n periods ways text.now v.items)
        (EntriesFail n periods ways text.now) }
    ensures size { IfOk result (λ v. length v.items ≡ n) }
    ensures no_device { ¬ IsErrOf result (plan.Engine engine.Device) }
{
    match read_schedule(alloc, text, n, periods, ways) {
        Ok(schedule) => Ok(schedule),
        Err(ScheduleFault::NoMemory) => Err(PlanFault::Engine(EngineFault::Memory)),
        Err(fault) => Err(PlanFault::Schedule(ScheduleProblem::Fault(fault))),
    }
}

/// The period and the way that the text of an input gives each of n blocks, where there are so many ways to treat one
/// beside waste; the number of periods for a block that isn't dug.
///
/// # Errors
/// `Schedule` for a text that is too long, or the fault of its first faulty line. `Memory` where memory is refused,
/// `Device` where a read fails.
pub fn entries_from<D: CountedRead>(
    alloc: Global,
    from: &mut D,
    n: u32,
    periods: u32,
    ways: u32,
) -> Result<Vec<Entry>, PlanFault>
    requires blocks { n ≤ MOST_BLOCKS }
    requires room { D.failed from.old < 2 ^ 64 - 1 }
    ensures read { IfSome (D.remaining from.old) (λ text. MatchResult result
        (λ v. ReadsEntries n periods ways text v.items)
        (EntriesFail n periods ways text)) }
    ensures size { IfOk result (λ v. length v.items ≡ n) }
    ensures device { IsErrOf result (plan.Engine engine.Device)
        ↔ (D.failed from.new ≡ D.failed from.old + 1) }
    ensures kept { ¬ IsErrOf result (plan.Engine engine.Device)
        → D.failed from.new ≡ D.failed from.old }
{
    let too_long = PlanFault::Schedule(ScheduleProblem::InputTooLong);
    let text = text_from(alloc, from, too_long)?;
    entries_in(alloc, text.as_slice(), n, periods, ways)
}

// Adds the period of a block.
fn push_period(periods: &mut Vec<u32>, period: u32) -> Result<(), AllocError>
    ensures { OnOk result (periods.new.items ≡ periods.old.items ++ period ∷ []) }
{
    periods.push(period)?;
    Ok(())
}

/// The periods of entries.
pub(crate) fn periods_in_entries(alloc: Global, entries: &[Entry]) -> Result<Vec<u32>, AllocError>
    ensures { IfOk result (λ v. v.items ≡ map (λ e. e.period) entries.now) }
{
    let mut periods: Vec<u32> = Vec::new(alloc);
    for b in 0..entries.len() {
        push_period(&mut periods, entries[b].period)?;
    }
    Ok(periods)
}
