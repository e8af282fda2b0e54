//! Judges a schedule over a mine that was read, and writes what it comes to.

ghost use Rattle.std.specs.Prelude.{◌≡◌, ◌+◌, ◌-◌, ◌^◌, ◌<◌, ◌≤◌, ◌↔◌, ◌⊎◌, ℕ, List, length, IfErr, MatchResult, IsErrOf};
ghost use Rattle.mine_inputs.specs.Mines.{MineTexts};
ghost use Rattle.mine_inputs.specs.ReadMines.{IsMineRead};
ghost use Rattle.mine_inputs.specs.Ways.{ways_of};
ghost use Rattle.mine_inputs.specs.Worths.{blocks_valued};
ghost use Rattle.engine_faults.specs.declared.engine_fault.EngineFault.TheVariants as engine;
ghost use Rattle.periods_file.specs.Periods.{periods_view};
ghost use Rattle.production_figures.specs.Figures.{AreFigures, figures_view};
ghost use Rattle.schedule_value.specs.Judging.{judged_view};
ghost use Rattle.schedule_engines.specs.declared.plan_fault.PeriodsProblem.TheVariants as period_problem;
ghost use Rattle.schedule_engines.specs.declared.plan_fault.PlanFault.TheVariants as plan;
ghost use Rattle.schedule_engines.specs.Choice.{IsJudgedOf, IsUnjudged, JudgeFails, planned_as};
ghost use Rattle.schedule_engines.specs.PlanDevices.{IsPlanRead};
ghost use Rattle.schedule_engines.specs.ScheduleLines.{is_clear};
ghost use Rattle.schedule_engines.specs.Schedules.{IsTreatedFor, NoJudgement, Writes};

use crate::choice::{Chosen, lists_chosen};
use crate::plan_fault::{PeriodsProblem, PlanFault};
use crate::plan_read::PlanRead;
use crate::schedule_lines::write_schedule;
use closure_net::NetFault;
use counted_devices::CountedWrite;
use engine_faults::EngineFault;
use mine_inputs::Worths;
use periods_file::Periods;
use prec_file::Predecessors;
use production_figures::Figures;
use schedule_value::{Judged, judge_schedule};
use shells::Factor;
use std::alloc::Global;

/// Whether no pair is broken, none is too early, and nowhere is more used than there is: exactly then a schedule is
/// feasible and keeps its lag.
pub fn is_clear(judged: &Judged) -> bool
    ensures { result
        ≡ is_clear judged.now.broken.count judged.now.early.count judged.now.over.items }
{
    judged.broken.count == 0 && judged.early.count == 0 && judged.over.is_empty()
}

// The figures of a schedule over periods.
fn figures_with(
    alloc: Global,
    nanos: Vec<i128>,
    uses: Vec<u64>,
    periods: &Periods,
) -> Result<Figures, PlanFault>
    requires { length periods.now.shared.items ≤ 8 }
    ensures is { let f = figures_view nanos.items periods.now.weights.items
        (length periods.now.shared.items) uses.items periods.now.capacities.items in
        MatchResult result (λ g. g ≡ f) (λ e. (e ≡ plan.Engine engine.Memory)
        ⊎ ((e ≡ plan.Periods period_problem.TooLarge) × ¬ (AreFigures f))) }
    ensures unjudged { IfErr result IsUnjudged }
{
    let weights = Vec::from_slice(alloc, periods.weights.as_slice())?;
    let capacities = Vec::from_slice(alloc, periods.capacities.as_slice())?;
    let resources = periods.shared.as_slice().len() as u32;
    match Figures::new(nanos, weights, resources, uses, capacities) {
        Some(figures) => Ok(figures),
        None => Err(PlanFault::Periods(PeriodsProblem::TooLarge)),
    }
}

// What a schedule comes to whose blocks have these figures.
fn judged_of(
    alloc: Global,
    base: &Predecessors,
    read: &PlanRead,
    chosen: Chosen,
) -> Result<Judged, PlanFault>
    requires { length read.now.periods.shared.items ≤ 8 }
    ensures is { let q = planned_as base.now read.now chosen.nanos.items chosen.uses.items
        chosen.schedule.items in
        MatchResult result (λ j. IsJudgedOf q (judged_view j)) (JudgeFails q) }
    ensures unjudged { IfErr result IsUnjudged }
    ensures no_device { ¬ IsErrOf result (plan.Engine engine.Device) }
{
    let Chosen {
        nanos,
        uses,
        schedule,
    } = chosen;
    // the texts of a mine give as many worths as blocks, and the schedule a period for each
    let count = base.len();
    let waits = &read.waits;
    if nanos.len() != count as usize || schedule.len() != nanos.len() || waits.len() != count {
        return Err(PlanFault::Engine(EngineFault::Model(NetFault::WrongLength)));
    }
    let figures = figures_with(alloc, nanos, uses, &read.periods)?;
    let lag = read.periods.lag;
    Ok(judge_schedule(alloc, base, &figures, schedule.as_slice(), waits, lag)?)
}

/// What a schedule comes to over a mine that was read, where each block goes the way that the schedule names, or the
/// first by which it is worth most.
///
/// # Errors
/// `Model` where there are other numbers of blocks, `TooLarge` where a block is worth or costs too much, `Memory` where
/// memory is refused.
pub fn judge_chosen(
    alloc: Global,
    worths: &Worths,
    factor: Factor,
    base: &Predecessors,
    read: &PlanRead,
) -> Result<Judged, PlanFault>
    requires few { length read.now.periods.shared.items ≤ 8 }
    requires each { length read.now.entries.items ≡ base.now.blocks }
    requires valued { blocks_valued worths.now ≡ base.now.blocks }
    ensures told { (texts : MineTexts) (periods uses schedule : List ℕ)
        → IsMineRead texts factor worths.now base.now
        → IsPlanRead base.now.blocks (ways_of texts) read.now periods uses schedule
        → MatchResult result
        (λ j. IsTreatedFor texts periods uses schedule base.now.blocks
        (periods_view read.now.periods) read.now.waits (judged_view j))
        (NoJudgement texts periods uses schedule) }
    ensures unjudged { IfErr result IsUnjudged }
    ensures no_device { ¬ IsErrOf result (plan.Engine engine.Device) }
{
    let chosen = lists_chosen(alloc, worths, factor, base.len(), read)?;
    judged_of(alloc, base, read, chosen)
}

/// Judges a schedule over a mine that was read, writes what it comes to, and answers whether it is feasible.
///
/// # Errors
/// Those of `judge_chosen`: then nothing was written. `Device` where a write fails: the writer then has a prefix.
pub(crate) fn judge_planned<W: CountedWrite>(
    alloc: Global,
    worths: &Worths,
    factor: Factor,
    base: &Predecessors,
    read: &PlanRead,
    out: &mut W,
) -> Result<bool, PlanFault>
    requires few { length read.now.periods.shared.items ≤ 8 }
    requires each { length read.now.entries.items ≡ base.now.blocks }
    requires valued { blocks_valued worths.now ≡ base.now.blocks }
    requires room { W.failed out.old < 2 ^ 64 - 1 }
    ensures answer { (texts : MineTexts) (periods uses schedule : List ℕ)
        → IsMineRead texts factor worths.now base.now
        → IsPlanRead base.now.blocks (ways_of texts) read.now periods uses schedule
        → Writes texts periods uses schedule (W.contents out.old) (W.contents out.new) result }
    ensures device { IsErrOf result (plan.Engine engine.Device)
        ↔ (W.failed out.new ≡ W.failed out.old + 1) }
    ensures kept { ¬ IsErrOf result (plan.Engine engine.Device)
        → W.failed out.new ≡ W.failed out.old }
{
    let judged = judge_chosen(alloc, worths, factor, base, read)?;
    write_schedule(alloc, &judged, out)?;
    Ok(is_clear(&judged))
}
