//! Makes what a solver needs of a mine and its periods that were read, or of the blocks of a pit alone.

ghost use Rattle.std.specs.Prelude.{◌≡◌, ◌+◌, ◌-◌, ◌^◌, ◌<◌, ◌≤◌, length, IfErr, IfOk, IsErrOf};
ghost use Rattle.std.specs.Thread.{IsSync};
ghost use Rattle.engine_faults.specs.declared.engine_fault.EngineFault.TheVariants as engine;
ghost use Rattle.schedule_engines.specs.declared.plan_fault.PlanFault.TheVariants as plan;
ghost use Rattle.planned_mine.specs.declared.bound_fault.BoundFault.TheVariants as bound;
ghost use Rattle.plan_engines.specs.PlansToSolve.{IsPartPlan, IsRightPlan, IsToSolve, IsWholePlan};
ghost use Rattle.bound_engines.specs.Pits.{PitCanCount, pit_failures};
ghost use Rattle.planned_mine.specs.TextFaults.{IsBeyondTexts};

use bound_engines::{Parted, is_same_price, of_certificate, parted_by};
use certificate_file::Price;
use check_pit::PitFault;
use counted_devices::CountedRead;
use engine_faults::CertificateProblem;
use mine_inputs::ListedMine;
use planned_mine::{BesideRead, BoundFault, Figured, figured_of};
use shells::Factor;
use std::alloc::Global;
use std::thread::Threads;

/// What is to be solved, or why there is no pit for it.
#[derive(Drop)]
pub(crate) enum ToSolve {
    /// A mine and its periods, where the certificate names this price.
    Plan(Figured, Price),
    /// The certificate of the pit proves none, for this reason.
    NoPit(PitFault),
}

// All of a mine and its periods, where its blocks have prices at this factor.
fn whole_plan(
    alloc: Global,
    mine: ListedMine,
    beside: BesideRead,
    factor: Factor,
) -> Result<ToSolve, BoundFault>
    requires few { length beside.periods.shared.items ≤ 8 }
    ensures is { IfOk result (IsWholePlan mine.worths mine.predecessors beside factor) }
    ensures right { IfOk result IsRightPlan }
    ensures no_device { ¬ IsErrOf result (bound.Plan (plan.Engine engine.Device)) }
    ensures beyond { IfErr result IsBeyondTexts }
{
    let ListedMine {
        worths,
        predecessors,
    } = mine;
    let price = worths.price_at(factor);
    match figured_of(alloc, &worths, factor, predecessors, beside) {
        Ok(figured) => Ok(ToSolve::Plan(figured, price)),
        Err(fault) => Err(fault),
    }
}

// What the blocks of a pit have of them, whose certificate has to name the price at this factor.
fn part_plan<R: Threads + Sync, D: CountedRead>(
    rt: &R,
    alloc: Global,
    mine: ListedMine,
    beside: &BesideRead,
    factor: Factor,
    pit: &mut D,
) -> Result<ToSolve, BoundFault>
    requires few { length beside.now.periods.shared.items ≤ 8 }
    requires count { D.failed pit.old < 2 ^ 64 - 1 }
    requires sync { IsSync R.row }
    ensures is { IfOk result (IsPartPlan (D.remaining pit.old) mine.worths mine.predecessors
        beside.now factor) }
    ensures right { IfOk result IsRightPlan }
    ensures device { IsErrOf result (bound.Plan (plan.Engine engine.Device))
        → D.failed pit.new ≡ D.failed pit.old + 1 }
    ensures kept { ¬ IsErrOf result (bound.Plan (plan.Engine engine.Device))
        → D.failed pit.new ≡ D.failed pit.old }
    ensures beyond { IfErr result IsBeyondTexts }
{
    let part = match parted_by(rt, alloc, mine, beside, pit) {
        Ok(Parted::Part(part, _)) => part,
        Ok(Parted::Refused(fault)) => return Ok(ToSolve::NoPit(fault)),
        Err(fault) => return Err(fault),
    };
    if !is_same_price(&part.worths, part.factor, factor) {
        return Err(of_certificate(CertificateProblem::WrongPrice));
    }
    let price = part.worths.price_at(factor);
    Ok(ToSolve::Plan(part.figured, price))
}

/// A mine and its periods that were read, or the part of them that the blocks of a pit have, where a certificate of one
/// is given.
///
/// # Errors
/// `Periods` with `TooLarge` where a figure is too large; where a certificate is given, before it those of `judge_pit`,
/// and `Certificate` with `WrongPrice` where the pit's price isn't that at this factor.
pub(crate) fn plan_to_solve<R: Threads + Sync, D: CountedRead>(
    rt: &R,
    alloc: Global,
    mine: ListedMine,
    beside: BesideRead,
    factor: Factor,
    pit: &mut Option<D>,
) -> Result<ToSolve, BoundFault>
    requires few { length beside.periods.shared.items ≤ 8 }
    requires count { PitCanCount pit.old D.failed }
    requires sync { IsSync R.row }
    ensures is { IfOk result
        (IsToSolve pit.old D.remaining mine.worths mine.predecessors beside factor) }
    ensures right { IfOk result IsRightPlan }
    ensures device { IsErrOf result (bound.Plan (plan.Engine engine.Device))
        → pit_failures pit.new D.failed ≡ pit_failures pit.old D.failed + 1 }
    ensures kept { ¬ IsErrOf result (bound.Plan (plan.Engine engine.Device))
        → pit_failures pit.new D.failed ≡ pit_failures pit.old D.failed }
    ensures beyond { IfErr result IsBeyondTexts }
{
    match pit {
        Some(device) => part_plan(rt, alloc, mine, &beside, factor, device),
        None => whole_plan(alloc, mine, beside, factor),
    }
}
