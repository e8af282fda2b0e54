//! Judges a schedule, and beside it a certificate of the expanded mine, which bounds all schedules.

ghost use Rattle.std.specs.Prelude.{◌≡◌, ◌+◌, ◌-◌, ◌^◌, ◌<◌, ◌≤◌, List, ℕ, None, length, IfErr, IfOk, IfSome, IsErrOf};
ghost use Rattle.check_engines.specs.Judging.{IsFresh, factor_in};
ghost use Rattle.mine_inputs.specs.Mines.{MineTexts};
ghost use Rattle.mine_inputs.specs.ReadMines.{IsMineRead};
ghost use Rattle.mine_inputs.specs.Ways.{ways_of};
ghost use Rattle.engine_faults.specs.declared.engine_fault.EngineFault.TheVariants as engine;
ghost use Rattle.periods_file.specs.Periods.{periods_view};
ghost use Rattle.schedule_value.specs.Judging.{judged_view};
ghost use Rattle.schedule_engines.specs.PlanDevices.{IsPlanRead};
ghost use Rattle.schedule_engines.specs.Schedules.{IsTreatedFor};
ghost use Rattle.schedule_engines.specs.declared.plan_fault.PlanFault.TheVariants as plan;
ghost use Rattle.planned_mine.specs.declared.bound_fault.BoundFault.TheVariants as bound;
ghost use Rattle.gap_engines.specs.Gaps.{IsCompared};
ghost use Rattle.planned_mine.specs.TextFaults.{IsBeyondTexts};

use bound_engines::{BoundJudgement, bound_after, factor_of_nodes};
use check_pit::{CertStream, StreamBytes};
use closure_net::NetFault;
use counted_devices::CountedRead;
use engine_faults::EngineFault;
use mine_inputs::{ListedMine, Worths};
use planned_mine::{BesideRead, BoundFault, figured_of};
use prec_file::Predecessors;
use schedule_engines::{PlanFault, PlanRead, judge_chosen};
use schedule_value::Judged;
use shells::Factor;
use std::alloc::Global;

/// What a schedule comes to, and what a certificate tells of all schedules.
#[derive(Drop)]
pub(crate) struct Compared {
    pub(crate) judged: Judged,
    pub(crate) told: BoundJudgement,
}

/// A mine, its periods and a schedule, for which a certificate is judged.
#[derive(Drop)]
pub(crate) struct ComparedCase {
    pub(crate) alloc: Global,
    pub(crate) mine: ListedMine,
    pub(crate) read: PlanRead,
}

/// What a schedule of the whole mine comes to, where each block goes the way that it names, or the first by which it is
/// worth most.
///
/// # Errors
/// Those of `judge_chosen`.
#[tactic(auto, using(crate::proofs::SchedulesFailing::unjudged_beyond))]
pub(crate) fn judged_by(
    alloc: Global,
    worths: &Worths,
    factor: Factor,
    base: &Predecessors,
    read: &PlanRead,
) -> Result<Judged, BoundFault>
    requires few { length read.now.periods.shared.items ≤ 8 }
    requires each { length read.now.entries.items ≡ base.now.blocks }
    ensures told { (texts : MineTexts) (p u s : List ℕ)
        → IsMineRead texts factor worths.now base.now
        → IsPlanRead base.now.blocks (ways_of texts) read.now p u s
        → IfOk result (λ j. IsTreatedFor texts p u s base.now.blocks
        (periods_view read.now.periods) read.now.waits (judged_view j)) }
    ensures no_device { ¬ IsErrOf result (bound.Plan (plan.Engine engine.Device)) }
    ensures beyond { IfErr result IsBeyondTexts }
{
    // the texts of a mine say of as many blocks what they are worth as which blocks they rest on
    if worths.len() != base.len() {
        let fault = EngineFault::Model(NetFault::WrongLength);
        return Err(BoundFault::Plan(PlanFault::Engine(fault)));
    }
    match judge_chosen(alloc, worths, factor, base, read) {
        Ok(judged) => Ok(judged),
        Err(fault) => Err(BoundFault::Plan(fault)),
    }
}

// What a schedule comes to, and what a certificate of which nothing was read tells of all schedules.
fn compared_from<C: CountedRead>(
    alloc: Global,
    mine: ListedMine,
    read: PlanRead,
    stream: &mut CertStream<C>,
) -> Result<Compared, BoundFault>
    requires few { length read.periods.shared.items ≤ 8 }
    requires each { length read.entries.items ≡ mine.predecessors.blocks }
    requires count { C.failed stream.old.lines.from < 2 ^ 64 - 1 }
    requires fresh { IsFresh stream.old }
    ensures told { IfSome (C.remaining stream.old.lines.from)
        (λ c. (texts : MineTexts) (p u s : List ℕ)
        → IsMineRead texts (factor_in c) mine.worths mine.predecessors
        → IsPlanRead mine.predecessors.blocks (ways_of texts) read p u s
        → IfOk result (λ x. IsCompared texts p u None s (judged_view x.judged) x.told)) }
    ensures device { IsErrOf result (bound.Plan (plan.Engine engine.Device))
        → C.failed stream.new.lines.from ≡ C.failed stream.old.lines.from + 1 }
    ensures kept { ¬ IsErrOf result (bound.Plan (plan.Engine engine.Device))
        → C.failed stream.new.lines.from ≡ C.failed stream.old.lines.from }
    ensures beyond { IfErr result IsBeyondTexts }
{
    let ListedMine {
        worths,
        predecessors,
    } = mine;
    let count = read.periods.weights.as_slice().len();
    let factor = match factor_of_nodes(&worths, predecessors.len(), count, stream) {
        Ok(factor) => factor,
        Err(fault) => return Err(fault),
    };
    let judged = match judged_by(alloc, &worths, factor, &predecessors, &read) {
        Ok(judged) => judged,
        Err(fault) => return Err(fault),
    };
    let PlanRead {
        periods,
        uses,
        waits,
        entries: _entries,
    } = read;
    let beside = BesideRead {
        periods,
        uses,
        waits,
    };
    let figured = match figured_of(alloc, &worths, factor, predecessors, beside) {
        Ok(figured) => figured,
        Err(fault) => return Err(fault),
    };
    match bound_after(alloc, figured, stream) {
        Ok(told) => Ok(Compared { judged, told }),
        Err(fault) => Err(fault),
    }
}

/// What a schedule that was read comes to, and what the certificate of a device tells of all schedules of that mine and
/// its periods. Where the blocks have prices they are worth what these give at the factor that the certificate names.
/// The device is handed back.
///
/// # Errors
/// Those of `judge_bound`.
pub(crate) fn judge_compared<C: CountedRead>(
    device: C,
    case: ComparedCase,
) -> (C, Result<Compared, BoundFault>)
    requires few { length case.read.periods.shared.items ≤ 8 }
    requires each { length case.read.entries.items ≡ case.mine.predecessors.blocks }
    requires count { C.failed device < 2 ^ 64 - 1 }
    ensures told { IfSome (C.remaining device) (λ c. (texts : MineTexts) (p u s : List ℕ)
        → IsMineRead texts (factor_in c) case.mine.worths case.mine.predecessors
        → IsPlanRead case.mine.predecessors.blocks (ways_of texts) case.read p u s
        → IfOk result.1 (λ x. IsCompared texts p u None s (judged_view x.judged) x.told)) }
    ensures device { IsErrOf result.1 (bound.Plan (plan.Engine engine.Device))
        → C.failed result.0 ≡ C.failed device + 1 }
    ensures kept { ¬ IsErrOf result.1 (bound.Plan (plan.Engine engine.Device))
        → C.failed result.0 ≡ C.failed device }
    ensures beyond { IfErr result.1 IsBeyondTexts }
{
    let ComparedCase { alloc, mine, read } = case;
    let Ok(held) = StreamBytes::new(alloc) else {
        let fault = BoundFault::Plan(PlanFault::Engine(EngineFault::Memory));
        return (device, Err(fault));
    };
    let mut stream = CertStream::over(held, device);
    let told = compared_from(alloc, mine, read, &mut stream);
    (stream.into_device(), told)
}
