//! Judges a schedule of the whole mine, and beside it the certificates by which a bound on all schedules is proved.

ghost use Rattle.std.specs.Prelude.{◌≡◌, ◌+◌, ◌-◌, ◌^◌, ◌<◌, ◌≤◌, List, ℕ, Some, length, IfErr, IfOk, IfSome, IsErrOf};
ghost use Rattle.std.specs.Thread.{IsSync};
ghost use Rattle.check_engines.specs.Judging.{factor_in};
ghost use Rattle.mine_inputs.specs.Mines.{MineTexts};
ghost use Rattle.mine_inputs.specs.ReadMines.{IsMineRead};
ghost use Rattle.mine_inputs.specs.Ways.{ways_of};
ghost use Rattle.engine_faults.specs.declared.engine_fault.EngineFault.TheVariants as engine;
ghost use Rattle.periods_file.specs.Periods.{periods_view};
ghost use Rattle.schedule_engines.specs.PlanDevices.{IsPlanRead};
ghost use Rattle.schedule_engines.specs.Schedules.{IsTreatedFor};
ghost use Rattle.schedule_engines.specs.declared.plan_fault.PlanFault.TheVariants as plan;
ghost use Rattle.schedule_value.specs.Judging.{judged_view};
ghost use Rattle.planned_mine.specs.PlannedNodes.{IsSound};
ghost use Rattle.planned_mine.specs.declared.bound_fault.BoundFault.TheVariants as bound;
ghost use Rattle.gap_engines.specs.Gaps.{IsComparedBy};
ghost use Rattle.bound_engines.specs.Bounded.{IsToldIn};
ghost use Rattle.bound_engines.specs.Parts.{IsToldAt};
ghost use Rattle.bound_engines.specs.Pits.{CertificatesCanCount, ForCertificates, certificate_failures, pit_failures};
ghost use Rattle.planned_mine.specs.TextFaults.{IsBeyondTexts};

use crate::compared_judge::{Compared, ComparedCase, judge_compared, judged_by};
use bound_engines::{
    BoundJudgement, Certificates, PartCase, Parted, WholeMine, judge_part, parted_by,
};
use check_pit::PitFault;
use core::mem::replace_with;
use counted_devices::CountedRead;
use mine_inputs::ListedMine;
use planned_mine::{BesideRead, BoundFault, lent_list};
use schedule_engines::PlanRead;
use schedule_value::Judged;
use std::alloc::Global;
use std::thread::Threads;

/// What a schedule comes to beside the bound of certificates, or why there is no pit for it.
#[derive(Drop)]
pub(crate) enum ComparedBy {
    /// The schedule, and what the nodes' certificate tells.
    Bound(Compared),
    /// The certificate of the pit proves none, for this reason.
    NoPit(PitFault),
}

// What a schedule of a mine whose pit was judged comes to.
fn judged_whole(
    alloc: Global,
    part: &PartCase,
    whole: WholeMine,
    read: &PlanRead,
) -> Result<Judged, BoundFault>
    requires few { length read.now.periods.shared.items ≤ 8 }
    requires each { length read.now.entries.items ≡ whole.held.blocks }
    ensures told { (texts : MineTexts) (p u s : List ℕ)
        → IsMineRead texts part.now.factor part.now.worths whole.held
        → IsPlanRead whole.held.blocks (ways_of texts) read.now p u s
        → IfOk result (λ j. IsTreatedFor texts p u s whole.held.blocks
        (periods_view read.now.periods) read.now.waits (judged_view j)) }
    ensures no_device { ¬ IsErrOf result (bound.Plan (plan.Engine engine.Device)) }
    ensures beyond { IfErr result IsBeyondTexts }
{
    let list = match lent_list(&whole.held) {
        Ok(list) => list,
        Err(fault) => return Err(fault),
    };
    match judged_by(alloc, &part.worths, part.factor, list, read) {
        Ok(judged) => Ok(judged),
        Err(fault) => Err(fault),
    }
}

// The bound that the certificate of a device proves for the blocks of a pit. The device is handed back. A function of
// another crate can't be handed on as a value, so it is called here.
fn told_of_part<C: CountedRead>(
    device: C,
    case: PartCase,
) -> (C, Result<BoundJudgement, BoundFault>)
    requires sound { IsSound case.figured }
    requires count { C.failed device < 2 ^ 64 - 1 }
    ensures told { IfOk result.1 (IsToldIn case.figured) }
    ensures price { IfSome (C.remaining device) (λ c. IfOk result.1
        (λ _. IsToldAt case.worths case.factor (factor_in c))) }
    ensures device { IsErrOf result.1 (bound.Plan (plan.Engine engine.Device))
        → C.failed result.0 ≡ C.failed device + 1 }
    ensures kept { ¬ IsErrOf result.1 (bound.Plan (plan.Engine engine.Device))
        → C.failed result.0 ≡ C.failed device }
    ensures beyond { IfErr result.1 IsBeyondTexts }
{
    judge_part(device, case)
}

// The same beside the bound that the certificate of a pit and that of the nodes of its blocks prove.
fn compared_in_pit<R: Threads + Sync, C: CountedRead>(
    rt: &R,
    alloc: Global,
    mine: ListedMine,
    read: PlanRead,
    pit: &mut C,
    nodes: &mut C,
) -> Result<ComparedBy, BoundFault>
    requires few { length read.periods.shared.items ≤ 8 }
    requires each { length read.entries.items ≡ mine.predecessors.blocks }
    requires pit_count { C.failed pit.old < 2 ^ 64 - 1 }
    requires nodes_count { C.failed nodes.old < 2 ^ 64 - 1 }
    requires sync { IsSync R.row }
    ensures told { IfSome (C.remaining pit.old)
        (λ o. IfSome (C.remaining nodes.old) (λ c. (texts : MineTexts) (p u s : List ℕ)
        → IsMineRead texts (factor_in c) mine.worths mine.predecessors
        → IsPlanRead mine.predecessors.blocks (ways_of texts) read p u s
        → IfOk result (IsComparedBy texts p u (Some o) s))) }
    ensures device { IsErrOf result (bound.Plan (plan.Engine engine.Device))
        → C.failed pit.new + C.failed nodes.new ≡ C.failed pit.old + C.failed nodes.old + 1 }
    ensures kept { ¬ IsErrOf result (bound.Plan (plan.Engine engine.Device))
        → (C.failed pit.new ≡ C.failed pit.old) × (C.failed nodes.new ≡ C.failed nodes.old) }
    ensures beyond { IfErr result IsBeyondTexts }
{
    let PlanRead {
        periods,
        uses,
        waits,
        entries,
    } = read;
    let beside = BesideRead {
        periods,
        uses,
        waits,
    };
    let (part, whole) = match parted_by(rt, alloc, mine, &beside, pit) {
        Ok(Parted::Part(part, whole)) => (part, whole),
        Ok(Parted::Refused(fault)) => return Ok(ComparedBy::NoPit(fault)),
        Err(fault) => return Err(fault),
    };
    let read = PlanRead {
        periods: beside.periods,
        uses: beside.uses,
        waits: beside.waits,
        entries,
    };
    let judged = match judged_whole(alloc, &part, whole, &read) {
        Ok(judged) => judged,
        Err(fault) => return Err(fault),
    };
    match replace_with(nodes, part, told_of_part) {
        Ok(told) => Ok(ComparedBy::Bound(Compared { judged, told })),
        Err(fault) => Err(fault),
    }
}

/// What a schedule that was read comes to, and what certificates tell of all schedules of that mine and its periods.
///
/// # Errors
/// Those of `judge_compared`; where the certificate of a pit is given, first those of `judge_pit`.
pub(crate) fn compared_by<R: Threads + Sync, C: CountedRead>(
    rt: &R,
    alloc: Global,
    mine: ListedMine,
    read: PlanRead,
    certificates: &mut Certificates<C>,
) -> Result<ComparedBy, BoundFault>
    requires few { length read.periods.shared.items ≤ 8 }
    requires each { length read.entries.items ≡ mine.predecessors.blocks }
    requires count { CertificatesCanCount certificates.old C.failed }
    requires sync { IsSync R.row }
    ensures told { ForCertificates certificates.old C.remaining
        (λ o c. (texts : MineTexts) (p u s : List ℕ)
        → IsMineRead texts (factor_in c) mine.worths mine.predecessors
        → IsPlanRead mine.predecessors.blocks (ways_of texts) read p u s
        → IfOk result (IsComparedBy texts p u o s)) }
    ensures device { IsErrOf result (bound.Plan (plan.Engine engine.Device))
        → certificate_failures certificates.new C.failed
        ≡ certificate_failures certificates.old C.failed + 1 }
    ensures kept { ¬ IsErrOf result (bound.Plan (plan.Engine engine.Device))
        → (pit_failures certificates.new.pit C.failed ≡ pit_failures certificates.old.pit C.failed)
        × (C.failed certificates.new.nodes ≡ C.failed certificates.old.nodes) }
    ensures beyond { IfErr result IsBeyondTexts }
{
    let case = match &mut certificates.pit {
        Some(pit) => {
            return compared_in_pit(rt, alloc, mine, read, pit, &mut certificates.nodes);
        }
        None => ComparedCase { alloc, mine, read },
    };
    match replace_with(&mut certificates.nodes, case, judge_compared) {
        Ok(compared) => Ok(ComparedBy::Bound(compared)),
        Err(fault) => Err(fault),
    }
}
