//! Judges the certificates by which a bound is proved, and gives the bound on every schedule of the whole mine.

ghost use Rattle.std.specs.Prelude.{◌≡◌, ◌+◌, ◌-◌, ◌^◌, ◌<◌, ◌≤◌, List, ℕ, Some, length, IfErr, IfOk, IfSome, IsErrOf};
ghost use Rattle.std.specs.Thread.{IsSync};
ghost use Rattle.check_engines.specs.Judging.{factor_in};
ghost use Rattle.mine_inputs.specs.Mines.{MineTexts};
ghost use Rattle.mine_inputs.specs.ReadMines.{IsMineRead};
ghost use Rattle.mine_inputs.specs.Ways.{ways_of};
ghost use Rattle.engine_faults.specs.declared.engine_fault.EngineFault.TheVariants as engine;
ghost use Rattle.periods_file.specs.Periods.{periods_view};
ghost use Rattle.schedule_engines.specs.PlanTexts.{ReadsPeriodsBy};
ghost use Rattle.schedule_engines.specs.WayUses.{ReadsWayUses};
ghost use Rattle.schedule_engines.specs.declared.plan_fault.PlanFault.TheVariants as plan;
ghost use Rattle.planned_mine.specs.declared.bound_fault.BoundFault.TheVariants as bound;
ghost use Rattle.bound_engines.specs.Bounded.{IsToldOf};
ghost use Rattle.bound_engines.specs.Pits.{CertificatesCanCount, ForCertificates, certificate_failures, pit_failures};
ghost use Rattle.planned_mine.specs.TextFaults.{IsBeyondTexts};

use crate::bound_judge::{BoundJudgement, Case, judge_bound};
use crate::certificates::Certificates;
use crate::part_judge::judge_part;
use crate::pit_part::{Parted, parted_by};
use core::mem::replace_with;
use counted_devices::CountedRead;
use mine_inputs::ListedMine;
use planned_mine::{BesideRead, BoundFault};
use std::alloc::Global;
use std::thread::Threads;

// The bound that the certificate of a pit and that of the nodes of its blocks prove.
fn told_within<R: Threads + Sync, C: CountedRead>(
    rt: &R,
    alloc: Global,
    mine: ListedMine,
    beside: &BesideRead,
    pit: &mut C,
    nodes: &mut C,
) -> Result<BoundJudgement, BoundFault>
    requires few { length beside.now.periods.shared.items ≤ 8 }
    requires pit_count { C.failed pit.old < 2 ^ 64 - 1 }
    requires nodes_count { C.failed nodes.old < 2 ^ 64 - 1 }
    requires sync { IsSync R.row }
    ensures told { IfSome (C.remaining pit.old)
        (λ o. IfSome (C.remaining nodes.old) (λ c. (texts : MineTexts) (p u : List ℕ)
        → IsMineRead texts (factor_in c) mine.worths mine.predecessors
        → ReadsPeriodsBy (ways_of texts) p (periods_view beside.now.periods)
        → ReadsWayUses mine.predecessors.blocks (ways_of texts) (periods_view beside.now.periods) u
        beside.now.uses.items beside.now.waits
        → IfOk result (IsToldOf texts p u (Some o)))) }
    ensures device { IsErrOf result (bound.Plan (plan.Engine engine.Device))
        → C.failed pit.new + C.failed nodes.new ≡ C.failed pit.old + C.failed nodes.old + 1 }
    ensures kept { ¬ IsErrOf result (bound.Plan (plan.Engine engine.Device))
        → (C.failed pit.new ≡ C.failed pit.old) × (C.failed nodes.new ≡ C.failed nodes.old) }
    ensures beyond { IfErr result IsBeyondTexts }
{
    match parted_by(rt, alloc, mine, beside, pit) {
        Ok(Parted::Part(part, whole)) => {
            drop(whole);
            replace_with(nodes, part, judge_part)
        }
        Ok(Parted::Refused(fault)) => Ok(BoundJudgement::Refused(fault)),
        Err(fault) => Err(fault),
    }
}

/// The bound that certificates prove for a mine and its periods that were read.
///
/// # Errors
/// Those of `judge_bound`; where the certificate of a pit is given, first those of `judge_pit`.
pub(crate) fn told_by_certificates<R: Threads + Sync, C: CountedRead>(
    rt: &R,
    alloc: Global,
    mine: ListedMine,
    beside: BesideRead,
    certificates: &mut Certificates<C>,
) -> Result<BoundJudgement, BoundFault>
    requires few { length beside.periods.shared.items ≤ 8 }
    requires count { CertificatesCanCount certificates.old C.failed }
    requires sync { IsSync R.row }
    ensures told { ForCertificates certificates.old C.remaining
        (λ o c. (texts : MineTexts) (p u : List ℕ)
        → IsMineRead texts (factor_in c) mine.worths mine.predecessors
        → ReadsPeriodsBy (ways_of texts) p (periods_view beside.periods)
        → ReadsWayUses mine.predecessors.blocks (ways_of texts) (periods_view beside.periods) u
        beside.uses.items beside.waits
        → IfOk result (IsToldOf texts p u o)) }
    ensures device { IsErrOf result (bound.Plan (plan.Engine engine.Device))
        → certificate_failures certificates.new C.failed
        ≡ certificate_failures certificates.old C.failed + 1 }
    ensures kept { ¬ IsErrOf result (bound.Plan (plan.Engine engine.Device))
        → (pit_failures certificates.new.pit C.failed ≡ pit_failures certificates.old.pit C.failed)
        × (C.failed certificates.new.nodes ≡ C.failed certificates.old.nodes) }
    ensures beyond { IfErr result IsBeyondTexts }
{
    match &mut certificates.pit {
        Some(pit) => told_within(rt, alloc, mine, &beside, pit, &mut certificates.nodes),
        None => {
            let case = Case {
                alloc,
                mine,
                beside,
            };
            replace_with(&mut certificates.nodes, case, judge_bound)
        }
    }
}
