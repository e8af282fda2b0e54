//! Judges a certificate of the expanded mine of what was read, and gives the bound that it proves.

ghost use Rattle.std.specs.Prelude.{◌≡◌, ◌+◌, ◌-◌, ◌*◌, ◌^◌, ◌<◌, ◌≤◌, List, ℕ, None, length, IfErr, IfOk, IfSome, IsErrOf};
ghost use Rattle.ordered_group.specs.declared.groups.Group.TheVariants as group;
ghost use Rattle.check_pit.specs.CertStreams.{IsReadFor};
ghost use Rattle.check_engines.specs.Judging.{IsFresh, IsUndecided, factor_in};
ghost use Rattle.mine_inputs.specs.Mines.{MineTexts};
ghost use Rattle.mine_inputs.specs.ReadMines.{IsMineRead};
ghost use Rattle.mine_inputs.specs.Ways.{ways_of};
ghost use Rattle.engine_faults.specs.declared.engine_fault.EngineFault.TheVariants as engine;
ghost use Rattle.periods_file.specs.Periods.{periods_view};
ghost use Rattle.schedule_engines.specs.PlanTexts.{ReadsPeriodsBy};
ghost use Rattle.schedule_engines.specs.WayUses.{ReadsWayUses};
ghost use Rattle.schedule_engines.specs.declared.plan_fault.PlanFault.TheVariants as plan;
ghost use Rattle.planned_mine.specs.declared.bound_fault.BoundFault.TheVariants as bound;
ghost use Rattle.bound_engines.specs.Bounded.{IsToldBy, IsToldIn, IsToldOf};
ghost use Rattle.planned_mine.specs.PlannedNodes.{IsSound};
ghost use Rattle.planned_mine.specs.TextFaults.{IsBeyondTexts};

use crate::nodes_judge::{NodesJudged, factor_from, judge_nodes};
use check_pit::{CertStream, PitFault, StreamBytes};
use counted_devices::CountedRead;
use engine_faults::EngineFault;
use expanded_mine::bound_by;
use fixed_worth::MOST_BLOCKS;
use mine_inputs::{ListedMine, Worths};
use planned_mine::{
    BesideRead, BoundFault, Expanded, Figured, NodesProblem, figured_of, nodes_of_figures,
};
use schedule_engines::PlanFault;
use shells::Factor;
use std::alloc::Global;

/// What a certificate of the expanded mine tells.
#[derive(Clone, Copy, Debug, PartialEq, Eq)]
pub enum BoundJudgement {
    /// No feasible schedule is worth more than this, in 10^-15 of the unit of the worths.
    Bound(i128),
    /// Nothing, for this reason.
    Refused(PitFault),
}

/// A mine and its periods, for which a certificate is judged.
#[derive(Drop)]
pub(crate) struct Case {
    pub(crate) alloc: Global,
    pub(crate) mine: ListedMine,
    pub(crate) beside: BesideRead,
}

// How many nodes there are.
pub(crate) fn nodes_of(blocks: u32, periods: usize) -> Result<u32, BoundFault>
    ensures is { IfOk result (λ nodes. (nodes ≡ periods * blocks)) }
    ensures no_device { ¬ IsErrOf result (bound.Plan (plan.Engine engine.Device)) }
    ensures beyond { IfErr result IsBeyondTexts }
{
    match (periods as u64).checked_mul(blocks as u64) {
        Some(nodes) if nodes <= MOST_BLOCKS as u64 => Ok(nodes as u32),
        _ => Err(BoundFault::Nodes(NodesProblem::TooManyNodes)),
    }
}

/// What a certificate whose header was read tells of nodes that were made of what was read.
///
/// # Errors
/// Those of `judge_nodes`, and `Nodes` with `TooLarge` where the bound doesn't fit.
pub(crate) fn bound_of_nodes<C: CountedRead>(
    alloc: Global,
    expanded: Expanded,
    stream: &mut CertStream<C>,
) -> Result<BoundJudgement, BoundFault>
    requires count { C.failed stream.old.lines.from < 2 ^ 64 - 1 }
    requires open { IsUndecided stream.old }
    requires header { IsReadFor expanded.pairs.blocks group.Worth stream.old.header
        stream.old.fault }
    ensures told { IfOk result
        (IsToldBy expanded.figures expanded.prices.items expanded.pairs expanded.worths.items) }
    ensures device { IsErrOf result (bound.Plan (plan.Engine engine.Device))
        → C.failed stream.new.lines.from ≡ C.failed stream.old.lines.from + 1 }
    ensures kept { ¬ IsErrOf result (bound.Plan (plan.Engine engine.Device))
        → C.failed stream.new.lines.from ≡ C.failed stream.old.lines.from }
    ensures beyond { IfErr result IsBeyondTexts }
{
    let judged = match judge_nodes(alloc, &expanded.pairs, expanded.worths.as_slice(), stream) {
        Ok(judged) => judged,
        Err(fault) => return Err(fault),
    };
    match judged {
        NodesJudged::Richest(worth) => {
            match bound_by(&expanded.figures, expanded.prices.as_slice(), worth) {
                Some(bound) => Ok(BoundJudgement::Bound(bound)),
                None => Err(BoundFault::Nodes(NodesProblem::TooLarge)),
            }
        }
        NodesJudged::Refused(fault) => Ok(BoundJudgement::Refused(fault)),
    }
}

/// The bound of a certificate after its header, for a mine and its periods with these figures.
///
/// # Errors
/// `Nodes` where there are too many or what they are worth doesn't fit; then those of `judge_nodes`.
pub fn bound_after<C: CountedRead>(
    alloc: Global,
    figured: Figured,
    stream: &mut CertStream<C>,
) -> Result<BoundJudgement, BoundFault>
    requires sound { IsSound figured }
    requires count { C.failed stream.old.lines.from < 2 ^ 64 - 1 }
    requires open { IsUndecided stream.old }
    requires header { IsReadFor (length figured.figures.weights * figured.predecessors.blocks)
        group.Worth stream.old.header stream.old.fault }
    ensures told { IfOk result (IsToldIn figured) }
    ensures device { IsErrOf result (bound.Plan (plan.Engine engine.Device))
        → C.failed stream.new.lines.from ≡ C.failed stream.old.lines.from + 1 }
    ensures kept { ¬ IsErrOf result (bound.Plan (plan.Engine engine.Device))
        → C.failed stream.new.lines.from ≡ C.failed stream.old.lines.from }
    ensures beyond { IfErr result IsBeyondTexts }
{
    match nodes_of_figures(alloc, figured) {
        Ok(expanded) => bound_of_nodes(alloc, expanded, stream),
        Err(fault) => Err(fault),
    }
}

/// Reads the header of a certificate of the nodes of so many blocks over so many periods, and gives the factor that it
/// names.
///
/// # Errors
/// `Nodes` with `TooManyNodes`, then those of `factor_from`.
pub fn factor_of_nodes<C: CountedRead>(
    worths: &Worths,
    blocks: u32,
    periods: usize,
    stream: &mut CertStream<C>,
) -> Result<Factor, BoundFault>
    requires count { C.failed stream.old.lines.from < 2 ^ 64 - 1 }
    requires fresh { IsFresh stream.old }
    ensures factor { IfSome (C.remaining stream.old.lines.from)
        (λ c. IfOk result (λ factor. factor ≡ factor_in c)) }
    ensures header { IfOk result
        (λ _. IsReadFor (periods * blocks) group.Worth stream.new.header stream.new.fault) }
    ensures open { IfOk result (λ _. IsUndecided stream.new) }
    ensures device { IsErrOf result (bound.Plan (plan.Engine engine.Device))
        → C.failed stream.new.lines.from ≡ C.failed stream.old.lines.from + 1 }
    ensures kept { ¬ IsErrOf result (bound.Plan (plan.Engine engine.Device))
        → C.failed stream.new.lines.from ≡ C.failed stream.old.lines.from }
    ensures beyond { IfErr result IsBeyondTexts }
{
    let nodes = match nodes_of(blocks, periods) {
        Ok(nodes) => nodes,
        Err(fault) => return Err(fault),
    };
    match factor_from(worths, nodes, stream) {
        Ok(factor) => Ok(factor),
        Err(fault) => Err(fault),
    }
}

// The bound of a certificate of which nothing was read.
fn bound_from<C: CountedRead>(
    alloc: Global,
    mine: ListedMine,
    beside: BesideRead,
    stream: &mut CertStream<C>,
) -> Result<BoundJudgement, BoundFault>
    requires few { length beside.periods.shared.items ≤ 8 }
    requires count { C.failed stream.old.lines.from < 2 ^ 64 - 1 }
    requires fresh { IsFresh stream.old }
    ensures told { IfSome (C.remaining stream.old.lines.from)
        (λ c. (texts : MineTexts) (p u : List ℕ)
        → IsMineRead texts (factor_in c) mine.worths mine.predecessors
        → ReadsPeriodsBy (ways_of texts) p (periods_view beside.periods)
        → ReadsWayUses mine.predecessors.blocks (ways_of texts) (periods_view beside.periods) u
        beside.uses.items beside.waits
        → IfOk result (IsToldOf texts p u None)) }
    ensures device { IsErrOf result (bound.Plan (plan.Engine engine.Device))
        → C.failed stream.new.lines.from ≡ C.failed stream.old.lines.from + 1 }
    ensures kept { ¬ IsErrOf result (bound.Plan (plan.Engine engine.Device))
        → C.failed stream.new.lines.from ≡ C.failed stream.old.lines.from }
    ensures beyond { IfErr result IsBeyondTexts }
{
    let ListedMine {
        worths,
        predecessors,
    } = mine;
    let periods = beside.periods.weights.as_slice().len();
    let factor = match factor_of_nodes(&worths, predecessors.len(), periods, stream) {
        Ok(factor) => factor,
        Err(fault) => return Err(fault),
    };
    let figured = match figured_of(alloc, &worths, factor, predecessors, beside) {
        Ok(figured) => figured,
        Err(fault) => return Err(fault),
    };
    bound_after(alloc, figured, stream)
}

/// The bound that the certificate of a device proves for a mine and its periods that were read. Where the blocks have
/// prices they are worth what these give at the factor that the certificate names, by each way to treat them. The
/// device is handed back.
///
/// # Errors
/// `Nodes` where there are too many or what they are worth doesn't fit; `Certificate` with the first fault of the
/// certificate; `Device` where a read fails, and `Memory` where memory is refused.
pub(crate) fn judge_bound<C: CountedRead>(
    device: C,
    case: Case,
) -> (C, Result<BoundJudgement, BoundFault>)
    requires few { length case.beside.periods.shared.items ≤ 8 }
    requires count { C.failed device < 2 ^ 64 - 1 }
    ensures told { IfSome (C.remaining device) (λ c. (texts : MineTexts) (p u : List ℕ)
        → IsMineRead texts (factor_in c) case.mine.worths case.mine.predecessors
        → ReadsPeriodsBy (ways_of texts) p (periods_view case.beside.periods)
        → ReadsWayUses case.mine.predecessors.blocks (ways_of texts)
        (periods_view case.beside.periods) u case.beside.uses.items case.beside.waits
        → IfOk result.1 (IsToldOf texts p u None)) }
    ensures device { IsErrOf result.1 (bound.Plan (plan.Engine engine.Device))
        → C.failed result.0 ≡ C.failed device + 1 }
    ensures kept { ¬ IsErrOf result.1 (bound.Plan (plan.Engine engine.Device))
        → C.failed result.0 ≡ C.failed device }
    ensures beyond { IfErr result.1 IsBeyondTexts }
{
    let Case {
        alloc,
        mine,
        beside,
    } = case;
    let Ok(held) = StreamBytes::new(alloc) else {
        let fault = BoundFault::Plan(PlanFault::Engine(EngineFault::Memory));
        return (device, Err(fault));
    };
    let mut stream = CertStream::over(held, device);
    let told = bound_from(alloc, mine, beside, &mut stream);
    (stream.into_device(), told)
}
