//! Solves the expanded mine of what was read, and writes the certificate of its richest pit.

ghost use Rattle.std.specs.Prelude.{◌≡◌, ◌+◌, ◌-◌, ◌^◌, ◌<◌, ◌↔◌, IfErr, IsErrOf};
ghost use Rattle.certificate_file.specs.ReadBack.{IsPrice};
ghost use Rattle.solve_engines.specs.Solving.{SolvesNet};
ghost use Rattle.engine_faults.specs.declared.engine_fault.EngineFault.TheVariants as engine;
ghost use Rattle.schedule_engines.specs.declared.plan_fault.PlanFault.TheVariants as plan;
ghost use Rattle.planned_mine.specs.declared.bound_fault.BoundFault.TheVariants as bound;
ghost use Rattle.plan_engines.specs.PlanSolving.{SolvesNodes, SolvesPlanned};
ghost use Rattle.planned_mine.specs.PlannedNodes.{IsSound};
ghost use Rattle.planned_mine.specs.TextFaults.{IsBeyondTexts};

use certificate_file::Price;
use check_engines::Verdict;
use closure_net::Net;
use counted_devices::CountedWrite;
use engine_faults::EngineFault;
use held_pairs::rests_of;
use option_words::Effort;
use ordered_group::{OrderedGroup, Worth};
use planned_mine::{BoundFault, Expanded, Figured, nodes_of_figures, of_net};
use pseudoflow::Progress;
use schedule_engines::PlanFault;
use shells::Factor;
use solve_engines::Outcome;
use solve_engines::net_answer::write_answer;
use solve_engines::placed_solver::{first_by_places, write_placed};
use solve_engines::solvers::solution_of;
use std::alloc::Global;
use std::sync::Wait;
use std::thread::Threads;
use workers::{Gate, Locked, Shared, TurnBoard};

/// How an expanded mine is to be solved.
#[derive(Clone, Copy)]
pub struct PlanAsked {
    /// The factor at which revenues count. Of no effect where blocks have values.
    pub factor: Factor,
    /// The method, the threads, and the most steps and turns.
    pub effort: Effort,
}

/// At which price nodes are solved, and how.
#[derive(Clone, Copy)]
pub(crate) struct NodesAsked {
    /// The price that the certificate names.
    pub price: Price,
    /// The method, the threads, and the most steps and turns.
    pub effort: Effort,
}

// Solves a net, and writes the certificate of its pit, which names this price.
fn solve_net<
    G: OrderedGroup,
    R: Threads + Wait + Sync,
    T: Gate + Progress + Outcome,
    W: CountedWrite,
>(
    rt: &R,
    alloc: Global,
    net: &Net<G>,
    asked: NodesAsked,
    gate: &T,
    out: &mut W,
) -> Result<Verdict, EngineFault>
where
    Locked<TurnBoard<G>>: Shared,
    requires price { IsPrice asked.price }
    requires room { W.failed out.old < 2 ^ 64 - 1 }
    ensures answer { SolvesNet G.counts G.name asked.price net.now asked.effort.method
        asked.effort.steps
        (W.contents out.old) (W.contents out.new) result }
    ensures device { IsErrOf result EngineFault.Device ↔ (W.failed out.new ≡ W.failed out.old + 1) }
    ensures kept { ¬ IsErrOf result EngineFault.Device → W.failed out.new ≡ W.failed out.old }
{
    let found = solution_of(rt, alloc, net, asked.effort, gate);
    write_answer(net, asked.price, found, gate, out)
}

// Solves nodes over the list of their pairs, in amounts of worth alone.
fn solve_listed<R: Threads + Wait + Sync, T: Gate + Progress + Outcome, W: CountedWrite>(
    rt: &R,
    alloc: Global,
    nodes: Expanded,
    asked: NodesAsked,
    gate: &T,
    out: &mut W,
) -> Result<Verdict, BoundFault>
    requires price { IsPrice asked.price }
    requires room { W.failed out.old < 2 ^ 64 - 1 }
    ensures beyond { IfErr result IsBeyondTexts }
    ensures answer { SolvesNodes asked.price nodes.pairs nodes.worths.items asked.effort.method
        asked.effort.steps
        (W.contents out.old) (W.contents out.new) result }
    ensures device { IsErrOf result (bound.Plan (plan.Engine engine.Device))
        ↔ (W.failed out.new ≡ W.failed out.old + 1) }
    ensures kept { ¬ IsErrOf result (bound.Plan (plan.Engine engine.Device))
        → W.failed out.new ≡ W.failed out.old }
{
    let Ok(rests) = rests_of(alloc, &nodes.pairs) else {
        return Err(BoundFault::Plan(PlanFault::Engine(EngineFault::Memory)));
    };
    let net = match Net::<Worth>::of_worths(alloc, rests, nodes.worths.as_slice()) {
        Ok(net) => net,
        Err(fault) => return Err(of_net(fault)),
    };
    // proof: what is known of every net, that its pairs are of its blocks and in order
    let _worths = net.worths();
    match solve_net::<Worth, R, T, W>(rt, alloc, &net, asked, gate, out) {
        Ok(verdict) => Ok(verdict),
        Err(fault) => Err(BoundFault::Plan(PlanFault::Engine(fault))),
    }
}

// Solves nodes in amounts of worth alone, and writes the certificate of their richest pit, which names this price: over
// what holds their pairs, where pseudoflow is asked first and this gives a certificate, and else over a list of them.
fn solve_nodes<R: Threads + Wait + Sync, T: Gate + Progress + Outcome, W: CountedWrite>(
    rt: &R,
    alloc: Global,
    nodes: Expanded,
    asked: NodesAsked,
    gate: &T,
    out: &mut W,
) -> Result<Verdict, BoundFault>
    requires price { IsPrice asked.price }
    requires room { W.failed out.old < 2 ^ 64 - 1 }
    ensures beyond { IfErr result IsBeyondTexts }
    ensures answer { SolvesNodes asked.price nodes.pairs nodes.worths.items asked.effort.method
        asked.effort.steps
        (W.contents out.old) (W.contents out.new) result }
    ensures device { IsErrOf result (bound.Plan (plan.Engine engine.Device))
        ↔ (W.failed out.new ≡ W.failed out.old + 1) }
    ensures kept { ¬ IsErrOf result (bound.Plan (plan.Engine engine.Device))
        → W.failed out.new ≡ W.failed out.old }
{
    let worths = nodes.worths.as_slice();
    let NodesAsked { price, effort } = asked;
    let found = first_by_places::<Worth, T>(alloc, &nodes.pairs, worths, price, effort, gate);
    let Some(found) = found else {
        return solve_listed(rt, alloc, nodes, asked, gate, out);
    };
    match write_placed(found, nodes.pairs.len(), gate, out) {
        Ok(verdict) => Ok(verdict),
        Err(fault) => Err(BoundFault::Plan(PlanFault::Engine(fault))),
    }
}

/// Solves the expanded mine of a mine and its periods, and writes the certificate of its richest pit.
///
/// # Errors
/// `Nodes` where there are too many or what they are worth doesn't fit; then those of
/// `solve_engine` after its inputs.
pub(crate) fn solve_plan<R: Threads + Wait + Sync, T: Gate + Progress + Outcome, W: CountedWrite>(
    rt: &R,
    alloc: Global,
    figured: Figured,
    asked: NodesAsked,
    gate: &T,
    out: &mut W,
) -> Result<Verdict, BoundFault>
    requires sound { IsSound figured }
    requires price { IsPrice asked.price }
    requires room { W.failed out.old < 2 ^ 64 - 1 }
    ensures beyond { IfErr result IsBeyondTexts }
    ensures answer { SolvesPlanned figured asked.price asked.effort.method asked.effort.steps
        (W.contents out.old) (W.contents out.new) result }
    ensures device { IsErrOf result (bound.Plan (plan.Engine engine.Device))
        ↔ (W.failed out.new ≡ W.failed out.old + 1) }
    ensures kept { ¬ IsErrOf result (bound.Plan (plan.Engine engine.Device))
        → W.failed out.new ≡ W.failed out.old }
{
    match nodes_of_figures(alloc, figured) {
        Ok(nodes) => solve_nodes(rt, alloc, nodes, asked, gate, out),
        Err(fault) => Err(fault),
    }
}
