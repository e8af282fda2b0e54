//! The engine of `solve` over periods: the bytes of a mine and of its periods in, a certificate of its expanded mine
//! out.

ghost use Rattle.std.specs.Prelude.{◌≡◌, ◌↔◌, ◌+◌, ◌-◌, ◌^◌, ◌<◌, ℕ, List, Option, IfErr, IsErrOf};
ghost use Rattle.option_words.specs.declared.method.Method.{Method};
ghost use Rattle.mine_inputs.specs.Mines.{MineTexts};
ghost use Rattle.mine_inputs.specs.MineInputs.{ForTexts, NoneFailed, OneFailed};
ghost use Rattle.mine_inputs.specs.Ways.{ways_of};
ghost use Rattle.engine_faults.specs.declared.engine_fault.EngineFault.TheVariants as engine;
ghost use Rattle.schedule_engines.specs.declared.plan_fault.PlanFault.TheVariants as plan;
ghost use Rattle.planned_mine.specs.declared.bound_fault.BoundFault.TheVariants as bound;
ghost use Rattle.planned_mine.specs.BesideTexts.{ForBeside, beside_failures};
ghost use Rattle.plan_engines.specs.PlansToSolve.{PlanCanCount};
ghost use Rattle.bound_engines.specs.Pits.{ForPit, IsGiven, pit_failures};
ghost use Rattle.plan_engines.specs.PlansToSolve.{IsRightPlan};
ghost use Rattle.plan_engines.specs.PlanSolving.{SolvesFound, SolvesPlan};
ghost use Rattle.planned_mine.specs.TextFaults.{BesideFails, IsBeyondTexts, StandsInTexts};

use crate::plan_solver::{NodesAsked, PlanAsked, solve_plan};
use crate::plan_within::{ToSolve, plan_to_solve};
use check_engines::judgement_line::write_judgement;
use check_engines::{Judgement, Verdict};
use check_pit::PitFault;
use counted_devices::{CountedRead, CountedWrite};
use mine_inputs::{MineInputs, listed_mine};
use option_words::Effort;
use planned_mine::{BoundFault, BoundInputs, beside_from};
use pseudoflow::Progress;
use schedule_engines::PlanFault;
use solve_engines::Outcome;
use std::alloc::Global;
use std::sync::Wait;
use std::thread::Threads;
use workers::Gate;

/// What the mine of nodes is made from, in the order in which it is read.
#[derive(Drop)]
pub struct PlanInputs<D> {
    /// The mine.
    pub mine: MineInputs<D>,
    /// Its periods, and what blocks use.
    pub beside: BoundInputs<D>,
    /// The certificate of a pit of the mine, where the nodes are those of its blocks alone.
    pub pit: Option<D>,
}

// Writes that the certificate of a pit proves none.
fn write_no_pit<W: CountedWrite>(
    alloc: Global,
    fault: PitFault,
    out: &mut W,
) -> Result<Verdict, BoundFault>
    requires { W.failed out.old < 2 ^ 64 - 1 }
    ensures answer { (texts : MineTexts) (p u : List ℕ) (o : Option (List ℕ)) (method : Method)
        (limit : ℕ)
        → IsGiven o
        → SolvesPlan texts p u o method limit (W.contents out.old) (W.contents out.new) result }
    ensures device { IsErrOf result (bound.Plan (plan.Engine engine.Device))
        ↔ (W.failed out.new ≡ W.failed out.old + 1) }
    ensures kept { ¬ IsErrOf result (bound.Plan (plan.Engine engine.Device))
        → W.failed out.new ≡ W.failed out.old }
    ensures beyond { IfErr result IsBeyondTexts }
{
    match write_judgement(alloc, Judgement::Refused(fault), out) {
        Ok(()) => Ok(Verdict::No),
        Err(fault) => Err(BoundFault::Plan(PlanFault::Engine(fault))),
    }
}

// Solves what is to be solved, and writes its certificate; or that there is no pit for it.
fn solve_found<R: Threads + Wait + Sync, T: Gate + Progress + Outcome, W: CountedWrite>(
    rt: &R,
    alloc: Global,
    found: ToSolve,
    effort: Effort,
    gate: &T,
    out: &mut W,
) -> Result<Verdict, BoundFault>
    requires right { IsRightPlan found }
    requires room { W.failed out.old < 2 ^ 64 - 1 }
    ensures beyond { IfErr result IsBeyondTexts }
    ensures answer { SolvesFound found effort.method effort.steps (W.contents out.old)
        (W.contents out.new) result }
    ensures device { IsErrOf result (bound.Plan (plan.Engine engine.Device))
        ↔ (W.failed out.new ≡ W.failed out.old + 1) }
    ensures kept { ¬ IsErrOf result (bound.Plan (plan.Engine engine.Device))
        → W.failed out.new ≡ W.failed out.old }
{
    match found {
        ToSolve::Plan(figured, price) => {
            solve_plan(rt, alloc, figured, NodesAsked { price, effort }, gate, out)
        }
        ToSolve::NoPit(fault) => write_no_pit(alloc, fault, out),
    }
}

/// Finds the richest pit of the expanded mine of a mine and its periods, where its blocks have prices at the factor
/// that is asked for, and writes its certificate of `GROUP WORTH`, which names this factor. Where the certificate of a
/// pit of the mine at this price is given, it is judged before, as [`check_engine`](check_engines::check_engine) does,
/// and the expanded mine is that of the pit's blocks alone, numbered anew in ascending order.
///
/// `Done` where it wrote a certificate that a check of the nodes has accepted: no pit of the expanded mine is worth
/// more than its pit. `No` where it wrote `UNSETTLED` or `REFUSED TooLarge`, as `solve_engine` does for a
/// mine; or `REFUSED` with a fault of the pit that is given.
///
/// The inputs are read in the order of the arguments and of their fields, each to its end, except the certificate,
/// which is read up to its first fault. Nothing is written before the answer is known.
///
/// # Errors
/// Those of `mine_inputs::listed_mine`, then those of the periods, without multipliers `Missing`, and of the blocks
/// that have the uses; where a certificate is given, those of `check_engines::check_engine` after its inputs,
/// `WrongPrice` also where it is of another price; `Periods` with `TooLarge`; `Nodes`. `Memory` where memory is
/// refused, `Thread` where a worker can't be started, `Stranger` where the board that the workers shared comes back as
/// another's, `Device` where a read or a write fails: the writer has then received a prefix of the answer, and at every
/// other fault nothing.
///
/// Each device must have counted fewer than 2^64 - 1 failures, so that one more can be counted.
pub fn solve_plan_engine<
    R: Threads + Wait + Sync,
    D: CountedRead,
    T: Gate + Progress + Outcome,
    W: CountedWrite,
>(
    rt: &R,
    alloc: Global,
    inputs: &mut PlanInputs<D>,
    asked: PlanAsked,
    gate: &T,
    out: &mut W,
) -> Result<Verdict, BoundFault>
    requires inputs_room { PlanCanCount inputs.old D.failed }
    requires out_room { W.failed out.old < 2 ^ 64 - 1 }

    // What it answers and writes, where the readers tell their bytes.
    ensures answer { ForPit inputs.old.pit D.remaining
        (λ o. ForBeside inputs.old.beside D.remaining (λ p u.
        ForTexts inputs.old.mine D.remaining asked.factor (λ texts.
        SolvesPlan texts p u o asked.effort.method asked.effort.steps
        (W.contents out.old) (W.contents out.new) result))) }

    // A fault of a text stands there, and none before it.
    ensures fault { ForBeside inputs.old.beside D.remaining (λ p u.
        ForTexts inputs.old.mine D.remaining asked.factor (λ texts.
        IfErr result (StandsInTexts texts (BesideFails (ways_of texts) p u)))) }

    // A device is named exactly where one failed.
    ensures device { IsErrOf result (bound.Plan (plan.Engine engine.Device))
        → OneFailed inputs.old.mine inputs.new.mine D.failed
        (beside_failures inputs.old.beside D.failed + pit_failures inputs.old.pit D.failed +
        W.failed out.old)
        (beside_failures inputs.new.beside D.failed + pit_failures inputs.new.pit D.failed +
        W.failed out.new) }
    ensures kept { ¬ IsErrOf result (bound.Plan (plan.Engine engine.Device))
        → NoneFailed inputs.old.mine inputs.new.mine D.failed
        × (beside_failures inputs.new.beside D.failed ≡ beside_failures inputs.old.beside D.failed)
        × (pit_failures inputs.new.pit D.failed ≡ pit_failures inputs.old.pit D.failed)
        × (W.failed out.new ≡ W.failed out.old) }
{
    let mine = match listed_mine(rt, alloc, &mut inputs.mine) {
        Ok(mine) => mine,
        Err(fault) => return Err(BoundFault::Plan(PlanFault::Engine(fault))),
    };
    let ways = mine.worths.way_count();
    let beside = match beside_from(alloc, &mut inputs.beside, mine.predecessors.len(), ways) {
        Ok(beside) => beside,
        Err(fault) => return Err(BoundFault::Plan(fault)),
    };
    let found = match plan_to_solve(rt, alloc, mine, beside, asked.factor, &mut inputs.pit) {
        Ok(found) => found,
        Err(fault) => return Err(fault),
    };
    solve_found(rt, alloc, found, asked.effort, gate, out)
}
