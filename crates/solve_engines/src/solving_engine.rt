//! The engine of `solve`: the bytes of a mine in, a certificate of its best pit out.

ghost use Rattle.std.specs.Prelude.{◌≡◌, ◌+◌, ◌-◌, ◌^◌, ◌<◌, ◌↔◌, IfOk, MatchResult, IsErrOf};
ghost use Rattle.mine_inputs.specs.ReadMines.{AreRead};
ghost use Rattle.check_engines.specs.Readings.{IsGroupNamed};
ghost use Rattle.certificate_file.specs.ReadBack.{IsPrice};
ghost use Rattle.mine_inputs.specs.MineInputs.{ForTexts, CanCount, NoneFailed, OneFailed};
ghost use Rattle.mine_inputs.specs.Mines.{MineTexts, price_wanted};
ghost use Rattle.mine_inputs.specs.FaultStands.{MineFails};
ghost use Rattle.solve_engines.specs.Solving.{Solves};

use crate::net_answer::write_answer;
use crate::outcome::Outcome;
use crate::placed_solver::{first_by_places, write_placed};
use crate::solve_asked::SolveAsked;
use crate::solvers::solution_of;
use check_engines::Verdict;
use check_pit::Price;
use closure_net::{Net, laws};
use counted_devices::{CountedRead, CountedWrite};
use engine_faults::EngineFault;
use held_pairs::{HeldPairs, Holder, into_list};
use mine_inputs::{HeldMine, IndexedMine, MineInputs, held_mine};
use option_words::{Effort, Method};
use ordered_group::{Group, OrderedGroup, Scaled, Worth, WorthSize};
use pseudoflow::Progress;
use shells::Factor;
use std::alloc::Global;
use std::sync::Wait;
use std::thread::Threads;
use workers::{Gate, Locked, Shared, TurnBoard};

/// Finds the best pit of a mine, where its blocks have prices at the factor that is asked for, and writes its
/// certificate, which names this factor.
///
/// `Done` where it wrote a certificate that a check has accepted: its pit contains each block's predecessors, and no
/// such pit is worth more; with `Group::Pair` and `Group::Scaled` every other of equal worth has more blocks (Picard
/// 1976). This rests on the check alone, whichever solver computed the flow.
///
/// `No` where it wrote `UNSETTLED`, because the machine's run needs more than the effort's steps, or
/// `REFUSED TooLarge`, because a number of the run or of the check of its flow doesn't fit. With `Method::Pseudoflow`
/// it writes `UNSETTLED` where pseudoflow finds no flow that a check accepts, which says nothing about the mine.
///
/// Where settings list slopes and pseudoflow is asked first, it searches the places of the blocks, and no list of pairs
/// is made if a grid holds them and a check accepts what it finds.
///
/// The inputs are read in the order of the arguments, each to its end, and nothing is written before the answer is
/// known. Each worker of the machine passes the gate before each of its turns, and pseudoflow reports to it how far it
/// is.
///
/// # Errors
/// Those of [`held_mine`](mine_inputs::held_mine), then `Model` where the net's amounts don't fit. `Memory` where
/// memory is refused, `Thread` where a worker can't be started, `Stranger` where the board that the workers shared
/// comes back as another's (see `workers::solve`), `Device` where a read or a write fails: the writer has then received
/// a prefix of the answer, and at every other fault nothing.
///
/// Each device must have counted fewer than 2^64 - 1 failures, so that one more can be counted.
pub fn solve_engine<
    R: Threads + Wait + Sync,
    D: CountedRead,
    T: Gate + Progress + Outcome,
    W: CountedWrite,
>(
    rt: &R,
    alloc: Global,
    inputs: &mut MineInputs<D>,
    asked: SolveAsked,
    gate: &T,
    out: &mut W,
) -> Result<Verdict, EngineFault>
    requires inputs_room { CanCount inputs.old D.failed }
    requires out_room { W.failed out.old < 2 ^ 64 - 1 }

    // What it answers and writes, where the readers tell their bytes.
    ensures answer { ForTexts inputs.old D.remaining asked.factor (λ texts.
        Solves texts asked.group asked.effort.method asked.effort.steps
        (W.contents out.old) (W.contents out.new) result) }

    // A device is named exactly where one failed.
    ensures device { IsErrOf result EngineFault.Device
        → OneFailed inputs.old inputs.new D.failed (W.failed out.old) (W.failed out.new) }
    ensures kept { ¬ IsErrOf result EngineFault.Device
        → NoneFailed inputs.old inputs.new D.failed × (W.failed out.new ≡ W.failed out.old) }
{
    let holder = holder_for(asked.effort.method);
    let mine = held_to_solve(rt, alloc, inputs, asked.factor, holder)?;
    solve_held(rt, alloc, mine, asked, gate, out)
}

// What the pairs of slopes are held by: places, for a search over them, or the list that the machine needs.
fn holder_for(method: Method) -> Holder {
    match method {
        Method::PushRelabel => Holder::List,
        Method::Auto | Method::Pseudoflow => Holder::Places,
    }
}

// What solvers need of a mine whose pairs are held by places or by a list.
#[derive(Drop)]
struct HeldToSolve {
    // what each block is worth, in billionths
    nanos: Vec<i128>,
    // what rests on what
    pairs: HeldPairs,
    // the price that its certificates name
    price: Price,
}

// The mine that its texts denote, at a factor where its blocks have prices.
fn held_to_solve<R: Threads + Sync, D: CountedRead>(
    rt: &R,
    alloc: Global,
    inputs: &mut MineInputs<D>,
    factor: Factor,
    holder: Holder,
) -> Result<HeldToSolve, EngineFault>
    requires { CanCount inputs.old D.failed }
    ensures read { ForTexts inputs.old D.remaining factor (λ texts. MatchResult result
        (λ mine. AreRead texts mine.nanos.items mine.pairs
        × (mine.price ≡ price_wanted texts))
        (MineFails texts)) }
    ensures price { IfOk result (λ mine. IsPrice mine.price) }
    ensures device { IsErrOf result EngineFault.Device
        → OneFailed inputs.old inputs.new D.failed 0 0 }
    ensures kept { ¬ IsErrOf result EngineFault.Device → NoneFailed inputs.old inputs.new D.failed }
{
    let HeldMine {
        worths,
        predecessors,
    } = held_mine(rt, alloc, inputs, holder)?;
    let nanos = worths.nanos_at(rt, alloc, factor)?;
    let price = worths.price_at(factor);
    Ok(HeldToSolve {
        nanos,
        pairs: predecessors,
        price,
    })
}

// Solves the mine that was read, and writes the certificate, which names its price.
fn solve_held<R: Threads + Wait + Sync, T: Gate + Progress + Outcome, W: CountedWrite>(
    rt: &R,
    alloc: Global,
    mine: HeldToSolve,
    asked: SolveAsked,
    gate: &T,
    out: &mut W,
) -> Result<Verdict, EngineFault>
    requires price { IsPrice mine.price }
    requires room { W.failed out.old < 2 ^ 64 - 1 }
    ensures answer { (texts : MineTexts) → AreRead texts mine.nanos.items mine.pairs
        → mine.price ≡ price_wanted texts
        → Solves texts asked.group asked.effort.method asked.effort.steps
        (W.contents out.old) (W.contents out.new) result }
    ensures device { IsErrOf result EngineFault.Device ↔ (W.failed out.new ≡ W.failed out.old + 1) }
    ensures kept { ¬ IsErrOf result EngineFault.Device → W.failed out.new ≡ W.failed out.old }
{
    // proof: a greatest set of the net is a pit that is worth most, and of amounts with sizes the best one
    laws::greatest_set_is_richest_pit();
    laws::greatest_set_is_best_pit::<WorthSize>();
    laws::greatest_set_is_best_pit::<Scaled>();
    let effort = asked.effort;
    match asked.group {
        Group::Worth => solve_held_by::<Worth, R, T, W>(rt, alloc, mine, effort, gate, out),
        Group::Pair => solve_held_by::<WorthSize, R, T, W>(rt, alloc, mine, effort, gate, out),
        Group::Scaled => solve_held_by::<Scaled, R, T, W>(rt, alloc, mine, effort, gate, out),
    }
}

// Solves the mine in amounts of the group G: over its places where pseudoflow is asked first and these give a
// certificate, and else over the list of its pairs.
fn solve_held_by<
    G: OrderedGroup,
    R: Threads + Wait + Sync,
    T: Gate + Progress + Outcome,
    W: CountedWrite,
>(
    rt: &R,
    alloc: Global,
    mine: HeldToSolve,
    effort: Effort,
    gate: &T,
    out: &mut W,
) -> Result<Verdict, EngineFault>
where
    Locked<TurnBoard<G>>: Shared,
    requires price { IsPrice mine.price }
    requires room { W.failed out.old < 2 ^ 64 - 1 }
    ensures answer { (texts : MineTexts) → AreRead texts mine.nanos.items mine.pairs
        → mine.price ≡ price_wanted texts
        → IsGroupNamed G.name G.block_parts G.counts
        → Solves texts G.name effort.method effort.steps
        (W.contents out.old) (W.contents out.new) result }
    ensures device { IsErrOf result EngineFault.Device ↔ (W.failed out.new ≡ W.failed out.old + 1) }
    ensures kept { ¬ IsErrOf result EngineFault.Device → W.failed out.new ≡ W.failed out.old }
{
    let HeldToSolve {
        nanos,
        pairs,
        price,
    } = mine;
    let found = first_by_places::<G, T>(alloc, &pairs, nanos.as_slice(), price, effort, gate);
    if let Some(found) = found {
        return write_placed(found, pairs.len(), gate, out);
    }
    let list = into_list(alloc, pairs)?;
    let rests = list.into_rests(alloc)?;
    let mine = IndexedMine {
        nanos,
        rests,
        price,
    };
    solve_by::<G, R, T, W>(rt, alloc, mine, effort, gate, out)
}

// Solves the mine over the list of its pairs, in amounts of the group G.
fn solve_by<
    G: OrderedGroup,
    R: Threads + Wait + Sync,
    T: Gate + Progress + Outcome,
    W: CountedWrite,
>(
    rt: &R,
    alloc: Global,
    mine: IndexedMine,
    effort: Effort,
    gate: &T,
    out: &mut W,
) -> Result<Verdict, EngineFault>
where
    Locked<TurnBoard<G>>: Shared,
    requires price { IsPrice mine.price }
    requires room { W.failed out.old < 2 ^ 64 - 1 }
    ensures answer { (texts : MineTexts) → AreRead texts mine.nanos.items mine.rests
        → mine.price ≡ price_wanted texts
        → IsGroupNamed G.name G.block_parts G.counts
        → Solves texts G.name effort.method effort.steps
        (W.contents out.old) (W.contents out.new) result }
    ensures device { IsErrOf result EngineFault.Device ↔ (W.failed out.new ≡ W.failed out.old + 1) }
    ensures kept { ¬ IsErrOf result EngineFault.Device → W.failed out.new ≡ W.failed out.old }
{
    let net = Net::<G>::of_worths(alloc, mine.rests, mine.nanos.as_slice())?;
    drop(mine.nanos);
    // proof: what is known of every net, that its pairs are of its blocks and in order
    let _worths = net.worths();
    let found = solution_of(rt, alloc, &net, effort, gate);
    write_answer(&net, mine.price, found, gate, out)
}
