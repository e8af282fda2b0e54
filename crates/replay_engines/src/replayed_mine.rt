//! Repeats the steps of a trace over a mine that was read, and writes what comes of them.

ghost use Rattle.std.specs.Prelude.{◌≡◌, ◌+◌, ◌-◌, ◌^◌, ◌<◌, ◌↔◌, ℕ, List, IfOk, MatchResult, IsErrOf};
ghost use Rattle.mine_inputs.specs.Mines.{MineTexts};
ghost use Rattle.mine_inputs.specs.ReadMines.{AreRead};
ghost use Rattle.check_engines.specs.Readings.{IsGroupNamed};
ghost use Rattle.solve_engines.specs.Solving.{IsNetBy};
ghost use Rattle.replay_engines.specs.Outcomes.{IsOutcome};
ghost use Rattle.replay_engines.specs.Replays.{ComesOf, NothingComes, Replays};
ghost use Rattle.replay_engines.specs.TraceTexts.{ReadsTrace};

use crate::flow_judge::judge_flow;
use crate::outcome::{Outcome, write_outcome};
use async_step::{Event, ReplayFault, replay};
use check_engines::Verdict;
use closure_net::{Net, laws};
use counted_devices::CountedWrite;
use engine_faults::EngineFault;
use machine_law::laws as machine_laws;
use mine_inputs::IndexedMine;
use ordered_group::{Group, OrderedGroup, Scaled, Worth, WorthSize};
use std::alloc::{AllocError, Global};

/// Makes the steps over a mine that was read, and writes what comes of them.
///
/// # Errors
/// `Model` where an amount of the mine's net doesn't fit, `Memory` where memory is refused: then nothing was written.
/// `Device` where a write fails: the writer then has a prefix.
pub fn replay_mine<W: CountedWrite>(
    alloc: Global,
    mine: IndexedMine,
    group: Group,
    events: &[Event],
    out: &mut W,
) -> Result<Verdict, EngineFault>
    requires { W.failed out.old < 2 ^ 64 - 1 }
    ensures answer { (texts : MineTexts) (trace : List ℕ)
        → AreRead texts mine.nanos.items mine.rests
        → ReadsTrace trace events.now
        → Replays texts group trace (W.contents out.old) (W.contents out.new) result }
    ensures device { IsErrOf result EngineFault.Device ↔ (W.failed out.new ≡ W.failed out.old + 1) }
    ensures kept { ¬ IsErrOf result EngineFault.Device → W.failed out.new ≡ W.failed out.old }
{
    let outcome = outcome_of(alloc, mine, group, events)?;
    write_outcome(alloc, outcome, out)?;
    Ok(outcome.verdict())
}

// What comes of the steps.
fn outcome_of(
    alloc: Global,
    mine: IndexedMine,
    group: Group,
    events: &[Event],
) -> Result<Outcome, EngineFault>
    ensures comes { (texts : MineTexts) → AreRead texts mine.nanos.items mine.rests
        → MatchResult result (ComesOf texts group events.now) (NothingComes texts group) }
    ensures no_device { ¬ IsErrOf result EngineFault.Device }
{
    // proof: a greatest set of the net is a pit that is worth most, and of amounts with sizes the best one
    laws::greatest_set_is_richest_pit();
    laws::greatest_set_is_best_pit::<WorthSize>();
    laws::greatest_set_is_best_pit::<Scaled>();
    match group {
        Group::Worth => outcome_by::<Worth>(alloc, mine, events),
        Group::Pair => outcome_by::<WorthSize>(alloc, mine, events),
        Group::Scaled => outcome_by::<Scaled>(alloc, mine, events),
    }
}

// What the events come to over the mine, in amounts of the group G.
fn outcome_by<G: OrderedGroup>(
    alloc: Global,
    mine: IndexedMine,
    events: &[Event],
) -> Result<Outcome, EngineFault>
    ensures comes { (texts : MineTexts) → AreRead texts mine.nanos.items mine.rests
        → IsGroupNamed G.name G.block_parts G.counts
        → MatchResult result (ComesOf texts G.name events.now) (NothingComes texts G.name) }
    ensures no_device { ¬ IsErrOf result EngineFault.Device }
{
    let net = Net::<G>::of_worths(alloc, mine.rests, mine.nanos.as_slice())?;
    drop(mine.nanos);
    // proof: what is known of every net, that its pairs are of its blocks and in order
    let _worths = net.worths();
    Ok(outcome_over(alloc, &net, events)?)
}

// What the events come to over the mine's net.
fn outcome_over<G: OrderedGroup>(
    alloc: Global,
    net: &Net<G>,
    events: &[Event],
) -> Result<Outcome, AllocError>
    ensures comes { IfOk result (λ outcome. (texts : MineTexts) → IsNetBy texts G.name net.now
        → IsGroupNamed G.name G.block_parts G.counts
        → IsOutcome texts G.name net.now events.now outcome) }
{
    // proof: the flow of a quiet state solves the net
    machine_laws::quiet_flow_is_greatest();
    let steps = events.len() as u64;
    let state = match replay(alloc, net, events) {
        Ok(state) => state,
        Err(ReplayFault::Refused(place, refusal)) => {
            return Ok(Outcome::Refused { place, refusal });
        }
        Err(ReplayFault::NoMemory) => return Err(AllocError),
    };
    match state.into_flow(net) {
        Ok(flow) => {
            let judgement = judge_flow(alloc, net, flow)?;
            Ok(Outcome::Quiet { steps, judgement })
        }
        Err(_) => Ok(Outcome::Open { steps }),
    }
}
