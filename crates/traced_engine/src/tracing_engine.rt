//! The engine of `solve` with a trace: the bytes of a mine in, the trace of a run and a certificate of its best pit
//! out.

ghost use Rattle.std.specs.Prelude.{◌≡◌, ◌+◌, ◌-◌, ◌^◌, ◌<◌, IsErrOf};
ghost use Rattle.certificate_file.specs.ReadBack.{IsPrice};
ghost use Rattle.mine_inputs.specs.ReadMines.{AreRead};
ghost use Rattle.check_engines.specs.Readings.{IsGroupNamed};
ghost use Rattle.mine_inputs.specs.MineInputs.{ForTexts, CanCount, NoneFailed, OneFailed};
ghost use Rattle.mine_inputs.specs.Mines.{MineTexts, price_wanted};
ghost use Rattle.traced_engine.specs.TracedRuns.{Traces};

use crate::traced_asked::TracedAsked;
use crate::traced_outputs::TracedOutputs;
use crate::traced_run::{RunAsked, trace_net};
use check_engines::Verdict;
use closure_net::{Net, laws};
use counted_devices::{CountedRead, CountedWrite};
use engine_faults::EngineFault;
use mine_inputs::{IndexedMine, MineInputs, indexed_mine};
use ordered_group::{Group, OrderedGroup, Scaled, Worth, WorthSize};
use solve_engines::Outcome;
use std::alloc::Global;
use std::sync::Wait;
use std::thread::Threads;
use workers::{Audited, Gate, Locked, Shared};

/// Finds the best pit of a mine, where its blocks have prices at the factor that is asked for, by a run of the
/// push-relabel machine, and writes the trace of the run and the certificate of the pit.
///
/// The run is that of the effort's workers and steps, whatever its method. Its trace has the whole history: all steps
/// in their order, at most as many as there is room for and never more than 2^24. It is written right after the run and
/// before anything is written to `outputs.out`.
///
/// `Done` where it wrote a certificate, as `solve_engine` says; its flow is the one to which a replay of the
/// trace leads. `No` where it wrote a line that says why there is none:
///
/// - `UNSETTLED`: the trace has as many steps as the effort allows, and some block still has excess or an operation;
/// - `HISTORYFULL`: the same, where the trace has no room for another step below that limit;
/// - `REFUSED TooLarge`: a number of the next step, or of the check of the flow, would overflow its type.
///
/// # Errors
/// The faults of `solve_engine`, in its order. Nothing has been written, with two exceptions: if memory is refused
/// after the run the trace is complete, and if a write fails there is a prefix of the trace, or the whole trace and a
/// prefix of the answer.
///
/// Each device must have counted fewer than 2^64 - 1 failures, so that one more can be counted.
pub fn solve_traced_engine<
    R: Threads + Wait + Sync,
    D: CountedRead,
    T: Gate + Outcome,
    V: CountedWrite,
    W: CountedWrite,
>(
    rt: &R,
    alloc: Global,
    inputs: &mut MineInputs<D>,
    asked: TracedAsked,
    gate: &T,
    outputs: &mut TracedOutputs<V, W>,
) -> Result<Verdict, EngineFault>
    requires inputs_room { CanCount inputs.old D.failed }
    requires trace_room { V.failed outputs.old.trace < 2 ^ 64 - 1 }
    requires out_room { W.failed outputs.old.out < 2 ^ 64 - 1 }

    // What it answers and writes, where the readers tell their bytes.
    ensures answer { ForTexts inputs.old D.remaining asked.factor (λ texts.
        Traces texts asked.group asked.effort.steps asked.room
        (V.contents outputs.old.trace) (V.contents outputs.new.trace)
        (W.contents outputs.old.out) (W.contents outputs.new.out) result) }

    // A device is named exactly where one failed.
    ensures device { IsErrOf result EngineFault.Device → OneFailed inputs.old inputs.new D.failed
        (V.failed outputs.old.trace + W.failed outputs.old.out)
        (V.failed outputs.new.trace + W.failed outputs.new.out) }
    ensures kept { ¬ IsErrOf result EngineFault.Device → NoneFailed inputs.old inputs.new D.failed
        × (V.failed outputs.new.trace ≡ V.failed outputs.old.trace)
        × (W.failed outputs.new.out ≡ W.failed outputs.old.out) }
{
    let mine = indexed_mine(rt, alloc, inputs, asked.factor)?;
    trace_mine(rt, alloc, mine, asked, gate, outputs)
}

// Solves the mine that was read, and writes the trace and the certificate, which names the mine's price.
fn trace_mine<R: Threads + Wait + Sync, T: Gate + Outcome, V: CountedWrite, W: CountedWrite>(
    rt: &R,
    alloc: Global,
    mine: IndexedMine,
    asked: TracedAsked,
    gate: &T,
    outputs: &mut TracedOutputs<V, W>,
) -> Result<Verdict, EngineFault>
    requires price { IsPrice mine.price }
    requires trace_room { V.failed outputs.old.trace < 2 ^ 64 - 1 }
    requires out_room { W.failed outputs.old.out < 2 ^ 64 - 1 }
    ensures answer { (texts : MineTexts) → AreRead texts mine.nanos.items mine.rests
        → mine.price ≡ price_wanted texts
        → Traces texts asked.group asked.effort.steps asked.room
        (V.contents outputs.old.trace) (V.contents outputs.new.trace)
        (W.contents outputs.old.out) (W.contents outputs.new.out) result }
    ensures device { IsErrOf result EngineFault.Device
        → V.failed outputs.new.trace + W.failed outputs.new.out
        ≡ V.failed outputs.old.trace + W.failed outputs.old.out + 1 }
    ensures kept { ¬ IsErrOf result EngineFault.Device
        → (V.failed outputs.new.trace ≡ V.failed outputs.old.trace)
        × (W.failed outputs.new.out ≡ W.failed outputs.old.out) }
{
    // proof: a greatest set of the net is a pit that is worth most, and of amounts with sizes the best one
    laws::greatest_set_is_richest_pit();
    laws::greatest_set_is_best_pit::<WorthSize>();
    laws::greatest_set_is_best_pit::<Scaled>();
    match asked.group {
        Group::Worth => trace_by::<Worth, R, T, V, W>(rt, alloc, mine, asked, gate, outputs),
        Group::Pair => trace_by::<WorthSize, R, T, V, W>(rt, alloc, mine, asked, gate, outputs),
        Group::Scaled => trace_by::<Scaled, R, T, V, W>(rt, alloc, mine, asked, gate, outputs),
    }
}

// Solves the mine in amounts of the group G.
fn trace_by<
    G: OrderedGroup,
    R: Threads + Wait + Sync,
    T: Gate + Outcome,
    V: CountedWrite,
    W: CountedWrite,
>(
    rt: &R,
    alloc: Global,
    mine: IndexedMine,
    asked: TracedAsked,
    gate: &T,
    outputs: &mut TracedOutputs<V, W>,
) -> Result<Verdict, EngineFault>
where
    Locked<Audited<G>>: Shared,
    requires price { IsPrice mine.price }
    requires trace_room { V.failed outputs.old.trace < 2 ^ 64 - 1 }
    requires out_room { W.failed outputs.old.out < 2 ^ 64 - 1 }
    ensures answer { (texts : MineTexts) → AreRead texts mine.nanos.items mine.rests
        → mine.price ≡ price_wanted texts → IsGroupNamed G.name G.block_parts G.counts
        → Traces texts G.name asked.effort.steps asked.room
        (V.contents outputs.old.trace) (V.contents outputs.new.trace)
        (W.contents outputs.old.out) (W.contents outputs.new.out) result }
    ensures device { IsErrOf result EngineFault.Device
        → V.failed outputs.new.trace + W.failed outputs.new.out
        ≡ V.failed outputs.old.trace + W.failed outputs.old.out + 1 }
    ensures kept { ¬ IsErrOf result EngineFault.Device
        → (V.failed outputs.new.trace ≡ V.failed outputs.old.trace)
        × (W.failed outputs.new.out ≡ W.failed outputs.old.out) }
{
    let price = mine.price;
    let net = Net::<G>::of_worths(alloc, mine.rests, mine.nanos.as_slice())?;
    drop(mine.nanos);
    // proof: what is known of every net, that its pairs are of its blocks and in order
    let _worths = net.worths();
    let run = RunAsked {
        price,
        effort: asked.effort,
        room: asked.room,
    };
    trace_net(rt, alloc, &net, run, gate, outputs)
}
