//! The engine of `schedule`: a schedule, its periods and the bytes of a mine in, what the schedule comes to out.

ghost use Rattle.std.specs.Prelude.{◌≡◌, ◌+◌, ◌-◌, ◌^◌, ◌<◌, IsErrOf};
ghost use Rattle.mine_inputs.specs.MineInputs.{ForTexts, CanCount, NoneFailed, OneFailed};
ghost use Rattle.engine_faults.specs.declared.engine_fault.EngineFault.TheVariants as engine;
ghost use Rattle.schedule_engines.specs.declared.plan_fault.PlanFault.TheVariants as plan;
ghost use Rattle.schedule_engines.specs.PlanDevices.{ForPlan, PlanCanCount, plan_failures};
ghost use Rattle.schedule_engines.specs.Schedules.{Writes};

use crate::plan_fault::PlanFault;
use crate::plan_read::plan_from;
use crate::schedule_inputs::ScheduleInputs;
use crate::schedule_judge::judge_planned;
use closure_net::NetFault;
use counted_devices::{CountedRead, CountedWrite};
use engine_faults::EngineFault;
use mine_inputs::{ListedMine, MineInputs, listed_mine};
use shells::Factor;
use std::alloc::Global;
use std::thread::Threads;

/// Judges a schedule of a mine over its periods, where its blocks have prices at the factor that is asked for, and
/// writes what it comes to.
///
/// The first line is `SCHEDULE count npv`: how many blocks it digs, and what they are worth in their periods. After it
/// comes `BROKEN pairs`, how many pairs of the mine have their predecessor later or never, with a line `BREAKS b p` for
/// each of the first 20. Where blocks wait for others, and some are dug too early, `EARLY pairs` has how many, with a
/// line `WAITS b a` for each of the first 20. A line `OVER r t used capacity` comes for each period that uses more of a
/// resource than it has. It answers whether no pair is broken and no line `EARLY` or `OVER` comes, which is exactly
/// where the schedule is feasible.
///
/// The inputs are read in the order of the arguments, each to its end, and nothing is written before the answer is
/// known.
///
/// # Errors
/// Those of `mine_inputs::listed_mine`, then those of the periods, of the blocks that have the uses, and of the
/// schedule. `Memory` where memory is refused, `Device` where a read or a write fails: the writer has then received a
/// prefix of the answer, and at every other fault nothing.
///
/// Each device must have counted fewer than 2^64 - 1 failures, so that one more can be counted.
pub fn schedule_engine<R: Threads + Sync, D: CountedRead, W: CountedWrite>(
    rt: &R,
    alloc: Global,
    inputs: &mut MineInputs<D>,
    beside: &mut ScheduleInputs<D>,
    factor: Factor,
    out: &mut W,
) -> Result<bool, PlanFault>
    requires inputs_room { CanCount inputs.old D.failed }
    requires beside_room { PlanCanCount beside.old D.failed }
    requires out_room { W.failed out.old < 2 ^ 64 - 1 }

    // What it answers and writes, where the readers tell their bytes.
    ensures answer { ForPlan beside.old D.remaining (λ p u s.
        ForTexts inputs.old D.remaining factor (λ texts.
        Writes texts p u s (W.contents out.old) (W.contents out.new) result)) }

    // A device is named exactly where one failed.
    ensures device { IsErrOf result (plan.Engine engine.Device)
        → OneFailed inputs.old inputs.new D.failed
        (plan_failures beside.old D.failed + W.failed out.old)
        (plan_failures beside.new D.failed + W.failed out.new) }
    ensures kept { ¬ IsErrOf result (plan.Engine engine.Device)
        → NoneFailed inputs.old inputs.new D.failed
        × (plan_failures beside.new D.failed ≡ plan_failures beside.old D.failed)
        × (W.failed out.new ≡ W.failed out.old) }
{
    let ListedMine {
        worths,
        predecessors,
    } = listed_mine(rt, alloc, inputs)?;
    let read = plan_from(alloc, beside, predecessors.len(), worths.way_count())?;
    // the texts of a mine say of as many blocks what they are worth as which blocks they rest on
    if worths.len() != predecessors.len() {
        return Err(PlanFault::Engine(EngineFault::Model(NetFault::WrongLength)));
    }
    judge_planned(alloc, &worths, factor, &predecessors, &read, out)
}
