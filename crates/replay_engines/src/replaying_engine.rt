//! The engine of `replay`: a trace and the bytes of a mine in, what comes of the steps out.

ghost use Rattle.std.specs.Prelude.{◌≡◌, ◌+◌, ◌-◌, ◌^◌, ◌<◌, IfSome, IsErrOf};
ghost use Rattle.mine_inputs.specs.MineInputs.{ForTexts, CanCount, NoneFailed, OneFailed};
ghost use Rattle.replay_engines.specs.Replays.{Replays};

use crate::replay_asked::ReplayAsked;
use crate::replayed_mine::replay_mine;
use crate::trace_inputs::events_from;
use check_engines::Verdict;
use counted_devices::{CountedRead, CountedWrite};
use engine_faults::EngineFault;
use mine_inputs::{MineInputs, indexed_mine};
use std::alloc::Global;
use std::thread::Threads;

/// Makes the steps of a trace one after the other, from the opening state of the push-relabel machine (Hong 2008) over
/// a mine, where its blocks have prices at the factor that is asked for, and writes what comes of them.
///
/// It writes one of these:
///
/// - `REPLAYED steps QUIET`, where all steps were made and then no block has excess or an operation. After it comes the
///   line of a check of the state's flow, with the pit that the source reaches in it: `Done` where that is `ACCEPTED`,
///   otherwise `No`.
/// - `REPLAYED steps OPEN`, where all steps were made and some block has excess or an operation: `No`.
/// - `REFUSED place refusal` with the first step that is refused, counted from 1, and why: `No`.
///
/// The inputs are read in the order of the arguments, each to its end, and nothing is written before the answer is
/// known.
///
/// # Errors
/// Those of `mine_inputs::indexed_mine`, then `Trace`, and `Model` where the net's amounts don't fit.
/// `Memory` where memory is refused, `Device` where a read or a write fails: the writer has then received a prefix of
/// the answer, and at every other fault nothing.
///
/// Each device must have counted fewer than 2^64 - 1 failures, so that one more can be counted.
pub fn replay_engine<R: Threads + Sync, D: CountedRead, E: CountedRead, W: CountedWrite>(
    rt: &R,
    alloc: Global,
    inputs: &mut MineInputs<D>,
    trace: &mut E,
    asked: ReplayAsked,
    out: &mut W,
) -> Result<Verdict, EngineFault>
    requires inputs_room { CanCount inputs.old D.failed }
    requires trace_room { E.failed trace.old < 2 ^ 64 - 1 }
    requires out_room { W.failed out.old < 2 ^ 64 - 1 }

    // What it answers and writes, where the readers tell their bytes.
    ensures answer { IfSome (E.remaining trace.old)
        (λ t. ForTexts inputs.old D.remaining asked.factor (λ texts.
        Replays texts asked.group t (W.contents out.old) (W.contents out.new) result)) }

    // A device is named exactly where one failed.
    ensures device { IsErrOf result EngineFault.Device
        → OneFailed inputs.old inputs.new D.failed
        (E.failed trace.old + W.failed out.old) (E.failed trace.new + W.failed out.new) }
    ensures kept { ¬ IsErrOf result EngineFault.Device → NoneFailed inputs.old inputs.new D.failed
        × (E.failed trace.new ≡ E.failed trace.old) × (W.failed out.new ≡ W.failed out.old) }
{
    let mine = indexed_mine(rt, alloc, inputs, asked.factor)?;
    let events = events_from(alloc, trace)?;
    let group = asked.group;
    replay_mine(alloc, mine, group, events.as_slice(), out)
}
