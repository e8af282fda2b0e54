//! The engine of `solve` without a lock: the bytes of a mine in, a certificate of its best pit out.

ghost use Rattle.std.specs.Prelude.{◌≡◌, ◌+◌, ◌-◌, ◌^◌, ◌<◌, ◌↔◌, IsErrOf};
ghost use Rattle.certificate_file.specs.ReadBack.{IsPrice};
ghost use Rattle.mine_inputs.specs.ReadMines.{AreRead};
ghost use Rattle.mine_inputs.specs.MineInputs.{ForTexts, CanCount, NoneFailed, OneFailed};
ghost use Rattle.mine_inputs.specs.Mines.{MineTexts, price_wanted};
ghost use Rattle.lock_free_engine.specs.LockFreeSolving.{SolvesWithoutLock};

use crate::lock_free_asked::LockFreeAsked;
use crate::lock_free_effort::LockFreeEffort;
use crate::lock_free_run::by_lock_free_run;
use check_engines::Verdict;
use closure_net::{Net, laws};
use counted_devices::{CountedRead, CountedWrite};
use engine_faults::EngineFault;
use mine_inputs::{IndexedMine, MineInputs, indexed_mine};
use ordered_group::Scaled;
use solve_engines::Outcome;
use solve_engines::net_answer::write_answer;
use std::alloc::Global;
use std::sync::Wait;
use std::thread::Threads;
use workers::Gate;

/// Finds the best pit of a mine, where its blocks have prices at the factor that is asked for, by a run of the
/// push-relabel machine without a lock, in amounts of the group `scaled`, and writes its certificate.
///
/// `Done` where it wrote a certificate, as `solve_engine` says: the check of the mine's own net has accepted
/// its flow. `No` where it wrote `UNSETTLED`, because the workers' turns were used up before all that the source gave
/// had arrived, or `REFUSED TooLarge`, because a total, a flow or a label reached 2^63, or a sum of the check
/// overflows.
///
/// The inputs are read in the order of the arguments, each to its end, and nothing is written before the answer is
/// known. Each worker passes the gate before each of its turns.
///
/// # Errors
/// The faults of `solve_engine`, in its order, except `Stranger`.
///
/// Each device must have counted fewer than 2^64 - 1 failures, so that one more can be counted.
pub fn solve_lock_free_engine<
    R: Threads + Wait + Sync,
    D: CountedRead,
    T: Gate + Outcome,
    W: CountedWrite,
>(
    rt: &R,
    alloc: Global,
    inputs: &mut MineInputs<D>,
    asked: LockFreeAsked,
    gate: &T,
    out: &mut W,
) -> Result<Verdict, EngineFault>
    requires inputs_room { CanCount inputs.old D.failed }
    requires out_room { W.failed out.old < 2 ^ 64 - 1 }

    // What it answers and writes, where the readers tell their bytes.
    ensures answer { ForTexts inputs.old D.remaining asked.factor (λ texts.
        SolvesWithoutLock texts asked.effort.workers asked.effort.steps
        (W.contents out.old) (W.contents out.new) result) }

    // A device is named exactly where one failed.
    ensures device { IsErrOf result EngineFault.Device
        → OneFailed inputs.old inputs.new D.failed (W.failed out.old) (W.failed out.new) }
    ensures kept { ¬ IsErrOf result EngineFault.Device
        → NoneFailed inputs.old inputs.new D.failed × (W.failed out.new ≡ W.failed out.old) }
{
    let mine = indexed_mine(rt, alloc, inputs, asked.factor)?;
    mine_by_lock_free_run(rt, alloc, mine, asked.effort, gate, out)
}

// Solves the mine that was read, and writes the certificate, which names its price.
fn mine_by_lock_free_run<R: Threads + Wait + Sync, T: Gate + Outcome, W: CountedWrite>(
    rt: &R,
    alloc: Global,
    mine: IndexedMine,
    effort: LockFreeEffort,
    gate: &T,
    out: &mut W,
) -> Result<Verdict, EngineFault>
    requires price { IsPrice mine.price }
    requires room { W.failed out.old < 2 ^ 64 - 1 }
    ensures answer { (texts : MineTexts) → AreRead texts mine.nanos.items mine.rests
        → mine.price ≡ price_wanted texts
        → SolvesWithoutLock texts effort.workers effort.steps
        (W.contents out.old) (W.contents out.new) result }
    ensures device { IsErrOf result EngineFault.Device ↔ (W.failed out.new ≡ W.failed out.old + 1) }
    ensures kept { ¬ IsErrOf result EngineFault.Device → W.failed out.new ≡ W.failed out.old }
{
    // proof: a greatest set of the net is the best pit
    laws::greatest_set_is_best_pit::<Scaled>();
    let net = Net::<Scaled>::of_worths(alloc, mine.rests, mine.nanos.as_slice())?;
    drop(mine.nanos);
    // proof: what is known of every net, that its pairs are of its blocks and in order
    let _worths = net.worths();
    let found = by_lock_free_run(rt, alloc, &net, effort, gate);
    write_answer(&net, mine.price, found, gate, out)
}
