//! The engine of `value`: a design and the bytes of a mine in, what the design comes to out.

ghost use Rattle.std.specs.Prelude.{◌≡◌, ◌+◌, ◌-◌, ◌^◌, ◌<◌, IfSome, IsErrOf};
ghost use Rattle.mine_inputs.specs.MineInputs.{ForTexts, CanCount, NoneFailed, OneFailed};
ghost use Rattle.engine_faults.specs.declared.engine_fault.EngineFault.TheVariants as engine;
ghost use Rattle.design_engines.specs.declared.value_fault.ValueFault.TheVariants as value;
ghost use Rattle.design_engines.specs.Values.{Values};

use crate::design_input::marks_from;
use crate::mine_value::value_mine;
use crate::value_fault::ValueFault;
use check_engines::Verdict;
use counted_devices::{CountedRead, CountedWrite};
use held_pairs::Holder;
use mine_inputs::{MineInputs, held_mine};
use shells::Factor;
use std::alloc::Global;
use std::thread::Threads;

/// Judges a design, a set of blocks of a mine, where its blocks have prices at the factor that is asked for, and writes
/// what it comes to.
///
/// The first line is `DESIGN count worth`. After it comes `CLOSED` where the design is a pit, which has every block
/// that a block of it rests on: `Done`. Otherwise `OPEN pairs` comes with how many pairs of the mine lead from a block
/// of it to one outside, and a line `NEEDS b p` for each of the first 20 of them: `No`.
///
/// The inputs are read in the order of the arguments, each to its end, and nothing is written before the answer is
/// known.
///
/// # Errors
/// Those of `mine_inputs::held_mine`, then those of the design: `Design` with what is wrong with its
/// text, or `TooLarge`. `Memory` where memory is refused, `Device` where a read or a write fails: the writer has then
/// received a prefix of the answer, and at every other fault nothing.
///
/// Each device must have counted fewer than 2^64 - 1 failures, so that one more can be counted.
pub fn value_engine<R: Threads + Sync, D: CountedRead, E: CountedRead, W: CountedWrite>(
    rt: &R,
    alloc: Global,
    inputs: &mut MineInputs<D>,
    design: &mut E,
    factor: Factor,
    out: &mut W,
) -> Result<Verdict, ValueFault>
    requires inputs_room { CanCount inputs.old D.failed }
    requires design_room { E.failed design.old < 2 ^ 64 - 1 }
    requires out_room { W.failed out.old < 2 ^ 64 - 1 }

    // What it answers and writes, where the readers tell their bytes.
    ensures answer { IfSome (E.remaining design.old)
        (λ d. ForTexts inputs.old D.remaining factor (λ texts.
        Values texts d (W.contents out.old) (W.contents out.new) result)) }

    // A device is named exactly where one failed.
    ensures device { IsErrOf result (value.Engine engine.Device)
        → OneFailed inputs.old inputs.new D.failed
        (E.failed design.old + W.failed out.old) (E.failed design.new + W.failed out.new) }
    ensures kept { ¬ IsErrOf result (value.Engine engine.Device)
        → NoneFailed inputs.old inputs.new D.failed
        × (E.failed design.new ≡ E.failed design.old) × (W.failed out.new ≡ W.failed out.old) }
{
    let mine = held_mine(rt, alloc, inputs, Holder::Places)?;
    let marks = marks_from(alloc, design, mine.predecessors.len())?;
    let nanos = mine.worths.nanos_at(rt, alloc, factor)?;
    let predecessors = mine.predecessors;
    value_mine(
        alloc,
        nanos.as_slice(),
        &predecessors,
        marks.as_slice(),
        out,
    )
}
