//! The engine of `value` where a certificate is given: a design beside the pit that the certificate proves.

ghost use Rattle.std.specs.Prelude.{◌≡◌, ◌+◌, ◌-◌, ◌^◌, ◌<◌, IfSome, IsErrOf};
ghost use Rattle.check_engines.specs.Judging.{factor_in};
ghost use Rattle.mine_inputs.specs.MineInputs.{ForTexts, CanCount, NoneFailed, OneFailed};
ghost use Rattle.engine_faults.specs.declared.engine_fault.EngineFault.TheVariants as engine;
ghost use Rattle.design_engines.specs.declared.value_fault.ValueFault.TheVariants as value;
ghost use Rattle.design_engines.specs.Compares.{ComparesDesign};

use crate::beside_judge::{BesideCase, judge_beside};
use crate::compared_lines::tell_beside;
use crate::design_input::marks_from;
use crate::value_fault::ValueFault;
use check_engines::Verdict;
use core::mem::replace_with;
use counted_devices::{CountedRead, CountedWrite};
use held_pairs::Holder;
use mine_inputs::{MineInputs, held_mine};
use std::alloc::Global;
use std::thread::Threads;

/// Judges a design as [`value_engine`](crate::value_engine) does, and compares it with the pit of a certificate, where
/// the blocks have prices at the factor that the certificate names.
///
/// Where [`check_engine`](check_engines::check_engine) would accept the certificate, a last line
/// `BEST count worth GAP amount` comes after the lines of the design. It has the certificate's pit, and by how much
/// that is worth more than the design: never a negative amount where the design is a pit. `Done` where the design is a
/// pit, and else `No`. Where the certificate would be refused, the line of that refusal is all that is written: `No`.
///
/// The inputs are read in the order of the arguments, each to its end, except the certificate, which is read up to its
/// first fault. Nothing is written before the answer is known.
///
/// # Errors
/// Those of [`value_engine`](crate::value_engine), and after those of the design's text those of a check: `Certificate`
/// and `Model`. `TooLarge` also where the gap doesn't fit.
///
/// Each device must have counted fewer than 2^64 - 1 failures, so that one more can be counted.
pub fn compare_engine<
    R: Threads + Sync,
    D: CountedRead,
    E: CountedRead,
    C: CountedRead,
    W: CountedWrite,
>(
    rt: &R,
    alloc: Global,
    inputs: &mut MineInputs<D>,
    design: &mut E,
    certificate: &mut C,
    out: &mut W,
) -> Result<Verdict, ValueFault>
    requires inputs_room { CanCount inputs.old D.failed }
    requires design_room { E.failed design.old < 2 ^ 64 - 1 }
    requires certificate_room { C.failed certificate.old < 2 ^ 64 - 1 }
    requires out_room { W.failed out.old < 2 ^ 64 - 1 }

    // What it answers and writes, where the readers tell their bytes.
    ensures answer { IfSome (E.remaining design.old) (λ d. IfSome (C.remaining certificate.old)
        (λ c. ForTexts inputs.old D.remaining (factor_in c) (λ texts.
        ComparesDesign texts d c (W.contents out.old) (W.contents out.new) result))) }

    // A device is named exactly where one failed.
    ensures device { IsErrOf result (value.Engine engine.Device)
        → OneFailed inputs.old inputs.new D.failed
        (E.failed design.old + C.failed certificate.old + W.failed out.old)
        (E.failed design.new + C.failed certificate.new + W.failed out.new) }
    ensures kept { ¬ IsErrOf result (value.Engine engine.Device)
        → NoneFailed inputs.old inputs.new D.failed
        × (E.failed design.new ≡ E.failed design.old)
        × (C.failed certificate.new ≡ C.failed certificate.old)
        × (W.failed out.new ≡ W.failed out.old) }
{
    let mine = held_mine(rt, alloc, inputs, Holder::Places)?;
    let marks = marks_from(alloc, design, mine.predecessors.len())?;
    let case = BesideCase {
        rt,
        alloc,
        mine,
        marks,
    };
    let beside = replace_with(certificate, case, judge_beside)?;
    tell_beside(alloc, beside, out)
}
