//! The engine of `check`: takes the bytes of a mine and a certificate, decides whether the certificate proves its
//! pit, and writes the verdict.

ghost use Rattle.std.specs.Prelude.{◌≡◌, ◌+◌, ◌-◌, ◌^◌, ◌<◌, IfSome, IsErrOf};
ghost use Rattle.check_engines.specs.Checking.{Checks, SoundIsAccepted};
ghost use Rattle.check_engines.specs.Judging.{factor_in};
ghost use Rattle.mine_inputs.specs.MineInputs.{ForTexts, CanCount, NoneFailed, OneFailed};

use crate::certificate_judge::{Case, judge};
use crate::judgement::Verdict;
use crate::judgement_line::write_judgement;
use core::mem::replace_with;
use counted_devices::{CountedRead, CountedWrite};
use engine_faults::EngineFault;
use held_pairs::Holder;
use mine_inputs::{MineInputs, held_mine};
use std::alloc::Global;
use std::thread::Threads;

/// Checks a certificate for a mine, where its blocks have prices at the factor that the certificate names, and writes
/// the answer as one line.
///
/// `Done` where it wrote `ACCEPTED`: the pit of the certificate contains every block that a block of it
/// rests on, and no such pit is worth more; with `GROUP PAIR` or `GROUP SCALED` every other of equal
/// worth has more blocks (Picard 1976). `No` where it wrote `REFUSED` with a fault of the pit or its
/// flow, the first that the lines show. Of two pits that are accepted over the same texts of prices, neither at `GROUP
/// WORTH`, the one at the lower factor lies within the other.
///
/// The inputs are read in the order of the arguments, each to its end, except the certificate, which is read up to its
/// first fault.
///
/// # Errors
/// Those of [`held_mine`]; then `Certificate` with the first fault of the certificate, `WrongPrice` among them; `Model`
/// where an amount of the net doesn't fit; `Device` where a read fails, and `Memory` where memory is refused.
///
/// Each device must have counted fewer than 2^64 - 1 failures, so that one more can be counted.
pub fn check_engine<R: Threads + Sync, D: CountedRead, C: CountedRead, W: CountedWrite>(
    rt: &R,
    alloc: Global,
    inputs: &mut MineInputs<D>,
    certificate: &mut C,
    out: &mut W,
) -> Result<Verdict, EngineFault>
    requires inputs_room { CanCount inputs.old D.failed }
    requires certificate_room { C.failed certificate.old < 2 ^ 64 - 1 }
    requires out_room { W.failed out.old < 2 ^ 64 - 1 }

    // What it answers and writes, where the readers tell their bytes.
    ensures answer { IfSome (C.remaining certificate.old)
        (λ c. ForTexts inputs.old D.remaining (factor_in c) (λ texts.
        Checks texts c (W.contents out.old) (W.contents out.new) result)) }
    ensures complete { IfSome (C.remaining certificate.old)
        (λ c. ForTexts inputs.old D.remaining (factor_in c) (λ texts.
        SoundIsAccepted texts c result)) }

    // A device is named exactly where one failed.
    ensures device { IsErrOf result EngineFault.Device
        → OneFailed inputs.old inputs.new D.failed (C.failed certificate.old + W.failed out.old)
        (C.failed certificate.new + W.failed out.new) }
    ensures kept { ¬ IsErrOf result EngineFault.Device → NoneFailed inputs.old inputs.new D.failed
        × (C.failed certificate.new ≡ C.failed certificate.old)
        × (W.failed out.new ≡ W.failed out.old) }
{
    let mine = held_mine(rt, alloc, inputs, Holder::Places)?;
    let judgement = replace_with(certificate, Case { rt, alloc, mine }, judge)?;
    write_judgement(alloc, judgement, out)?;
    Ok(judgement.verdict())
}
