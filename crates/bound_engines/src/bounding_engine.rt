//! The engine of `bound`: the bytes of a mine, of its periods and of a certificate in, a bound on the worth of every
//! schedule out.

ghost use Rattle.std.specs.Prelude.{◌≡◌, ◌+◌, ◌-◌, ◌^◌, ◌<◌, ◌↔◌, IfErr, IfOk, IsErrOf, OnOk};
ghost use Rattle.std.specs.Io.KnownBytes.{Appends};
ghost use Rattle.std.specs.String.{string_bytes};
ghost use Rattle.check_engines.specs.Judging.{factor_in};
ghost use Rattle.check_engines.specs.Checking.{LineFails};
ghost use Rattle.mine_inputs.specs.MineInputs.{ForTexts, CanCount, NoneFailed, OneFailed};
ghost use Rattle.mine_inputs.specs.Ways.{ways_of};
ghost use Rattle.engine_faults.specs.declared.engine_fault.EngineFault.TheVariants as engine;
ghost use Rattle.schedule_engines.specs.declared.plan_fault.PlanFault.TheVariants as plan;
ghost use Rattle.planned_mine.specs.declared.bound_fault.BoundFault.TheVariants as bound;
ghost use Rattle.planned_mine.specs.BesideTexts.{BesideCanCount, ForBeside, beside_failures};
ghost use Rattle.bound_engines.specs.BoundLines.{Bounds, told_line, verdict_told};
ghost use Rattle.bound_engines.specs.Pits.{CertificatesCanCount, ForCertificates, certificate_failures, pit_failures};
ghost use Rattle.planned_mine.specs.TextFaults.{BesideFails, StandsInTexts};

use crate::bound_judge::BoundJudgement;
use crate::certificates::Certificates;
use crate::certificates_judge::told_by_certificates;
use check_engines::judgement_line::line_of;
use check_engines::{Judgement, Verdict};
use counted_devices::{CountedRead, CountedWrite, write_text};
use engine_faults::EngineFault;
use mine_inputs::{MineInputs, listed_mine};
use planned_mine::{BoundFault, BoundInputs, beside_from};
use schedule_engines::{PlanFault, Weighed};
use std::alloc::{AllocError, Global};
use std::thread::Threads;

/// The line of what is told.
///
/// # Errors
/// Memory was refused.
pub fn line_told(alloc: Global, told: BoundJudgement) -> Result<String, AllocError>
    ensures { IfOk result (λ line. string_bytes line ≡ told_line told) }
{
    match told {
        BoundJudgement::Bound(bound) => {
            let bound = Weighed(bound);
            format!(in alloc; "BOUND {bound}\n")
        }
        BoundJudgement::Refused(fault) => line_of(alloc, Judgement::Refused(fault)),
    }
}

// Writes what is told as one line.
fn write_told<W: CountedWrite>(
    alloc: Global,
    told: BoundJudgement,
    out: &mut W,
) -> Result<(), EngineFault>
    requires { W.failed out.old < 2 ^ 64 - 1 }
    ensures line { OnOk result
        (Appends (W.contents out.old) (W.contents out.new) (told_line told)) }
    ensures fault { IfErr result
        (LineFails (W.contents out.old) (W.contents out.new) (told_line told)) }
    ensures device { IsErrOf result engine.Device ↔ (W.failed out.new ≡ W.failed out.old + 1) }
    ensures kept { ¬ IsErrOf result engine.Device → W.failed out.new ≡ W.failed out.old }
{
    let line = line_told(alloc, told)?;
    write_text(out, line.as_bytes())?;
    Ok(())
}

// How the engine ends.
fn verdict_of(told: BoundJudgement) -> Verdict
    ensures { result ≡ verdict_told told }
{
    match told {
        BoundJudgement::Bound(_) => Verdict::Done,
        BoundJudgement::Refused(_) => Verdict::No,
    }
}

/// Judges a certificate of the expanded mine of a mine and its periods, where its blocks have prices at the factor that
/// the certificate names, and writes the bound that it proves. Where the certificate of a pit of the mine is given too,
/// it is judged before, as [`check_engine`](check_engines::check_engine) does, and the expanded mine is that of the
/// pit's blocks alone, numbered anew in ascending order; both certificates name one price.
///
/// `Done` where it wrote `BOUND v`: what the richest pit of the expanded mine is worth, with all capacities at their
/// multipliers, comes to v, and no feasible schedule of the whole mine over these periods is worth more, whichever ways
/// its blocks go: a node is worth what its block leaves at most by any way. `No` where it
/// wrote `REFUSED` with a fault of the pit or its flow: those of the first certificate that proves no pit.
///
/// The inputs are read in the order of the arguments, each to its end, except certificates, which are read up to their
/// first fault.
///
/// # Errors
/// Those of `mine_inputs::listed_mine`, then those of the periods, without multipliers `Missing`, and of the blocks
/// that have the uses; where a pit's certificate is given, those of `check_engines::check_engine` after its inputs;
/// `Nodes` with `TooManyNodes`; those of the certificate's header, `WrongPrice` where it isn't
/// the price of the pit's; `Periods` with `TooLarge`,
/// `Nodes`, and those of the certificate's other lines. `Memory` where memory is refused, `Device` where a read or a
/// write fails; at every other fault nothing was written.
///
/// Each device must have counted fewer than 2^64 - 1 failures, so that one more can be counted.
pub fn bound_engine<R: Threads + Sync, D: CountedRead, C: CountedRead, W: CountedWrite>(
    rt: &R,
    alloc: Global,
    inputs: &mut MineInputs<D>,
    beside: &mut BoundInputs<D>,
    certificates: &mut Certificates<C>,
    out: &mut W,
) -> Result<Verdict, BoundFault>
    requires inputs_room { CanCount inputs.old D.failed }
    requires beside_room { BesideCanCount beside.old D.failed }
    requires certificates_room { CertificatesCanCount certificates.old C.failed }
    requires out_room { W.failed out.old < 2 ^ 64 - 1 }

    // What it answers and writes, where the readers tell their bytes.
    ensures answer { ForCertificates certificates.old C.remaining
        (λ o c. ForBeside beside.old D.remaining (λ p u.
        ForTexts inputs.old D.remaining (factor_in c) (λ texts.
        Bounds texts p u o (W.contents out.old) (W.contents out.new) result))) }

    // A fault of a text stands there, and none before it.
    ensures fault { ForCertificates certificates.old C.remaining
        (λ o c. ForBeside beside.old D.remaining (λ p u.
        ForTexts inputs.old D.remaining (factor_in c) (λ texts.
        IfErr result (StandsInTexts texts (BesideFails (ways_of texts) p u))))) }

    // A device is named exactly where one failed.
    ensures device { IsErrOf result (bound.Plan (plan.Engine engine.Device))
        → OneFailed inputs.old inputs.new D.failed
        (beside_failures beside.old D.failed + certificate_failures certificates.old C.failed +
        W.failed out.old)
        (beside_failures beside.new D.failed + certificate_failures certificates.new C.failed +
        W.failed out.new) }
    ensures kept { ¬ IsErrOf result (bound.Plan (plan.Engine engine.Device))
        → NoneFailed inputs.old inputs.new D.failed
        × (beside_failures beside.new D.failed ≡ beside_failures beside.old D.failed)
        × (pit_failures certificates.new.pit C.failed ≡ pit_failures certificates.old.pit C.failed)
        × (C.failed certificates.new.nodes ≡ C.failed certificates.old.nodes)
        × (W.failed out.new ≡ W.failed out.old) }
{
    let mine = match listed_mine(rt, alloc, inputs) {
        Ok(mine) => mine,
        Err(fault) => return Err(BoundFault::Plan(PlanFault::Engine(fault))),
    };
    let ways = mine.worths.way_count();
    let beside = match beside_from(alloc, beside, mine.predecessors.len(), ways) {
        Ok(beside) => beside,
        Err(fault) => return Err(BoundFault::Plan(fault)),
    };
    let told = match told_by_certificates(rt, alloc, mine, beside, certificates) {
        Ok(told) => told,
        Err(fault) => return Err(fault),
    };
    match write_told(alloc, told, out) {
        Ok(()) => Ok(verdict_of(told)),
        Err(fault) => Err(BoundFault::Plan(PlanFault::Engine(fault))),
    }
}
