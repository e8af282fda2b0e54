//! The engine of `schedule` where a certificate is given: a schedule, and beside it a bound on the worth of every
//! schedule.

ghost use Rattle.std.specs.Prelude.{◌≡◌, ◌+◌, ◌-◌, ◌^◌, ◌<◌, IfErr, IsErrOf};
ghost use Rattle.check_engines.specs.Judging.{factor_in};
ghost use Rattle.mine_inputs.specs.MineInputs.{ForTexts, CanCount, NoneFailed, OneFailed};
ghost use Rattle.mine_inputs.specs.Ways.{ways_of};
ghost use Rattle.engine_faults.specs.declared.engine_fault.EngineFault.TheVariants as engine;
ghost use Rattle.schedule_engines.specs.PlanDevices.{ForPlan, PlanCanCount, plan_failures};
ghost use Rattle.schedule_engines.specs.declared.plan_fault.PlanFault.TheVariants as plan;
ghost use Rattle.planned_mine.specs.declared.bound_fault.BoundFault.TheVariants as bound;
ghost use Rattle.gap_engines.specs.GapLines.{Compares};
ghost use Rattle.bound_engines.specs.Pits.{CertificatesCanCount, ForCertificates, certificate_failures, pit_failures};
ghost use Rattle.planned_mine.specs.TextFaults.{StandsInTexts};
ghost use Rattle.gap_engines.specs.GapTexts.{ComparedFails};

use crate::compared_inputs::plan_priced_from;
use crate::compared_lines::tell_found;
use crate::compared_within::compared_by;
use bound_engines::Certificates;
use check_engines::Verdict;
use counted_devices::{CountedRead, CountedWrite};
use mine_inputs::{MineInputs, listed_mine};
use planned_mine::BoundFault;
use schedule_engines::{PlanFault, ScheduleInputs};
use std::alloc::Global;
use std::thread::Threads;

/// Judges a schedule as [`schedule_engine`](schedule_engines::schedule_engine) does, and certificates as
/// [`bound_engine`](bound_engines::bound_engine) does, over the same mine and the same periods. Blocks that have prices
/// are worth what these give at the factor that the certificate names. The schedule is one of the whole mine, also
/// where the certificate of a pit is given.
///
/// Where the certificate proves a bound, `BOUND v` comes after the lines of the schedule: no feasible schedule of the
/// mine over these periods is worth more than v. Where the schedule is feasible, a last line `GAP g` has what v is more
/// than the schedule's worth: never less than nothing, and then it answers `Done`. For a schedule that isn't feasible
/// no gap is told: `No`. Where a certificate is refused, the line of that refusal is all that is written: `No`.
///
/// The inputs are read in the order of the arguments, each to its end, except certificates, which are read up to their
/// first fault. Nothing is written before the answer is known.
///
/// # Errors
/// Those of `mine_inputs::listed_mine`, then those of the periods, without multipliers `Missing`, of the blocks that
/// have the uses, and of the schedule; then those of [`bound_engine`](bound_engines::bound_engine) after its other
/// inputs, and `Nodes` with `TooLarge` where the gap doesn't fit. `Memory` where memory is refused, `Device` where a
/// read or a write fails; at every other fault nothing was written.
///
/// Each device must have counted fewer than 2^64 - 1 failures, so that one more can be counted.
pub fn compare_schedule_engine<R: Threads + Sync, D: CountedRead, C: CountedRead, W: CountedWrite>(
    rt: &R,
    alloc: Global,
    inputs: &mut MineInputs<D>,
    beside: &mut ScheduleInputs<D>,
    certificates: &mut Certificates<C>,
    out: &mut W,
) -> Result<Verdict, BoundFault>
    requires inputs_room { CanCount inputs.old D.failed }
    requires beside_room { PlanCanCount beside.old D.failed }
    requires certificates_room { CertificatesCanCount certificates.old C.failed }
    requires out_room { W.failed out.old < 2 ^ 64 - 1 }

    // What it answers and writes, where the readers tell their bytes.
    ensures answer { ForCertificates certificates.old C.remaining
        (λ o c. ForPlan beside.old D.remaining (λ p u s.
        ForTexts inputs.old D.remaining (factor_in c) (λ texts.
        Compares texts p u o s (W.contents out.old) (W.contents out.new) result))) }

    // A fault of a text stands there, and none before it.
    ensures fault { ForCertificates certificates.old C.remaining
        (λ o c. ForPlan beside.old D.remaining (λ p u s.
        ForTexts inputs.old D.remaining (factor_in c) (λ texts.
        IfErr result (StandsInTexts texts (ComparedFails (ways_of texts) p u s))))) }

    // A device is named exactly where one failed.
    ensures device { IsErrOf result (bound.Plan (plan.Engine engine.Device))
        → OneFailed inputs.old inputs.new D.failed
        (plan_failures beside.old D.failed + certificate_failures certificates.old C.failed +
        W.failed out.old)
        (plan_failures beside.new D.failed + certificate_failures certificates.new C.failed +
        W.failed out.new) }
    ensures kept { ¬ IsErrOf result (bound.Plan (plan.Engine engine.Device))
        → NoneFailed inputs.old inputs.new D.failed
        × (plan_failures beside.new D.failed ≡ plan_failures beside.old D.failed)
        × (pit_failures certificates.new.pit C.failed ≡ pit_failures certificates.old.pit C.failed)
        × (C.failed certificates.new.nodes ≡ C.failed certificates.old.nodes)
        × (W.failed out.new ≡ W.failed out.old) }
{
    let mine = match listed_mine(rt, alloc, inputs) {
        Ok(mine) => mine,
        Err(fault) => return Err(BoundFault::Plan(PlanFault::Engine(fault))),
    };
    let ways = mine.worths.way_count();
    let read = match plan_priced_from(alloc, beside, mine.predecessors.len(), ways) {
        Ok(read) => read,
        Err(fault) => return Err(BoundFault::Plan(fault)),
    };
    let found = match compared_by(rt, alloc, mine, read, certificates) {
        Ok(found) => found,
        Err(fault) => return Err(fault),
    };
    tell_found(alloc, found, out)
}
