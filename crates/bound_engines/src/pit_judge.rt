//! Judges the certificate of a pit of a mine that was read, as `check` does, and gives the pit with what its blocks are
//! worth.

ghost use Rattle.std.specs.Prelude.{◌≡◌, ◌+◌, ◌-◌, ◌^◌, ◌<◌, IfErr, IfOk, IfSome, IsErrOf};
ghost use Rattle.std.specs.Thread.{IsSync};
ghost use Rattle.prec_file.specs.Rests.{RestsView};
ghost use Rattle.check_pit.specs.CertStreams.{IsReadFor};
ghost use Rattle.check_engines.specs.Judging.{IsFresh, IsUndecided, StandsAfter};
ghost use Rattle.check_engines.specs.Readings.{IsHeader};
ghost use Rattle.mine_inputs.specs.Mines.{MineTexts};
ghost use Rattle.mine_inputs.specs.ReadMines.{IsMineRead};
ghost use Rattle.mine_inputs.specs.Worths.{nanos_at};
ghost use Rattle.engine_faults.specs.declared.engine_fault.EngineFault.TheVariants as engine;
ghost use Rattle.schedule_engines.specs.declared.plan_fault.PlanFault.TheVariants as plan;
ghost use Rattle.planned_mine.specs.declared.bound_fault.BoundFault.TheVariants as bound;
ghost use Rattle.bound_engines.specs.Parts.{IsPitMine, IsPitTold};
ghost use Rattle.planned_mine.specs.TextFaults.{IsBeyondTexts};

use crate::nodes_judge::{header_fault, of_certificate};
use crate::pit_check::{PitTold, check_pit};
use check_pit::{CertFault, CertStream, StreamBytes};
use counted_devices::CountedRead;
use engine_faults::{CertificateProblem, EngineFault};
use held_pairs::HeldPairs;
use mine_inputs::{ListedMine, Worths};
use ordered_group::Group;
use planned_mine::BoundFault;
use schedule_engines::PlanFault;
use shells::Factor;
use std::alloc::Global;
use std::thread::Threads;

/// A mine for which the certificate of a pit is judged.
#[derive(Drop)]
pub(crate) struct PitCase<'a, R> {
    pub(crate) rt: &'a R,
    pub(crate) alloc: Global,
    pub(crate) mine: ListedMine,
}

/// A mine with the pit that a certificate proves.
#[derive(Drop)]
pub(crate) struct PitMine {
    /// What its blocks are worth.
    pub worths: Worths,
    /// Who rests on whom.
    pub held: HeldPairs,
    /// The factor that the certificate names.
    pub factor: Factor,
    /// What each block is worth at it, in billionths.
    pub nanos: Vec<i128>,
    /// The pit, or why there is none.
    pub told: PitTold,
}

// What the header of a certificate says of a mine.
#[derive(Clone, Copy)]
struct PitHeader {
    group: Group,
    factor: Factor,
}

// Reads the header of a certificate for a mine of so many blocks.
fn header_from<C: CountedRead>(
    worths: &Worths,
    blocks: u32,
    stream: &mut CertStream<C>,
) -> Result<PitHeader, BoundFault>
    requires count { C.failed stream.old.lines.from < 2 ^ 64 - 1 }
    requires fresh { IsFresh stream.old }
    ensures read { IfSome (C.remaining stream.old.lines.from) (λ c. IfOk result (λ h.
        (texts : MineTexts) (rests : RestsView) → rests.blocks ≡ blocks
        → IsMineRead texts h.factor worths.now rests
        → IsHeader texts c blocks h.group × StandsAfter C.remaining c stream.new.lines)) }
    ensures header { IfOk result
        (λ h. IsReadFor blocks h.group stream.new.header stream.new.fault) }
    ensures open { IfOk result (λ _. IsUndecided stream.new) }
    ensures device { IsErrOf result (bound.Plan (plan.Engine engine.Device))
        → C.failed stream.new.lines.from ≡ C.failed stream.old.lines.from + 1 }
    ensures kept { ¬ IsErrOf result (bound.Plan (plan.Engine engine.Device))
        → C.failed stream.new.lines.from ≡ C.failed stream.old.lines.from }
    ensures beyond { IfErr result IsBeyondTexts }
{
    let header = match stream.header() {
        Ok(header) => header,
        Err(fault) => return Err(header_fault(fault)),
    };
    if header.blocks != blocks {
        return Err(of_certificate(CertificateProblem::Fault(CertFault::Number(2))));
    }
    match worths.factor_of(header.price) {
        Some(factor) => Ok(PitHeader {
            group: header.group,
            factor,
        }),
        None => Err(of_certificate(CertificateProblem::WrongPrice)),
    }
}

// The pit of a certificate of which nothing was read.
fn pit_from<R: Threads + Sync, C: CountedRead>(
    rt: &R,
    alloc: Global,
    mine: ListedMine,
    stream: &mut CertStream<C>,
) -> Result<PitMine, BoundFault>
    requires count { C.failed stream.old.lines.from < 2 ^ 64 - 1 }
    requires fresh { IsFresh stream.old }
    requires sync { IsSync R.row }
    ensures told { IfSome (C.remaining stream.old.lines.from) (λ c. IfOk result (λ q.
        (texts : MineTexts) → IsMineRead texts q.factor mine.worths mine.predecessors
        → IsPitTold texts mine.predecessors.blocks c q.told)) }
    ensures is { IfOk result (IsPitMine mine.worths mine.predecessors) }
    ensures device { IsErrOf result (bound.Plan (plan.Engine engine.Device))
        → C.failed stream.new.lines.from ≡ C.failed stream.old.lines.from + 1 }
    ensures kept { ¬ IsErrOf result (bound.Plan (plan.Engine engine.Device))
        → C.failed stream.new.lines.from ≡ C.failed stream.old.lines.from }
    ensures beyond { IfErr result IsBeyondTexts }
{
    let ListedMine {
        worths,
        predecessors,
    } = mine;
    let held = HeldPairs::of_list(predecessors);
    let header = match header_from(&worths, held.len(), stream) {
        Ok(header) => header,
        Err(fault) => return Err(fault),
    };
    let factor = header.factor;
    let Ok(nanos) = worths.nanos_at(rt, alloc, factor) else {
        return Err(BoundFault::Plan(PlanFault::Engine(EngineFault::Memory)));
    };
    match check_pit(alloc, header.group, &held, nanos.as_slice(), stream) {
        Ok(told) => Ok(PitMine {
            worths,
            held,
            factor,
            nanos,
            told,
        }),
        Err(fault) => Err(fault),
    }
}

/// The pit that the certificate of a device proves for a mine that was read, or why it proves none. Where the blocks
/// have prices they are worth what these give at the factor that the certificate names. The device is handed back.
///
/// # Errors
/// As `check_engines::check_engine` answers them after the inputs of the mine: `Certificate` with the first fault of
/// the certificate, `WrongPrice` among them; `Model` where an amount of the net doesn't fit; `Device` where a read
/// fails, and `Memory` where memory is refused.
pub(crate) fn judge_pit<R: Threads + Sync, C: CountedRead>(
    device: C,
    case: PitCase<'_, R>,
) -> (C, Result<PitMine, BoundFault>)
    requires count { C.failed device < 2 ^ 64 - 1 }
    requires sync { IsSync R.row }
    ensures told { IfSome (C.remaining device) (λ c. IfOk result.1 (λ q.
        (texts : MineTexts)
        → IsMineRead texts q.factor case.entry.mine.worths case.entry.mine.predecessors
        → IsPitTold texts case.entry.mine.predecessors.blocks c q.told)) }
    ensures is { IfOk result.1 (IsPitMine case.entry.mine.worths case.entry.mine.predecessors) }
    ensures device { IsErrOf result.1 (bound.Plan (plan.Engine engine.Device))
        → C.failed result.0 ≡ C.failed device + 1 }
    ensures kept { ¬ IsErrOf result.1 (bound.Plan (plan.Engine engine.Device))
        → C.failed result.0 ≡ C.failed device }
    ensures beyond { IfErr result.1 IsBeyondTexts }
{
    let PitCase { rt, alloc, mine } = case;
    let Ok(held) = StreamBytes::new(alloc) else {
        let fault = BoundFault::Plan(PlanFault::Engine(EngineFault::Memory));
        return (device, Err(fault));
    };
    let mut stream = CertStream::over(held, device);
    let told = pit_from(rt, alloc, mine, &mut stream);
    (stream.into_device(), told)
}
