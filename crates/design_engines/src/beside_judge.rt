//! What a design comes to, and what a check says of a certificate for the same mine.

ghost use Rattle.std.specs.Prelude.{◌≡◌, ◌+◌, ◌-◌, ◌^◌, ◌<◌, ℕ, List, length, IfSome, MatchResult, IsErrOf};
ghost use Rattle.std.specs.Thread.{IsSync};
ghost use Rattle.check_engines.specs.Judging.{IsFresh, factor_in};
ghost use Rattle.mine_inputs.specs.Mines.{MineTexts};
ghost use Rattle.mine_inputs.specs.ReadMines.{IsMineRead};
ghost use Rattle.engine_faults.specs.declared.engine_fault.EngineFault.TheVariants as engine;
ghost use Rattle.design_engines.specs.declared.value_fault.ValueFault.TheVariants as value;
ghost use Rattle.design_engines.specs.Compares.{IsBeside, ComparisonFails};
ghost use Rattle.design_engines.specs.DesignTexts.{ReadsDesign};
ghost use Rattle.design_engines.specs.Told.{design_view};

use crate::mine_value::value_of;
use crate::value_fault::ValueFault;
use crate::valued::Valued;
use check_engines::Judgement;
use check_engines::certificate_judge::{judge_priced, price_mine};
use check_pit::{CertStream, StreamBytes};
use counted_devices::CountedRead;
use engine_faults::EngineFault;
use mine_inputs::HeldMine;
use std::alloc::Global;
use std::thread::Threads;

/// What a design comes to, and what a check says of a certificate.
#[derive(Drop)]
pub(crate) struct Beside {
    /// What the design comes to.
    pub valued: Valued,
    /// What a check says of the certificate.
    pub judgement: Judgement,
}

/// A mine and a design of it, beside which a certificate is judged.
#[derive(Drop)]
pub(crate) struct BesideCase<'a, R> {
    pub(crate) rt: &'a R,
    pub(crate) alloc: Global,
    pub(crate) mine: HeldMine,
    pub(crate) marks: Vec<bool>,
}

/// What a design comes to in a mine that was read, and what a check says of the certificate that a device gives. Where
/// the blocks have prices they are worth what these give at the factor that the certificate names. The certificate is
/// read line by line, up to its end or to its first fault, from a stream that holds the device meanwhile. The device is
/// handed back.
///
/// # Errors
/// Those of the certificate that `check_engine` has, and `TooLarge` where a sum of the worths of the design's
/// blocks doesn't fit.
pub(crate) fn judge_beside<R: Threads + Sync, C: CountedRead>(
    device: C,
    case: BesideCase<'_, R>,
) -> (C, Result<Beside, ValueFault>)
    requires count { C.failed device < 2 ^ 64 - 1 }
    requires marks { length case.marks.items ≡ case.mine.predecessors.blocks }
    requires sync { IsSync R.row }
    ensures judged { IfSome (C.remaining device) (λ c. (texts : MineTexts) (design : List ℕ)
        → IsMineRead texts (factor_in c) case.entry.mine.worths case.entry.mine.predecessors
        → ReadsDesign case.entry.mine.predecessors.blocks design case.entry.marks.items
        → MatchResult result.1
        (λ b. IsBeside texts design c (design_view b.valued) b.judgement)
        (ComparisonFails texts design c)) }
    ensures device { IsErrOf result.1 (value.Engine engine.Device)
        → C.failed result.0 ≡ C.failed device + 1 }
    ensures kept { ¬ IsErrOf result.1 (value.Engine engine.Device)
        → C.failed result.0 ≡ C.failed device }
{
    let Ok(held) = StreamBytes::new(case.alloc) else {
        return (device, Err(ValueFault::Engine(EngineFault::Memory)));
    };
    let mut stream = CertStream::over(held, device);
    let beside = beside_stream(case, &mut stream);
    (stream.into_device(), beside)
}

// Judges the case and the certificate of a stream. The values or prices and the marks are given back before the check
// takes memory.
fn beside_stream<R: Threads + Sync, C: CountedRead>(
    case: BesideCase<'_, R>,
    stream: &mut CertStream<C>,
) -> Result<Beside, ValueFault>
    requires count { C.failed stream.old.lines.from < 2 ^ 64 - 1 }
    requires fresh { IsFresh stream.old }
    requires marks { length case.marks.items ≡ case.mine.predecessors.blocks }
    ensures judged { IfSome (C.remaining stream.old.lines.from)
        (λ c. (texts : MineTexts) (design : List ℕ)
        → IsMineRead texts (factor_in c) case.entry.mine.worths case.entry.mine.predecessors
        → ReadsDesign case.entry.mine.predecessors.blocks design case.entry.marks.items
        → MatchResult result
        (λ b. IsBeside texts design c (design_view b.valued) b.judgement)
        (ComparisonFails texts design c)) }
    ensures device { IsErrOf result (value.Engine engine.Device)
        → C.failed stream.new.lines.from ≡ C.failed stream.old.lines.from + 1 }
    ensures kept { ¬ IsErrOf result (value.Engine engine.Device)
        → C.failed stream.new.lines.from ≡ C.failed stream.old.lines.from }
{
    let BesideCase {
        rt,
        alloc,
        mine,
        marks,
    } = case;
    let mine = price_mine(rt, alloc, mine, stream)?;
    let valued = value_of(
        alloc,
        mine.nanos.as_slice(),
        &mine.predecessors,
        marks.as_slice(),
    )?;
    drop(marks);
    let judgement = judge_priced(alloc, mine, stream)?;
    Ok(Beside { valued, judgement })
}
