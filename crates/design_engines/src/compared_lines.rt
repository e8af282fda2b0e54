//! Writes what a design comes to and, beside it, the pit that a certificate proves and how much more that is worth,
//! or that the certificate is refused.

ghost use Rattle.std.specs.Prelude.{◌≡◌, ◌+◌, ◌-◌, ◌^◌, ◌<◌, ◌↔◌, ◌++◌, ◌-ℤ◌, ℕ, List, SomeIff, FitsSigned, IfOk, OnOk, IfErr, IsErrOf};
ghost use Rattle.std.specs.Int.{w128};
ghost use Rattle.std.specs.Io.KnownBytes.{Appends};
ghost use Rattle.std.specs.String.{string_bytes};
ghost use Rattle.ordered_group.specs.declared.groups.Group.{Group};
ghost use Rattle.check_engines.specs.Checking.{LineFails};
ghost use Rattle.check_engines.specs.Judgements.{CertificateAccepted};
ghost use Rattle.mine_inputs.specs.Mines.{MineTexts};
ghost use Rattle.engine_faults.specs.declared.engine_fault.EngineFault.TheVariants as engine;
ghost use Rattle.design_engines.specs.declared.value_fault.ValueFault.TheVariants as value;
ghost use Rattle.design_engines.specs.Compares.{IsBeside, ComparesDesign};
ghost use Rattle.design_engines.specs.Comparisons.{best_line};
ghost use Rattle.design_engines.specs.Designs.{IsValued, design_text};
ghost use Rattle.design_engines.specs.Told.{design_view};

use crate::beside_judge::Beside;
use crate::design_lines::text_of;
use crate::value_fault::{DesignProblem, ValueFault};
use crate::valued::{Valued, verdict_where};
use check_engines::judgement_line::write_judgement;
use check_engines::{Judgement, Verdict};
use counted_devices::{CountedWrite, write_text};
use engine_faults::EngineFault;
use fixed_worth::Nanos;
use std::alloc::{AllocError, Global};

/// Writes what a design comes to and, beside it, the pit of a certificate that a check accepts; or the line of a check
/// that refuses the certificate.
///
/// # Errors
/// `TooLarge` where the gap doesn't fit, `Memory` where memory is refused: then nothing was written. `Device` where a
/// write fails: the writer then has a prefix.
pub(crate) fn tell_beside<W: CountedWrite>(
    alloc: Global,
    beside: Beside,
    out: &mut W,
) -> Result<Verdict, ValueFault>
    requires { W.failed out.old < 2 ^ 64 - 1 }
    ensures answer { (texts : MineTexts) (design c : List ℕ)
        → IsBeside texts design c (design_view beside.valued) beside.judgement
        → ComparesDesign texts design c (W.contents out.old) (W.contents out.new) result }
    ensures device { IsErrOf result (value.Engine engine.Device)
        → W.failed out.new ≡ W.failed out.old + 1 }
    ensures kept { ¬ IsErrOf result (value.Engine engine.Device)
        → W.failed out.new ≡ W.failed out.old }
{
    let Beside { valued, judgement } = beside;
    match judgement {
        Judgement::Accepted { count, worth, .. } => tell_gap(alloc, &valued, count, worth, out),
        Judgement::Refused(_) => {
            write_judgement(alloc, judgement, out)?;
            Ok(judgement.verdict())
        }
    }
}

// The lines of a design and of a pit that is proved.
fn tell_gap<W: CountedWrite>(
    alloc: Global,
    valued: &Valued,
    count: u32,
    worth: i128,
    out: &mut W,
) -> Result<Verdict, ValueFault>
    requires { W.failed out.old < 2 ^ 64 - 1 }
    ensures answer { (texts : MineTexts) (design c : List ℕ) (name : Group)
        → IsValued texts design (design_view valued.now)
        → CertificateAccepted texts c name count worth
        → ComparesDesign texts design c (W.contents out.old) (W.contents out.new) result }
    ensures device { IsErrOf result (value.Engine engine.Device)
        → W.failed out.new ≡ W.failed out.old + 1 }
    ensures kept { ¬ IsErrOf result (value.Engine engine.Device)
        → W.failed out.new ≡ W.failed out.old }
{
    let gap = match gap_of(worth, valued.worth) {
        Some(gap) => gap,
        None => return Err(ValueFault::Design(DesignProblem::TooLarge)),
    };
    write_compared(alloc, valued, count, worth, gap, out)?;
    Ok(verdict_where(valued.open.count))
}

// What a pit is worth more than a design.
fn gap_of(worth: i128, design: i128) -> Option<i128>
    ensures { SomeIff result (FitsSigned w128 (worth -ℤ design)) (worth -ℤ design) }
{
    worth.checked_sub(design)
}

// The lines of a design, and that of a pit which is worth so much more.
fn write_compared<W: CountedWrite>(
    alloc: Global,
    valued: &Valued,
    count: u32,
    worth: i128,
    gap: i128,
    out: &mut W,
) -> Result<(), EngineFault>
    requires { W.failed out.old < 2 ^ 64 - 1 }
    ensures lines { OnOk result (Appends (W.contents out.old) (W.contents out.new)
        (design_text (design_view valued.now) ++ best_line count worth gap)) }
    ensures fault { IfErr result (LineFails (W.contents out.old) (W.contents out.new)
        (design_text (design_view valued.now) ++ best_line count worth gap)) }
    ensures device { IsErrOf result EngineFault.Device ↔ (W.failed out.new ≡ W.failed out.old + 1) }
    ensures kept { ¬ IsErrOf result EngineFault.Device → W.failed out.new ≡ W.failed out.old }
{
    let design = text_of(alloc, valued)?;
    let text = with_best(alloc, &design, count, worth, gap)?;
    write_text(out, text.as_bytes())?;
    Ok(())
}

// The lines of a design, and that of a pit after them.
fn with_best(
    alloc: Global,
    design: &String,
    count: u32,
    worth: i128,
    gap: i128,
) -> Result<String, AllocError>
    ensures { IfOk result
        (λ text. string_bytes text ≡ string_bytes design.now ++ best_line count worth gap) }
{
    let worth = Nanos(worth);
    let gap = Nanos(gap);
    format!(in alloc; "{design}BEST {count} {worth} GAP {gap}\n")
}
