//! Writes what a schedule comes to and, after it, the bound on all schedules and how far the schedule is below it; or
//! that the certificate is refused.

ghost use Rattle.std.specs.Prelude.{◌≡◌, ◌+◌, ◌-◌, ◌^◌, ◌<◌, ◌++◌, ◌-ℤ◌, ℕ, List, Option, IsTrue, IfErr, IfOk, IfSome, IsErrOf};
ghost use Rattle.std.specs.Io.KnownBytes.{Appends};
ghost use Rattle.std.specs.String.{string_bytes};
ghost use Rattle.mine_inputs.specs.Mines.{MineTexts};
ghost use Rattle.engine_faults.specs.declared.engine_fault.EngineFault.TheVariants as engine;
ghost use Rattle.schedule_value.specs.Judging.{judged_view};
ghost use Rattle.schedule_engines.specs.ScheduleLines.{schedule_text};
ghost use Rattle.schedule_engines.specs.declared.plan_fault.PlanFault.TheVariants as plan;
ghost use Rattle.planned_mine.specs.declared.bound_fault.BoundFault.TheVariants as bound;
ghost use Rattle.gap_engines.specs.Gaps.{IsCompared};
ghost use Rattle.gap_engines.specs.GapLines.{Compares, compared_text, compared_verdict, gap_line, gap_text};
ghost use Rattle.gap_engines.specs.Gaps.{IsComparedBy};
ghost use Rattle.bound_engines.specs.Pits.{IsGiven};
ghost use Rattle.planned_mine.specs.TextFaults.{IsBeyondTexts};

use crate::compared_judge::Compared;
use crate::compared_within::ComparedBy;
use bound_engines::{BoundJudgement, line_told};
use check_engines::Verdict;
use check_pit::PitFault;
use counted_devices::{CountedWrite, write_text};
use engine_faults::EngineFault;
use planned_mine::{BoundFault, NodesProblem};
use schedule_engines::{PlanFault, Weighed, is_clear, text_of_schedule};
use schedule_value::Judged;
use std::alloc::{AllocError, Global};

// How far a schedule is below a bound, where that fits.
fn gap_of(bound: i128, npv: i128) -> Option<i128>
    ensures { IfSome result (λ gap. gap ≡ bound -ℤ npv) }
{
    bound.checked_sub(npv)
}

// The line of a gap.
fn line_of_gap(alloc: Global, gap: i128) -> Result<String, AllocError>
    ensures { IfOk result (λ line. string_bytes line ≡ gap_line gap) }
{
    let gap = Weighed(gap);
    format!(in alloc; "GAP {gap}\n")
}

// How far a schedule is below a bound, as a line; nothing of one that isn't feasible.
fn gap_told(alloc: Global, judged: &Judged, most: i128) -> Result<String, BoundFault>
    ensures text { IfOk result
        (λ text. string_bytes text ≡ gap_text (judged_view judged.now) most) }
    ensures no_device { ¬ IsErrOf result (bound.Plan (plan.Engine engine.Device)) }
    ensures beyond { IfErr result IsBeyondTexts }
{
    if !is_clear(judged) {
        return Ok(String::new(alloc));
    }
    let Some(gap) = gap_of(most, judged.npv) else {
        return Err(BoundFault::Nodes(NodesProblem::TooLarge));
    };
    match line_of_gap(alloc, gap) {
        Ok(line) => Ok(line),
        Err(_) => Err(BoundFault::Plan(PlanFault::Engine(EngineFault::Memory))),
    }
}

// Three texts, one after another.
fn joined(
    alloc: Global,
    schedule: &String,
    line: &String,
    gap: &String,
) -> Result<String, AllocError>
    ensures { IfOk result (λ text. string_bytes text
        ≡ string_bytes schedule.now ++ (string_bytes line.now ++ string_bytes gap.now)) }
{
    format!(in alloc; "{schedule}{line}{gap}")
}

// The lines of a schedule, the line of the bound on all, and that of the gap where the schedule is feasible.
fn lines_below(
    alloc: Global,
    judged: &Judged,
    line: &String,
    most: i128,
) -> Result<String, BoundFault>
    ensures text { IfOk result (λ text. string_bytes text
        ≡ schedule_text (judged_view judged.now)
        ++ (string_bytes line.now ++ gap_text (judged_view judged.now) most)) }
    ensures no_device { ¬ IsErrOf result (bound.Plan (plan.Engine engine.Device)) }
    ensures beyond { IfErr result IsBeyondTexts }
{
    let gap = match gap_told(alloc, judged, most) {
        Ok(gap) => gap,
        Err(fault) => return Err(fault),
    };
    let Ok(schedule) = text_of_schedule(alloc, judged) else {
        return Err(BoundFault::Plan(PlanFault::Engine(EngineFault::Memory)));
    };
    match joined(alloc, &schedule, line, &gap) {
        Ok(text) => Ok(text),
        Err(_) => Err(BoundFault::Plan(PlanFault::Engine(EngineFault::Memory))),
    }
}

// The text that tells a schedule and a certificate.
fn text_told(alloc: Global, judged: &Judged, told: BoundJudgement) -> Result<String, BoundFault>
    ensures text { IfOk result
        (λ text. string_bytes text ≡ compared_text (judged_view judged.now) told) }
    ensures no_device { ¬ IsErrOf result (bound.Plan (plan.Engine engine.Device)) }
    ensures beyond { IfErr result IsBeyondTexts }
{
    let Ok(line) = line_told(alloc, told) else {
        return Err(BoundFault::Plan(PlanFault::Engine(EngineFault::Memory)));
    };
    match told {
        BoundJudgement::Bound(most) => lines_below(alloc, judged, &line, most),
        BoundJudgement::Refused(_) => Ok(line),
    }
}

// How the engine ends: well where a bound is told of a schedule that is feasible.
fn verdict_told(judged: &Judged, told: BoundJudgement) -> Verdict
    ensures { result ≡ compared_verdict (judged_view judged.now) told }
{
    match told {
        BoundJudgement::Bound(_) => {
            if is_clear(judged) {
                Verdict::Done
            } else {
                Verdict::No
            }
        }
        BoundJudgement::Refused(_) => Verdict::No,
    }
}

// Writes a text, and answers whether no write failed.
fn is_written<W: CountedWrite>(text: &String, out: &mut W) -> bool
    requires { W.failed out.old < 2 ^ 64 - 1 }
    ensures text { IsTrue result
        → Appends (W.contents out.old) (W.contents out.new) (string_bytes text.now) }
    ensures kept { IsTrue result → W.failed out.new ≡ W.failed out.old }
    ensures counted { ¬ IsTrue result → W.failed out.new ≡ W.failed out.old + 1 }
{
    write_text(out, text.as_bytes()).is_ok()
}

// Writes what a schedule comes to, the bound on all schedules, and the gap where the schedule is feasible; or the line
// of a certificate that proves no bound.
fn tell_compared<W: CountedWrite>(
    alloc: Global,
    compared: Compared,
    out: &mut W,
) -> Result<Verdict, BoundFault>
    requires { W.failed out.old < 2 ^ 64 - 1 }
    ensures answer { (texts : MineTexts) (p u : List ℕ) (o : Option (List ℕ)) (s : List ℕ)
        → IsCompared texts p u o s (judged_view compared.judged) compared.told
        → Compares texts p u o s (W.contents out.old) (W.contents out.new) result }
    ensures device { IsErrOf result (bound.Plan (plan.Engine engine.Device))
        → W.failed out.new ≡ W.failed out.old + 1 }
    ensures kept { ¬ IsErrOf result (bound.Plan (plan.Engine engine.Device))
        → W.failed out.new ≡ W.failed out.old }
    ensures beyond { IfErr result IsBeyondTexts }
{
    let Compared { judged, told } = compared;
    let text = match text_told(alloc, &judged, told) {
        Ok(text) => text,
        Err(fault) => return Err(fault),
    };
    if is_written(&text, out) {
        Ok(verdict_told(&judged, told))
    } else {
        Err(BoundFault::Plan(PlanFault::Engine(EngineFault::Device)))
    }
}

// Writes that the certificate of a pit proves none.
fn tell_no_pit<W: CountedWrite>(
    alloc: Global,
    fault: PitFault,
    out: &mut W,
) -> Result<Verdict, BoundFault>
    requires { W.failed out.old < 2 ^ 64 - 1 }
    ensures answer { (texts : MineTexts) (p u : List ℕ) (o : Option (List ℕ)) (s : List ℕ)
        → IsGiven o → Compares texts p u o s (W.contents out.old) (W.contents out.new) result }
    ensures device { IsErrOf result (bound.Plan (plan.Engine engine.Device))
        → W.failed out.new ≡ W.failed out.old + 1 }
    ensures kept { ¬ IsErrOf result (bound.Plan (plan.Engine engine.Device))
        → W.failed out.new ≡ W.failed out.old }
    ensures beyond { IfErr result IsBeyondTexts }
{
    let Ok(line) = line_told(alloc, BoundJudgement::Refused(fault)) else {
        return Err(BoundFault::Plan(PlanFault::Engine(EngineFault::Memory)));
    };
    if is_written(&line, out) {
        Ok(Verdict::No)
    } else {
        Err(BoundFault::Plan(PlanFault::Engine(EngineFault::Device)))
    }
}

/// Writes what a schedule comes to, the bound on all schedules, and the gap where the schedule is feasible; or the line
/// of a certificate that proves no bound or no pit.
///
/// # Errors
/// `Nodes` with `TooLarge` where the gap doesn't fit, `Memory` where memory is refused: then nothing was written.
/// `Device` where a write fails.
pub(crate) fn tell_found<W: CountedWrite>(
    alloc: Global,
    found: ComparedBy,
    out: &mut W,
) -> Result<Verdict, BoundFault>
    requires { W.failed out.old < 2 ^ 64 - 1 }
    ensures answer { (texts : MineTexts) (p u : List ℕ) (o : Option (List ℕ)) (s : List ℕ)
        → IsComparedBy texts p u o s found
        → Compares texts p u o s (W.contents out.old) (W.contents out.new) result }
    ensures device { IsErrOf result (bound.Plan (plan.Engine engine.Device))
        → W.failed out.new ≡ W.failed out.old + 1 }
    ensures kept { ¬ IsErrOf result (bound.Plan (plan.Engine engine.Device))
        → W.failed out.new ≡ W.failed out.old }
    ensures beyond { IfErr result IsBeyondTexts }
{
    match found {
        ComparedBy::Bound(compared) => tell_compared(alloc, compared, out),
        ComparedBy::NoPit(fault) => tell_no_pit(alloc, fault, out),
    }
}
