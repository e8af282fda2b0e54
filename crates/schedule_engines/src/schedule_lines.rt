//! Writes the lines of a schedule: its blocks and worth, which pairs it breaks, which blocks it digs too early, and
//! where it uses more than there is.

ghost use Rattle.std.specs.Prelude.{◌≡◌, ◌+◌, ◌-◌, ◌^◌, ◌<◌, ◌↔◌, ◌++◌, OnOk, IfOk, IfErr, IsErrOf};
ghost use Rattle.std.specs.Io.KnownBytes.{Appends};
ghost use Rattle.std.specs.String.{string_bytes};
ghost use Rattle.schedule_value.specs.Judging.{judged_view};
ghost use Rattle.schedule_engines.specs.ScheduleLines.{LinesFail, early_text, over_line, over_text, pair_line, pairs_text, schedule_text};

use crate::weighed::Weighed;
use counted_devices::{CountedWrite, write_text};
use engine_faults::EngineFault;
use fixed_worth::MicrosTotal;
use schedule_value::{BrokenPairs, Judged, Over};
use std::alloc::{AllocError, Global};

/// Writes the lines of a schedule: `SCHEDULE`, the number of blocks and what they are worth; `BROKEN` and the number of
/// pairs that it breaks, with a line `BREAKS` for each of the first; `EARLY` and a line `WAITS` likewise of blocks that
/// wait, where some are dug too early; and a line `OVER` for each period that uses more of a resource than it has.
///
/// # Errors
/// `Memory` where memory is refused: then nothing was written. `Device` where a write fails: the writer then has a
/// prefix.
pub(crate) fn write_schedule<W: CountedWrite>(
    alloc: Global,
    judged: &Judged,
    out: &mut W,
) -> Result<(), EngineFault>
    requires { W.failed out.old < 2 ^ 64 - 1 }
    ensures lines { OnOk result
        (Appends (W.contents out.old) (W.contents out.new)
        (schedule_text (judged_view judged.now))) }
    ensures fault { IfErr result (LinesFail (W.contents out.old) (W.contents out.new)
        (schedule_text (judged_view judged.now))) }
    ensures device { IsErrOf result EngineFault.Device ↔ (W.failed out.new ≡ W.failed out.old + 1) }
    ensures kept { ¬ IsErrOf result EngineFault.Device → W.failed out.new ≡ W.failed out.old }
{
    let text = text_of_schedule(alloc, judged)?;
    write_text(out, text.as_bytes())?;
    Ok(())
}

/// The lines of a schedule.
///
/// # Errors
/// Memory was refused.
pub fn text_of_schedule(alloc: Global, judged: &Judged) -> Result<String, AllocError>
    ensures { IfOk result (λ text. string_bytes text ≡ schedule_text (judged_view judged.now)) }
{
    let count = judged.count;
    let npv = Weighed(judged.npv);
    let broken = judged.broken.count;
    let breaks = text_of_pairs(alloc, "BREAKS", judged.broken.first.as_slice())?;
    let early = text_of_early(alloc, &judged.early)?;
    let over = text_of_over(alloc, judged.over.as_slice())?;
    format!(in alloc; "SCHEDULE {count} {npv}\nBROKEN {broken}\n{breaks}{early}{over}")
}

// How many pairs are too early, and a line for each of the first; nothing where none is.
fn text_of_early(alloc: Global, early: &BrokenPairs) -> Result<String, AllocError>
    ensures { IfOk result
        (λ text. string_bytes text ≡ early_text early.now.count early.now.first.items) }
{
    let count = early.count;
    if count == 0 {
        return Ok(String::new(alloc));
    }
    let waits = text_of_pairs(alloc, "WAITS", early.first.as_slice())?;
    format!(in alloc; "EARLY {count}\n{waits}")
}

// A line after this word for each of these pairs.
fn text_of_pairs(alloc: Global, word: &str, pairs: &[(u32, u32)]) -> Result<String, AllocError>
    ensures { IfOk result (λ text. string_bytes text ≡ pairs_text word.now pairs.now) }
{
    let mut text = String::new(alloc);
    for i in 0..pairs.len() {
        let (b, p) = pairs[i];
        text = with_pair(alloc, &text, word, b, p)?;
    }
    Ok(text)
}

// The text, and after it the line of a pair.
fn with_pair(alloc: Global, text: &String, word: &str, b: u32, p: u32) -> Result<String, AllocError>
    ensures { IfOk result
        (λ more. string_bytes more ≡ string_bytes text.now ++ pair_line word.now (b, p)) }
{
    format!(in alloc; "{text}{word} {b} {p}\n")
}

// A line for each of these periods.
fn text_of_over(alloc: Global, overs: &[Over]) -> Result<String, AllocError>
    ensures { IfOk result (λ text. string_bytes text ≡ over_text overs.now) }
{
    let mut text = String::new(alloc);
    for i in 0..overs.len() {
        text = with_over(alloc, &text, overs[i])?;
    }
    Ok(text)
}

// The text, and after it the line of a period.
fn with_over(alloc: Global, text: &String, over: Over) -> Result<String, AllocError>
    ensures { IfOk result (λ more. string_bytes more ≡ string_bytes text.now ++ over_line over) }
{
    let resource = over.resource;
    let period = over.period;
    let used = MicrosTotal(over.used);
    let capacity = MicrosTotal(over.capacity);
    format!(in alloc; "{text}OVER {resource} {period} {used} {capacity}\n")
}
