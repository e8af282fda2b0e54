//! Writes the lines of a design: its blocks and worth, and whether it is closed, or which pairs lead from it to
//! predecessors outside.

ghost use Rattle.std.specs.Prelude.{◌≡◌, ◌+◌, ◌-◌, ◌^◌, ◌<◌, ◌↔◌, ◌++◌, OnOk, IfOk, IfErr, IsErrOf};
ghost use Rattle.std.specs.Io.KnownBytes.{Appends};
ghost use Rattle.std.specs.String.{string_bytes};
ghost use Rattle.check_engines.specs.Checking.{LineFails};
ghost use Rattle.design_engines.specs.Designs.{design_text, open_text, needs_line, needs_text};
ghost use Rattle.design_engines.specs.Told.{design_view};

use crate::valued::Valued;
use counted_devices::{CountedWrite, write_text};
use design_value::OpenPairs;
use engine_faults::EngineFault;
use fixed_worth::Nanos;
use std::alloc::{AllocError, Global};

/// Writes the lines of a design: `DESIGN`, the number of blocks and what they are worth; and `CLOSED`, or `OPEN` and
/// the number of pairs that lead out, with a line `NEEDS` for each of the first.
///
/// # Errors
/// `Memory` where memory is refused: then nothing was written. `Device` where a write fails: the writer then has a
/// prefix.
pub(crate) fn write_design<W: CountedWrite>(
    alloc: Global,
    valued: &Valued,
    out: &mut W,
) -> Result<(), EngineFault>
    requires { W.failed out.old < 2 ^ 64 - 1 }
    ensures lines { OnOk result
        (Appends (W.contents out.old) (W.contents out.new) (design_text (design_view valued.now))) }
    ensures fault { IfErr result (LineFails (W.contents out.old) (W.contents out.new)
        (design_text (design_view valued.now))) }
    ensures device { IsErrOf result EngineFault.Device ↔ (W.failed out.new ≡ W.failed out.old + 1) }
    ensures kept { ¬ IsErrOf result EngineFault.Device → W.failed out.new ≡ W.failed out.old }
{
    let text = text_of(alloc, valued)?;
    write_text(out, text.as_bytes())?;
    Ok(())
}

/// The lines of a design.
///
/// # Errors
/// Memory was refused.
pub(crate) fn text_of(alloc: Global, valued: &Valued) -> Result<String, AllocError>
    ensures { IfOk result (λ text. string_bytes text ≡ design_text (design_view valued.now)) }
{
    let count = valued.count;
    let worth = Nanos(valued.worth);
    let open = text_of_open(alloc, &valued.open)?;
    format!(in alloc; "DESIGN {count} {worth}\n{open}")
}

// Whether the design is closed: the line `CLOSED`, or `OPEN` with how many pairs lead out of it, and the first of
// these.
fn text_of_open(alloc: Global, left: &OpenPairs) -> Result<String, AllocError>
    ensures { IfOk result
        (λ text. string_bytes text ≡ open_text left.now.count left.now.first.items) }
{
    let count = left.count;
    if count == 0 {
        return format!(in alloc; "CLOSED\n");
    }
    let needs = text_of_needs(alloc, left.first.as_slice())?;
    format!(in alloc; "OPEN {count}\n{needs}")
}

// A line for each of these pairs.
fn text_of_needs(alloc: Global, pairs: &[(u32, u32)]) -> Result<String, AllocError>
    ensures { IfOk result (λ text. string_bytes text ≡ needs_text pairs.now) }
{
    let mut text = String::new(alloc);
    for i in 0..pairs.len() {
        let (b, p) = pairs[i];
        text = with_needed(alloc, &text, b, p)?;
    }
    Ok(text)
}

// The text, and after it the line of a pair.
fn with_needed(alloc: Global, text: &String, b: u32, p: u32) -> Result<String, AllocError>
    ensures { IfOk result (λ more. string_bytes more ≡ string_bytes text.now ++ needs_line (b, p)) }
{
    format!(in alloc; "{text}NEEDS {b} {p}\n")
}
