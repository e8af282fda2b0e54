//! Writes pairs as a precedence file that is read back as the same pairs: a line for each block, without taking memory.

ghost use Rattle.std.specs.Prelude.{◌≡◌, ◌+◌, ◌-◌, ◌^◌, ◌<◌, ◌++◌, OnOk, OnErr, IfErr, MatchOption};
ghost use Rattle.std.specs.Io.KnownBytes.{Appends};
ghost use Rattle.counted_devices.specs.Device.{ReceivedPrefix, SentOrHeld};
ghost use Rattle.prec_file.specs.Rests.{IsFirstNot};
ghost use Rattle.prec_file.specs.Written.{prec_text, prec_line, IsNarrowAt, AreNarrow, WriteFaultStands};

use crate::line_text::LineText;
use crate::{PrecWriteFault, Predecessors, Rests};
use counted_devices::{CountedWrite, Page, WriteFault};

// The most predecessors of a block: with eight digits each, its line stays below the reader's limit of 65,536 bytes.
const WIDEST: usize = 7_000;

// The first block that rests on too many.
fn first_wide(predecessors: &Predecessors) -> Option<u32>
    ensures { MatchOption result
        (AreNarrow predecessors.now)
        (λ b. IsFirstNot (IsNarrowAt predecessors.now) predecessors.now.blocks b) }
{
    for b in 0..predecessors.len() {
        if predecessors.above(b).len() > WIDEST {
            return Some(b);
        }
    }
    None
}

// Puts the line of a block.
fn put_line<W: CountedWrite>(
    page: &mut Page,
    out: &mut W,
    line: &mut LineText,
    predecessors: &Predecessors,
    block: u32,
) -> Result<(), WriteFault>
    requires known { block < predecessors.now.blocks }
    requires narrow { IsNarrowAt predecessors.now block }
    requires room { W.failed out.old < 2 ^ 64 - 1 }
    ensures held { OnOk result (SentOrHeld (W.contents out.old) (W.contents out.new) page.new
        (page.old ++ prec_line predecessors.now.pairs block)) }
    ensures kept { OnOk result (W.failed out.new ≡ W.failed out.old) }
    ensures prefix { OnErr result (ReceivedPrefix (W.contents out.old) (W.contents out.new)
        (page.old ++ prec_line predecessors.now.pairs block)) }
    ensures counted { OnErr result (W.failed out.new ≡ W.failed out.old + 1) }
{
    line.set(block, predecessors.above(block));
    page.put(out, line.as_bytes())
}

// Writes the lines of all blocks.
fn write_lines<W: CountedWrite>(predecessors: &Predecessors, out: &mut W) -> Result<(), WriteFault>
    requires narrow { AreNarrow predecessors.now }
    requires room { W.failed out.old < 2 ^ 64 - 1 }
    ensures sent { OnOk result
        (Appends (W.contents out.old) (W.contents out.new) (prec_text predecessors.now)) }
    ensures kept { OnOk result (W.failed out.new ≡ W.failed out.old) }
    ensures prefix { OnErr result
        (ReceivedPrefix (W.contents out.old) (W.contents out.new) (prec_text predecessors.now)) }
    ensures counted { OnErr result (W.failed out.new ≡ W.failed out.old + 1) }
{
    let mut page = Page::new();
    let mut line = LineText::new();
    for block in 0..predecessors.len() {
        put_line(&mut page, out, &mut line, predecessors, block)?;
    }
    page.finish(out)
}

/// Writes pairs as a precedence file, which [`crate::read_prec`] reads back: for each block, ascending, the line
/// `b k p1 .. pk` of its k predecessors, ascending, with single spaces. It takes no memory.
///
/// # Errors
/// `TooWide` with the first block that has more than 7,000 predecessors; nothing is written then. `Device` at the first
/// write that fails: the writer has then received a prefix of the text.
///
/// `out` must have counted fewer than 2^64 - 1 failures, so that one more can be counted.
pub fn write_predecessors<W: CountedWrite>(
    predecessors: &Predecessors,
    out: &mut W,
) -> Result<(), PrecWriteFault>
    requires { W.failed out.old < 2 ^ 64 - 1 }
    ensures sent { OnOk result
        (Appends (W.contents out.old) (W.contents out.new) (prec_text predecessors.now)) }
    ensures kept { OnOk result (W.failed out.new ≡ W.failed out.old) }
    ensures narrow { OnOk result (AreNarrow predecessors.now) }
    ensures fault { IfErr result (λ e. WriteFaultStands predecessors.now
        (W.contents out.old) (W.contents out.new) (W.failed out.old) (W.failed out.new) e) }
{
    if let Some(block) = first_wide(predecessors) {
        return Err(PrecWriteFault::TooWide(block));
    }
    write_lines(predecessors, out).map_err(|_| PrecWriteFault::Device)
}

/// Writes pairs as [`write_predecessors`] does.
///
/// # Errors
/// Those of [`write_predecessors`].
///
/// `out` must have counted fewer than 2^64 - 1 failures, so that one more can be counted.
pub fn write_prec<W: CountedWrite>(rests: &Rests, out: &mut W) -> Result<(), PrecWriteFault>
    requires { W.failed out.old < 2 ^ 64 - 1 }
    ensures sent { OnOk result
        (Appends (W.contents out.old) (W.contents out.new) (prec_text rests.now)) }
    ensures kept { OnOk result (W.failed out.new ≡ W.failed out.old) }
    ensures narrow { OnOk result (AreNarrow rests.now) }
    ensures fault { IfErr result (λ e. WriteFaultStands rests.now
        (W.contents out.old) (W.contents out.new) (W.failed out.old) (W.failed out.new) e) }
{
    write_predecessors(rests.predecessors(), out)
}
