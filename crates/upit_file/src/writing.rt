//! Writes a name and the values of blocks as a `.upit` text, or stops at the first write that fails.

ghost use Rattle.std.specs.Prelude.{◌≡◌, ◌+◌, ◌-◌, ◌^◌, ◌<◌, ◌≤◌, [], ◌∷◌, ◌++◌, length, OnOk, OnErr};
ghost use Rattle.std.specs.Io.KnownBytes.{Appends};
ghost use Rattle.fixed_worth.specs.Laws.{with_line_feeds};
ghost use Rattle.counted_devices.specs.Device.{ReceivedPrefix, SentOrHeld};
ghost use Rattle.upit_file.specs.Writing as spec;

use crate::upit::Upit;
use crate::written_record::record_line;
use counted_devices::{CountedWrite, Page, WriteFault};
use fixed_worth::{MOST_BLOCKS, Micros, WrittenNumber};

fn put_two<W: CountedWrite>(
    page: &mut Page,
    out: &mut W,
    first: &[u8],
    second: &[u8],
) -> Result<(), WriteFault>
    requires { W.failed out.old < 2 ^ 64 - 1 }
    ensures held { OnOk result (SentOrHeld (W.contents out.old) (W.contents out.new) page.new
        (page.old ++ (first.now ++ second.now))) }
    ensures kept { OnOk result (W.failed out.new ≡ W.failed out.old) }
    ensures prefix { OnErr result (ReceivedPrefix (W.contents out.old) (W.contents out.new)
        (page.old ++ (first.now ++ second.now))) }
    ensures counted { OnErr result (W.failed out.new ≡ W.failed out.old + 1) }
{
    page.put(out, first)?;
    page.put(out, second)
}

// A line of two parts, and a line feed.
fn put_line<W: CountedWrite>(
    page: &mut Page,
    out: &mut W,
    first: &[u8],
    second: &[u8],
) -> Result<(), WriteFault>
    requires { W.failed out.old < 2 ^ 64 - 1 }
    ensures held { OnOk result (SentOrHeld (W.contents out.old) (W.contents out.new) page.new
        (page.old ++ with_line_feeds ((first.now ++ second.now) ∷ []))) }
    ensures kept { OnOk result (W.failed out.new ≡ W.failed out.old) }
    ensures prefix { OnErr result (ReceivedPrefix (W.contents out.old) (W.contents out.new)
        (page.old ++ with_line_feeds ((first.now ++ second.now) ∷ []))) }
    ensures counted { OnErr result (W.failed out.new ≡ W.failed out.old + 1) }
{
    put_two(page, out, first, second)?;
    page.put(out, b"\n")
}

fn put_header<W: CountedWrite>(
    page: &mut Page,
    out: &mut W,
    name: &[u8],
    n: u32,
) -> Result<(), WriteFault>
    requires { W.failed out.old < 2 ^ 64 - 1 }
    ensures held { OnOk result (SentOrHeld (W.contents out.old) (W.contents out.new) page.new
        (page.old ++ with_line_feeds (spec.header_lines name.now n))) }
    ensures kept { OnOk result (W.failed out.new ≡ W.failed out.old) }
    ensures prefix { OnErr result (ReceivedPrefix (W.contents out.old) (W.contents out.new)
        (page.old ++ with_line_feeds (spec.header_lines name.now n))) }
    ensures counted { OnErr result (W.failed out.new ≡ W.failed out.old + 1) }
{
    put_line(page, out, b"NAME: ", name)?;
    put_line(page, out, b"TYPE: UPIT", b"")?;
    let count = WrittenNumber::of(u128::from(n));
    put_line(page, out, b"NBLOCKS: ", count.as_bytes())?;
    put_line(page, out, b"OBJECTIVE_FUNCTION:", b"")
}

fn put_records<W: CountedWrite>(
    page: &mut Page,
    out: &mut W,
    values: &[Micros],
) -> Result<(), WriteFault>
    requires room { W.failed out.old < 2 ^ 64 - 1 }
    requires count { length values.now ≤ MOST_BLOCKS }
    ensures held { OnOk result (SentOrHeld (W.contents out.old) (W.contents out.new) page.new
        (page.old ++ with_line_feeds (spec.record_lines 0 values.now))) }
    ensures kept { OnOk result (W.failed out.new ≡ W.failed out.old) }
    ensures prefix { OnErr result (ReceivedPrefix (W.contents out.old) (W.contents out.new)
        (page.old ++ with_line_feeds (spec.record_lines 0 values.now))) }
    ensures counted { OnErr result (W.failed out.new ≡ W.failed out.old + 1) }
{
    let mut block: u32 = 0;
    for value in values {
        let line = record_line(block, *value);
        put_line(page, out, line.as_bytes(), b"")?;
        block += 1;
    }
    Ok(())
}

/// Writes the text of a name and values, a line for every block, as `specs/Writing` has it.
///
/// Takes no memory, and sends the text in large pieces. [`WriteFault::Device`] at the first write that fails: the
/// writer has then received a prefix of the text.
///
/// `out` must have counted fewer than 2^64 - 1 failures, so that one more can be counted.
pub fn write_upit<W: CountedWrite>(upit: &Upit, out: &mut W) -> Result<(), WriteFault>
    requires { W.failed out.old < 2 ^ 64 - 1 }
    ensures sent { OnOk result
        (Appends (W.contents out.old) (W.contents out.new) (spec.upit_text upit.now)) }
    ensures kept { OnOk result (W.failed out.new ≡ W.failed out.old) }
    ensures prefix { OnErr result
        (ReceivedPrefix (W.contents out.old) (W.contents out.new) (spec.upit_text upit.now)) }
    ensures counted { OnErr result (W.failed out.new ≡ W.failed out.old + 1) }
{
    let mut page = Page::new();
    put_header(&mut page, out, upit.name(), upit.len())?;
    put_records(&mut page, out, upit.values())?;
    put_line(&mut page, out, b"EOF", b"")?;
    page.finish(out)
}
