//! Writes the steps of a run as the text of a trace, or stops at the first write that fails.

ghost use Rattle.std.specs.Prelude.{◌≡◌, ◌+◌, ◌-◌, ◌^◌, ◌<◌, ◌≤◌, length, OnOk, OnErr};
ghost use Rattle.std.specs.Io.KnownBytes.{Appends};
ghost use Rattle.counted_devices.specs.Device.{ReceivedPrefix};
ghost use Rattle.trace_file.specs.ReadBack.{IsTraceReadBack};
ghost use Rattle.trace_file.specs.Written.{trace_text};

use crate::event_line::put_event;
use counted_devices::{CountedWrite, Page, WriteFault};
use fixed_worth::WrittenNumber;
use machine_law::{Event, MOST_EVENTS};

/// Writes a trace. It takes no memory, and sends the text in large pieces. [`crate::read_trace`] reads
/// it back.
///
/// # Errors
/// `Device` at the first write that fails: the writer has then received a prefix of the text.
///
/// `out` must have counted fewer than 2^64 - 1 failures, so that one more can be counted.
pub fn write_trace<W: CountedWrite>(events: &[Event], out: &mut W) -> Result<(), WriteFault>
    requires few { length events.now ≤ MOST_EVENTS }
    requires room { W.failed out.old < 2 ^ 64 - 1 }
    ensures sent { OnOk result
        (Appends (W.contents out.old) (W.contents out.new) (trace_text events.now)) }
    ensures read_back { OnOk result (IsTraceReadBack (trace_text events.now) events.now) }
    ensures kept { OnOk result (W.failed out.new ≡ W.failed out.old) }
    ensures prefix { OnErr result
        (ReceivedPrefix (W.contents out.old) (W.contents out.new) (trace_text events.now)) }
    ensures counted { OnErr result (W.failed out.new ≡ W.failed out.old + 1) }
{
    let mut page = Page::new();
    let mut digits = WrittenNumber::of(0);
    page.put(out, b"PITTRACE 1\n")?;
    for event in events {
        put_event(&mut page, out, &mut digits, *event)?;
    }
    page.put(out, b"END\n")?;
    page.finish(out)
}
