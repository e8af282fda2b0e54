//! Reads the text of a trace: gives the steps of a run in their order, or the first faulty line.

ghost use Rattle.std.specs.Prelude.{◌≡◌, [], Some, None, MatchResult};
ghost use Rattle.fixed_worth.specs.Text.{parts};
ghost use Rattle.trace_file.specs.Faults as spec;
ghost use Rattle.trace_file.specs.Faults.{UnlessTraceMemory, events_of, trace_fault_after, trace_fault_of};
ghost use Rattle.trace_file.specs.ReadBack.{IsWritten};

use crate::event_line::event_in;
use crate::trace_fault::TraceFault;
use fixed_worth::{LINE_BYTES, cut_at};
use machine_law::{Event, MOST_EVENTS};
use std::alloc::Global;

const HEAD: &[u8] = b"PITTRACE 1";

const END: &[u8] = b"END";

const LINE_FEED: u8 = b'\n';

// The fault of a text that ends in this line, which no line feed ends.
fn rest_fault(number: u64, rest: &[u8]) -> TraceFault
    ensures { result ≡ spec.rest_fault number rest.now }
{
    if rest.len() > LINE_BYTES {
        TraceFault::Text(number)
    } else {
        TraceFault::Truncated
    }
}

// Nothing may stand after the last line: what does is the line of this number.
fn end_fault(number: u64, past: &[u8]) -> Option<TraceFault>
    ensures { result ≡ spec.trace_end_fault number (parts 10 past.now) }
{
    if past.is_empty() {
        None
    } else {
        Some(TraceFault::Text(number))
    }
}

// What stands after the first line.
fn after_head<'a>(text: &'a [u8]) -> Result<&'a [u8], TraceFault>
    ensures { MatchResult result
        (λ past. (trace_fault_of text.now ≡ trace_fault_after 1 (parts 10 past.now))
        × (events_of text.now ≡ events_of past.now))
        (λ e. trace_fault_of text.now ≡ Some e) }
{
    match cut_at(LINE_FEED, text) {
        Some((line, past)) => if line == HEAD {
            Ok(past)
        } else {
            Err(TraceFault::Text(1))
        },
        None => Err(rest_fault(1, text)),
    }
}

/// The events of a trace.
///
/// The text that is read is the only one of its events: what [`crate::write_trace`] writes.
///
/// # Errors
/// The fault of the first faulty line: `Text` where it is none of the format, stands after the last
/// line or has more than 65,536 bytes; `TooMany` where it is an event and 2^24 stand before it;
/// `Truncated` where all lines are right and END is not among them. `NoMemory` only where memory was
/// refused, and not where no line says an event.
pub fn read_trace(alloc: Global, text: &[u8]) -> Result<Vec<Event>, TraceFault>
    ensures { MatchResult result
        (λ events. (trace_fault_of text.now ≡ None) × (events.items ≡ events_of text.now)
        × IsWritten text.now events.items)
        (λ e. UnlessTraceMemory e (trace_fault_of text.now ≡ Some e)
        × (events_of text.now ≡ [] → trace_fault_of text.now ≡ Some e)) }
{
    let mut left = after_head(text)?;
    let mut events = Vec::new(alloc);
    loop {
        let number = events.len() as u64 + 2;
        let (line, past) = match cut_at(LINE_FEED, left) {
            Some(cut) => cut,
            None => return Err(rest_fault(number, left)),
        };
        if line == END {
            return match end_fault(number + 1, past) {
                Some(fault) => Err(fault),
                None => Ok(events),
            };
        }
        let event = match event_in(line) {
            Some(event) => event,
            None => return Err(TraceFault::Text(number)),
        };
        if events.len() == MOST_EVENTS as usize {
            return Err(TraceFault::TooMany);
        }
        if events.push(event).is_err() {
            return Err(TraceFault::NoMemory);
        }
        left = past;
    }
}
