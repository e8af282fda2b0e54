//! Traces: the list of the steps of a run of the push-relabel machine as a text, with which an
//! auditor repeats the run step by step.
//!
//! Stands on `machine_law` for what a step is, on `fixed_worth` for lines and numbers, and on `counted_devices`.
//! Promises upward: `read_trace` accepts exactly the texts of the format, with the events that their
//! lines say, and otherwise names the first faulty line; each list of events has one text, which
//! `write_trace` writes, and which is read back as that list. Whether the steps are lawful is not
//! looked at here.
//!
//! An example: a trace of 140 steps is read and written as it was. One of a read of the excess of block 0 and a rise of
//! the label of block 4,294,967,295 has no fault; without its last line a trace is truncated, and `RE 00` is refused by
//! its line. Tried in `lower_tests/src/trace_files.rt`.
//!
//! ```rust
//! let events = read_trace(alloc, &text).ok().ok_or("read")?;
//! assert_eq!(rt; events.len(), 140);
//! let mut out = Counted::new(Vec::new(alloc));
//! assert_eq!(rt; write_trace(&events, &mut out), Ok(()));
//! assert_eq!(rt; out.into_inner().as_slice(), text.as_slice());
//!
//! for (text, wanted) in [
//!     (b"PITTRACE 1\nRE 0\nRA 4294967295\nEND\n".as_slice(), None),
//!     (b"PITTRACE 1\nRE 0\n", Some(TraceFault::Truncated)),
//!     (b"PITTRACE 1\nRE 00\nEND\n", Some(TraceFault::Text(2))),
//! ] {
//!     has_fault(&rt, alloc, text, wanted);
//! }
//! ```
#![tactic(auto)]

mod event_line;
pub mod laws;
mod reading;
mod trace_fault;
mod writing;

pub use machine_law::MOST_EVENTS;
pub use reading::read_trace;
pub use trace_fault::TraceFault;
pub use writing::write_trace;
