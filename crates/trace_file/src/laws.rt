//! Laws that the text that is written of a run's steps is read as these steps, and that a text
//! without a fault is the one text of its steps.
//!
//! These functions do nothing. A caller names one where its own proof needs the law.

ghost use Rattle.trace_file.specs.ReadBack.{WrittenIsRead, ReadIsWritten};

/// The text of a list of at most 2^24 events is read without a fault, as these events.
pub fn written_is_read()
    ensures { WrittenIsRead }
{}

/// A text without a fault is the one text of the events that it is read as.
pub fn read_is_written()
    ensures { ReadIsWritten }
{}
