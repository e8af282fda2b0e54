//! Reads one line after the header: gives its block and the block's value, or tells that the line is skipped,
//! that it ends the text, or what is wrong with it.

ghost use Rattle.std.specs.Prelude.{◌≡◌, ◌≤◌, false, Some, length, MatchResult};
ghost use Rattle.fixed_worth.specs.Text.{fields_of};
ghost use Rattle.fixed_worth.specs.Record.{is_skipped};
ghost use Rattle.upit_file.specs.Header as header;
ghost use Rattle.upit_file.specs.Body as spec;
ghost use Rattle.upit_file.specs.Body.{IsRecord};

use crate::upit_fault::UpitFault;
use fixed_worth::{Fields, LINE_BYTES, Micros, is_remark, whole};

// What a line after the header is.
#[derive(Clone, Copy)]
pub(crate) enum Record {
    // No field, or a remark.
    Skipped,
    // The text ends.
    End,
    // A block, and its value.
    Value(u64, Micros),
}

// The record that a line is. Nearly all are two numbers, which are read as they are looked for.
pub(crate) fn read_record(text: &[u8], line: u64) -> Result<Record, UpitFault>
    requires { length text.now ≤ LINE_BYTES }
    ensures { MatchResult result
        (λ read. IsRecord line (fields_of text.now) read)
        (λ e. (is_skipped (fields_of text.now) ≡ false)
        × (header.is_eof (fields_of text.now) ≡ false)
        × (spec.upit_shape_fault line (fields_of text.now) ≡ Some e)) }
{
    let mut fields = Fields::new(text);
    let Some(Ok(block)) = fields.next_whole() else {
        return read_any_record(text, line);
    };
    let Some(Ok(value)) = fields.next_amount() else {
        return read_any_record(text, line);
    };
    match fields.next_whole() {
        None => Ok(Record::Value(block, value)),
        Some(_) => read_any_record(text, line),
    }
}

// Reads any line, where it isn't two numbers.
#[cold]
#[inline(never)]
fn read_any_record(text: &[u8], line: u64) -> Result<Record, UpitFault>
    requires { length text.now ≤ LINE_BYTES }
    ensures { MatchResult result
        (λ read. IsRecord line (fields_of text.now) read)
        (λ e. (is_skipped (fields_of text.now) ≡ false)
        × (header.is_eof (fields_of text.now) ≡ false)
        × (spec.upit_shape_fault line (fields_of text.now) ≡ Some e)) }
{
    let mut fields = Fields::new(text);
    let Some(block) = fields.next() else {
        return Ok(Record::Skipped);
    };
    if is_remark(block.text) {
        return Ok(Record::Skipped);
    }
    let Some(value) = fields.next() else {
        return if block.text == b"EOF".as_slice() {
            Ok(Record::End)
        } else {
            Err(UpitFault::Text(line))
        };
    };
    if fields.next().is_some() {
        return Err(UpitFault::Text(line));
    }
    let block = whole(block.text).map_err(|_| UpitFault::Number(line))?;
    let value = Micros::from_text(value.text).map_err(|_| UpitFault::Number(line))?;
    Ok(Record::Value(block, value))
}
