//! Decides whether a line of a schedule is passed over, and finds the fields of any other.

ghost use Rattle.std.specs.Prelude.{◌≡◌, ◌≤◌, None, Some, length, MatchOption};
ghost use Rattle.fixed_worth.specs.Text.{fields_of};
ghost use Rattle.fixed_worth.specs.Record as records;
ghost use Rattle.schedule_file.specs.Records as spec;

use fixed_worth::{Fields, LINE_BYTES, is_remark};

/// Whether a line is passed over: it has no field, or is a remark.
pub(crate) fn is_passed(line: &[u8]) -> bool
    requires { length line.now ≤ LINE_BYTES }
    ensures { result ≡ records.is_skipped (fields_of line.now) }
{
    let mut fields = Fields::new(line);
    match fields.next() {
        None => true,
        Some(first) => is_remark(first.text),
    }
}

/// The first field of a line of two fields, or of three where there are ways, which names its block; none of a line of
/// any other form.
pub(crate) fn block_word(line: &[u8], ways: u32) -> Option<&[u8]>
    requires { length line.now ≤ LINE_BYTES }
    ensures { MatchOption result
        (spec.block_word ways (fields_of line.now) ≡ None)
        (λ word. spec.block_word ways (fields_of line.now) ≡ Some word.now) }
{
    let mut fields = Fields::new(line);
    let first = fields.next()?;
    let _second = fields.next()?;
    match fields.next() {
        None => Some(first.text),
        Some(_) => match fields.next() {
            None => { if ways == 0 { None } else { Some(first.text) } }
            Some(_) => None,
        },
    }
}

/// The second field of such a line, which names its period.
pub(crate) fn period_word(line: &[u8], ways: u32) -> Option<&[u8]>
    requires { length line.now ≤ LINE_BYTES }
    ensures { MatchOption result
        (spec.period_word ways (fields_of line.now) ≡ None)
        (λ word. spec.period_word ways (fields_of line.now) ≡ Some word.now) }
{
    let mut fields = Fields::new(line);
    let _first = fields.next()?;
    let second = fields.next()?;
    match fields.next() {
        None => Some(second.text),
        Some(_) => match fields.next() {
            None => { if ways == 0 { None } else { Some(second.text) } }
            Some(_) => None,
        },
    }
}

/// The third field of a line of three fields, which names its way; none of a line of any other form.
pub(crate) fn way_word(line: &[u8]) -> Option<&[u8]>
    requires { length line.now ≤ LINE_BYTES }
    ensures { MatchOption result
        (spec.way_word (fields_of line.now) ≡ None)
        (λ word. spec.way_word (fields_of line.now) ≡ Some word.now) }
{
    let mut fields = Fields::new(line);
    let _first = fields.next()?;
    let _second = fields.next()?;
    let third = fields.next()?;
    match fields.next() {
        None => Some(third.text),
        Some(_) => None,
    }
}
