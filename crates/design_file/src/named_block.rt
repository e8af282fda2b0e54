//! Decides whether a line of a design is passed over, and finds the field of any other that names its block.

ghost use Rattle.std.specs.Prelude.{◌≡◌, ◌≤◌, None, Some, length, MatchOption};
ghost use Rattle.fixed_worth.specs.Text.{fields_of};
ghost use Rattle.design_file.specs.Records as spec;

use fixed_worth::{Fields, LINE_BYTES, is_remark};

// Whether a certificate has lines that begin with this word, which name no block of its pit.
fn is_beside_pit(word: &[u8]) -> bool
    ensures { result ≡ spec.is_beside_pit word.now }
{
    word == b"PITCERT".as_slice()
        || word == b"BLOCKS".as_slice()
        || word == b"PRICE".as_slice()
        || word == b"GROUP".as_slice()
        || word == b"SOURCE".as_slice()
        || word == b"REST".as_slice()
        || word == b"SINK".as_slice()
        || word == b"END".as_slice()
}

/// Whether a line is passed over: it has no field, is a remark, or is one that a certificate has beside its pit.
pub(crate) fn is_passed(line: &[u8]) -> bool
    requires { length line.now ≤ LINE_BYTES }
    ensures { result ≡ spec.is_passed (fields_of line.now) }
{
    let mut fields = Fields::new(line);
    match fields.next() {
        None => true,
        Some(first) => is_remark(first.text) || is_beside_pit(first.text),
    }
}

/// Whether a certificate is open after a line, given whether one was before it: a line `PITCERT` opens one, and a line
/// `END` ends it.
pub(crate) fn is_open_after(is_open: bool, line: &[u8]) -> bool
    requires { length line.now ≤ LINE_BYTES }
    ensures { result ≡ spec.is_open_after is_open (fields_of line.now) }
{
    match Fields::new(line).next() {
        None => is_open,
        Some(first) => {
            first.text == b"PITCERT".as_slice() || is_open && first.text != b"END".as_slice()
        }
    }
}

/// The field that names the block of a line `b` or `PIT b`; none of a line of any other form.
pub(crate) fn block_word(line: &[u8]) -> Option<&[u8]>
    requires { length line.now ≤ LINE_BYTES }
    ensures { MatchOption result
        (spec.design_block_word (fields_of line.now) ≡ None)
        (λ word. spec.design_block_word (fields_of line.now) ≡ Some word.now) }
{
    let mut fields = Fields::new(line);
    let first = fields.next()?;
    let second = match fields.next() {
        None => return Some(first.text),
        Some(second) => second,
    };
    if first.text != b"PIT".as_slice() {
        return None;
    }
    match fields.next() {
        None => Some(second.text),
        Some(_) => None,
    }
}
