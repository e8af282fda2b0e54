//! Takes the name from a `NAME` record, or refuses one that is too long.

ghost use Rattle.std.specs.Prelude.{◌≡◌, ◌≤◌, Some, None, length, MatchResult};
ghost use Rattle.upit_file.specs.Header as spec;

use crate::limits::NAME_BYTES;
use crate::upit_fault::UpitFault;
use fixed_worth::{Fields, LINE_BYTES};

// The line from its second field's first byte to its last field's last.
fn name_in(line: &[u8]) -> &[u8]
    requires { length line.now ≤ LINE_BYTES }
    ensures { result.now ≡ spec.name_in line.now }
{
    let mut fields = Fields::new(line);
    let Some(_) = fields.next() else {
        return b"";
    };
    let Some(first) = fields.next() else {
        return b"";
    };
    let start = first.place as usize;
    let mut end = start + first.text.len();
    for field in fields {
        end = field.place as usize + field.text.len();
    }
    let (front, _) = line.split_at(end);
    let (_, name) = front.split_at(start);
    name
}

pub(crate) fn read_name(text: &[u8], line: u64) -> Result<&[u8], UpitFault>
    requires { length text.now ≤ LINE_BYTES }
    ensures { MatchResult result
        (λ name. (spec.name_fault line text.now ≡ None) × (name.now ≡ spec.name_in text.now))
        (λ e. spec.name_fault line text.now ≡ Some e) }
{
    let name = name_in(text);
    if name.len() > NAME_BYTES {
        Err(UpitFault::Text(line))
    } else {
        Ok(name)
    }
}
