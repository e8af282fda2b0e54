//! Decides which record a line of the header is, by the word with which it begins.

ghost use Rattle.std.specs.Prelude.{◌≡◌, ◌≤◌, length};
ghost use Rattle.fixed_worth.specs.Text.{fields_of};
ghost use Rattle.upit_file.specs.Header as spec;

use fixed_worth::{Fields, LINE_BYTES};

/// What a record of the header is by its key.
#[derive(Clone, Copy, Debug, PartialEq, Eq)]
pub enum Key {
    /// The name of what the values are.
    Name,
    /// The type of the text.
    FileType,
    /// How many blocks there are.
    Blocks,
    /// The header ends.
    Objective,
    /// The text ends.
    End,
    /// Nothing that is read.
    Other,
}

fn key_of(word: &[u8]) -> Key
    ensures { result ≡ spec.key_of word.now }
{
    if word == b"NAME".as_slice() {
        Key::Name
    } else if word == b"TYPE".as_slice() {
        Key::FileType
    } else if word == b"NBLOCKS".as_slice() {
        Key::Blocks
    } else if word == b"OBJECTIVE_FUNCTION".as_slice() {
        Key::Objective
    } else {
        Key::Other
    }
}

// The key of the record that a line of the header is.
pub(crate) fn key_in(line: &[u8]) -> Key
    requires { length line.now ≤ LINE_BYTES }
    ensures { result ≡ spec.key_in (fields_of line.now) }
{
    let mut fields = Fields::new(line);
    let Some(word) = fields.next() else {
        return Key::Other;
    };
    if word.text == b"EOF".as_slice() && fields.next().is_none() {
        return Key::End;
    }
    key_of(word.text)
}
