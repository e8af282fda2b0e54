//! Puts a line of output together from texts and numbers, of at most 192 bytes and without taking
//! memory.

ghost use Rattle.std.specs.Prelude.{◌≡◌, ℕ, ◌+◌, ◌≤◌, [], ◌++◌, length};
ghost use Rattle.std.specs.Fmt.{decimal};

use fixed_worth::WrittenNumber;
use std::marker::Model;

/// At most 192 bytes, put together piece by piece.
#[derive(Drop)]
pub struct ShortLine {
    bytes: [u8; 192],
    len: usize,
}

impl Model for ShortLine {
    ghost use Rattle.std.specs.Prelude.{ℕ, ◌≤◌, List, take};

    ghost Value = { List ℕ };

    ghost view = { λ l. take l.len l.bytes };

    ghost invariant = { λ l. l.len ≤ 192 };
}

impl ShortLine {
    /// An empty line.
    pub fn new() -> ShortLine
        ensures { result ≡ [] }
    {
        ShortLine {
            bytes: [0; 192],
            len: 0,
        }
    }

    /// Puts a text after the line, which has at most 192 bytes with it.
    pub fn push(&mut self, text: &[u8])
        requires { length self.old + length text.now ≤ 192 }
        ensures text { self.new ≡ self.old ++ text.now }
        ensures length { length self.new ≡ length self.old + length text.now }
    {
        let end = self.len + text.len();
        let all = &mut self.bytes[..];
        all[self.len..end].copy_from_slice(text);
        self.len = end;
    }

    /// Puts the digits of a number after the line, which has at most 153 bytes before.
    pub fn push_number(&mut self, n: u128)
        requires { length self.old + 39 ≤ 192 }
        ensures text { self.new ≡ self.old ++ decimal n }
        ensures length { length self.new ≤ length self.old + 39 }
    {
        self.push(WrittenNumber::of(n).as_bytes());
    }

    /// The bytes of the line.
    pub fn as_bytes(&self) -> &[u8]
        ensures { result.now ≡ self.now }
    {
        let (line, _) = self.bytes.split_at(self.len);
        line
    }
}
