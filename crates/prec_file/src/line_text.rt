//! Puts a line of a precedence file together from its last byte to its first, so that each digit is written where it
//! stays.

ghost use Rattle.std.specs.Prelude.{◌≡◌, ℕ, ◌+◌, ◌*◌, ◌<◌, ◌≤◌, [], ◌∷◌, ◌++◌, length};
ghost use Rattle.std.specs.Fmt.{decimal};
ghost use Rattle.prec_file.specs.Written.{spaced_numbers};

use std::marker::Model;

// The line of a block with 7,000 predecessors, where each number has ten digits.
const ROOM: usize = 77_022;

// The end of a line, up to the whole of it.
#[derive(Drop)]
pub(crate) struct LineText {
    bytes: [u8; 77_022],
    start: usize,
}

impl Model for LineText {
    ghost use Rattle.std.specs.Prelude.{ℕ, ◌≤◌, List, drop};

    ghost Value = { List ℕ };

    ghost view = { λ l. drop l.start l.bytes };

    ghost invariant = { λ l. l.start ≤ 77022 };
}

impl LineText {
    // Nothing yet.
    pub(crate) fn new() -> LineText
        ensures { result ≡ [] }
    {
        LineText {
            bytes: [0; 77_022],
            start: ROOM,
        }
    }

    // Holds nothing.
    fn clear(&mut self)
        ensures { self.new ≡ [] }
    {
        self.start = ROOM;
    }

    // Puts a byte in front.
    fn put(&mut self, byte: u8)
        requires { length self.old < 77022 }
        ensures { self.new ≡ byte ∷ self.old }
    {
        self.start -= 1;
        self.bytes[self.start] = byte;
    }

    // Puts the digits of a number in front.
    #[tactic(auto, using(crate::proofs::LineDigits::starts_above))]
    fn put_number(&mut self, n: u32)
        requires { length self.old + 10 ≤ 77022 }
        ensures digits { self.new ≡ decimal n ++ self.old }
        ensures few { length self.new ≤ length self.old + 10 }
    {
        let mut start = self.start;
        let mut left = n;
        while left >= 10 {
            start -= 1;
            self.bytes[start] = b'0' + (left % 10) as u8;
            left /= 10;
        }
        start -= 1;
        self.bytes[start] = b'0' + left as u8;
        self.start = start;
    }

    // Puts numbers in front, a space before each.
    fn put_all(&mut self, numbers: &[u32])
        requires { length self.old + 11 * length numbers.now ≤ 77022 }
        ensures numbers { self.new ≡ spaced_numbers numbers.now ++ self.old }
        ensures few { length self.new ≤ length self.old + 11 * length numbers.now }
    {
        let mut left = numbers.len();
        while left > 0 {
            left -= 1;
            self.put_number(numbers[left]);
            self.put(b' ');
        }
    }

    // Holds the line of a block with these predecessors in place of what it held.
    pub(crate) fn set(&mut self, block: u32, above: &[u32])
        requires { length above.now ≤ 7000 }
        ensures { self.new ≡ (decimal block ++ (32 ∷ decimal (length above.now)))
            ++ (spaced_numbers above.now ++ (10 ∷ [])) }
    {
        self.clear();
        self.put(b'\n');
        self.put_all(above);
        self.put_number(above.len() as u32);
        self.put(b' ');
        self.put_number(block);
    }

    // The bytes.
    pub(crate) fn as_bytes(&self) -> &[u8]
        ensures { result.now ≡ self.now }
    {
        let (_, held) = self.bytes.split_at(self.start);
        held
    }
}
