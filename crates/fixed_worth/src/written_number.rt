//! Gives the decimal digits of a number as bytes, without taking memory.

ghost use Rattle.std.specs.Prelude.{◌≡◌, ℕ, ◌≤◌, List, length};
ghost use Rattle.std.specs.Fmt.{decimal};

use std::marker::Model;

// The most digits that a number has.
const MOST: usize = 39;

/// The decimal digits of a number, for writers that take no memory.
#[derive(Drop)]
pub struct WrittenNumber {
    bytes: [u8; 39],
    start: usize,
}

impl Model for WrittenNumber {
    ghost use Rattle.std.specs.Prelude.{ℕ, ◌≤◌, ◌≡◌, List, drop, length};

    ghost Value = { List ℕ };

    ghost view = { λ d. drop d.start d.bytes };

    ghost invariant = { λ d. d.start ≤ 39 };
}

impl WrittenNumber {
    /// The digits of n, without leading zeros.
    pub fn of(n: u128) -> WrittenNumber
        ensures digits { result ≡ decimal n }
        ensures most { length result ≤ 39 }
    {
        let mut written = WrittenNumber {
            bytes: [0; 39],
            start: MOST,
        };
        written.set(n);
        written
    }

    /// Holds the digits of n, without leading zeros, in place of what it held. Whoever writes many numbers keeps one of
    /// these: to hand a new one on for each number costs a copy of it.
    pub fn set(&mut self, n: u128)
        ensures digits { self.new ≡ decimal n }
        ensures most { length self.new ≤ 39 }
    {
        let mut start = MOST;
        let mut wide = n;
        while wide > u64::MAX as u128 {
            start -= 1;
            self.bytes[start] = b'0' + (wide % 10) as u8;
            wide /= 10;
        }
        // A division of 128 bits is a call, and one of 64 bits by ten a product: nearly all numbers are this small.
        let mut left = wide as u64;
        while left >= 10 {
            start -= 1;
            self.bytes[start] = b'0' + (left % 10) as u8;
            left /= 10;
        }
        start -= 1;
        self.bytes[start] = b'0' + left as u8;
        self.start = start;
    }

    /// The digits as bytes.
    pub fn as_bytes(&self) -> &[u8]
        ensures { result.now ≡ self.now }
    {
        let (_, digits) = self.bytes.split_at(self.start);
        digits
    }
}
