//! Counts the failed calls of a reader or a writer, so that a contract can say whether the device failed.

ghost use Rattle.std.specs.Prelude.{◌≡◌, ℕ, ◌+◌, ◌-◌, ◌^◌, ◌<◌, ◌≤◌, take, length, IfSome, IfNone, is_err};
ghost use Rattle.std.specs.Io.{ReadsAtMost, WritesAtMost};
ghost use Rattle.std.specs.Io.KnownBytes.{Appends, Consumes, Keeps, IsAtEnd, ReadConsumes, WriteAppends};
ghost use Rattle.counted_devices.specs.Device.{count_after, write_fails};

use std::io;
use std::io::{Read, Write};
use std::marker::Model;

/// A reader that counts its failures: `std::io`'s own calls try an interrupted read again, and
/// here each call reports what it met.
pub trait CountedRead: Read {
    // How many calls failed so far.
    ghost failed: { Self → ℕ };

    /// How many calls failed so far.
    fn failures(&self) -> u64
        ensures { result ≡ failed self.now };

    /// One read: how many bytes stand in `buf` now, 0 only at the end of the input or where `buf`
    /// is empty, or `None` where the call failed and gave nothing.
    fn read_once(&mut self, buf: &mut [u8]) -> Option<usize>
        requires room { failed self.old < 2 ^ 64 - 1 }
        ensures length { length buf.new ≡ length buf.old }
        ensures took { IfSome result (λ n. n ≤ length buf.new) }
        ensures bytes { IfSome result
            (λ n. Consumes (Self.remaining self.old) (Self.remaining self.new) (take n buf.new)) }
        ensures end { IfSome result (λ n. n ≡ 0 → 0 < length buf.new
            → IsAtEnd (Self.remaining self.new)) }
        ensures kept { IfSome result (λ _. failed self.new ≡ failed self.old) }
        ensures counted { IfNone result (failed self.new ≡ failed self.old + 1) }
        ensures nothing { IfNone result
            (Keeps (Self.remaining self.old) (Self.remaining self.new)) };
}

/// A writer that counts its failures.
pub trait CountedWrite: Write {
    // How many calls failed so far.
    ghost failed: { Self → ℕ };

    /// How many calls failed so far.
    fn failures(&self) -> u64
        ensures { result ≡ failed self.now };

    /// One write: how many bytes of the piece it took, at least one, or `None` where the call
    /// failed and took nothing.
    fn write_once(&mut self, piece: &[u8]) -> Option<usize>
        requires some { 0 < length piece.now }
        requires room { failed self.old < 2 ^ 64 - 1 }
        ensures took { IfSome result (λ n. (0 < n) × (n ≤ length piece.now)) }
        ensures bytes { IfSome result
            (λ n. Appends (Self.contents self.old) (Self.contents self.new) (take n piece.now)) }
        ensures kept { IfSome result (λ _. failed self.new ≡ failed self.old) }
        ensures counted { IfNone result (failed self.new ≡ failed self.old + 1) }
        ensures nothing { IfNone result (Keeps (Self.contents self.old) (Self.contents self.new)) };
}

/// A reader or writer with the number of its failed calls. An error is a failure, an interrupted
/// call too, and so is a write that takes no byte of a piece that has some.
#[derive(Drop)]
pub struct Counted<T> {
    inner: T,
    failures: u64,
}

impl<T> Model for Counted<T> {
    ghost use Rattle.counted_devices.specs.Device.{CountedDevice};

    ghost Value = { CountedDevice T };

    ghost view = { λ c. record { inner = c.inner; failures = c.failures } };
}

impl<T> Counted<T> {
    /// The device, none of whose calls has failed yet.
    pub fn new(inner: T) -> Counted<T>
        ensures inner { result.inner ≡ inner }
        ensures failures { result.failures ≡ 0 }
    {
        Counted { inner, failures: 0 }
    }

    /// The reader or writer that was counted.
    pub fn into_inner(self) -> T
        ensures { result ≡ self.inner }
    {
        self.inner
    }

    /// How many calls failed so far, for a device that both reads and writes too.
    pub fn failures(&self) -> u64
        ensures { result ≡ self.now.failures }
    {
        self.failures
    }

    // Stops at the largest number, since calls by `std::io`'s traits can't require room.
    fn count(&mut self, fails: bool)
        ensures inner { self.new.inner ≡ self.old.inner }
        ensures failures { self.new.failures ≡ count_after fails self.old.failures }
    {
        if fails {
            self.failures = self.failures.saturating_add(1);
        }
    }
}

impl<T: Read> Read for Counted<T> {
    ghost remaining = { λ c. T.remaining c.inner };

    fn read(&mut self, buf: &mut [u8]) -> io::Result<usize>
        ensures bound { ReadsAtMost result buf.new }
        ensures bytes { ReadConsumes
            (T.remaining self.old.inner) (T.remaining self.new.inner) result buf.new }
        ensures counted { self.new.failures ≡ count_after (is_err result) self.old.failures }
    {
        let answer = self.inner.read(buf);
        self.count(answer.is_err());
        answer
    }
}

impl<T: Write> Write for Counted<T> {
    ghost contents = { λ c. T.contents c.inner };

    fn write(&mut self, buf: &[u8]) -> io::Result<usize>
        ensures bound { WritesAtMost result buf.now }
        ensures bytes { WriteAppends
            (T.contents self.old.inner) (T.contents self.new.inner) result buf.now }
        ensures counted { self.new.failures ≡ count_after
            (write_fails result buf.now) self.old.failures }
    {
        let answer = self.inner.write(buf);
        self.count(match &answer {
            Ok(taken) => *taken == 0 && !buf.is_empty(),
            Err(_) => true,
        });
        answer
    }

    fn flush(&mut self) -> io::Result<()>
        ensures bytes { Keeps (T.contents self.old.inner) (T.contents self.new.inner) }
        ensures counted { self.new.failures ≡ count_after (is_err result) self.old.failures }
    {
        let flushed = self.inner.flush();
        self.count(flushed.is_err());
        flushed
    }
}

impl<T: Read> CountedRead for Counted<T> {
    ghost failed = { λ c. c.failures };

    fn failures(&self) -> u64 {
        Counted::failures(self)
    }

    fn read_once(&mut self, buf: &mut [u8]) -> Option<usize> {
        self.read(buf).ok()
    }
}

impl<T: Write> CountedWrite for Counted<T> {
    ghost failed = { λ c. c.failures };

    fn failures(&self) -> u64 {
        Counted::failures(self)
    }

    fn write_once(&mut self, piece: &[u8]) -> Option<usize> {
        self.write(piece).ok().filter(|taken| *taken > 0)
    }
}
