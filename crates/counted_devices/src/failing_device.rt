//! A reader or writer for tests: each call passes on at most a given number of bytes, and one chosen call fails.

ghost use Rattle.std.specs.Prelude.{◌≡◌, ◌+◌, ◌-◌, ◌^◌, ◌<◌, ◌↔◌, length, true, min, IsTrue, is_err};
ghost use Rattle.std.specs.Io.{ReadsAtMost, WritesAtMost};
ghost use Rattle.counted_devices.specs.Device.{write_fails};

use std::io;
use std::io::{Error, ErrorKind, Read, Write};
use std::marker::Model;

/// How a call fails.
#[derive(Clone, Copy, Debug, PartialEq, Eq)]
pub enum Failure {
    /// By an error.
    Broken,
    /// By an error that says that the call was interrupted.
    Interrupted,
    /// By taking no byte of a piece. A read or a flush can't fail so, and fails by an error.
    TakesNothing,
}

impl Failure {
    fn error(self) -> Error {
        Error::from(match self {
            Failure::Interrupted => ErrorKind::Interrupted,
            Failure::Broken | Failure::TakesNothing => ErrorKind::BrokenPipe,
        })
    }
}

/// A reader or writer for tests, around another one. Each call passes on at most a given number of bytes; one chosen
/// call fails without reaching the device inside, and the calls after it go on. A flush is a call, too. Nothing is
/// claimed of the bytes.
#[derive(Drop)]
pub struct Failing<T> {
    inner: T,
    most: usize,
    calls: u64,
    fails_at: u64,
    failure: Failure,
}

impl<T> Model for Failing<T> {
    ghost use Rattle.counted_devices.specs.Device.{FailingDevice};

    ghost Value = { FailingDevice T };

    ghost view = { λ f. record { inner = f.inner; calls = f.calls; fails_at = f.fails_at } };
}

impl<T> Failing<T> {
    /// A device around `inner` that passes on at most `most` bytes a call. The call of the number `fails_at` fails,
    /// where the first call has the number 1; none fails where it is 0.
    pub fn new(inner: T, most: usize, fails_at: u64, failure: Failure) -> Failing<T>
        ensures inner { result.inner ≡ inner }
        ensures calls { result.calls ≡ 0 }
        ensures fails_at { result.fails_at ≡ fails_at }
    {
        Failing {
            inner,
            most,
            calls: 0,
            fails_at,
            failure,
        }
    }

    /// How many calls were made.
    pub fn calls(&self) -> u64
        ensures { result ≡ self.now.calls }
    {
        self.calls
    }

    /// The device inside.
    pub fn into_inner(self) -> T
        ensures { result ≡ self.inner }
    {
        self.inner
    }

    // Counts a call, and tells whether it is the one that fails.
    fn fails_now(&mut self) -> bool
        ensures inner { self.new.inner ≡ self.old.inner }
        ensures calls { self.new.calls ≡ min (self.old.calls + 1) (2 ^ 64 - 1) }
        ensures fails_at { self.new.fails_at ≡ self.old.fails_at }
        ensures answer { IsTrue result ↔ (self.new.calls ≡ self.old.fails_at) }
    {
        self.calls = self.calls.saturating_add(1);
        self.calls == self.fails_at
    }
}

impl<T: Read> Read for Failing<T> {
    fn read(&mut self, buf: &mut [u8]) -> io::Result<usize>
        ensures bound { ReadsAtMost result buf.new }
        ensures calls { self.new.calls ≡ min (self.old.calls + 1) (2 ^ 64 - 1) }
        ensures fails_at { self.new.fails_at ≡ self.old.fails_at }
        ensures fails { self.new.calls ≡ self.old.fails_at → is_err result ≡ true }
    {
        if self.fails_now() {
            return Err(self.failure.error());
        }
        let most = buf.len().min(self.most);
        self.inner.read(&mut buf[..most])
    }
}

impl<T: Write> Write for Failing<T> {
    fn write(&mut self, buf: &[u8]) -> io::Result<usize>
        ensures bound { WritesAtMost result buf.now }
        ensures calls { self.new.calls ≡ min (self.old.calls + 1) (2 ^ 64 - 1) }
        ensures fails_at { self.new.fails_at ≡ self.old.fails_at }
        ensures fails { 0 < length buf.now → self.new.calls ≡ self.old.fails_at
            → write_fails result buf.now ≡ true }
    {
        if self.fails_now() {
            return match self.failure {
                Failure::TakesNothing => Ok(0),
                failure => Err(failure.error()),
            };
        }
        let most = buf.len().min(self.most);
        self.inner.write(&buf[..most])
    }

    fn flush(&mut self) -> io::Result<()>
        ensures calls { self.new.calls ≡ min (self.old.calls + 1) (2 ^ 64 - 1) }
        ensures fails_at { self.new.fails_at ≡ self.old.fails_at }
        ensures fails { self.new.calls ≡ self.old.fails_at → is_err result ≡ true }
    {
        if self.fails_now() {
            return Err(self.failure.error());
        }
        self.inner.flush()
    }
}
