//! Holds the bytes that a device has given and no line has taken yet, in memory for one line that is taken once.

ghost use Rattle.std.specs.Prelude.{◌≡◌, ◌+◌, ◌-◌, ◌^◌, ◌<◌, ◌≤◌, [], length, take, drop, slice_range, IfOk, IfSome, IfNone};
ghost use Rattle.std.specs.Io.KnownBytes.{Consumes, Keeps, IsAtEnd};
ghost use Rattle.fixed_worth.specs.declared.limits.TheConstants.{LINE_BYTES};
ghost use Rattle.check_pit.specs.StreamBytes.{AppendsRead};

use counted_devices::CountedRead;
use fixed_worth::LINE_BYTES;
use std::alloc::{AllocError, Global};
use std::marker::Model;

/// Bytes in the order in which they were read, at most one line of the longest kind with its line feed.
#[derive(Drop)]
pub struct StreamBytes {
    // `buffer[start..end]` is held
    buffer: Vec<u8>,
    start: usize,
    end: usize,
}

impl Model for StreamBytes {
    ghost use Rattle.std.specs.Prelude.{ℕ, ◌≡◌, ◌+◌, ◌≤◌, List, length, slice_range};
    ghost use Rattle.fixed_worth.specs.declared.limits.TheConstants.{LINE_BYTES};

    ghost Value = { List ℕ };

    ghost view = { λ b. slice_range b.buffer.items b.start b.end };

    ghost invariant = { λ b. (length b.buffer.items ≡ LINE_BYTES + 1) × (b.start ≤ b.end)
        × (b.end ≤ LINE_BYTES + 1) };
}

// Moves a part of the buffer to its front.
fn move_to_front(buffer: &mut [u8], start: usize, end: usize)
    requires ordered { start ≤ end }
    requires inside { end ≤ length buffer.old }
    ensures length { length buffer.new ≡ length buffer.old }
    ensures moved { take (end - start) buffer.new ≡ slice_range buffer.old start end }
{
    buffer.copy_within(start..end, 0);
}

// Moves a part of the buffer to its front, and reads once into what comes after it.
fn read_after<R: CountedRead>(
    from: &mut R,
    buffer: &mut [u8],
    start: usize,
    end: usize,
) -> Option<usize>
    requires ordered { start ≤ end }
    requires inside { end ≤ length buffer.old }
    requires room { end - start < length buffer.old }
    requires count { R.failed from.old < 2 ^ 64 - 1 }
    ensures length { length buffer.new ≡ length buffer.old }
    ensures moved { take (end - start) buffer.new ≡ slice_range buffer.old start end }
    ensures read { IfSome result (λ n. (end - start + n ≤ length buffer.new)
        × Consumes (R.remaining from.old) (R.remaining from.new)
        (take n (drop (end - start) buffer.new))) }
    ensures end { IfSome result (λ n. n ≡ 0 → IsAtEnd (R.remaining from.new)) }
    ensures counted { IfSome result (λ _. R.failed from.new ≡ R.failed from.old) }
    ensures failed { IfNone result (R.failed from.new ≡ R.failed from.old + 1) }
    ensures nothing { IfNone result (Keeps (R.remaining from.old) (R.remaining from.new)) }
{
    move_to_front(buffer, start, end);
    let (_, space) = buffer.split_at_mut(end - start);
    from.read_once(space)
}

impl StreamBytes {
    /// No bytes, with memory for all that may ever be held.
    ///
    /// # Errors
    /// Where memory is refused.
    pub fn new(alloc: Global) -> Result<StreamBytes, AllocError>
        ensures { IfOk result (λ b. b ≡ []) }
    {
        Ok(StreamBytes {
            buffer: vec![in alloc; 0; LINE_BYTES + 1]?,
            start: 0,
            end: 0,
        })
    }

    /// The bytes.
    pub fn as_slice(&self) -> &[u8]
        ensures is { result.now ≡ self.now }
        ensures few { length self.now ≤ LINE_BYTES + 1 }
    {
        let all = self.buffer.as_slice();
        &all[self.start..self.end]
    }

    /// Lets go of the first bytes.
    pub fn pass(&mut self, count: usize)
        requires { count ≤ length self.old }
        ensures { self.new ≡ drop count self.old }
    {
        self.start += count;
    }

    /// One read: how many bytes are held more than before, 0 only at the end of the input, or `None` where the read
    /// failed. It takes no memory.
    pub fn read_from<R: CountedRead>(&mut self, from: &mut R) -> Option<usize>
        requires room { length self.old < LINE_BYTES + 1 }
        requires count { R.failed from.old < 2 ^ 64 - 1 }
        ensures read { IfSome result
            (λ n. AppendsRead (R.remaining from.old) (R.remaining from.new) self.old self.new n) }
        ensures few { IfSome result (λ n. length self.old + n ≤ LINE_BYTES + 1) }
        ensures end { IfSome result (λ n. n ≡ 0 → IsAtEnd (R.remaining from.new)) }
        ensures kept { IfSome result (λ _. R.failed from.new ≡ R.failed from.old) }
        ensures counted { IfNone result (R.failed from.new ≡ R.failed from.old + 1) }
        ensures nothing { IfNone result (Keeps (R.remaining from.old) (R.remaining from.new)) }
        ensures same { IfNone result (self.new ≡ self.old) }
    {
        let read = read_after(from, &mut self.buffer, self.start, self.end);
        self.end -= self.start;
        self.start = 0;
        let Some(read) = read else {
            return None;
        };
        self.end += read;
        Some(read)
    }
}
