//! Gives the lines of a text that is read from a device one after another, in memory for one line.
//!
//! A line is taken in three steps, so that no borrow of it is held while the device is read:
//! [`StreamLines::next_length`] reads until it is held whole, [`StreamLines::front`] lends it, and
//! [`StreamLines::pass`] gives it up.

ghost use Rattle.std.specs.Prelude.{◌≡◌, ℕ, ◌+◌, ◌^◌, ◌-◌, ◌<◌, ◌≤◌, ◌==◌, [], length, drop, take, position, Some, IfOk, IfErr, IsErrOf, MatchResult};
ghost use Rattle.fixed_worth.specs.declared.limits.TheConstants.{LINE_BYTES, MOST_BYTES};
ghost use Rattle.check_pit.specs.StreamLines.{ReadsSome, IsLine, NoLine, MoreOrEnd, DoneOrNot, NotDone};

use crate::stream_bytes::StreamBytes;
use crate::stream_fault::StreamFault;
use certificate_file::CertFault;
use counted_devices::CountedRead;
use fixed_worth::{LINE_BYTES, MOST_BYTES, first_line_feed};
use std::marker::Model;

/// A device whose text is cut into lines. It is read only where no whole line is held.
#[derive(Drop)]
pub struct StreamLines<R> {
    from: R,
    held: StreamBytes,
    taken: u64,
    number: u64,
}

impl<R> Model for StreamLines<R> {
    ghost use Rattle.std.specs.Prelude.{◌+◌, ◌≤◌, length};
    ghost use Rattle.fixed_worth.specs.declared.limits.TheConstants.{LINE_BYTES, MOST_BYTES};
    ghost use Rattle.check_pit.specs.StreamView.{LineView};

    ghost Value = { LineView R };

    ghost view = { λ s.
        record { from = s.from; held = s.held; taken = s.taken; number = s.number } };

    ghost invariant = { λ s. (s.number + length s.held ≤ s.taken)
        × (s.taken ≤ MOST_BYTES + (LINE_BYTES + 1)) };
}

impl<R> StreamLines<R> {
    /// The lines of what the device gives, from the first on, with memory for one line that was taken before.
    pub fn over(held: StreamBytes, from: R) -> StreamLines<R>
        requires { held ≡ [] }
        ensures from { result.from ≡ from }
        ensures held { result.held ≡ [] }
        ensures taken { result.taken ≡ 0 }
        ensures number { result.number ≡ 0 }
    {
        StreamLines {
            from,
            held,
            taken: 0,
            number: 0,
        }
    }

    /// The device, which has given what was read.
    pub fn into_device(self) -> R
        ensures { result ≡ self.from }
    {
        self.from
    }

    /// The number of the line that was passed last, or 0 before the first.
    pub fn number(&self) -> u64
        ensures value { result ≡ self.now.number }
        ensures bound { result < 2 ^ 63 }
    {
        self.number
    }

    /// The first bytes that are held.
    pub fn front(&self, count: usize) -> &[u8]
        requires { count ≤ length self.now.held }
        ensures { result.now ≡ take count self.now.held }
    {
        let (front, _) = self.held.as_slice().split_at(count);
        front
    }

    /// Gives up the line of this length and its line feed.
    pub fn pass(&mut self, count: usize)
        requires { count < length self.old.held }
        ensures from { self.new.from ≡ self.old.from }
        ensures held { self.new.held ≡ drop (count + 1) self.old.held }
        ensures taken { self.new.taken ≡ self.old.taken }
        ensures number { self.new.number ≡ self.old.number + 1 }
    {
        self.held.pass(count + 1);
        self.number += 1;
    }
}

impl<R: CountedRead> StreamLines<R> {
    // Reads once, and keeps the bytes after those that are held: whether there was any.
    fn read_more(&mut self) -> Result<bool, StreamFault>
        requires room { length self.old.held < LINE_BYTES + 1 }
        requires few { self.old.taken ≤ MOST_BYTES }
        requires count { R.failed self.old.from < 2 ^ 64 - 1 }
        ensures reads { ReadsSome R.remaining self.old self.new }
        ensures more { IfOk result
            (λ more. MoreOrEnd (R.remaining self.new.from) self.old self.new more) }
        ensures kept { IfOk result (λ _. R.failed self.new.from ≡ R.failed self.old.from) }
        ensures fault { IfErr result (λ e. (e ≡ StreamFault.Device)
            × (R.failed self.new.from ≡ R.failed self.old.from + 1)) }
    {
        let Some(read) = self.held.read_from(&mut self.from) else {
            return Err(StreamFault::Device);
        };
        self.taken += read as u64;
        Ok(read > 0)
    }

    /// The length of the next line without its line feed, which is read until it is held whole: nothing is read where a
    /// line feed is held.
    #[tactic(auto, using(crate::proofs::HeldLines::line_inside))]
    pub fn next_length(&mut self) -> Result<usize, StreamFault>
        requires { R.failed self.old.from < 2 ^ 64 - 1 }
        ensures reads { ReadsSome R.remaining self.old self.new }
        ensures still { (count : ℕ) → position (λ b. b == 10) self.old.held ≡ Some count
            → self.new ≡ self.old }
        ensures line { MatchResult result
            (λ count. IsLine self.new.held count)
            (λ e. NoLine (R.remaining self.new.from) self.new e) }
        ensures device { IsErrOf result StreamFault.Device
            → R.failed self.new.from ≡ R.failed self.old.from + 1 }
        ensures kept { ¬ IsErrOf result StreamFault.Device
            → R.failed self.new.from ≡ R.failed self.old.from }
    {
        loop {
            if self.taken > MOST_BYTES {
                return Err(StreamFault::InputTooLong);
            }
            let held = self.held.as_slice();
            let count = first_line_feed(held);
            if count.unwrap_or(held.len()) > LINE_BYTES {
                return Err(StreamFault::Cert(CertFault::Text(self.number + 1)));
            }
            if let Some(count) = count {
                return Ok(count);
            }
            if !self.read_more()? {
                return Err(StreamFault::Cert(CertFault::Truncated));
            }
        }
    }

    /// Whether the text ends here: where nothing is held, the device is read once.
    pub fn is_done(&mut self) -> Result<bool, StreamFault>
        requires { R.failed self.old.from < 2 ^ 64 - 1 }
        ensures reads { ReadsSome R.remaining self.old self.new }
        ensures still { 0 < length self.old.held → self.new ≡ self.old }
        ensures done { MatchResult result
            (λ done. DoneOrNot (R.remaining self.new.from) self.new done)
            (λ e. NotDone self.new e) }
        ensures device { IsErrOf result StreamFault.Device
            → R.failed self.new.from ≡ R.failed self.old.from + 1 }
        ensures kept { ¬ IsErrOf result StreamFault.Device
            → R.failed self.new.from ≡ R.failed self.old.from }
    {
        if self.taken <= MOST_BYTES && self.held.as_slice().is_empty() {
            self.read_more()?;
        }
        if self.taken > MOST_BYTES {
            return Err(StreamFault::InputTooLong);
        }
        Ok(self.held.as_slice().is_empty())
    }
}
