//! Reads all that an input has left into memory, up to a limit, or says why that failed.

ghost use Rattle.std.specs.Prelude.{◌≡◌, ◌+◌, ◌-◌, ◌^◌, ◌<◌, ◌≤◌, ◌↔◌, length, IfOk, OnOk, IfSome, IsErrOf};
ghost use Rattle.std.specs.Io.KnownBytes.{Consumes, IsAtEnd};
ghost use Rattle.counted_devices.specs.Device.{GaveMoreThan, GaveAtMost};

use crate::devices::CountedRead;
use std::alloc::Global;

/// Why an input could not be read.
#[derive(Clone, Copy, Debug, PartialEq, Eq)]
pub enum InputFault {
    /// A read failed.
    Device,
    /// The input has more bytes than the caller allows.
    InputTooLong,
    /// An allocation was refused.
    NoMemory,
}

// The bytes of one read: as many as a pipe gives at once.
const PIECE: usize = 65536;

/// All bytes that the reader has left, of which there may be at most `limit`.
///
/// It ends at the first fault: [`InputFault::Device`] where a read failed, an interrupted one too;
/// [`InputFault::InputTooLong`] once the reader gave more than `limit` bytes;
/// [`InputFault::NoMemory`] where bytes within the limit found no room. It makes at most `limit` and two reads.
///
/// `from` must have counted fewer than 2^64 - 1 failures, so that one more can be counted.
pub fn read_whole<R: CountedRead>(
    alloc: Global,
    from: &mut R,
    limit: u64,
) -> Result<Vec<u8>, InputFault>
    requires { R.failed from.old < 2 ^ 64 - 1 }
    ensures bytes { IfOk result
        (λ v. Consumes (R.remaining from.old) (R.remaining from.new) v.items) }
    ensures end { OnOk result (IsAtEnd (R.remaining from.new)) }
    ensures whole { IfOk result (λ v. IfSome (R.remaining from.old) (λ xs. v.items ≡ xs)) }
    ensures within { IfOk result (λ v. length v.items ≤ limit) }
    ensures too_long { IsErrOf result InputFault.InputTooLong
        → GaveMoreThan limit (R.remaining from.old) (R.remaining from.new) }
    ensures memory { IsErrOf result InputFault.NoMemory
        → GaveAtMost limit (R.remaining from.old) (R.remaining from.new) }
    ensures device { IsErrOf result InputFault.Device
        ↔ (R.failed from.new ≡ R.failed from.old + 1) }
    ensures kept { ¬ IsErrOf result InputFault.Device → R.failed from.new ≡ R.failed from.old }
{
    let mut text = Vec::new(alloc);
    let mut piece = [0u8; PIECE];
    loop {
        let taken = from.read_once(&mut piece).ok_or(InputFault::Device)?;
        if taken == 0 {
            return Ok(text);
        }
        // decided before memory is asked for, so that a long input isn't told as want of memory
        if taken as u64 > limit - text.len() as u64 {
            return Err(InputFault::InputTooLong);
        }
        text.extend_from_slice(&piece[..taken])
            .map_err(|_| InputFault::NoMemory)?;
    }
}
