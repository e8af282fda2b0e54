//! Sends a whole text to a writer, in as many writes as that takes, and stops at the first write that fails.

ghost use Rattle.std.specs.Prelude.{◌≡◌, ◌+◌, ◌-◌, ◌^◌, ◌<◌, OnOk, OnErr};
ghost use Rattle.std.specs.Io.KnownBytes.{Appends};
ghost use Rattle.counted_devices.specs.Device.{ReceivedPrefix};

use crate::devices::CountedWrite;

/// Why a text could not be sent.
#[derive(Clone, Copy, Debug, PartialEq, Eq)]
pub enum WriteFault {
    /// A write failed.
    Device,
}

/// Sends the whole text, in as many writes as the writer needs.
///
/// [`WriteFault::Device`] at the first write that fails: the writer has then received a prefix of
/// the text. It is not tried again, since a caller can't tell a slow device from a broken one.
///
/// `out` must have counted fewer than 2^64 - 1 failures, so that one more can be counted.
#[tactic(auto, using(crate::proofs::Pieces::sent_more, crate::proofs::Pieces::sent_all, crate::proofs::Pieces::sent_part))]
pub fn write_text<W: CountedWrite>(out: &mut W, text: &[u8]) -> Result<(), WriteFault>
    requires { W.failed out.old < 2 ^ 64 - 1 }
    ensures sent { OnOk result (Appends (W.contents out.old) (W.contents out.new) text.now) }
    ensures kept { OnOk result (W.failed out.new ≡ W.failed out.old) }
    ensures prefix { OnErr result
        (ReceivedPrefix (W.contents out.old) (W.contents out.new) text.now) }
    ensures counted { OnErr result (W.failed out.new ≡ W.failed out.old + 1) }
{
    let mut done = 0;
    while done < text.len() {
        let (_, rest) = text.split_at(done);
        done += out.write_once(rest).ok_or(WriteFault::Device)?;
    }
    Ok(())
}
