//! Gathers the short pieces of a text and sends them to a writer in few writes. It takes no memory.

ghost use Rattle.std.specs.Prelude.{◌≡◌, ℕ, ◌+◌, ◌-◌, ◌^◌, ◌<◌, ◌≤◌, List, [], ◌++◌, length, take, OnOk, OnErr};
ghost use Rattle.std.specs.Io.KnownBytes.{Appends};
ghost use Rattle.counted_devices.specs.Device.{ReceivedPrefix, SentOrHeld, PutFailed};
ghost use Rattle.counted_devices.specs.declared.pages.TheConstants.{ROOM};

use crate::devices::CountedWrite;
use crate::sending::{WriteFault, write_text};
use std::marker::Model;

// A hundred million bytes in lines of twelve take 0.19 s by pages of this size and 0.14 s by eight
// times as large ones, which each text would pay for with a microsecond and 64 KiB of stack.
const ROOM: usize = 8192;

/// The bytes of a text that are gathered and not yet sent. A writer makes its text piece by piece,
/// gives each to [`Page::put`], and ends with [`Page::finish`].
#[derive(Drop)]
pub struct Page {
    bytes: [u8; ROOM],
    len: usize,
}

impl Model for Page {
    ghost Value = { List ℕ };

    ghost view = { λ p. take p.len p.bytes };

    ghost invariant = { λ p. p.len ≤ ROOM };
}

impl Page {
    /// A page that holds nothing.
    pub fn new() -> Page
        ensures { result ≡ [] }
    {
        Page {
            bytes: [0; ROOM],
            len: 0,
        }
    }

    /// Holds the piece, or sends what is held first where the page has no room for both. A piece
    /// longer than a page is sent at once, after what was held.
    ///
    /// [`WriteFault::Device`] where a write failed: the writer has then received a prefix of what
    /// was held and the piece. The page still holds all that it held, unless the writer received
    /// all of that: then it holds nothing.
    ///
    /// `out` must have counted fewer than 2^64 - 1 failures, so that one more can be counted.
    pub fn put<W: CountedWrite>(&mut self, out: &mut W, piece: &[u8]) -> Result<(), WriteFault>
        requires { W.failed out.old < 2 ^ 64 - 1 }
        ensures held { OnOk result (SentOrHeld (W.contents out.old) (W.contents out.new) self.new
            (self.old ++ piece.now)) }
        ensures kept { OnOk result (W.failed out.new ≡ W.failed out.old) }
        ensures prefix { OnErr result
            (ReceivedPrefix (W.contents out.old) (W.contents out.new) (self.old ++ piece.now)) }
        ensures counted { OnErr result (W.failed out.new ≡ W.failed out.old + 1) }
        ensures left { OnErr result
            (PutFailed (W.contents out.old) (W.contents out.new) self.old self.new piece.now) }
    {
        if piece.len() > self.room() {
            self.finish(out)?;
            if piece.len() > ROOM {
                return write_text(out, piece);
            }
        }
        self.hold(piece);
        Ok(())
    }

    /// Sends what is held. The page then holds nothing, and can gather a further text.
    ///
    /// [`WriteFault::Device`] where a write failed: the writer has then received a prefix of what
    /// was held, and the page still holds all of it.
    ///
    /// `out` must have counted fewer than 2^64 - 1 failures, so that one more can be counted.
    pub fn finish<W: CountedWrite>(&mut self, out: &mut W) -> Result<(), WriteFault>
        requires { W.failed out.old < 2 ^ 64 - 1 }
        ensures sent { OnOk result (Appends (W.contents out.old) (W.contents out.new) self.old) }
        ensures empty { OnOk result (self.new ≡ []) }
        ensures kept { OnOk result (W.failed out.new ≡ W.failed out.old) }
        ensures prefix { OnErr result
            (ReceivedPrefix (W.contents out.old) (W.contents out.new) self.old) }
        ensures unsent { OnErr result (self.new ≡ self.old) }
        ensures counted { OnErr result (W.failed out.new ≡ W.failed out.old + 1) }
    {
        let (held, _) = self.bytes.split_at(self.len);
        write_text(out, held)?;
        self.len = 0;
        Ok(())
    }

    fn room(&self) -> usize
        ensures { result + length self.now ≡ ROOM }
    {
        ROOM - self.len
    }

    fn hold(&mut self, piece: &[u8])
        requires { length self.old + length piece.now ≤ ROOM }
        ensures { self.new ≡ self.old ++ piece.now }
    {
        let end = self.len + piece.len();
        self.bytes[self.len..end].copy_from_slice(piece);
        self.len = end;
    }
}
