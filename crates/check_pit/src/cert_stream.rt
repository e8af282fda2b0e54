//! Checks a certificate for a mine while it is read from a device, line by line: gives the accepted pit, or the first
//! fault of its text or of its pit and flow.

ghost use Rattle.std.specs.Prelude.{◌≡◌, ℕ, ◌+◌, ◌-◌, ◌^◌, ◌<◌, ◌≤◌, ◌++◌, true, false, List, [], length, Some, None, Ok, Err, IfOk, IfErr, IsErrOf, MatchResult};
ghost use Rattle.check_pit.specs.CertStreams.{IsReadFor};
ghost use Rattle.check_pit.specs.StreamChecks.{ReadsOn, BodyFails, BodyProves};
ghost use Rattle.check_pit.specs.StreamHeaders.{GivesHeader, LacksHeader};

use crate::accepted::Accepted;
use crate::accepted_pit::AcceptedPit;
use crate::held_graph::HeldGraph;
use crate::room::Room;
use crate::stream_bytes::StreamBytes;
use crate::stream_checking::check_lines;
use crate::stream_fault::StreamFault;
use crate::stream_header::read_header;
use crate::stream_lines::StreamLines;
use certificate_file::{CertFault, Header};
use closure_net::Net;
use counted_devices::CountedRead;
use ordered_group::OrderedGroup;
use std::alloc::{AllocError, Global};
use std::marker::Model;

/// A device that gives a certificate. Once a fault was answered, it is answered again.
#[derive(Drop)]
pub struct CertStream<R> {
    lines: StreamLines<R>,
    header: Option<Header>,
    fault: Option<StreamFault>,
    is_done: bool,
}

impl<R> Model for CertStream<R> {
    ghost use Rattle.check_pit.specs.CertStreams.{CertView, StandsAt};

    ghost Value = { CertView R };

    ghost view = { λ s.
        record { lines = s.lines; header = s.header; fault = s.fault; is_done = s.is_done } };

    ghost invariant = { λ s. StandsAt s.header s.fault s.is_done s.lines.number };
}

impl<R: Drop> CertStream<R> {
    /// The certificate that a device gives from here on. Takes the memory for one line, and reads nothing yet.
    ///
    /// # Errors
    /// Where memory is refused.
    pub fn new(alloc: Global, from: R) -> Result<CertStream<R>, AllocError>
        ensures from { IfOk result (λ s. s.lines.from ≡ from) }
        ensures held { IfOk result (λ s. s.lines.held ≡ []) }
        ensures taken { IfOk result (λ s. s.lines.taken ≡ 0) }
        ensures header { IfOk result (λ s. s.header ≡ None) }
        ensures fault { IfOk result (λ s. s.fault ≡ None) }
        ensures done { IfOk result (λ s. s.is_done ≡ false) }
    {
        Ok(CertStream::over(StreamBytes::new(alloc)?, from))
    }
}

impl<R> CertStream<R> {
    /// The certificate that a device gives from here on, with memory that was taken before and holds no byte. Reads
    /// nothing yet.
    pub fn over(held: StreamBytes, from: R) -> CertStream<R>
        requires { held ≡ [] }
        ensures from { result.lines.from ≡ from }
        ensures held { result.lines.held ≡ [] }
        ensures taken { result.lines.taken ≡ 0 }
        ensures header { result.header ≡ None }
        ensures fault { result.fault ≡ None }
        ensures done { result.is_done ≡ false }
    {
        CertStream {
            lines: StreamLines::over(held, from),
            header: None,
            fault: None,
            is_done: false,
        }
    }

    /// The device, which has given what was read.
    pub fn into_device(self) -> R
        ensures { result ≡ self.lines.from }
    {
        self.lines.into_device()
    }
}

impl<R: CountedRead> CertStream<R> {
    /// The header: the first four lines, which are read once. Takes no memory.
    ///
    /// # Errors
    /// `Device` where a read failed; `InputTooLong` where more than 2^32 bytes were read; `Cert` with the fault of the
    /// first faulty line. A fault that the stream has answered before is answered again.
    pub fn header(&mut self) -> Result<Header, StreamFault>
        requires { R.failed self.old.lines.from < 2 ^ 64 - 1 }
        ensures fault_again { (e : StreamFault) → self.old.fault ≡ Some e
            → (result ≡ Err e) × (self.new ≡ self.old) }
        ensures header_again { (h : Header) → self.old.fault ≡ None → self.old.header ≡ Some h
            → (result ≡ Ok h) × (self.new ≡ self.old) }
        ensures read { self.old.fault ≡ None → self.old.header ≡ None
            → MatchResult result
            (λ h. GivesHeader R.remaining self.old.lines self.new.lines h)
            (λ e. LacksHeader R.remaining self.old.lines self.new.lines e) }
        ensures ok { IfOk result (λ h. (self.new.header ≡ Some h) × (self.new.fault ≡ None)) }
        ensures fault { IfErr result (λ e. self.new.fault ≡ Some e) }
        ensures done { self.new.is_done ≡ self.old.is_done }
        ensures device { self.old.fault ≡ None → IsErrOf result StreamFault.Device
            → R.failed self.new.lines.from ≡ R.failed self.old.lines.from + 1 }
        ensures kept { ¬ IsErrOf result StreamFault.Device
            → R.failed self.new.lines.from ≡ R.failed self.old.lines.from }
    {
        if let Some(fault) = self.fault {
            return Err(fault);
        }
        if let Some(header) = self.header {
            return Ok(header);
        }
        match read_header(&mut self.lines) {
            Ok(header) => {
                self.header = Some(header);
                Ok(header)
            }
            Err(fault) => {
                self.fault = Some(fault);
                Err(fault)
            }
        }
    }
}

/// Checks the certificate whose header was read, line by line up to its end or its first fault: whether its pit is a
/// greatest closed set of the net with this graph, which its flow shows. A certificate is accepted once.
///
/// Takes no memory but what the room has. Its time is linear in the numbers of blocks and pairs and in the length of
/// the text, but for the search of the predecessor of each REST line among those of its block.
///
/// The header that was read names this group and the number of blocks of the net, for as many blocks the room was made,
/// and the device has counted fewer than 2^64 - 1 failures, so that one more can be counted.
///
/// # Errors
/// `Device` where a read failed; `InputTooLong` where more than 2^32 bytes were read. Otherwise the first that the
/// lines show of these:
///
/// - `Cert` with the fault of a line;
/// - `NotClosed` with the first such pair, at the first line after the PIT lines;
/// - for each line `Negative`, `OverCapacity`, then `TooLarge`: a sum over the lines so far that doesn't fit (the
///   balance of a block, the worth of the pit, or what the source could still give);
/// - after END `Unbalanced` with the first such block, then `NotTight`.
///
/// `Cert` with `NoMemory` only in a room that has served a check before, where memory for the list of the pit's blocks
/// is refused. Called again, the stream returns the fault that it returned before, or `Cert` with `Truncated` once the
/// certificate was accepted.
pub fn check_held<'a, R: CountedRead, G: OrderedGroup>(
    stream: &mut CertStream<R>,
    net: HeldGraph<'a, G>,
    room: &'a mut Room<G>,
) -> Result<AcceptedPit<'a, G>, StreamFault>
    requires count { R.failed stream.old.lines.from < 2 ^ 64 - 1 }
    requires header { IsReadFor (length net.worths) G.name stream.old.header stream.old.fault }
    requires room { length room.old.balances ≡ length net.worths }
    ensures fault_again { (e : StreamFault) → stream.old.fault ≡ Some e
        → IsErrOf result e × (stream.new ≡ stream.old) }
    ensures done_again { stream.old.fault ≡ None → stream.old.is_done ≡ true
        → IsErrOf result (StreamFault.Cert CertFault.Truncated)
        × (stream.new.lines ≡ stream.old.lines) }
    ensures checked { stream.old.fault ≡ None → stream.old.is_done ≡ false → (bytes : List ℕ)
        × ReadsOn R.remaining stream.old.lines stream.new.lines bytes × MatchResult result
        (λ a. (a.net ≡ net.entry)
        × BodyProves (R.remaining stream.new.lines.from) stream.new.lines.taken G.counts net.entry
        (stream.old.lines.held ++ bytes) a.pit)
        (λ e. BodyFails
        (R.remaining stream.new.lines.from) stream.new.lines.taken G.counts net.entry
        (stream.old.lines.held ++ bytes) e) }
    ensures ok { IfOk result (λ a. (stream.new.fault ≡ None) × (stream.new.is_done ≡ true)) }
    ensures fault { IfErr result (λ e. stream.new.fault ≡ Some e) }
    ensures header { stream.new.header ≡ stream.old.header }
    ensures device { stream.old.fault ≡ None → IsErrOf result StreamFault.Device
        → R.failed stream.new.lines.from ≡ R.failed stream.old.lines.from + 1 }
    ensures kept { ¬ IsErrOf result StreamFault.Device
        → R.failed stream.new.lines.from ≡ R.failed stream.old.lines.from }
    ensures memory { stream.old.fault ≡ None → room.old.is_pit ≡ false
        → length net.entry.worths ≤ room.old.space
        → ¬ IsErrOf result (StreamFault.Cert CertFault.NoMemory) }
{
    if let Some(fault) = stream.fault {
        return Err(fault);
    }
    if stream.is_done {
        let fault = StreamFault::Cert(CertFault::Truncated);
        stream.fault = Some(fault);
        return Err(fault);
    }
    match check_lines(&mut stream.lines, &net, room) {
        Ok(()) => {
            stream.is_done = true;
            let worth = room.worth();
            Ok(AcceptedPit::new(net, room.pit(), worth))
        }
        Err(fault) => {
            stream.fault = Some(fault);
            Err(fault)
        }
    }
}

/// Checks the certificate as [`check_held`] does, over a net and the pairs that it lists. The net is handed back with the
/// accepted pit.
///
/// # Errors
/// Those of [`check_held`].
pub fn check_stream<'a, R: CountedRead, G: OrderedGroup>(
    stream: &mut CertStream<R>,
    net: &'a Net<G>,
    room: &'a mut Room<G>,
) -> Result<Accepted<'a, G>, StreamFault>
    requires count { R.failed stream.old.lines.from < 2 ^ 64 - 1 }
    requires header { IsReadFor (length net.now.worths) G.name stream.old.header stream.old.fault }
    requires room { length room.old.balances ≡ length net.now.worths }
    ensures fault_again { (e : StreamFault) → stream.old.fault ≡ Some e
        → IsErrOf result e × (stream.new ≡ stream.old) }
    ensures done_again { stream.old.fault ≡ None → stream.old.is_done ≡ true
        → IsErrOf result (StreamFault.Cert CertFault.Truncated)
        × (stream.new.lines ≡ stream.old.lines) }
    ensures checked { stream.old.fault ≡ None → stream.old.is_done ≡ false → (bytes : List ℕ)
        × ReadsOn R.remaining stream.old.lines stream.new.lines bytes × MatchResult result
        (λ a. (a.net ≡ net.now)
        × BodyProves (R.remaining stream.new.lines.from) stream.new.lines.taken G.counts net.now
        (stream.old.lines.held ++ bytes) a.pit)
        (λ e. BodyFails (R.remaining stream.new.lines.from) stream.new.lines.taken G.counts net.now
        (stream.old.lines.held ++ bytes) e) }
    ensures ok { IfOk result (λ a. (stream.new.fault ≡ None) × (stream.new.is_done ≡ true)) }
    ensures fault { IfErr result (λ e. stream.new.fault ≡ Some e) }
    ensures header { stream.new.header ≡ stream.old.header }
    ensures device { stream.old.fault ≡ None → IsErrOf result StreamFault.Device
        → R.failed stream.new.lines.from ≡ R.failed stream.old.lines.from + 1 }
    ensures kept { ¬ IsErrOf result StreamFault.Device
        → R.failed stream.new.lines.from ≡ R.failed stream.old.lines.from }
    ensures memory { stream.old.fault ≡ None → room.old.is_pit ≡ false
        → length net.now.worths ≤ room.old.space
        → ¬ IsErrOf result (StreamFault.Cert CertFault.NoMemory) }
{
    match check_held(stream, HeldGraph::listed(net.graph()), room) {
        Ok(accepted) => Ok(Accepted::new(net, accepted)),
        Err(fault) => Err(fault),
    }
}
