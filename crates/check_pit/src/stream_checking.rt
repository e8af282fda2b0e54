//! Checks all lines after a certificate's header as they are read: decides whether the pit is closed, the flow
//! balanced and the pit tight, or gives the first fault.

ghost use Rattle.std.specs.Prelude.{◌≡◌, ℕ, ◌+◌, ◌-◌, ◌^◌, ◌<◌, ◌≤◌, ◌++◌, true, false, List, length, IfOk, IsErrOf, MatchResult};
ghost use Rattle.closure_net.specs.Network.{IsAscending, holds_of};
ghost use Rattle.closure_net.specs.Closure.{IsGreatest, group_worth};
ghost use Rattle.check_pit.specs.declared.stream_fault.StreamFault.TheVariants as fault;
ghost use Rattle.check_pit.specs.StreamLines.{ReadsSome};
ghost use Rattle.check_pit.specs.StreamChecks as spec;
ghost use Rattle.check_pit.specs.StreamChecks.{ClosesPit, IsOpenPit, SumsSettle, EndFails, ReadsOn, BodyFails, BodyProves};

use crate::held_graph::HeldGraph;
use crate::pit_fault::PitFault;
use crate::room::Room;
use crate::stream_body::next_line;
use crate::stream_fault::StreamFault;
use crate::stream_lines::StreamLines;
use certificate_file::{BodyLine, CertFault, LineKind, is_end};
use counted_devices::CountedRead;
use ordered_group::OrderedGroup;

fn is_pit(kind: LineKind) -> bool
    ensures { result ≡ spec.is_pit kind }
{
    matches!(kind, LineKind::Pit)
}

// Whether a line other than PIT was read last.
fn is_after_pits(previous: Option<BodyLine>) -> bool
    ensures { result ≡ spec.is_after_pits previous }
{
    match previous {
        Some(line) => !is_pit(line.kind),
        None => false,
    }
}

// Whether the pit of the PIT lines is closed, at the first line after them.
fn close_pit<G: OrderedGroup>(
    net: &HeldGraph<'_, G>,
    room: &mut Room<G>,
    previous: Option<BodyLine>,
    kind: LineKind,
) -> Result<(), PitFault>
    requires open { room.old.is_pit ≡ spec.is_after_pits previous }
    requires ascending { IsAscending room.old.blocks }
    requires size { length room.old.balances ≡ length net.now.worths }
    ensures size { length room.new.balances ≡ length room.old.balances }
    ensures closes { MatchResult result
        (λ _. ClosesPit net.now previous kind room.old room.new)
        (λ e. IsOpenPit net.now previous kind room.old.blocks e) }
{
    if is_after_pits(previous) || is_pit(kind) {
        return Ok(());
    }
    room.make_pit();
    match room.first_open(net) {
        Some((block, other)) => Err(PitFault::NotClosed(block, other)),
        None => Ok(()),
    }
}

// Whether nothing stands after END, and the sums prove the pit.
fn check_end<R: CountedRead, G: OrderedGroup>(
    lines: &mut StreamLines<R>,
    net: &HeldGraph<'_, G>,
    room: &Room<G>,
) -> Result<(), StreamFault>
    requires count { R.failed lines.old.from < 2 ^ 64 - 1 }
    requires size { length room.now.balances ≡ length net.now.worths }
    ensures reads { ReadsSome R.remaining lines.old lines.new }
    ensures end { MatchResult result (λ _. spec.IsDone (R.remaining lines.new.from) lines.new
        × SumsSettle net.now room.now)
        (λ e. EndFails (R.remaining lines.new.from) net.now room.now lines.new e) }
    ensures device { IsErrOf result StreamFault.Device
        → R.failed lines.new.from ≡ R.failed lines.old.from + 1 }
    ensures kept { ¬ IsErrOf result StreamFault.Device
        → R.failed lines.new.from ≡ R.failed lines.old.from }
{
    if !lines.is_done()? {
        return Err(StreamFault::Cert(CertFault::Text(lines.number() + 1)));
    }
    if let Some(block) = room.first_unbalanced(net) {
        return Err(StreamFault::Pit(PitFault::Unbalanced(block)));
    }
    if !room.is_tight() {
        return Err(StreamFault::Pit(PitFault::NotTight));
    }
    Ok(())
}

/// Checks the lines after the header, up to the end of the text.
///
/// # Errors
/// The first of these: the fault of a line, when it is read; `NotClosed` at the first line after the PIT lines;
/// `Negative`, `OverCapacity` and `TooLarge` of a line; after END `Unbalanced` and `NotTight`.
pub fn check_lines<R: CountedRead, G: OrderedGroup>(
    lines: &mut StreamLines<R>,
    net: &HeldGraph<'_, G>,
    room: &mut Room<G>,
) -> Result<(), StreamFault>
    requires count { R.failed lines.old.from < 2 ^ 64 - 1 }
    requires after { lines.old.number ≡ 4 }
    requires size { length room.old.balances ≡ length net.now.worths }
    ensures size { length room.new.balances ≡ length room.old.balances }
    ensures checked { (bytes : List ℕ) × ReadsOn R.remaining lines.old lines.new bytes
        × MatchResult result
        (λ _. BodyProves (R.remaining lines.new.from) lines.new.taken G.counts net.now
        (lines.old.held ++ bytes) room.new.blocks)
        (λ e. BodyFails (R.remaining lines.new.from) lines.new.taken G.counts net.now
        (lines.old.held ++ bytes) e) }
    ensures pit { IfOk result (λ _. room.new.is_pit ≡ true) }
    ensures worth { IfOk result
        (λ _. room.new.worth ≡ group_worth net.now.worths (holds_of room.new.blocks)) }
    ensures greatest { IfOk result (λ _. IsGreatest net.now (holds_of room.new.blocks)) }
    ensures device { IsErrOf result StreamFault.Device
        → R.failed lines.new.from ≡ R.failed lines.old.from + 1 }
    ensures kept { ¬ IsErrOf result StreamFault.Device
        → R.failed lines.new.from ≡ R.failed lines.old.from }
    ensures memory { room.old.is_pit ≡ false → length net.now.worths ≤ room.old.space
        → ¬ IsErrOf result (StreamFault.Cert CertFault.NoMemory) }
{
    let Ok(()) = room.begin(net) else {
        return Err(StreamFault::Cert(CertFault::NoMemory));
    };
    // proof: the pairs of a net are in order, and of its blocks
    let _worths = net.worths();
    let mut previous: Option<BodyLine> = None;
    loop {
        // proof: fewer than 2^63 lines were passed
        let _number = lines.number();
        let line = next_line(lines, net, previous)?;
        if let Err(fault) = close_pit(net, room, previous, line.kind) {
            return Err(StreamFault::Pit(fault));
        }
        if is_end(line.kind) {
            return check_end(lines, net, room);
        }
        if let Err(fault) = room.put(net, &line) {
            return Err(StreamFault::Pit(fault));
        }
        previous = Some(line);
    }
}
