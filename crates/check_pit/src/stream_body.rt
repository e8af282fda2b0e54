//! Reads the next line after a certificate's header from a device, and refuses one out of its order or of a pair
//! that the mine doesn't have.

ghost use Rattle.std.specs.Prelude.{◌≡◌, ◌+◌, ◌-◌, ◌^◌, ◌<◌, ◌≤◌, true, false, length, IsErrOf, MatchResult};
ghost use Rattle.fixed_worth.specs.declared.limits.TheConstants.{LINE_BYTES};
ghost use Rattle.certificate_file.specs.BodyLines as spec;
ghost use Rattle.certificate_file.specs.Certificate.{has_pair};
ghost use Rattle.places.specs.Holders.{pairs_lent};
ghost use Rattle.check_pit.specs.TakenLines.{TakesLine, LacksLine};

use crate::held_graph::HeldGraph;
use crate::stream_fault::StreamFault;
use crate::stream_lines::StreamLines;
use certificate_file::{BodyLine, CertFault, LineKind, counts, in_line, line_of, may_follow};
use counted_devices::CountedRead;
use ordered_group::OrderedGroup;
use places::{HeldRef, Precedence};

// Whether the model has the pair of a line, where the line is of one.
fn is_of_model(held: HeldRef<'_>, line: &BodyLine) -> bool
    requires { spec.is_end line.now.kind ≡ false → line.now.block < (pairs_lent held).blocks }
    ensures { result
        ≡ spec.is_of_model (has_pair (pairs_lent held.entry).pairs) line.now.kind line.now }
{
    // proof: whether one rests on another is whether the pairs have them
    let _blocks = held.blocks();
    match line.kind {
        LineKind::Pit | LineKind::Source | LineKind::Sink | LineKind::End => true,
        LineKind::Rest => held.has(line.block, line.other),
    }
}

// The line of this number that a text is, after another one.
fn line_after(
    held: HeldRef<'_>,
    counts: bool,
    previous: Option<BodyLine>,
    number: u64,
    text: &[u8],
) -> Result<BodyLine, CertFault>
    requires { length text.now ≤ LINE_BYTES }
    ensures { result ≡ spec.next_line counts (pairs_lent held.entry).blocks
        (has_pair (pairs_lent held.entry).pairs) previous number
        (record { text = text.now; ended = true }) }
{
    let line = in_line(number, line_of(counts, held.blocks(), text))?;
    if !may_follow(previous, &line) {
        return Err(CertFault::OutOfOrder(number));
    }
    if !is_of_model(held, &line) {
        return Err(CertFault::UnknownPair(number));
    }
    Ok(line)
}

/// The next line of a certificate for the net, which must be above the previous one and of the model.
///
/// # Errors
/// `Device` where a read failed; `InputTooLong` where the stream gave more bytes than it may; `Cert` with the fault of
/// the line, which isn't passed then.
pub fn next_line<R: CountedRead, G: OrderedGroup>(
    lines: &mut StreamLines<R>,
    net: &HeldGraph<'_, G>,
    previous: Option<BodyLine>,
) -> Result<BodyLine, StreamFault>
    requires { R.failed lines.old.from < 2 ^ 64 - 1 }
    ensures line { MatchResult result
        (λ line. TakesLine R.remaining (spec.next_line G.counts
        (length net.now.worths) (has_pair net.now.pairs) previous) lines.old lines.new line)
        (λ e. LacksLine R.remaining (spec.next_line G.counts
        (length net.now.worths) (has_pair net.now.pairs) previous) lines.old lines.new e) }
    ensures device { IsErrOf result StreamFault.Device
        → R.failed lines.new.from ≡ R.failed lines.old.from + 1 }
    ensures kept { ¬ IsErrOf result StreamFault.Device
        → R.failed lines.new.from ≡ R.failed lines.old.from }
{
    let count = lines.next_length()?;
    let number = lines.number() + 1;
    let held = net.held();
    let text = lines.front(count);
    let line = match line_after(held, counts::<G>(), previous, number, text) {
        Ok(line) => line,
        Err(fault) => return Err(StreamFault::Cert(fault)),
    };
    lines.pass(count);
    Ok(line)
}
