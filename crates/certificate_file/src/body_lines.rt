//! Reads one line after a certificate's header: its kind, blocks and amount, or what is wrong with it. Decides which
//! lines may follow one another.

ghost use Rattle.std.specs.Prelude.{◌≡◌, ◌+◌, true, Err, MatchResult};
ghost use Rattle.certificate_file.specs.Pieces.{IsPieceRead, piece_at};
ghost use Rattle.certificate_file.specs.BodyLines as spec;

use crate::cert_fault::{CertFault, LineFault};
use crate::header_lines::{in_line, number_below};
use crate::piece_reader::{Pieces, Words};
use fixed_worth::plain_signed;

const PIT: &[u8] = b"PIT";

const SOURCE: &[u8] = b"SOURCE";

const REST: &[u8] = b"REST";

const SINK: &[u8] = b"SINK";

const END: &[u8] = b"END";

/// The kinds of lines after the header, in the order in which they stand.
#[derive(Clone, Copy, PartialEq, Eq, PartialOrd, Ord)]
pub enum LineKind {
    /// `PIT b`: block b is in the pit.
    Pit,
    /// `SOURCE b w c`: the flow from the source to block b.
    Source,
    /// `REST b p w c`: the flow from block b to its predecessor p.
    Rest,
    /// `SINK b w c`: the flow from block b to the sink.
    Sink,
    /// `END`: nothing follows.
    End,
}

/// A line after the header with its numbers; those that its kind doesn't have are 0.
#[derive(Clone, Copy)]
pub struct BodyLine {
    pub kind: LineKind,
    /// The block that the line names first, below the model's number of blocks.
    pub block: u32,
    /// The predecessor that a REST line names.
    pub other: u32,
    /// The first number of the amount: worth in billionths. With `GROUP SCALED`, in a model of n blocks, a block of
    /// worth v makes v times (n + 1), less 1.
    pub worth: i128,
    /// The second number of the amount, which is 0 but with `GROUP PAIR`: each block makes -1.
    pub count: i128,
}

fn kind_of(key: &[u8]) -> Option<LineKind>
    ensures { result ≡ spec.line_kind_of key.now }
{
    if key == PIT {
        Some(LineKind::Pit)
    } else if key == SOURCE {
        Some(LineKind::Source)
    } else if key == REST {
        Some(LineKind::Rest)
    } else if key == SINK {
        Some(LineKind::Sink)
    } else if key == END {
        Some(LineKind::End)
    } else {
        None
    }
}

// Whether the amount is other than zero, and has no count where the group has none.
fn is_amount(counts: bool, worth: i128, count: i128) -> bool
    ensures { result ≡ spec.is_amount counts worth count }
{
    if count == 0 { worth != 0 } else { counts }
}

fn amount_in(counts: bool, worth: &[u8], count: &[u8]) -> Option<(i128, i128)>
    ensures { result ≡ spec.amount_in counts worth.now count.now }
{
    let worth = plain_signed(worth).ok()?;
    let count = plain_signed(count).ok()?;
    if is_amount(counts, worth, count) {
        Some((worth, count))
    } else {
        None
    }
}

fn numbered_line(
    kind: LineKind,
    block: Option<u32>,
    other: Option<u32>,
    amount: Option<(i128, i128)>,
) -> Result<BodyLine, LineFault>
    ensures { result ≡ spec.numbered_line kind block other amount }
{
    match (block, other, amount) {
        (Some(block), Some(other), Some((worth, count))) => Ok(BodyLine {
            kind,
            block,
            other,
            worth,
            count,
        }),
        _ => Err(LineFault::Number),
    }
}

fn pit_line(n: u32, mut words: Words) -> Result<BodyLine, LineFault>
    ensures { result ≡ spec.pit_line n words.entry }
{
    let block = words.next().ok_or(LineFault::Text)?;
    if words.next().is_some() {
        return Err(LineFault::Text);
    }
    numbered_line(LineKind::Pit, number_below(n, block), Some(0), Some((0, 0)))
}

fn block_line(counts: bool, n: u32, kind: LineKind, mut words: Words) -> Result<BodyLine, LineFault>
    ensures { result ≡ spec.block_line counts n kind words.entry }
{
    let block = words.next().ok_or(LineFault::Text)?;
    let worth = words.next().ok_or(LineFault::Text)?;
    let count = words.next().ok_or(LineFault::Text)?;
    if words.next().is_some() {
        return Err(LineFault::Text);
    }
    numbered_line(
        kind,
        number_below(n, block),
        Some(0),
        amount_in(counts, worth, count),
    )
}

fn rest_line(counts: bool, n: u32, mut words: Words) -> Result<BodyLine, LineFault>
    ensures { result ≡ spec.rest_line counts n words.entry }
{
    let block = words.next().ok_or(LineFault::Text)?;
    let other = words.next().ok_or(LineFault::Text)?;
    let worth = words.next().ok_or(LineFault::Text)?;
    let count = words.next().ok_or(LineFault::Text)?;
    if words.next().is_some() {
        return Err(LineFault::Text);
    }
    numbered_line(
        LineKind::Rest,
        number_below(n, block),
        number_below(n, other),
        amount_in(counts, worth, count),
    )
}

fn end_line(mut words: Words) -> Result<BodyLine, LineFault>
    ensures { result ≡ spec.end_line words.entry }
{
    if words.next().is_some() {
        return Err(LineFault::Text);
    }
    numbered_line(LineKind::End, Some(0), Some(0), Some((0, 0)))
}

/// The line that a text is, for n blocks and a group with or without counts.
pub fn line_of(counts: bool, n: u32, text: &[u8]) -> Result<BodyLine, LineFault>
    ensures { result ≡ spec.line_of counts n text.now }
{
    let mut words = Words::new(text);
    let key = words.next().ok_or(LineFault::Text)?;
    match kind_of(key).ok_or(LineFault::Text)? {
        LineKind::Pit => pit_line(n, words),
        LineKind::Source => block_line(counts, n, LineKind::Source, words),
        LineKind::Rest => rest_line(counts, n, words),
        LineKind::Sink => block_line(counts, n, LineKind::Sink, words),
        LineKind::End => end_line(words),
    }
}

fn is_above(previous: &BodyLine, line: &BodyLine) -> bool
    ensures { result ≡ spec.is_above previous.now line.now }
{
    (previous.kind, previous.block, previous.other) < (line.kind, line.block, line.other)
}

/// Whether a line may stand after another one, or first.
pub fn may_follow(previous: Option<BodyLine>, line: &BodyLine) -> bool
    ensures { result ≡ spec.may_follow previous line.now }
{
    match previous {
        Some(previous) => is_above(&previous, line),
        None => true,
    }
}

/// The next line, which must be above the previous one.
pub fn read_in_order(
    pieces: &mut Pieces,
    counts: bool,
    n: u32,
    previous: Option<BodyLine>,
) -> Result<BodyLine, CertFault>
    ensures { MatchResult result
        (λ line. IsPieceRead (spec.line_of counts n) pieces.old pieces.new line
        × (spec.may_follow previous line ≡ true))
        (λ e. spec.line_after counts n previous
        (pieces.old.number + 1) (piece_at pieces.old.pieces 0) ≡ Err e) }
{
    let text = pieces.next_line()?;
    let number = pieces.number();
    let line = in_line(number, line_of(counts, n, text))?;
    if may_follow(previous, &line) {
        Ok(line)
    } else {
        Err(CertFault::OutOfOrder(number))
    }
}
