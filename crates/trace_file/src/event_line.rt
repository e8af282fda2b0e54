//! Reads a line of a trace as a step of a run, and writes a step as its line.

ghost use Rattle.std.specs.Prelude.{◌≡◌, ◌+◌, ◌-◌, ◌<◌, ◌^◌, ◌∷◌, [], ◌++◌, None, MatchOption, OnOk, OnErr};
ghost use Rattle.counted_devices.specs.Device.{ReceivedPrefix, SentOrHeld};
ghost use Rattle.fixed_worth.specs.Text.{parts};
ghost use Rattle.trace_file.specs.Lines as spec;
ghost use Rattle.trace_file.specs.Lines.{event_of_words};
ghost use Rattle.trace_file.specs.Written as written;
ghost use Rattle.trace_file.specs.Written.{event_line};

use counted_devices::{CountedWrite, Page, WriteFault};
use fixed_worth::{WrittenNumber, cut_at, plain_signed};
use machine_law::{Event, Kind};

const READ_EXCESS: &[u8] = b"RE";

const READ_CAPACITY: &[u8] = b"RC";

const READ_LABEL: &[u8] = b"RL";

const TAKE_CAPACITY: &[u8] = b"TC";

const GIVE_CAPACITY: &[u8] = b"GC";

const TAKE_EXCESS: &[u8] = b"TE";

const GIVE_EXCESS: &[u8] = b"GE";

const RAISE_LABEL: &[u8] = b"RA";

fn kind_of(word: &[u8]) -> Option<Kind>
    ensures { result ≡ spec.kind_of_word word.now }
{
    if word == READ_EXCESS {
        Some(Kind::ReadExcess)
    } else if word == READ_CAPACITY {
        Some(Kind::ReadCapacity)
    } else if word == READ_LABEL {
        Some(Kind::ReadLabel)
    } else if word == TAKE_CAPACITY {
        Some(Kind::TakeCapacity)
    } else if word == GIVE_CAPACITY {
        Some(Kind::GiveCapacity)
    } else if word == TAKE_EXCESS {
        Some(Kind::TakeExcess)
    } else if word == GIVE_EXCESS {
        Some(Kind::GiveExcess)
    } else if word == RAISE_LABEL {
        Some(Kind::RaiseLabel)
    } else {
        None
    }
}

fn kind_word(kind: Kind) -> &'static [u8]
    ensures { result.now ≡ written.kind_word kind }
{
    match kind {
        Kind::ReadExcess => READ_EXCESS,
        Kind::ReadCapacity => READ_CAPACITY,
        Kind::ReadLabel => READ_LABEL,
        Kind::TakeCapacity => TAKE_CAPACITY,
        Kind::GiveCapacity => GIVE_CAPACITY,
        Kind::TakeExcess => TAKE_EXCESS,
        Kind::GiveExcess => GIVE_EXCESS,
        Kind::RaiseLabel => RAISE_LABEL,
    }
}

fn block_of(word: &[u8]) -> Option<u32>
    ensures { result ≡ spec.block_of_word word.now }
{
    let number = plain_signed(word).ok()?;
    if number >= 0 && number < 1 << 32 {
        Some(number as u32)
    } else {
        None
    }
}

// The words of a line that has two, between which stands a single space.
fn two_words<'a>(line: &'a [u8]) -> Option<(&'a [u8], &'a [u8])>
    ensures { MatchOption result
        (event_of_words (parts 32 line.now) ≡ None)
        (λ words. parts 32 line.now ≡ words.0.now ∷ words.1.now ∷ []) }
{
    match cut_at(b' ', line) {
        Some((first, second)) => match cut_at(b' ', second) {
            Some(_) => None,
            None => Some((first, second)),
        },
        None => None,
    }
}

fn event_with(kind: Option<Kind>, block: Option<u32>) -> Option<Event>
    ensures { result ≡ spec.event_with kind block }
{
    match (kind, block) {
        (Some(kind), Some(block)) => Some(Event { block, kind }),
        (Some(_), None) => None,
        (None, _) => None,
    }
}

/// The event that a line says, if it says one.
pub fn event_in(line: &[u8]) -> Option<Event>
    ensures { result ≡ spec.event_of line.now }
{
    match two_words(line) {
        Some((kind, block)) => event_with(kind_of(kind), block_of(block)),
        None => None,
    }
}

/// Puts the line of an event with its line feed. The digits of its block are made in `digits`, which the lines of a
/// trace share.
///
/// # Errors
/// `Device` where a write failed: the writer has then received a prefix of what was held and the line.
///
/// `out` must have counted fewer than 2^64 - 1 failures, so that one more can be counted.
pub fn put_event<W: CountedWrite>(
    page: &mut Page,
    out: &mut W,
    digits: &mut WrittenNumber,
    event: Event,
) -> Result<(), WriteFault>
    requires { W.failed out.old < 2 ^ 64 - 1 }
    ensures held { OnOk result (SentOrHeld (W.contents out.old) (W.contents out.new) page.new
        (page.old ++ (event_line event ++ (10 ∷ [])))) }
    ensures kept { OnOk result (W.failed out.new ≡ W.failed out.old) }
    ensures prefix { OnErr result (ReceivedPrefix (W.contents out.old) (W.contents out.new)
        (page.old ++ (event_line event ++ (10 ∷ [])))) }
    ensures counted { OnErr result (W.failed out.new ≡ W.failed out.old + 1) }
    ensures fits { event.block < 2 ^ 32 }
{
    digits.set(event.block as u128);
    page.put(out, kind_word(event.kind))?;
    page.put(out, b" ")?;
    page.put(out, digits.as_bytes())?;
    page.put(out, b"\n")
}
