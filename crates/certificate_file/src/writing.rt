//! Writes a pit and its flow as the text of a certificate, line by line, or stops at the first write that fails. It
//! takes no memory.

ghost use Rattle.std.specs.Prelude.{◌≡◌, ℕ, ◌+◌, ◌-◌, ◌^◌, ◌<◌, ◌≤◌, All, [], ◌∷◌, ◌++◌, length, map, OnOk, OnErr};
ghost use Rattle.std.specs.Fmt.{signed_decimal};
ghost use Rattle.std.specs.Io.KnownBytes.{Appends};
ghost use Rattle.counted_devices.specs.Device.{ReceivedPrefix, SentOrHeld};
ghost use Rattle.ordered_group.specs.Group.{group_name};
ghost use Rattle.ordered_group.specs.Sums.{amount_at};
ghost use Rattle.certificate_file.specs.Written as spec;
ghost use Rattle.certificate_file.specs.Written.{spaced_words, line_words, lines_text, header_words, body_text, end_text, amount_lines, line_at, pit_at, flow_lines, value_lines, certificate_bytes};
ghost use Rattle.certificate_file.specs.Certificate.{Covers};
ghost use Rattle.certificate_file.specs.ReadBack.{Writable, AreWritable, IsPrice, IsCertReadBack};

use crate::body_lines::{BodyLine, LineKind};
use crate::certificate::Certificate;
use crate::header::{Header, Price};
use closure_net::{Carried, Flow, Pit};
use counted_devices::{CountedWrite, Page, ShortLine, WriteFault};
use ordered_group::{Group, OrderedGroup, is_zero};
use prec_file::Rests;

// Adds a number with its sign.
fn push_signed(text: &mut ShortLine, number: i128)
    requires { length text.old + 40 ≤ 192 }
    ensures text { text.new ≡ text.old ++ signed_decimal number }
    ensures length { length text.new ≤ length text.old + 40 }
{
    if number < 0 {
        text.push(b"-");
    }
    text.push_number(number.unsigned_abs());
}

// Adds a space, a number, a space and a number.
fn push_amount(text: &mut ShortLine, line: &BodyLine)
    requires { length text.old + 82 ≤ 192 }
    ensures text { text.new ≡ text.old
        ++ (32 ∷ (signed_decimal line.now.worth ++ (32 ∷ signed_decimal line.now.count))) }
    ensures length { length text.new ≤ length text.old + 82 }
{
    text.push(b" ");
    push_signed(text, line.worth);
    text.push(b" ");
    push_signed(text, line.count);
}

// The line with a line feed.
fn written(line: &BodyLine) -> ShortLine
    ensures { result ≡ spaced_words (line_words line.now) ++ (10 ∷ []) }
{
    let mut text = ShortLine::new();
    match line.kind {
        LineKind::Pit => {
            text.push(b"PIT ");
            text.push_number(line.block as u128);
        }
        LineKind::Source => {
            text.push(b"SOURCE ");
            text.push_number(line.block as u128);
            push_amount(&mut text, line);
        }
        LineKind::Rest => {
            text.push(b"REST ");
            text.push_number(line.block as u128);
            text.push(b" ");
            text.push_number(line.other as u128);
            push_amount(&mut text, line);
        }
        LineKind::Sink => {
            text.push(b"SINK ");
            text.push_number(line.block as u128);
            push_amount(&mut text, line);
        }
        LineKind::End => text.push(b"END"),
    }
    text.push(b"\n");
    text
}

// The number of the version of a text with this price.
fn version_word(price: Price) -> &'static [u8]
    ensures word { result.now ≡ spec.version_word (spec.version_for price) }
    ensures length { length result.now ≡ 1 }
{
    match price {
        Price::Objective | Price::Factor(_) => b"1",
        Price::Mill(_) => b"2",
    }
}

// Adds the line of a price, without its line feed.
fn push_price(text: &mut ShortLine, price: Price)
    requires { length text.old + 50 ≤ 192 }
    ensures text { text.new ≡ text.old ++ spaced_words (spec.price_words price) }
    ensures length { length text.new ≤ length text.old + 50 }
{
    match price {
        Price::Objective => text.push(b"PRICE OBJECTIVE"),
        Price::Factor(factor) => {
            text.push(b"PRICE ");
            text.push_number(factor as u128);
        }
        Price::Mill(factor) => {
            text.push(b"PRICE MILL ");
            text.push_number(factor as u128);
        }
    }
}

fn push_group(text: &mut ShortLine, group: Group)
    requires { length text.old + 7 ≤ 192 }
    ensures text { text.new ≡ text.old ++ (group_name group ++ (10 ∷ [])) }
{
    text.push(group.word().as_bytes());
    text.push(b"\n");
}

// The first four lines.
fn written_header(header: &Header) -> ShortLine
    ensures { result ≡ lines_text (header_words header.now) }
{
    let mut text = ShortLine::new();
    text.push(b"PITCERT ");
    text.push(version_word(header.price));
    text.push(b"\nBLOCKS ");
    text.push_number(header.blocks as u128);
    text.push(b"\n");
    push_price(&mut text, header.price);
    text.push(b"\nGROUP ");
    push_group(&mut text, header.group);
    text
}

// The numbers of an amount fit their type, and its count is zero where the group has none.
fn can_be_written<G: OrderedGroup>(amount: G)
    ensures { Writable G.counts (G.parts_of amount) }
{
    // proof: what `parts` returns fits its type
    let _numbers = amount.parts();
}

// The blocks that the line of a kind names at a place: those of the pair there, or the one of that number.
fn blocks_named(kind: LineKind, rests: &Rests, place: u32) -> (u32, u32)
    requires { kind ≡ LineKind.Rest → place < length rests.now.pairs }
    ensures { result ≡ spec.blocks_named kind rests.now.pairs place }
{
    match kind {
        LineKind::Rest => rests.pair(place),
        _ => (place, 0),
    }
}

// The line of a kind for the amount at a place.
fn amount_line<G: OrderedGroup>(kind: LineKind, rests: &Rests, place: u32, amount: G) -> BodyLine
    requires { kind ≡ LineKind.Rest → place < length rests.now.pairs }
    ensures { result ≡ line_at kind rests.now.pairs place (G.parts_of amount) }
{
    let (block, other) = blocks_named(kind, rests, place);
    let (worth, count) = amount.parts();
    BodyLine {
        kind,
        block,
        other,
        worth,
        count,
    }
}

fn put_line<W: CountedWrite>(
    page: &mut Page,
    out: &mut W,
    line: &BodyLine,
) -> Result<(), WriteFault>
    requires { W.failed out.old < 2 ^ 64 - 1 }
    ensures held { OnOk result (SentOrHeld (W.contents out.old) (W.contents out.new) page.new
        (page.old ++ (spaced_words (line_words line.now) ++ (10 ∷ [])))) }
    ensures kept { OnOk result (W.failed out.new ≡ W.failed out.old) }
    ensures prefix { OnErr result (ReceivedPrefix (W.contents out.old) (W.contents out.new)
        (page.old ++ (spaced_words (line_words line.now) ++ (10 ∷ [])))) }
    ensures counted { OnErr result (W.failed out.new ≡ W.failed out.old + 1) }
{
    let text = written(line);
    page.put(out, text.as_bytes())
}

// The PIT lines.
fn put_pit<W: CountedWrite>(page: &mut Page, out: &mut W, pit: &Pit) -> Result<(), WriteFault>
    requires { W.failed out.old < 2 ^ 64 - 1 }
    ensures held { OnOk result (SentOrHeld (W.contents out.old) (W.contents out.new) page.new
        (page.old ++ body_text (map pit_at pit.now))) }
    ensures kept { OnOk result (W.failed out.new ≡ W.failed out.old) }
    ensures prefix { OnErr result (ReceivedPrefix (W.contents out.old) (W.contents out.new)
        (page.old ++ body_text (map pit_at pit.now))) }
    ensures counted { OnErr result (W.failed out.new ≡ W.failed out.old + 1) }
{
    let blocks = pit.blocks();
    for block in blocks {
        let line = BodyLine {
            kind: LineKind::Pit,
            block: *block,
            other: 0,
            worth: 0,
            count: 0,
        };
        put_line(page, out, &line)?;
    }
    Ok(())
}

// The SOURCE, REST or SINK lines.
fn put_amounts<G: OrderedGroup, W: CountedWrite>(
    page: &mut Page,
    out: &mut W,
    kind: LineKind,
    rests: &Rests,
    amounts: &Carried<G>,
) -> Result<(), WriteFault>
    requires few { length amounts.now < 2 ^ 32 }
    requires fits { kind ≡ LineKind.Rest → length amounts.now ≡ length rests.now.pairs }
    requires room { W.failed out.old < 2 ^ 64 - 1 }
    ensures held { OnOk result (SentOrHeld (W.contents out.old) (W.contents out.new) page.new
        (page.old ++ body_text (amount_lines (line_at kind rests.now.pairs) 0 amounts.now))) }
    ensures writable { OnOk result ((k : ℕ) → k < length amounts.now
        → Writable G.counts (amount_at amounts.now k)) }
    ensures kept { OnOk result (W.failed out.new ≡ W.failed out.old) }
    ensures prefix { OnErr result (ReceivedPrefix (W.contents out.old) (W.contents out.new)
        (page.old ++ body_text (amount_lines (line_at kind rests.now.pairs) 0 amounts.now))) }
    ensures counted { OnErr result (W.failed out.new ≡ W.failed out.old + 1) }
{
    for k in 0..amounts.len() {
        let amount = amounts.at(k as u32);
        // proof: every amount can be written
        can_be_written(amount);
        if !is_zero(amount) {
            put_line(page, out, &amount_line(kind, rests, k as u32, amount))?;
        }
    }
    Ok(())
}

// The SOURCE, REST and SINK lines.
fn put_flow<G: OrderedGroup, W: CountedWrite>(
    page: &mut Page,
    out: &mut W,
    rests: &Rests,
    flow: &Flow<G>,
) -> Result<(), WriteFault>
    requires covers { Covers rests.now.blocks (length rests.now.pairs) flow.now }
    requires room { W.failed out.old < 2 ^ 64 - 1 }
    ensures held { OnOk result (SentOrHeld (W.contents out.old) (W.contents out.new) page.new
        (page.old ++ body_text (flow_lines rests.now.pairs flow.now))) }
    ensures writable { OnOk result (AreWritable G.counts flow.now) }
    ensures kept { OnOk result (W.failed out.new ≡ W.failed out.old) }
    ensures prefix { OnErr result (ReceivedPrefix (W.contents out.old) (W.contents out.new)
        (page.old ++ body_text (flow_lines rests.now.pairs flow.now))) }
    ensures counted { OnErr result (W.failed out.new ≡ W.failed out.old + 1) }
{
    // proof: a `Rests` is in order, with at most `MOST_PAIRS` pairs
    let _n = rests.len();
    put_amounts(page, out, LineKind::Source, rests, flow.source())?;
    put_amounts(page, out, LineKind::Rest, rests, flow.rest())?;
    put_amounts(page, out, LineKind::Sink, rests, flow.sink())
}

// Everything after the header.
fn put_body<G: OrderedGroup, W: CountedWrite>(
    page: &mut Page,
    out: &mut W,
    rests: &Rests,
    certificate: &Certificate<G>,
) -> Result<(), WriteFault>
    requires covers { Covers rests.now.blocks (length rests.now.pairs) certificate.now.flow }
    requires room { W.failed out.old < 2 ^ 64 - 1 }
    ensures held { OnOk result
        (SentOrHeld (W.contents out.old) (W.contents out.new) page.new (page.old ++ (body_text
        (value_lines rests.now.pairs certificate.now.pit certificate.now.flow) ++ end_text))) }
    ensures writable { OnOk result (AreWritable G.counts certificate.now.flow) }
    ensures kept { OnOk result (W.failed out.new ≡ W.failed out.old) }
    ensures prefix { OnErr result
        (ReceivedPrefix (W.contents out.old) (W.contents out.new) (page.old ++ (body_text
        (value_lines rests.now.pairs certificate.now.pit certificate.now.flow) ++ end_text))) }
    ensures counted { OnErr result (W.failed out.new ≡ W.failed out.old + 1) }
{
    put_pit(page, out, &certificate.pit)?;
    put_flow(page, out, rests, &certificate.flow)?;
    page.put(out, b"END\n")
}

/// Writes a certificate. It takes no memory. Where its number of blocks is the model's, its factor is at most 10,000
/// and its pit has blocks of the model alone, [`crate::read_certificate`] reads it back, for the same blocks and pairs.
/// The flow has an amount for each of these blocks and pairs.
///
/// # Errors
/// `Device` at the first write that fails: the writer has then received a prefix of the text.
///
/// `out` must have counted fewer than 2^64 - 1 failures, so that one more can be counted.
pub fn write_certificate<G: OrderedGroup, W: CountedWrite>(
    certificate: &Certificate<G>,
    rests: &Rests,
    out: &mut W,
) -> Result<(), WriteFault>
    requires covers { Covers rests.now.blocks (length rests.now.pairs) certificate.now.flow }
    requires room { W.failed out.old < 2 ^ 64 - 1 }
    ensures sent { OnOk result (let c = certificate.now in
        Appends (W.contents out.old) (W.contents out.new)
        (certificate_bytes G.name rests.now.pairs c.blocks c.price c.pit c.flow)) }
    ensures read_back { OnOk result (let c = certificate.now in let r = rests.now in
        c.blocks ≡ r.blocks → IsPrice c.price → All (λ b. b < r.blocks) c.pit
        → IsCertReadBack G.counts G.name r.blocks r.pairs
        (certificate_bytes G.name r.pairs c.blocks c.price c.pit c.flow) c.price c.pit c.flow) }
    ensures kept { OnOk result (W.failed out.new ≡ W.failed out.old) }
    ensures prefix { OnErr result (let c = certificate.now in
        ReceivedPrefix (W.contents out.old) (W.contents out.new)
        (certificate_bytes G.name rests.now.pairs c.blocks c.price c.pit c.flow)) }
    ensures counted { OnErr result (W.failed out.new ≡ W.failed out.old + 1) }
{
    let header = Header {
        blocks: certificate.blocks,
        price: certificate.price,
        group: G::group(),
    };
    // proof: a `Rests` is in order, and a `Pit` is ascending
    let _blocks = rests.len();
    let _pit = certificate.pit.blocks();
    let mut page = Page::new();
    page.put(out, written_header(&header).as_bytes())?;
    put_body(&mut page, out, rests, certificate)?;
    page.finish(out)
}
