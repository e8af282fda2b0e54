//! Solves a mine of blocks that rest on one another by their places, or of their nodes in periods, without a list of
//! the pairs: what a search finds is spelled as a certificate, and only a text that the check of `check` accepts is an
//! answer.

ghost use Rattle.std.specs.Prelude.{◌≡◌, ◌+◌, ◌-◌, ◌^◌, ◌<◌, ◌≤◌, ◌↔◌, All, IsTrue, IsErrOf, length, map, IfSome};
ghost use Rattle.fixed_worth.specs.declared.limits.TheConstants.{MOST_BLOCKS};
ghost use Rattle.closure_net.specs.Network.{FlowFits, net_view};
ghost use Rattle.certificate_file.specs.ReadBack.{IsPrice, IsCertReadBack};
ghost use Rattle.solve_engines.specs.Small.{IsSmallFlow};
ghost use Rattle.solve_engines.specs.Placed.{IsAcceptedText, IsPlacedCertificate, SendsText, held_net};

use crate::outcome::Outcome;
use crate::small_amounts::is_small_flow;
use check_engines::Verdict;
use check_engines::certificate_judge::{header_for, size_and_worth};
use check_engines::stored_run::StoredText;
use check_pit::{
    CertStream, Certificate, Header, HeldGraph, Price, Room, StreamBytes, check_held,
    write_certificate,
};
use closure_net::{Net, Pit};
use counted_devices::{Counted, CountedWrite, write_text};
use engine_faults::EngineFault;
use grid_flow::grow_by_places;
use held_pairs::HeldPairs;
use option_words::Effort;
use ordered_group::{Group, OrderedGroup};
use places::{HeldRef, Precedence};
use prec_file::{ListedPairs, MOST_PAIRS, Rests};
use pseudoflow::{Branch, Grown, Progress, flow_of_forest, pairs_of};
use std::alloc::Global;

/// A certificate that a check has accepted.
#[derive(Drop)]
pub struct PlacedCertificate {
    /// Its text.
    pub text: Vec<u8>,
    /// The number of the pit's blocks.
    pub count: u32,
    /// What they are worth, in billionths.
    pub worth: i128,
}

// A net with the pairs alone over which something flows, and a certificate for it that nobody has judged.
#[derive(Drop)]
struct Draft<G: OrderedGroup> {
    net: Net<G>,
    certificate: Certificate<G>,
}

/// The blocks of a pit, of which each of n blocks says whether it is in it: none where memory is refused.
pub fn pit_by(alloc: Global, flags: &[bool], n: u32) -> Option<Pit>
    ensures { IfSome result (λ pit. All (λ b. b < n) pit) }
{
    let mut blocks: Vec<u32> = Vec::new(alloc);
    for b in 0..n {
        if let Some(true) = flags.get(b as usize) {
            blocks.push(b).ok()?;
        }
    }
    Pit::new(blocks)
}

/// The pairs over which something flows in a forest, of n blocks: none where memory is refused, or there are too many.
pub fn few_rests(alloc: Global, branches: &[Branch], n: u32) -> Option<Rests>
    requires { n ≤ MOST_BLOCKS }
    ensures { IfSome result (λ r. r.blocks ≡ n) }
{
    let pairs = pairs_of(alloc, branches, n).ok()?;
    if pairs.len() > MOST_PAIRS as usize {
        return None;
    }
    ListedPairs::of(n, pairs).into_rests(alloc).ok()
}

// What a search over whatever tells who precedes whom finds. It may divide what blocks are worth by what is common to
// it; the net has their worths as they are.
fn draft_of<G: OrderedGroup, H: Precedence, P: Progress>(
    alloc: Global,
    held: &H,
    nanos: &[i128],
    price: Price,
    turns: u64,
    progress: &P,
) -> Option<Draft<G>>
    requires few { length nanos.now ≤ MOST_BLOCKS }
    ensures worths { IfSome result (λ d. d.net.worths
        ≡ map (λ v. G.block_parts v (length nanos.now)) nanos.now) }
    ensures flow { IfSome result (λ d. FlowFits d.net d.certificate.flow) }
    ensures blocks { IfSome result (λ d. d.certificate.blocks ≡ length d.net.worths) }
    ensures price { IfSome result (λ d. d.certificate.price ≡ price) }
    ensures pit { IfSome result (λ d. All (λ b. b < length d.net.worths) d.certificate.pit) }
{
    let n = nanos.len() as u32;
    let Grown { branches, pit } = grow_by_places(alloc, held, nanos, turns, progress).ok()?;
    let rests = few_rests(alloc, &branches, n)?;
    let net = Net::<G>::of_worths(alloc, rests, nanos).ok()?;
    let flow = flow_of_forest(alloc, &net, &branches).ok()?;
    drop(branches);
    let blocks = net.len();
    let pit = pit_by(alloc, &pit, blocks)?;
    Some(Draft {
        net,
        certificate: Certificate {
            blocks,
            price,
            pit,
            flow,
        },
    })
}

// What a search over places or nodes in periods finds: none where a list holds the pairs.
fn draft_by<G: OrderedGroup, P: Progress>(
    alloc: Global,
    held: HeldRef<'_>,
    nanos: &[i128],
    price: Price,
    turns: u64,
    progress: &P,
) -> Option<Draft<G>>
    requires few { length nanos.now ≤ MOST_BLOCKS }
    ensures worths { IfSome result (λ d. d.net.worths
        ≡ map (λ v. G.block_parts v (length nanos.now)) nanos.now) }
    ensures flow { IfSome result (λ d. FlowFits d.net d.certificate.flow) }
    ensures blocks { IfSome result (λ d. d.certificate.blocks ≡ length d.net.worths) }
    ensures price { IfSome result (λ d. d.certificate.price ≡ price) }
    ensures pit { IfSome result (λ d. All (λ b. b < length d.net.worths) d.certificate.pit) }
{
    match held {
        HeldRef::Listed(_) => None,
        HeldRef::Placed(grid) => draft_of(alloc, grid, nanos, price, turns, progress),
        HeldRef::Timed(nodes) => draft_of(alloc, nodes, nanos, price, turns, progress),
    }
}

// The text of a certificate, where its amounts are small.
fn spelled<G: OrderedGroup>(alloc: Global, draft: &Draft<G>) -> Option<Vec<u8>>
    requires price { IsPrice draft.now.certificate.price }
    requires flow { FlowFits draft.now.net draft.now.certificate.flow }
    requires blocks { draft.now.certificate.blocks ≡ length draft.now.net.worths }
    requires pit { All (λ b. b < length draft.now.net.worths) draft.now.certificate.pit }
    ensures text { IfSome result (λ text. IsCertReadBack G.counts G.name
        (length draft.now.net.worths) draft.now.net.pairs text.items
        draft.now.certificate.price draft.now.certificate.pit draft.now.certificate.flow) }
    ensures small { IfSome result
        (λ _. IsSmallFlow draft.now.net draft.now.certificate.flow) }
{
    if !is_small_flow(&draft.net, &draft.certificate.flow) {
        return None;
    }
    let mut out = Counted::new(Vec::<u8>::new(alloc));
    match write_certificate(&draft.certificate, draft.net.rests(), &mut out) {
        Ok(()) => Some(out.into_inner()),
        Err(_) => None,
    }
}

// Whether a header says this price and this group.
fn is_expected(header: Header, price: Price, group: Group) -> bool
    ensures { IsTrue result → (header.price ≡ price) × (header.group ≡ group) }
{
    header.price == price && header.group == group
}

// The number of the blocks of the pit of a certificate and their worth, where a check accepts its text for what the
// blocks of a net are worth and for pairs that are held apart from it.
fn accepted_text<G: OrderedGroup>(
    alloc: Global,
    net: &Net<G>,
    pairs: &HeldPairs,
    price: Price,
    text: &[u8],
) -> Option<(u32, i128)>
    requires { pairs.now.blocks ≡ length net.now.worths }
    ensures { IfSome result (λ _. IsAcceptedText G.counts G.name price
        (net_view pairs.now.pairs net.now.worths) text.now) }
{
    let device = StoredText { left: text };
    let Ok(held) = StreamBytes::new(alloc) else {
        return None;
    };
    let mut stream = CertStream::over(held, device);
    let Ok(header) = header_for(&mut stream, net.len()) else {
        return None;
    };
    if !is_expected(header, price, G::group()) {
        return None;
    }
    let graph = HeldGraph::with_pairs(net.graph(), pairs);
    // proof: what is known of every net, that its pairs are of its blocks and in order
    let _worths = graph.worths();
    let mut room = Room::of_blocks(alloc, graph.len()).ok()?;
    match check_held(&mut stream, graph, &mut room) {
        Ok(accepted) => Some(size_and_worth(&accepted)),
        Err(_) => None,
    }
}

// The certificate of blocks whose pairs places hold, or of their nodes in periods: none where a list holds the pairs,
// where the search gives up, or where the check doesn't accept what it found.
fn placed_certificate<G: OrderedGroup, P: Progress>(
    alloc: Global,
    pairs: &HeldPairs,
    nanos: &[i128],
    price: Price,
    turns: u64,
    progress: &P,
) -> Option<PlacedCertificate>
    requires { IsPrice price }
    ensures certificate { IfSome result (λ found. IsPlacedCertificate G.counts G.name price
        (held_net G.block_parts pairs.now nanos.now) found.text.items) }
    ensures size { IfSome result (λ _. pairs.now.blocks ≡ length nanos.now) }
{
    // proof: there are few blocks
    let blocks = pairs.len();
    if nanos.len() != blocks as usize {
        return None;
    }
    let draft = draft_by::<G, P>(alloc, pairs.as_ref(), nanos, price, turns, progress)?;
    let text = spelled(alloc, &draft)?;
    let Draft { net, certificate } = draft;
    drop(certificate);
    let (count, worth) = accepted_text(alloc, &net, pairs, price, &text)?;
    Some(PlacedCertificate { text, count, worth })
}

/// The certificate of blocks that are worth so many billionths, which is found without a list of their pairs: where
/// pseudoflow is asked first, places or nodes in periods hold the pairs, a search ends within the effort's turns, and
/// the check of `check` accepts over all pairs the very text that it gives.
pub fn first_by_places<G: OrderedGroup, P: Progress>(
    alloc: Global,
    pairs: &HeldPairs,
    nanos: &[i128],
    price: Price,
    effort: Effort,
    progress: &P,
) -> Option<PlacedCertificate>
    requires { IsPrice price }
    ensures certificate { IfSome result (λ found. IsPlacedCertificate G.counts G.name price
        (held_net G.block_parts pairs.now nanos.now) found.text.items) }
    ensures size { IfSome result (λ _. pairs.now.blocks ≡ length nanos.now) }
{
    if !effort.method.begins_with_pseudoflow(pairs.len()) {
        return None;
    }
    placed_certificate::<G, P>(alloc, pairs, nanos, price, effort.turns, progress)
}

/// Writes a certificate that a check has accepted, of so many blocks. Whoever waits is told of its pit then.
///
/// # Errors
/// `Device` where a write fails; the writer then has a prefix.
pub fn write_placed<T: Outcome, W: CountedWrite>(
    found: PlacedCertificate,
    blocks: u32,
    watch: &T,
    out: &mut W,
) -> Result<Verdict, EngineFault>
    requires { W.failed out.old < 2 ^ 64 - 1 }
    ensures sent { SendsText found.text.items (W.contents out.old) (W.contents out.new) result }
    ensures device { IsErrOf result EngineFault.Device ↔ (W.failed out.new ≡ W.failed out.old + 1) }
    ensures kept { ¬ IsErrOf result EngineFault.Device → W.failed out.new ≡ W.failed out.old }
{
    write_text(out, &found.text)?;
    watch.proved(found.count, blocks, found.worth);
    Ok(Verdict::Done)
}
