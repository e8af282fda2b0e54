//! Decides whether a flow proves that a pit is a maximum closure of a net: gives the accepted pit with its worth, or
//! the first fault.

ghost use Rattle.std.specs.Prelude.{◌≡◌, ◌↔◌, ◌<◌, IsTrue, length, All, MatchOption, MatchResult};
ghost use Rattle.std.specs.Result.{IsOk};
ghost use Rattle.ordered_group.specs.Amount.{zero_amount, minus, FitsPair};
ghost use Rattle.prec_file.specs.Rests.{IsFirstNot};
ghost use Rattle.closure_net.specs.Network.{FlowFits, holds_of};
ghost use Rattle.closure_net.specs.Closure.{IsClosed};
ghost use Rattle.closure_net.specs.Flows.{NoneNegative, Within};
ghost use Rattle.check_pit.specs.Fits.{SumsFit};
ghost use Rattle.check_pit.specs.Checks.{ProvesPit, Sizes, IsSound, NoneBelowZero, KeepsWithin, AllWithin, AllBalanced, PitFaultStands};
ghost use Rattle.check_pit.specs.Balances.{BalanceFault};
ghost use Rattle.check_pit.specs.Closing.{IsFirstOpen};

use crate::accepted::Accepted;
use crate::accepted_pit::AcceptedPit;
use crate::closing::first_open;
use crate::held_graph::HeldGraph;
use crate::marks::{first_open as marked_open, mark};
use crate::pit_fault::PitFault;
use crate::sums::{balance_of, pit_worth, residual_of_source};
use closure_net::{Carried, Flow, Net, Pit};
use ordered_group::{OrderedGroup, at_most, is_zero, negative_part, positive_part, same};
use std::alloc::Global;

// Whether all blocks are blocks of a net of n.
fn all_below(blocks: &[u32], n: u32) -> bool
    ensures { IsTrue result ↔ All (λ b. b < n) blocks.now }
{
    blocks.iter().all(|b| *b < n)
}

// Whether the flow has the net's lengths and the pit the net's blocks.
fn sizes_agree<G: OrderedGroup>(net: &Net<G>, pit: &Pit, flow: &Flow<G>) -> bool
    ensures { IsTrue result ↔ Sizes net.now flow.now pit.now }
{
    flow.fits(net) && all_below(pit.blocks(), net.rests().len())
}

// Whether none of so many arcs carries less than nothing.
fn none_negative<G: OrderedGroup>(arcs: u32, carried: &Carried<G>) -> bool
    requires { length carried.now ≡ arcs }
    ensures { IsTrue result ↔ NoneNegative carried.now }
{
    for k in 0..arcs {
        if !at_most(G::zero(), carried.at(k)) {
            return false;
        }
    }
    true
}

// Whether no amount of the flow is negative.
fn none_below_zero<G: OrderedGroup>(net: &Net<G>, flow: &Flow<G>) -> bool
    requires { FlowFits net.now flow.now }
    ensures { IsTrue result ↔ NoneBelowZero flow.now }
{
    let blocks = net.len();
    none_negative(blocks, flow.source())
        && none_negative(net.rests().pairs(), flow.rest())
        && none_negative(blocks, flow.sink())
}

// Whether a block with these amounts keeps to its worth.
fn is_within<G: OrderedGroup>(worth: G, source: G, sink: G) -> bool
    requires { FitsPair (minus zero_amount (G.parts_of worth)) }
    ensures { IsTrue result ↔ Within (G.parts_of worth) (G.parts_of source) (G.parts_of sink) }
{
    match negative_part(worth) {
        Some(negative) => at_most(source, positive_part(worth)) && at_most(sink, negative),
        None => unreachable!(),
    }
}

// Whether block b keeps to its worth. Most blocks of a mine get nothing and give nothing, and so do.
fn keeps_within<G: OrderedGroup>(net: &Net<G>, flow: &Flow<G>, b: u32) -> bool
    requires fits { FlowFits net.now flow.now }
    requires known { b < length net.now.worths }
    ensures { IsTrue result ↔ KeepsWithin net.now flow.now b }
{
    // proof: the opposite of each worth fits
    let _worths = net.worths();
    if is_zero(flow.source().at(b)) && is_zero(flow.sink().at(b)) {
        return true;
    }
    is_within(net.worth(b), flow.source().at(b), flow.sink().at(b))
}

// The first block that doesn't keep to its worth.
fn first_over<G: OrderedGroup>(net: &Net<G>, flow: &Flow<G>) -> Option<u32>
    requires { FlowFits net.now flow.now }
    ensures { MatchOption result
        (AllWithin net.now flow.now)
        (λ b. IsFirstNot (KeepsWithin net.now flow.now) (length net.now.worths) b) }
{
    for b in 0..net.len() {
        if !keeps_within(net, flow, b) {
            return Some(b);
        }
    }
    None
}

// Whether each balance stands, or the first that doesn't.
fn balances<G: OrderedGroup>(net: &Net<G>, flow: &Flow<G>) -> Result<(), PitFault>
    requires { FlowFits net.now flow.now }
    ensures { MatchResult result
        (λ _. AllBalanced net.now flow.now)
        (λ e. BalanceFault net.now flow.now e) }
{
    let rests = net.rests();
    let source = flow.source();
    let carried = flow.rest();
    let sink = flow.sink();
    for b in 0..rests.len() {
        let balanced = balance_of(rests, source.at(b), carried, sink.at(b), b);
        if !balanced.ok_or(PitFault::TooLarge)? {
            return Err(PitFault::Unbalanced(b));
        }
    }
    Ok(())
}

// The first pair whose block is in the pit while its predecessor isn't. Given memory, the blocks of the pit are marked,
// so that none is searched for.
fn first_open_by<G: OrderedGroup>(
    alloc: Option<Global>,
    net: &Net<G>,
    pit: &Pit,
) -> Option<(u32, u32)>
    ensures { MatchOption result
        (IsClosed net.now.pairs (holds_of pit.now))
        (λ pair. IsFirstOpen net.now.pairs (holds_of pit.now) pair) }
{
    if let Some(alloc) = alloc {
        if let Ok(mut marks) = vec![in alloc; false; net.len() as usize] {
            // proof: the pairs of a net are of its blocks
            let _worths = net.worths();
            mark(&mut marks, pit.blocks());
            return marked_open(HeldGraph::of_net(net).held(), &marks);
        }
    }
    first_open(net, pit)
}

/// Whether the pit is a greatest closed set of the net, by a flow that shows it: the pit is closed,
/// the flow is one, and the pit sums to what the source could still give. Then no closed set sums to
/// more, since by any flow a closed set sums to at most what the source could still give (Picard,
/// Maximal closure of a graph, 1976).
///
/// Takes no memory. Its time is linear in the numbers of blocks and pairs, but for the search of
/// blocks in the pit.
///
/// # Errors
/// The first fault in this order: `WrongSize`; `NotClosed` with the first such pair; `Negative`;
/// `OverCapacity` with the first such block; then for each block in turn `TooLarge` where a sum of
/// its balance doesn't fit, and `Unbalanced` where the balance doesn't hold; `TooLarge` where the
/// pit's worth or what the source could still give doesn't fit; and at last `NotTight`.
pub fn check<'a, G: OrderedGroup>(
    net: &'a Net<G>,
    pit: &'a Pit,
    flow: &Flow<G>,
) -> Result<Accepted<'a, G>, PitFault>
    ensures found { MatchResult result
        (λ a. (a.net ≡ net.now) × (a.pit ≡ pit.now) × IsSound net.now flow.now pit.now)
        (λ e. PitFaultStands net.now flow.now pit.now e) }
    ensures complete { ProvesPit net.now flow.now pit.now
        → SumsFit net.now flow.now pit.now → IsOk result }
{
    checked(None, net, pit, flow)
}

/// Decides what [`check`] decides, in less time: the blocks of the pit are marked, so that none is searched for among
/// them, in memory for a mark of each block. Where that is refused, it takes the time of `check`.
///
/// # Errors
/// Those of [`check`].
pub fn check_in_memory<'a, G: OrderedGroup>(
    alloc: Global,
    net: &'a Net<G>,
    pit: &'a Pit,
    flow: &Flow<G>,
) -> Result<Accepted<'a, G>, PitFault>
    ensures found { MatchResult result
        (λ a. (a.net ≡ net.now) × (a.pit ≡ pit.now) × IsSound net.now flow.now pit.now)
        (λ e. PitFaultStands net.now flow.now pit.now e) }
    ensures complete { ProvesPit net.now flow.now pit.now
        → SumsFit net.now flow.now pit.now → IsOk result }
{
    checked(Some(alloc), net, pit, flow)
}

// The check, with memory for marks or without.
fn checked<'a, G: OrderedGroup>(
    alloc: Option<Global>,
    net: &'a Net<G>,
    pit: &'a Pit,
    flow: &Flow<G>,
) -> Result<Accepted<'a, G>, PitFault>
    ensures found { MatchResult result
        (λ a. (a.net ≡ net.now) × (a.pit ≡ pit.now) × IsSound net.now flow.now pit.now)
        (λ e. PitFaultStands net.now flow.now pit.now e) }
    ensures complete { ProvesPit net.now flow.now pit.now
        → SumsFit net.now flow.now pit.now → IsOk result }
{
    if !sizes_agree(net, pit, flow) {
        return Err(PitFault::WrongSize);
    }
    if let Some((b, p)) = first_open_by(alloc, net, pit) {
        return Err(PitFault::NotClosed(b, p));
    }
    if !none_below_zero(net, flow) {
        return Err(PitFault::Negative);
    }
    if let Some(b) = first_over(net, flow) {
        return Err(PitFault::OverCapacity(b));
    }
    balances(net, flow)?;
    let worth = pit_worth(net, pit).ok_or(PitFault::TooLarge)?;
    let room = residual_of_source(net, flow).ok_or(PitFault::TooLarge)?;
    if !same(worth, room) {
        return Err(PitFault::NotTight);
    }
    let on_graph = AcceptedPit::new(HeldGraph::of_net(net), pit, worth);
    Ok(Accepted::new(net, on_graph))
}
