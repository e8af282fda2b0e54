//! The pit of a flow: all blocks that the source reaches in the residual network. Of a maximum flow it is the least
//! maximum closure.

ghost use Rattle.std.specs.Prelude.{◌≡◌, ◌↔◌, ◌<◌, All, IsTrue, length, IfOk};
ghost use Rattle.prec_file.specs.Rests.{above_of, below_of};
ghost use Rattle.closure_net.specs.Network.{FlowFits, holds_of};
ghost use Rattle.closure_net.specs.Reached.{IsReached, HasSourceResidual, Carries};
ghost use Rattle.closure_net.specs.Searches.{PassedPlaces, Always, above_at, sender_at, SendsAt};

use crate::flow::Flow;
use crate::net::Net;
use crate::pit::Pit;
use crate::search::Search;
use ordered_group::{OrderedGroup, at_most};
use prec_file::Rests;
use std::alloc::{AllocError, Global};

// Whether the source could still give b something.
fn has_room<G: OrderedGroup>(net: &Net<G>, flow: &Flow<G>, b: u32) -> bool
    requires known { b < length net.now.worths }
    requires fits { length flow.now.source ≡ length net.now.worths }
    ensures { IsTrue result ↔ HasSourceResidual net.now.worths flow.now.source b }
{
    !at_most(net.positive(b), flow.source().at(b))
}

// Whether the pair k carries something.
fn carries<G: OrderedGroup>(flow: &Flow<G>, k: u32) -> bool
    requires known { k < length flow.now.rest }
    ensures { IsTrue result ↔ Carries flow.now.rest k }
{
    flow.rest().at(k).is_positive()
}

// Finds each block to which the source could still give something.
fn begin<G: OrderedGroup>(search: &mut Search, net: &Net<G>, flow: &Flow<G>)
    requires blocks { search.old.blocks ≡ length net.now.worths }
    requires fits { length flow.now.source ≡ length net.now.worths }
    ensures blocks { search.new.blocks ≡ search.old.blocks }
    ensures found { PassedPlaces (HasSourceResidual net.now.worths flow.now.source)
        (λ b. b) search.old.found search.new.found (length net.now.worths) }
{
    for b in 0..net.len() {
        if has_room(net, flow, b) {
            search.add(b);
        }
    }
}

// Finds the blocks that b rests on.
fn spread_down(search: &mut Search, rests: &Rests, b: u32)
    requires blocks { search.old.blocks ≡ rests.now.blocks }
    requires known { b < rests.now.blocks }
    ensures blocks { search.new.blocks ≡ search.old.blocks }
    ensures found { PassedPlaces Always
        (above_at rests.now.pairs b) search.old.found search.new.found
        (length (above_of rests.now.pairs b)) }
{
    // proof: the pairs are of the blocks of `rests`
    let _blocks = rests.len();
    for p in rests.above(b) {
        search.add(*p);
    }
}

// Finds the blocks that send something to b.
fn spread_up<G: OrderedGroup>(search: &mut Search, rests: &Rests, flow: &Flow<G>, b: u32)
    requires blocks { search.old.blocks ≡ rests.now.blocks }
    requires known { b < rests.now.blocks }
    requires fits { length flow.now.rest ≡ length rests.now.pairs }
    ensures blocks { search.new.blocks ≡ search.old.blocks }
    ensures found { PassedPlaces (SendsAt rests.now.pairs flow.now.rest b)
        (sender_at rests.now.pairs b) search.old.found search.new.found
        (length (below_of rests.now.pairs b)) }
{
    // proof: the pairs are of the blocks of `rests`
    let _blocks = rests.len();
    for k in rests.below(b) {
        if carries(flow, *k) {
            let (sender, _) = rests.pair(*k);
            search.add(sender);
        }
    }
}

/// The blocks that the source reaches in what is left of the network by a flow: the least set that
/// holds each block to which the source could still give something, and with a block each one that
/// it rests on and each one that sends something to it. Where the flow is a greatest one, this is
/// the least of the greatest closed sets (Picard, 1976). The flow has the lengths of the net.
///
/// Breadth first, in time and memory linear in the blocks and pairs.
///
/// # Errors
/// `AllocError` where memory for a mark or a number of each block was refused.
pub fn pit_of<G: OrderedGroup>(
    alloc: Global,
    net: &Net<G>,
    flow: &Flow<G>,
) -> Result<Pit, AllocError>
    requires { FlowFits net.now flow.now }
    ensures reached { IfOk result (λ pit. IsReached net.now flow.now (holds_of pit)) }
    ensures known { IfOk result (λ pit. All (λ b. b < length net.now.worths) pit) }
{
    let rests = net.rests();
    let mut search = Search::new(alloc, rests.len())?;
    begin(&mut search, net, flow);
    let mut head = 0;
    while head < search.len() {
        let b = search.at(head);
        spread_down(&mut search, rests, b);
        spread_up(&mut search, rests, flow, b);
        head += 1;
    }
    let blocks = search.ascending(alloc)?;
    Ok(Pit::from_ascending(blocks))
}
