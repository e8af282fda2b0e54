//! What a check asks of a mine: what each block is worth, and which blocks it rests on, by a list or by places.

ghost use Rattle.std.specs.Prelude.{◌≡◌, ◌<◌, ◌≤◌, length, map, MatchResult, IfOk};
ghost use Rattle.fixed_worth.specs.declared.limits.TheConstants.{MOST_BLOCKS};
ghost use Rattle.ordered_group.specs.Amount.{positive, negative};
ghost use Rattle.ordered_group.specs.Sums.{amount_at};
ghost use Rattle.places.specs.Holders.{pairs_lent};
ghost use Rattle.closure_net.specs.Network.{net_view, IsNet};
ghost use Rattle.closure_net.specs.Faults.{WorthsFaultStands};

use closure_net::{Graph, GraphRef, Net, NetFault};
use held_pairs::HeldPairs;
use ordered_group::OrderedGroup;
use places::HeldRef;
use prec_file::{ListedPairs, Predecessors};
use std::alloc::{AllocError, Global};
use std::marker::Model;

/// A graph that is another's, with pairs that it lists itself or that are held apart from it: the net in which a check
/// looks for the pit to be closed.
///
/// A [`closure_net::GraphRef`] lists its pairs. Where places say who rests on whom, a graph without pairs has what
/// blocks are worth, and the pairs are held beside it.
#[derive(Drop)]
pub struct HeldGraph<'a, G: OrderedGroup> {
    // what each block is worth
    graph: GraphRef<'a, G>,
    // the pairs
    held: HeldRef<'a>,
}

impl<'a, G: OrderedGroup> Model for HeldGraph<'a, G> {
    ghost use Rattle.places.specs.Holders.{pairs_lent};
    ghost use Rattle.closure_net.specs.Network.{NetView, net_view, IsNetParts};

    ghost Value = { NetView };

    ghost view = { λ g. net_view (pairs_lent g.held).pairs g.graph.worths };

    ghost invariant = { λ g. IsNetParts (pairs_lent g.held) g.graph.worths };
}

// No pairs of so many blocks.
fn no_pairs(alloc: Global, blocks: u32) -> Result<Predecessors, AllocError>
    requires { blocks ≤ MOST_BLOCKS }
    ensures { IfOk result (λ r. r.blocks ≡ blocks) }
{
    let none: Vec<(u32, u32)> = Vec::new(alloc);
    ListedPairs::of(blocks, none).into_predecessors(alloc)
}

/// What these blocks are worth, as a graph without pairs: [`HeldGraph::with_pairs`] takes the pairs beside it.
///
/// # Errors
/// Those of [`closure_net::Graph::of_worths`].
pub fn graph_of_worths<G: OrderedGroup>(
    alloc: Global,
    pairs: &HeldPairs,
    nanos: &[i128],
) -> Result<Graph<G>, NetFault>
    ensures { MatchResult result
        (λ g. (g.worths ≡ map (λ v. G.block_parts v pairs.now.blocks) nanos.now)
        × (pairs.now.blocks ≡ length nanos.now))
        (λ e. WorthsFaultStands G.block_parts pairs.now.blocks nanos.now e) }
{
    // proof: there are few blocks
    let blocks = pairs.len();
    if blocks as usize != nanos.len() {
        return Err(NetFault::WrongLength);
    }
    let Ok(none) = no_pairs(alloc, blocks) else {
        return Err(NetFault::NoMemory);
    };
    match Graph::<G>::of_worths(alloc, none, nanos) {
        Ok(graph) => Ok(graph),
        Err(fault) => Err(fault),
    }
}

impl<'a, G: OrderedGroup> HeldGraph<'a, G> {
    /// A graph with the pairs that it lists.
    pub fn listed(graph: GraphRef<'a, G>) -> HeldGraph<'a, G>
        ensures { result ≡ graph.entry }
    {
        // proof: what is known of every net
        let _worths = graph.worths();
        let pairs = graph.predecessors();
        HeldGraph {
            graph,
            held: HeldRef::Listed(pairs),
        }
    }

    // The graph of a net.
    pub(crate) fn of_net(net: &'a Net<G>) -> HeldGraph<'a, G>
        ensures { result ≡ net.now }
    {
        HeldGraph::listed(net.graph())
    }

    /// What blocks are worth by a graph, with other pairs than it lists.
    pub fn with_pairs(graph: GraphRef<'a, G>, pairs: &'a HeldPairs) -> HeldGraph<'a, G>
        requires { pairs.now.blocks ≡ length graph.worths }
        ensures { result ≡ net_view pairs.now.pairs graph.entry.worths }
    {
        // proof: what is known of every net, and of all pairs
        let _worths = graph.worths();
        let _blocks = pairs.len();
        HeldGraph {
            graph,
            held: pairs.as_ref(),
        }
    }

    /// How many blocks there are.
    pub fn len(&self) -> u32
        ensures { result ≡ length self.now.worths }
    {
        self.graph.len()
    }

    /// What block b is worth.
    pub fn worth(&self, b: u32) -> G
        requires { b < length self.now.worths }
        ensures { G.parts_of result ≡ amount_at self.now.worths b }
    {
        self.graph.worth(b)
    }

    /// What block b is worth where that is positive, and else zero: what the source may give it.
    pub fn positive(&self, b: u32) -> G
        requires { b < length self.now.worths }
        ensures { G.parts_of result ≡ positive (amount_at self.now.worths b) }
    {
        self.graph.positive(b)
    }

    /// The opposite of what block b is worth where that is positive, and else zero: what it may give the sink.
    pub fn negative(&self, b: u32) -> G
        requires { b < length self.now.worths }
        ensures { G.parts_of result ≡ negative (amount_at self.now.worths b) }
    {
        self.graph.negative(b)
    }

    // Who rests on whom.
    pub(crate) fn held(&self) -> HeldRef<'a>
        ensures blocks { (pairs_lent result).blocks ≡ length self.now.worths }
        ensures pairs { (pairs_lent result).pairs ≡ self.now.pairs }
    {
        self.held
    }

    /// What each block is worth.
    pub fn worths(&self) -> &'a [G]
        ensures is { map G.parts_of result.now ≡ self.now.worths }
        ensures net { IsNet self.now }
    {
        self.graph.worths()
    }
}
