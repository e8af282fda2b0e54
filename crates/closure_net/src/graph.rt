//! The blocks of a mine with their predecessors and their worths as amounts, which is all that a check needs. Worths
//! whose sums don't fit are refused.

ghost use Rattle.std.specs.Prelude.{◌≡◌, ◌<◌, length, map, MatchResult};
ghost use Rattle.ordered_group.specs.Amount.{positive, negative};
ghost use Rattle.ordered_group.specs.Sums.{amount_at};
ghost use Rattle.closure_net.specs.Network.{net_view, IsNet, IsNetParts};
ghost use Rattle.closure_net.specs.Faults.{WorthsFaultStands};

use crate::net::NetFault;
use crate::worths::{opposite_part, worths_of_blocks};
use ordered_group::{OrderedGroup, positive_part};
use prec_file::Predecessors;
use std::alloc::Global;
use std::marker::Model;

/// What each block rests on, and what it is worth: the graph in which a pit is a closure.
///
/// A check of a certificate needs no more. A [`crate::Net`], which a solver works on, has the list of pairs beside it,
/// and for each block the blocks that rest on it.
#[derive(Drop)]
pub struct Graph<G: OrderedGroup> {
    predecessors: Predecessors,
    worths: Vec<G>,
}

impl<G: OrderedGroup> Model for Graph<G> {
    ghost use Rattle.std.specs.Prelude.{map};
    ghost use Rattle.closure_net.specs.Network.{NetView, net_view, IsNetParts};

    ghost Value = { NetView };

    ghost view = { λ g. net_view g.predecessors.pairs (map G.parts_of g.worths.items) };

    ghost invariant = { λ g. IsNetParts g.predecessors (map G.parts_of g.worths.items) };
}

impl<G: OrderedGroup> Graph<G> {
    /// The graph of blocks with these predecessors, with the worth of each in billionths.
    ///
    /// # Errors
    /// Those of [`crate::Net::of_worths`].
    pub fn of_worths(
        alloc: Global,
        predecessors: Predecessors,
        nanos: &[i128],
    ) -> Result<Graph<G>, NetFault>
        ensures { MatchResult result
            (λ g. (g ≡ net_view predecessors.pairs
            (map (λ v. G.block_parts v predecessors.blocks) nanos.now))
            × (predecessors.blocks ≡ length nanos.now))
            (λ e. WorthsFaultStands G.block_parts predecessors.blocks nanos.now e) }
    {
        match worths_of_blocks(alloc, predecessors.len(), nanos) {
            Ok(worths) => Ok(Graph {
                predecessors,
                worths,
            }),
            Err(fault) => Err(fault),
        }
    }

    /// The graph, lent: its predecessors and its worths.
    pub fn as_ref(&self) -> GraphRef<'_, G>
        ensures { result ≡ self.now }
    {
        GraphRef {
            predecessors: &self.predecessors,
            worths: &self.worths,
        }
    }
}

/// A graph that is another's: a [`Graph`] or a [`crate::Net`] lends it.
#[derive(Drop)]
pub struct GraphRef<'a, G: OrderedGroup> {
    predecessors: &'a Predecessors,
    worths: &'a [G],
}

impl<'a, G: OrderedGroup> Model for GraphRef<'a, G> {
    ghost use Rattle.std.specs.Prelude.{map};
    ghost use Rattle.closure_net.specs.Network.{NetView, net_view, IsNetParts};

    ghost Value = { NetView };

    ghost view = { λ g. net_view g.predecessors.now.pairs (map G.parts_of g.worths.now) };

    ghost invariant = { λ g. IsNetParts g.predecessors.now (map G.parts_of g.worths.now) };
}

impl<'a, G: OrderedGroup> GraphRef<'a, G> {
    // What a net lends.
    pub(crate) fn of_parts(predecessors: &'a Predecessors, worths: &'a [G]) -> GraphRef<'a, G>
        requires { IsNetParts predecessors.now (map G.parts_of worths.now) }
        ensures { result ≡ net_view predecessors.now.pairs (map G.parts_of worths.now) }
    {
        GraphRef {
            predecessors,
            worths,
        }
    }

    /// How many blocks there are.
    pub fn len(&self) -> u32
        ensures { result ≡ length self.now.worths }
    {
        self.predecessors.len()
    }

    /// What block b is worth.
    pub fn worth(&self, b: u32) -> G
        requires { b < length self.now.worths }
        ensures { G.parts_of result ≡ amount_at self.now.worths b }
    {
        let worths = self.worths;
        worths[b as usize]
    }

    /// What block b is worth where that is positive, and else zero: what the source may give it.
    pub fn positive(&self, b: u32) -> G
        requires { b < length self.now.worths }
        ensures { G.parts_of result ≡ positive (amount_at self.now.worths b) }
    {
        positive_part(self.worth(b))
    }

    /// The opposite of what block b is worth where that is positive, and else zero: what it may give the sink.
    pub fn negative(&self, b: u32) -> G
        requires { b < length self.now.worths }
        ensures { G.parts_of result ≡ negative (amount_at self.now.worths b) }
    {
        opposite_part(self.worths, b)
    }

    /// What rests on what.
    pub fn predecessors(&self) -> &'a Predecessors
        ensures blocks { result.now.blocks ≡ length self.now.worths }
        ensures pairs { result.now.pairs ≡ self.now.pairs }
    {
        self.predecessors
    }

    /// What each block is worth.
    pub fn worths(&self) -> &'a [G]
        ensures is { map G.parts_of result.now ≡ self.now.worths }
        ensures net { IsNet self.now }
    {
        self.worths
    }
}
