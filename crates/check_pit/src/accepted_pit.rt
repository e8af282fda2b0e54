//! A graph with a pit that a check has accepted: it is closed, no closed set sums to more, and its worth is
//! known. Nothing but a check makes one.

ghost use Rattle.std.specs.Prelude.{◌≡◌};
ghost use Rattle.closure_net.specs.Network.{holds_of};
ghost use Rattle.closure_net.specs.Closure.{IsClosed, IsGreatest, group_worth};
ghost use Rattle.check_pit.specs.Checks.{IsOfNet};

use crate::held_graph::HeldGraph;
use closure_net::Pit;
use ordered_group::OrderedGroup;
use std::marker::Model;

/// A pit of a net that was checked, with the net's graph: it is closed, and no closed set sums to more.
#[derive(Drop)]
pub struct AcceptedPit<'a, G: OrderedGroup> {
    graph: HeldGraph<'a, G>,
    pit: &'a Pit,
    worth: G,
}

impl<'a, G: OrderedGroup> Model for AcceptedPit<'a, G> {
    ghost use Rattle.check_pit.specs.Accepted.{AcceptedView, IsAccepted};

    ghost Value = { AcceptedView };

    ghost view = { λ a. record { net = a.graph; pit = a.pit.now; worth = G.parts_of a.worth } };

    ghost invariant = { λ a. IsAccepted
        (record { net = a.graph; pit = a.pit.now; worth = G.parts_of a.worth }) };
}

impl<'a, G: OrderedGroup> AcceptedPit<'a, G> {
    // What a check has shown.
    pub(crate) fn new(graph: HeldGraph<'a, G>, pit: &'a Pit, worth: G) -> AcceptedPit<'a, G>
        requires of_net { IsOfNet graph pit.now }
        requires greatest { IsGreatest graph (holds_of pit.now) }
        requires worth { G.parts_of worth ≡ group_worth graph.worths (holds_of pit.now) }
        ensures net { result.net ≡ graph.entry }
        ensures pit { result.pit ≡ pit.now }
    {
        AcceptedPit { graph, pit, worth }
    }

    /// The graph of the net.
    pub fn graph(&self) -> &HeldGraph<'a, G>
        ensures is { result.now ≡ self.now.net }
        ensures closed { IsClosed self.now.net.pairs (holds_of self.now.pit) }
        ensures greatest { IsGreatest self.now.net (holds_of self.now.pit) }
    {
        &self.graph
    }

    /// The pit. It is closed, and no closed set sums to more.
    pub fn pit(&self) -> &'a Pit
        ensures is { result.now ≡ self.now.pit }
        ensures of_net { IsOfNet self.now.net self.now.pit }
        ensures closed { IsClosed self.now.net.pairs (holds_of self.now.pit) }
        ensures greatest { IsGreatest self.now.net (holds_of self.now.pit) }
    {
        self.pit
    }

    /// What the pit sums to: the greatest sum of a closed set.
    pub fn worth(&self) -> G
        ensures is { G.parts_of result ≡ self.now.worth }
        ensures set { G.parts_of result ≡ group_worth self.now.net.worths (holds_of self.now.pit) }
        ensures greatest { IsGreatest self.now.net (holds_of self.now.pit) }
    {
        self.worth
    }
}
