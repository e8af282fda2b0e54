//! A net with a pit that a check has accepted: it is closed, no closed set sums to more, and its
//! worth is known. Nothing but a check makes one.

ghost use Rattle.std.specs.Prelude.{◌≡◌};
ghost use Rattle.closure_net.specs.Network.{holds_of};
ghost use Rattle.closure_net.specs.Closure.{IsClosed, IsGreatest, group_worth};
ghost use Rattle.check_pit.specs.Checks.{IsOfNet};

use crate::accepted_pit::AcceptedPit;
use closure_net::{Net, Pit};
use ordered_group::OrderedGroup;
use std::marker::Model;

/// A net with a pit of it that was checked: it is closed, and no closed set sums to more.
#[derive(Drop)]
pub struct Accepted<'a, G: OrderedGroup> {
    net: &'a Net<G>,
    on_graph: AcceptedPit<'a, G>,
}

impl<'a, G: OrderedGroup> Model for Accepted<'a, G> {
    ghost use Rattle.std.specs.Prelude.{◌≡◌};
    ghost use Rattle.check_pit.specs.Accepted.{AcceptedView};

    ghost Value = { AcceptedView };

    ghost view = { λ a. a.on_graph };

    ghost invariant = { λ a. a.on_graph.net ≡ a.net.now };
}

impl<'a, G: OrderedGroup> Accepted<'a, G> {
    // The net with the pit that a check of its graph has shown.
    pub(crate) fn new(net: &'a Net<G>, on_graph: AcceptedPit<'a, G>) -> Accepted<'a, G>
        requires { on_graph.net ≡ net.now }
        ensures { result ≡ on_graph.entry }
    {
        Accepted { net, on_graph }
    }

    /// The net.
    pub fn net(&self) -> &'a Net<G>
        ensures is { result.now ≡ self.now.net }
        ensures closed { IsClosed self.now.net.pairs (holds_of self.now.pit) }
        ensures greatest { IsGreatest self.now.net (holds_of self.now.pit) }
    {
        // proof: what is known of the pit
        let _pit = self.on_graph.pit();
        self.net
    }

    /// The pit. It is closed, and no closed set sums to more.
    pub fn pit(&self) -> &'a Pit
        ensures is { result.now ≡ self.now.pit }
        ensures of_net { IsOfNet self.now.net self.now.pit }
        ensures closed { IsClosed self.now.net.pairs (holds_of self.now.pit) }
        ensures greatest { IsGreatest self.now.net (holds_of self.now.pit) }
    {
        self.on_graph.pit()
    }

    /// What the pit sums to: the greatest sum of a closed set.
    pub fn worth(&self) -> G
        ensures is { G.parts_of result ≡ self.now.worth }
        ensures set { G.parts_of result ≡ group_worth self.now.net.worths (holds_of self.now.pit) }
        ensures greatest { IsGreatest self.now.net (holds_of self.now.pit) }
    {
        self.on_graph.worth()
    }

    /// This pit as one that is accepted over the net's graph alone.
    pub fn on_graph(&self) -> &AcceptedPit<'a, G>
        ensures { result.now ≡ self.now }
    {
        &self.on_graph
    }
}
