//! A flow of a net: what each block gets from the source, what each pair carries, and what each block gives the sink.

ghost use Rattle.std.specs.Prelude.{◌≡◌, ◌↔◌, IsTrue};
ghost use Rattle.closure_net.specs.Network.{FlowFits, flow_view};

use crate::carried::Carried;
use crate::net::Net;
use ordered_group::OrderedGroup;
use std::marker::Model;

/// An amount from the source for each block, one for each pair, and one to the sink for each block.
#[derive(Drop)]
pub struct Flow<G: OrderedGroup> {
    source: Carried<G>,
    rest: Carried<G>,
    sink: Carried<G>,
}

impl<G: OrderedGroup> Model for Flow<G> {
    ghost use Rattle.closure_net.specs.Network.{FlowView, flow_view};

    ghost Value = { FlowView };

    ghost view = { λ f. flow_view f.source f.rest f.sink };
}

impl<G: OrderedGroup> Flow<G> {
    /// The flow with these amounts.
    pub fn new(source: Carried<G>, rest: Carried<G>, sink: Carried<G>) -> Flow<G>
        ensures { result ≡ flow_view source rest sink }
    {
        Flow { source, rest, sink }
    }

    /// What each block gets from the source.
    pub fn source(&self) -> &Carried<G>
        ensures { result.now ≡ self.now.source }
    {
        &self.source
    }

    /// What each pair carries.
    pub fn rest(&self) -> &Carried<G>
        ensures { result.now ≡ self.now.rest }
    {
        &self.rest
    }

    /// What each block gives to the sink.
    pub fn sink(&self) -> &Carried<G>
        ensures { result.now ≡ self.now.sink }
    {
        &self.sink
    }

    /// Whether there is an amount for each block and pair of the net, and no further one.
    pub fn fits(&self, net: &Net<G>) -> bool
        ensures { IsTrue result ↔ FlowFits net.now self.now }
    {
        let blocks = net.worths().len();
        let pairs = net.rests().pairs() as usize;
        self.source.len() == blocks && self.rest.len() == pairs && self.sink.len() == blocks
    }
}
