//! The residual arcs at a block in a fixed order: to the sink, to its predecessors, to the blocks whose predecessor
//! it is, and to the source.

ghost use Rattle.std.specs.Prelude.{◌≡◌, ◌<◌, ◌≤◌, Some, length, MatchOption, slice_get};
ghost use Rattle.prec_file.specs.Rests.{from_at, to_at};
ghost use Rattle.closure_net.specs.Ports.{is_below, forward_ports, backward_ports, port_list, ports};

use crate::net::Net;
use ordered_group::OrderedGroup;
use prec_file::{MOST_PAIRS, Rests};

/// Where a port leads.
#[derive(Clone, Copy, Debug, PartialEq, Eq)]
pub enum PortKind {
    /// To the sink.
    Sink,
    /// To a block that this one rests on.
    Forward,
    /// Back to a block that rests on this one.
    Backward,
    /// Back to the source.
    Source,
}

/// A way by which an amount may leave a block.
#[derive(Clone, Copy, Debug, PartialEq, Eq)]
pub struct Port {
    /// Where it leads.
    pub kind: PortKind,
    /// The block at the other end, or the block itself at the sink and the source.
    pub other: u32,
    /// The number of the pair, or 0 at the sink and the source.
    pub slot: u32,
}

// Whether a is below b.
fn is_less<G: OrderedGroup>(a: G, b: G) -> bool
    ensures { result ≡ is_below (G.parts_of a) (G.parts_of b) }
{
    a.cmp(&b).is_lt()
}

// The i-th of the ports to blocks that b rests on.
fn forward_at(rests: &Rests, b: u32, i: u32) -> Option<Port>
    requires { b < rests.now.blocks }
    ensures { let list = forward_ports
        (from_at rests.now.pairs) (to_at rests.now.pairs) (length rests.now.pairs) b in
        MatchOption result (length list ≤ i) (λ p. slice_get list i ≡ Some p) }
{
    // proof: a `Rests` is in order, with at most `MOST_PAIRS` pairs
    let _n = rests.len();
    let first = rests.first(b);
    let predecessors = rests.above(b);
    if i as usize >= predecessors.len() {
        return None;
    }
    let other = predecessors[i as usize];
    let slot = first + i;
    Some(Port {
        kind: PortKind::Forward,
        other,
        slot,
    })
}

// The i-th of the ports to blocks that rest on b.
fn backward_at(rests: &Rests, b: u32, i: u32) -> Option<Port>
    requires { b < rests.now.blocks }
    ensures { let list = backward_ports
        (from_at rests.now.pairs) (to_at rests.now.pairs) (length rests.now.pairs) b in
        MatchOption result (length list ≤ i) (λ p. slice_get list i ≡ Some p) }
{
    let numbers = rests.below(b);
    if i as usize >= numbers.len() {
        return None;
    }
    let slot = numbers[i as usize];
    let (other, _) = rests.pair(slot);
    Some(Port {
        kind: PortKind::Backward,
        other,
        slot,
    })
}

// How many blocks b rests on.
fn forward_count(rests: &Rests, b: u32) -> u32
    requires { b < rests.now.blocks }
    ensures is { result ≡ length (forward_ports (from_at rests.now.pairs) (to_at rests.now.pairs)
        (length rests.now.pairs) b) }
    ensures few { result ≤ MOST_PAIRS }
{
    // proof: a `Rests` is in order, with at most `MOST_PAIRS` pairs
    let _n = rests.len();
    rests.above(b).len() as u32
}

// How many blocks rest on b.
fn backward_count(rests: &Rests, b: u32) -> u32
    requires { b < rests.now.blocks }
    ensures is { result ≡ length (backward_ports (from_at rests.now.pairs) (to_at rests.now.pairs)
        (length rests.now.pairs) b) }
    ensures few { result ≤ MOST_PAIRS }
{
    // proof: a `Rests` is in order, with at most `MOST_PAIRS` pairs
    let _n = rests.len();
    rests.below(b).len() as u32
}

// How many ports b has.
#[tactic(auto, unfolding(crate::specs::Ports::port_list))]
fn port_count<G: OrderedGroup>(rests: &Rests, worth: G, b: u32) -> u32
    requires { b < rests.now.blocks }
    ensures { result ≡ length (port_list (from_at rests.now.pairs) (to_at rests.now.pairs)
        (length rests.now.pairs) (G.parts_of worth) b) }
{
    let sinks: u32 = if is_less(worth, G::zero()) { 1 } else { 0 };
    let sources: u32 = if is_less(G::zero(), worth) { 1 } else { 0 };
    sinks + forward_count(rests, b) + backward_count(rests, b) + sources
}

// The port of b at a place.
#[tactic(auto, unfolding(crate::specs::Ports::port_list))]
fn port_at<G: OrderedGroup>(rests: &Rests, worth: G, b: u32, i: u32) -> Port
    requires known { b < rests.now.blocks }
    requires inside { i < length (port_list (from_at rests.now.pairs) (to_at rests.now.pairs)
        (length rests.now.pairs) (G.parts_of worth) b) }
    ensures { slice_get (port_list (from_at rests.now.pairs) (to_at rests.now.pairs)
        (length rests.now.pairs) (G.parts_of worth) b) i ≡ Some result }
{
    let mut place = i;
    if is_less(worth, G::zero()) {
        if place == 0 {
            return Port {
                kind: PortKind::Sink,
                other: b,
                slot: 0,
            };
        }
        place -= 1;
    }
    if let Some(port) = forward_at(rests, b, place) {
        return port;
    }
    place -= forward_count(rests, b);
    if let Some(port) = backward_at(rests, b, place) {
        return port;
    }
    Port {
        kind: PortKind::Source,
        other: b,
        slot: 0,
    }
}

impl<G: OrderedGroup> Net<G> {
    /// How many ports block b has. In constant time.
    pub fn ports(&self, b: u32) -> u32
        requires { b < length self.now.worths }
        ensures { result ≡ length (ports self.now b) }
    {
        port_count(self.rests(), self.worth(b), b)
    }

    /// The port of block b at a place, from 0: the sink where b's worth is negative, then each
    /// block that b rests on, ascending, then each block that rests on b, ascending, and the source
    /// where b's worth is positive. In constant time.
    pub fn port(&self, b: u32, i: u32) -> Port
        requires known { b < length self.now.worths }
        requires inside { i < length (ports self.now b) }
        ensures { slice_get (ports self.now b) i ≡ Some result }
    {
        port_at(self.rests(), self.worth(b), b, i)
    }
}
