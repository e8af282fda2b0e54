//! Whether amounts are so small that no sum of a check overflows.

ghost use Rattle.std.specs.Prelude.{◌<◌, ◌^◌, IsTrue, length};
ghost use Rattle.closure_net.specs.Network.{FlowFits};
ghost use Rattle.solve_engines.specs.Small.{IsSmallNumber, IsSmallAmount, AreSmall, IsSmallWorth, AreSmallWorths, IsSmallFlow};

use closure_net::{Carried, Flow, Net};
use ordered_group::OrderedGroup;

// No small number is farther from zero.
const MOST: i128 = 1 << 88;

// Nothing of small worth is worth more or costs more. A node whose block can't be dug yet costs 10^30.
const MOST_WORTH: i128 = 1 << 100;

// Whether a number is small.
fn is_small_number(number: i128) -> bool
    ensures { IsTrue result → IsSmallNumber number }
{
    -MOST <= number && number <= MOST
}

// Whether an amount is small.
fn is_small<G: OrderedGroup>(amount: G) -> bool
    ensures { IsTrue result → IsSmallAmount (G.parts_of amount) }
{
    let (worth, count) = amount.parts();
    is_small_number(worth) && is_small_number(count)
}

// Whether an amount is a small worth.
fn is_small_worth<G: OrderedGroup>(amount: G) -> bool
    ensures { IsTrue result → IsSmallWorth (G.parts_of amount) }
{
    let (worth, count) = amount.parts();
    -MOST_WORTH <= worth && worth <= MOST_WORTH && -MOST_WORTH <= count && count <= MOST_WORTH
}

// Whether what blocks are worth is small.
fn has_small_worths<G: OrderedGroup>(net: &Net<G>) -> bool
    ensures { IsTrue result → AreSmallWorths net.now.worths }
{
    for b in 0..net.len() {
        if !is_small_worth(net.worth(b)) {
            return false;
        }
    }
    true
}

// Whether what arcs carry is small.
fn are_small<G: OrderedGroup>(carried: &Carried<G>) -> bool
    requires { length carried.now < 2 ^ 32 }
    ensures { IsTrue result → AreSmall carried.now }
{
    for arc in 0..carried.len() as u32 {
        if !is_small(carried.at(arc)) {
            return false;
        }
    }
    true
}

/// Whether what the blocks of a net are worth and what its arcs carry is small.
pub(crate) fn is_small_flow<G: OrderedGroup>(net: &Net<G>, flow: &Flow<G>) -> bool
    requires { FlowFits net.now flow.now }
    ensures { IsTrue result → IsSmallFlow net.now flow.now }
{
    // proof: a net has few blocks and few pairs
    let _worths = net.worths();
    let _pairs = net.rests().len();
    has_small_worths(net)
        && are_small(flow.source())
        && are_small(flow.rest())
        && are_small(flow.sink())
}
