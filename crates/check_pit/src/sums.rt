//! Sums what flows into a block and out of it, what a pit is worth and what the source has left, in a stated order,
//! and tells where a sum doesn't fit.

ghost use Rattle.std.specs.Prelude.{◌≡◌, ◌↔◌, ◌<◌, ℕ, ◌⊎◌, IsTrue, length, MatchOption};
ghost use Rattle.ordered_group.specs.Amount.{plus, zero_amount};
ghost use Rattle.ordered_group.specs.Sums.{amount_at};
ghost use Rattle.prec_file.specs.Rests.{from_at, to_at};
ghost use Rattle.closure_net.specs.Network.{holds_of, FlowFits, IsNet};
ghost use Rattle.closure_net.specs.Closure.{group_worth};
ghost use Rattle.closure_net.specs.Flows.{inflow, outflow, residual_at, source_residual};
ghost use Rattle.check_pit.specs.Fits.{EndFits, EndOverflows, SetFits, SetOverflows, ResidualFits, ResidualOverflows};

use closure_net::{Carried, Flow, Net, Pit};
use ordered_group::{OrderedGroup, is_zero, same};
use prec_file::Rests;

// The start and all that the pairs bring into b, added in the order of the pairs.
pub(crate) fn with_inflow<G: OrderedGroup>(
    start: G,
    rests: &Rests,
    carried: &Carried<G>,
    b: u32,
) -> Option<G>
    requires lengths { length carried.now ≡ length rests.now.pairs }
    requires known { b < rests.now.blocks }
    ensures { let f = amount_at carried.now in let ps = rests.now.pairs in let m = length ps in
        MatchOption result
        (EndOverflows (G.parts_of start) (to_at ps) f b m)
        (λ r. (G.parts_of r ≡ plus (G.parts_of start) (inflow ps carried.now m b))
        × EndFits (G.parts_of start) (to_at ps) f b m) }
{
    let mut sum = start;
    let numbers = rests.below(b);
    for k in numbers {
        sum = sum.try_add(carried.at(*k))?;
    }
    Some(sum)
}

// The start and all that the pairs take out of b, added in the order of the pairs.
pub(crate) fn with_outflow<G: OrderedGroup>(
    start: G,
    rests: &Rests,
    carried: &Carried<G>,
    b: u32,
) -> Option<G>
    requires lengths { length carried.now ≡ length rests.now.pairs }
    requires known { b < rests.now.blocks }
    ensures { let f = amount_at carried.now in let ps = rests.now.pairs in let m = length ps in
        MatchOption result
        (EndOverflows (G.parts_of start) (from_at ps) f b m)
        (λ r. (G.parts_of r ≡ plus (G.parts_of start) (outflow ps carried.now m b))
        × EndFits (G.parts_of start) (from_at ps) f b m) }
{
    let mut sum = start;
    // proof: a `Rests` is in order, so the pairs of b lie side by side
    let _n = rests.len();
    let first = rests.first(b);
    let count = rests.above(b).len();
    for i in 0..count {
        sum = sum.try_add(carried.at(first + i as u32))?;
    }
    Some(sum)
}

// Whether b gets what it gives: `None` where a sum of either side doesn't fit.
pub(crate) fn balance_of<G: OrderedGroup>(
    rests: &Rests,
    source: G,
    carried: &Carried<G>,
    sink: G,
    b: u32,
) -> Option<bool>
    requires lengths { length carried.now ≡ length rests.now.pairs }
    requires known { b < rests.now.blocks }
    ensures { let fs = carried.now in let ps = rests.now.pairs in let m = length ps in
        MatchOption result
        (EndOverflows (G.parts_of source) (to_at ps) (amount_at fs) b m
        ⊎ EndOverflows (G.parts_of sink) (from_at ps) (amount_at fs) b m)
        (λ r. EndFits (G.parts_of source) (to_at ps) (amount_at fs) b m
        × EndFits (G.parts_of sink) (from_at ps) (amount_at fs) b m
        × (IsTrue r ↔ (plus (G.parts_of source) (inflow ps fs m b) ≡ plus
        (G.parts_of sink) (outflow ps fs m b)))) }
{
    let into = with_inflow(source, rests, carried, b)?;
    let out = with_outflow(sink, rests, carried, b)?;
    Some(same(into, out))
}

// What the pit sums to, in the order of its blocks.
pub(crate) fn pit_worth<G: OrderedGroup>(net: &Net<G>, pit: &Pit) -> Option<G>
    ensures sum { let ws = net.now.worths in let e = holds_of pit.now in MatchOption result
        (SetOverflows ws e)
        (λ r. (G.parts_of r ≡ group_worth ws e) × SetFits ws e) }
    ensures net { IsNet net.now }
{
    let worths = net.worths();
    let mut sum = G::zero();
    let mut place = 0;
    for b in 0..worths.len() {
        if pit.holds_near(&mut place, b as u32) {
            sum = sum.try_add(worths[b])?;
        }
    }
    Some(sum)
}

// Whether the source may give b nothing, as most blocks of a mine, and gives it nothing.
fn has_no_residual<G: OrderedGroup>(net: &Net<G>, flow: &Flow<G>, b: u32) -> bool
    requires fits { FlowFits net.now flow.now }
    requires known { b < length net.now.worths }
    ensures { IsTrue result → residual_at net.now.worths flow.now.source b ≡ zero_amount }
{
    is_zero(net.positive(b)) && is_zero(flow.source().at(b))
}

// The residual capacity of the source, summed in the order of the blocks.
pub(crate) fn residual_of_source<G: OrderedGroup>(net: &Net<G>, flow: &Flow<G>) -> Option<G>
    requires { FlowFits net.now flow.now }
    ensures { let ws = net.now.worths in let ss = flow.now.source in MatchOption result
        (ResidualOverflows ws ss)
        (λ r. (G.parts_of r ≡ source_residual net.now flow.now)
        × ((k : ℕ) → k < length ws → ResidualFits ws ss k)) }
{
    let mut sum = G::zero();
    for b in 0..net.len() {
        if !has_no_residual(net, flow, b) {
            let room = net.positive(b).try_sub(flow.source().at(b))?;
            sum = sum.try_add(room)?;
        }
    }
    Some(sum)
}
