//! Turns the worths of blocks into the amounts of a net, and decides whether their opposites and the sums of the
//! positive ones fit.

ghost use Rattle.std.specs.Prelude.{◌≡◌, ◌<◌, length, map, MatchBool, MatchResult};
ghost use Rattle.ordered_group.specs.Amount.{negative};
ghost use Rattle.ordered_group.specs.Sums.{amount_at};
ghost use Rattle.closure_net.specs.Faults.{OppositesFit, OppositeOverflows, PositivesFit, PositivesOverflow, WorthsFit, WorthsOverflow, WorthsFaultStands};

use crate::net::NetFault;
use ordered_group::{OrderedGroup, negative_part, positive_part};
use std::alloc::Global;

// Whether the opposite of each worth fits.
fn opposites_fit<G: OrderedGroup>(worths: &[G]) -> bool
    ensures { let ws = map G.parts_of worths.now in
        MatchBool result (OppositesFit ws) (OppositeOverflows ws) }
{
    for w in worths {
        match negative_part(*w) {
            Some(_) => {}
            None => return false,
        }
    }
    true
}

// Whether each sum of the positive worths in their order fits.
fn positives_fit<G: OrderedGroup>(worths: &[G]) -> bool
    ensures { let ws = map G.parts_of worths.now in
        MatchBool result (PositivesFit ws) (PositivesOverflow ws) }
{
    let mut sum = G::zero();
    for w in worths {
        match sum.try_add(positive_part(*w)) {
            Some(more) => sum = more,
            None => return false,
        }
    }
    true
}

// Whether these can be the worths of a net.
pub(crate) fn worths_fit<G: OrderedGroup>(worths: &[G]) -> bool
    ensures { let ws = map G.parts_of worths.now in
        MatchBool result (WorthsFit ws) (WorthsOverflow ws) }
{
    opposites_fit(worths) && positives_fit(worths)
}

// The worths of a net of n blocks, by their worths in billionths.
pub(crate) fn worths_of_blocks<G: OrderedGroup>(
    alloc: Global,
    n: u32,
    nanos: &[i128],
) -> Result<Vec<G>, NetFault>
    ensures { MatchResult result
        (λ v. (map G.parts_of v.items ≡ map (λ x. G.block_parts x n) nanos.now)
        × (n ≡ length nanos.now) × WorthsFit (map G.parts_of v.items))
        (λ e. WorthsFaultStands G.block_parts n nanos.now e) }
{
    if n as usize != nanos.len() {
        return Err(NetFault::WrongLength);
    }
    let mut worths: Vec<G> = Vec::new(alloc);
    for x in nanos {
        let worth = G::of_block(*x, n).ok_or(NetFault::TooLarge)?;
        worths.push(worth).map_err(|_| NetFault::NoMemory)?;
    }
    if !worths_fit(&worths) {
        return Err(NetFault::TooLarge);
    }
    Ok(worths)
}

// The opposite of what block b is worth where b is worth less than zero, and otherwise zero; b is a block of a net with
// these worths.
pub(crate) fn opposite_part<G: OrderedGroup>(worths: &[G], b: u32) -> G
    requires opposites { OppositesFit (map G.parts_of worths.now) }
    requires known { b < length worths.now }
    ensures { G.parts_of result ≡ negative (amount_at (map G.parts_of worths.now) b) }
{
    match negative_part(worths[b as usize]) {
        Some(opposite) => opposite,
        None => unreachable!("each worth of a net has an opposite"),
    }
}
