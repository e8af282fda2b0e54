//! Gives the pairs among some of a mine's blocks, with these blocks numbered anew by their places in a list.

ghost use Rattle.std.specs.Prelude.{◌≡◌, ◌<◌, ◌≤◌, ◌+◌, All, IfOk, OnOk, length};
ghost use Rattle.closure_net.specs.Network.{IsAscending};
ghost use Rattle.sub_mines.specs.Renumbered.{IsPartPairs};
ghost use Rattle.sub_mines.specs.Among.{ArePlacesAmong, AreRowsAmong};

use prec_file::{ListedPairs, MOST_PAIRS, Predecessors, Rests};
use std::alloc::{AllocError, Global};

// For each of n blocks its place among the kept ones and 1 more, or 0.
pub(crate) fn places_of(alloc: Global, n: u32, kept: &[u32]) -> Result<Vec<u32>, AllocError>
    requires ascending { IsAscending kept.now }
    requires below { All (λ b. b < n) kept.now }
    ensures { IfOk result (λ v. ArePlacesAmong n kept.now (length kept.now) v.items) }
{
    let mut places: Vec<u32> = vec![in alloc; 0; n as usize]?;
    for i in 0..kept.len() {
        places[kept[i] as usize] = i as u32 + 1;
    }
    Ok(places)
}

// Adds the pairs of block `row` of the list to the others.
fn add_row(
    pairs: &mut Vec<(u32, u32)>,
    predecessors: &Predecessors,
    kept: &[u32],
    places: &[u32],
    row: u32,
) -> Result<(), AllocError>
    requires below { All (λ b. b < predecessors.now.blocks) kept.now }
    requires places { ArePlacesAmong predecessors.now.blocks kept.now (length kept.now) places.now }
    requires inside { row < length kept.now }
    requires few { length pairs.old.items ≤ MOST_PAIRS }
    requires so_far { AreRowsAmong predecessors.now.pairs kept.now row pairs.old.items }
    ensures rows { OnOk result
        (AreRowsAmong predecessors.now.pairs kept.now (row + 1) pairs.new.items) }
    ensures few { OnOk result (length pairs.new.items ≤ MOST_PAIRS) }
{
    // proof: what is known of the pairs
    let _ = predecessors.len();
    for other in predecessors.above(kept[row as usize]) {
        let place = places[*other as usize];
        if place > 0 {
            if pairs.len() >= MOST_PAIRS {
                return Err(AllocError);
            }
            pairs.push((row, place - 1))?;
        }
    }
    Ok(())
}

// The pairs of all rows.
fn rows_of(
    alloc: Global,
    predecessors: &Predecessors,
    kept: &[u32],
    places: &[u32],
) -> Result<Vec<(u32, u32)>, AllocError>
    requires below { All (λ b. b < predecessors.now.blocks) kept.now }
    requires places { ArePlacesAmong predecessors.now.blocks kept.now (length kept.now) places.now }
    requires size { length kept.now ≤ predecessors.now.blocks }
    ensures { IfOk result (λ v. AreRowsAmong predecessors.now.pairs kept.now
        (length kept.now) v.items × (length v.items ≤ MOST_PAIRS)) }
{
    let _ = predecessors.len();
    let mut pairs = Vec::new(alloc);
    for row in 0..kept.len() as u32 {
        add_row(&mut pairs, predecessors, kept, places, row)?;
    }
    Ok(pairs)
}

/// The pairs of which both blocks are in the list, each block by its place in it. Linear in the blocks and in the pairs
/// of the blocks that are kept.
///
/// # Errors
/// Where memory is refused.
pub fn rests_among(
    alloc: Global,
    predecessors: &Predecessors,
    kept: &[u32],
) -> Result<Rests, AllocError>
    requires ascending { IsAscending kept.now }
    requires below { All (λ b. b < predecessors.now.blocks) kept.now }
    requires size { length kept.now ≤ predecessors.now.blocks }
    ensures { IfOk result (λ r. (r.blocks ≡ length kept.now)
        × IsPartPairs kept.now predecessors.now.pairs r.pairs) }
{
    let places = places_of(alloc, predecessors.len(), kept)?;
    let pairs = rows_of(alloc, predecessors, kept, &places)?;
    ListedPairs::of(kept.len() as u32, pairs).into_rests(alloc)
}
