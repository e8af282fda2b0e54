//! Gives the pairs among some of a mine's blocks, block by block alone.

ghost use Rattle.std.specs.Prelude.{◌≡◌, ◌≤◌, ◌<◌, ◌++◌, ◌∷◌, [], All, IfOk, OnOk, length};
ghost use Rattle.closure_net.specs.Network.{IsAscending};
ghost use Rattle.sub_mines.specs.Renumbered.{IsPartPairs};

use prec_file::{ListedPairs, Predecessors, Rests};
use std::alloc::{AllocError, Global};
use sub_mines::rests_among;

// Adds a pair to others.
fn push_pair(pairs: &mut Vec<(u32, u32)>, pair: (u32, u32)) -> Result<(), AllocError>
    ensures { OnOk result (pairs.new.items ≡ pairs.old.items ++ pair ∷ []) }
{
    pairs.push(pair)?;
    Ok(())
}

// The pairs that are held, as a list.
fn listed(alloc: Global, rests: &Rests) -> Result<Vec<(u32, u32)>, AllocError>
    ensures { IfOk result (λ v. v.items ≡ rests.now.pairs) }
{
    let mut pairs: Vec<(u32, u32)> = Vec::new(alloc);
    for i in 0..rests.pairs() {
        push_pair(&mut pairs, rests.pair(i))?;
    }
    Ok(pairs)
}

/// The pairs of which both blocks are in the list, each block by its place in it, without an index by predecessor.
/// Linear in the blocks and in the pairs of the blocks that are kept.
///
/// # Errors
/// Where memory is refused.
pub fn predecessors_among(
    alloc: Global,
    predecessors: &Predecessors,
    kept: &[u32],
) -> Result<Predecessors, AllocError>
    requires ascending { IsAscending kept.now }
    requires below { All (λ b. b < predecessors.now.blocks) kept.now }
    requires size { length kept.now ≤ predecessors.now.blocks }
    ensures { IfOk result (λ r. (r.blocks ≡ length kept.now)
        × IsPartPairs kept.now predecessors.now.pairs r.pairs) }
{
    let rests = rests_among(alloc, predecessors, kept)?;
    // proof: what is known of all pairs
    let blocks = rests.len();
    let pairs = listed(alloc, &rests)?;
    drop(rests);
    ListedPairs::of(blocks, pairs).into_predecessors(alloc)
}
