//! The public call: from a precedence, whoever holds it, and the worths of the blocks to a forest and a pit.

ghost use Rattle.std.specs.Prelude.{◌≡◌, length, IfOk};

use crate::first_labels::first_labels;
use crate::numbering::{Numbering, numbering_of};
use crate::placed_above::PlacedAbove;
use net_part::{Budget, Link, Part, PseudoflowFault};
use places::Precedence;
use pseudoflow::{Grown, Progress, grow};
use std::alloc::Global;

// What each of these blocks is worth.
fn worths_of(alloc: Global, nanos: &[i128], blocks: &[Link]) -> Result<Vec<i128>, PseudoflowFault>
    ensures { IfOk result (λ v. length v.items ≡ length blocks.now) }
{
    let mut worths = Vec::with_capacity(alloc, blocks.len())?;
    for block in blocks {
        let b = block.block(nanos.len()).ok_or(PseudoflowFault::Broken)?;
        worths.push_reserved(nanos[b as usize]);
    }
    Ok(worths)
}

// The same links once more.
fn copied(alloc: Global, links: &[Link]) -> Result<Vec<Link>, PseudoflowFault>
    ensures { IfOk result (λ v. length v.items ≡ length links.now) }
{
    let mut copies = Vec::with_capacity(alloc, links.len())?;
    for link in links {
        copies.push_reserved(*link);
    }
    Ok(copies)
}

/// The forest that a search of a mine leaves, whose blocks are worth so many billionths each, and the pit that it
/// finds.
///
/// Nothing is promised of either: that the pit is the best one, a checker says of what is made of them. At most `turns`
/// turns are taken, of which each is one look at a block, at a way up from one, or at a label.
///
/// # Errors
/// `Unsettled` where all turns are used up; `TooLarge` where a worth in units or a sum of them doesn't fit 128 bits;
/// `NoMemory` where memory was refused; `Broken` where the search made a mistake, which no mine is known to bring
/// about.
pub fn grow_by_places<P: Precedence, T: Progress>(
    alloc: Global,
    held: &P,
    nanos: &[i128],
    turns: u64,
    progress: &T,
) -> Result<Grown, PseudoflowFault> {
    let mut budget = Budget::of_turns(turns);
    let Numbering { blocks, numbers } = numbering_of(alloc, held, nanos, &mut budget)?;
    if blocks.len() >= u32::MAX as usize - 1 {
        return Err(PseudoflowFault::Broken);
    }
    let count = blocks.len() as u32;
    let worths = worths_of(alloc, nanos, &blocks)?;
    let above = PlacedAbove::new(held, copied(alloc, &blocks)?, numbers, count);
    let labels = first_labels(alloc, &above, worths.as_slice())?;
    let part = Part::new(blocks, above, labels);
    grow(alloc, part, worths, held.len(), &mut budget, progress)
}
