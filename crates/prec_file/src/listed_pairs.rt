//! Pairs as they are listed, before they are put in order, so that what they were read from can be given back first.

ghost use Rattle.std.specs.Prelude.{◌≡◌, ◌≤◌, All, length, IfOk};
ghost use Rattle.prec_file.specs.Rests.{ArePairsOf, IsKnown};

use crate::limits::MOST_PAIRS;
use crate::pair_order::sorted_apart;
use crate::{Predecessors, Rests};
use fixed_worth::MOST_BLOCKS;
use std::alloc::{AllocError, Global};
use std::marker::Model;

/// Pairs of n blocks as they are listed, by a text or by a slope pattern.
///
/// Whoever made the list can give back what it was made from before the pairs are put in order and indexed, which takes
/// memory of its own.
#[derive(Drop)]
pub struct ListedPairs {
    blocks: u32,
    pairs: Vec<(u32, u32)>,
}

impl Model for ListedPairs {
    ghost use Rattle.std.specs.Prelude.{◌≤◌, All, length};
    ghost use Rattle.fixed_worth.specs.declared.limits.TheConstants.{MOST_BLOCKS};
    ghost use Rattle.prec_file.specs.declared.limits.TheConstants.{MOST_PAIRS};
    ghost use Rattle.prec_file.specs.Rests.{RestsView, IsKnown};

    ghost Value = { RestsView };

    ghost view = { λ l. record { blocks = l.blocks; pairs = l.pairs.items } };

    ghost invariant = { λ l. (l.blocks ≤ MOST_BLOCKS) × (length l.pairs.items ≤ MOST_PAIRS)
        × All (IsKnown l.blocks) l.pairs.items };
}

impl ListedPairs {
    /// Pairs of n blocks, at most 2^27 of them: each of two blocks below n.
    pub fn of(blocks: u32, pairs: Vec<(u32, u32)>) -> ListedPairs
        requires few_blocks { blocks ≤ MOST_BLOCKS }
        requires few { length pairs.items ≤ MOST_PAIRS }
        requires known { All (IsKnown blocks) pairs.items }
        ensures { result ≡ record { blocks = blocks; pairs = pairs.items } }
    {
        ListedPairs { blocks, pairs }
    }

    /// The pairs, each once and in order, except those of a block with itself.
    ///
    /// # Errors
    /// Where memory is refused.
    pub fn into_rests(self, alloc: Global) -> Result<Rests, AllocError>
        ensures { IfOk result (λ r. (r.blocks ≡ self.blocks) × ArePairsOf self.pairs r.pairs) }
    {
        let predecessors = self.into_predecessors(alloc)?;
        predecessors.into_rests(alloc)
    }

    /// The pairs by block alone, in order and each once, without the index by predecessor; the list is
    /// freed.
    ///
    /// # Errors
    /// Where memory is refused.
    pub fn into_predecessors(self, alloc: Global) -> Result<Predecessors, AllocError>
        ensures { IfOk result (λ r. (r.blocks ≡ self.blocks) × ArePairsOf self.pairs r.pairs) }
    {
        let pairs = sorted_apart(self.pairs);
        Predecessors::of_pairs(alloc, self.blocks, &pairs)
    }
}
