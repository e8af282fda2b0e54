//! Which predecessors each block has, found by the block alone.

ghost use Rattle.std.specs.Prelude.{◌≡◌, ◌<◌, ◌≤◌, All, IfOk, MatchOption, length, map, slice_index_or};
ghost use Rattle.std.specs.List.{Contains};
ghost use Rattle.prec_file.specs.Rests.{IsRests, AreApart, IsKnown, IsRising, first_of, above_of};
ghost use Rattle.prec_file.specs.Indexes.{AreAbove, pairs_by};

use crate::Rests;
use crate::first_pairs::firsts_of;
use crate::index::part;
use crate::limits::MOST_PAIRS;
use crate::pair_order::predecessors_in;
use crate::rests::with_index;
use fixed_worth::MOST_BLOCKS;
use std::alloc::{AllocError, Global};
use std::marker::Model;

/// Pairs (b, p) of n blocks, in which b rests on p, as the predecessors of each block: each pair once, ordered by b and
/// then by p.
///
/// It takes about a third of the memory of a [`crate::Rests`], which also has the block of each pair and finds the
/// pairs by predecessor.
#[derive(Drop)]
pub struct Predecessors {
    blocks: u32,
    // at each block up to n, the number of its first pair
    firsts: Vec<u32>,
    // the predecessor of each pair
    predecessors: Vec<u32>,
}

impl Model for Predecessors {
    ghost use Rattle.prec_file.specs.Rests.{RestsView};
    ghost use Rattle.prec_file.specs.Indexes.{AreAbove, pairs_by};

    ghost Value = { RestsView };

    ghost view = { λ r.
        record { blocks = r.blocks; pairs = pairs_by r.firsts.items r.predecessors.items } };

    ghost invariant = { λ r. AreAbove r.blocks
        (pairs_by r.firsts.items r.predecessors.items) r.firsts.items r.predecessors.items };
}

impl Predecessors {
    // The blocks by the numbers of their first pairs, and the predecessors of these.
    pub(crate) fn of_lists(blocks: u32, firsts: Vec<u32>, predecessors: Vec<u32>) -> Predecessors
        requires { AreAbove blocks
            (pairs_by firsts.items predecessors.items) firsts.items predecessors.items }
        ensures { result
            ≡ record { blocks = blocks; pairs = pairs_by firsts.items predecessors.items } }
    {
        Predecessors {
            blocks,
            firsts,
            predecessors,
        }
    }

    // The predecessors of the blocks by pairs in order.
    pub(crate) fn of_pairs(
        alloc: Global,
        n: u32,
        pairs: &[(u32, u32)],
    ) -> Result<Predecessors, AllocError>
        requires blocks { n ≤ MOST_BLOCKS }
        requires few { length pairs.now ≤ MOST_PAIRS }
        requires known { All (IsKnown n) pairs.now }
        requires rising { IsRising pairs.now }
        requires apart { AreApart pairs.now }
        ensures { IfOk result (λ r. r ≡ record { blocks = n; pairs = pairs.now }) }
    {
        let firsts = firsts_of(alloc, n, pairs)?;
        let predecessors = predecessors_in(alloc, pairs)?;
        Ok(Predecessors {
            blocks: n,
            firsts,
            predecessors,
        })
    }

    // A copy of the predecessors, with memory of its own.
    pub(crate) fn copy(&self, alloc: Global) -> Result<Predecessors, AllocError>
        ensures { IfOk result (λ r. r ≡ self.now) }
    {
        let firsts = Vec::from_slice(alloc, &self.firsts)?;
        let predecessors = Vec::from_slice(alloc, &self.predecessors)?;
        Ok(Predecessors {
            blocks: self.blocks,
            firsts,
            predecessors,
        })
    }

    // The predecessor of each pair.
    pub(crate) fn of_all(&self) -> &[u32]
        ensures { result.now ≡ map (λ p. p.1) self.now.pairs }
    {
        &self.predecessors
    }

    /// These pairs by block and by predecessor: the block of each pair and the index by predecessor
    /// take further memory.
    ///
    /// # Errors
    /// Where memory is refused.
    pub fn into_rests(self, alloc: Global) -> Result<Rests, AllocError>
        ensures { IfOk result (λ r. r ≡ self) }
    {
        with_index(alloc, self)
    }

    /// How many blocks there are.
    pub fn len(&self) -> u32
        ensures is { result ≡ self.now.blocks }
        ensures all { IsRests self.now }
        ensures few { length self.now.pairs ≤ MOST_PAIRS }
    {
        self.blocks
    }

    /// The number of b's first pair, or of the first pair of the blocks after b where b has none.
    pub fn first(&self, b: u32) -> u32
        requires { b < self.now.blocks }
        ensures { result ≡ first_of self.now.pairs b }
    {
        self.firsts[b as usize]
    }

    /// The blocks that b rests on, ascending: those of the pairs from `first(b)` on.
    pub fn above(&self, b: u32) -> &[u32]
        requires { b < self.now.blocks }
        ensures { result.now ≡ above_of self.now.pairs b }
    {
        let from = self.firsts[b as usize];
        let to = self.firsts[b as usize + 1];
        part(&self.predecessors, from, to)
    }

    /// The number of the pair (b, p), if there is one.
    pub fn find(&self, b: u32, p: u32) -> Option<u32>
        requires { b < self.now.blocks }
        ensures { MatchOption result
            (¬ (Contains self.now.pairs (b, p)))
            (λ k. (k < length self.now.pairs) × (slice_index_or self.now.pairs k (0, 0) ≡ (b, p))) }
    {
        let first = self.firsts[b as usize];
        let i = self.above(b).binary_search(&p).ok()?;
        Some(first + i as u32)
    }
}
