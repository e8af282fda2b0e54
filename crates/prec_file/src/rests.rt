//! Holds who rests on whom, each pair once and in order, and answers by block and by predecessor alike.

ghost use Rattle.std.specs.Prelude.{◌≡◌, ◌<◌, ◌≤◌, All, IfOk, MatchResult, MatchOption, length, map, slice_index_or};
ghost use Rattle.std.specs.List.{Contains};
ghost use Rattle.prec_file.specs.Rests.{IsRests, IsKnown, KnownAt, IsFirstNot, ArePairsOf, first_of, above_of, below_of};
ghost use Rattle.prec_file.specs.Faults.{FaultStands};

use crate::index::{filled_by, part, starts_of};
use crate::limits::MOST_PAIRS;
use crate::{ListedPairs, Predecessors, RestsFault};
use fixed_worth::MOST_BLOCKS;
use std::alloc::{AllocError, Global};
use std::marker::Model;

/// Pairs (b, p) of n blocks, in which b rests on p: each once, ordered by b and then by p.
#[derive(Drop)]
pub struct Rests {
    predecessors: Predecessors,
    // the block of each pair
    blocks: Vec<u32>,
    // at each block up to n, how many pairs have a predecessor below it
    starts: Vec<u32>,
    // the numbers of the pairs, by predecessor
    filled: Vec<u32>,
}

impl Model for Rests {
    ghost use Rattle.prec_file.specs.Rests.{RestsView};
    ghost use Rattle.prec_file.specs.Indexes.{IsIndexed};

    ghost Value = { RestsView };

    ghost view = { λ r. r.predecessors };

    ghost invariant = { λ r.
        IsIndexed r.predecessors r.blocks.items r.starts.items r.filled.items };
}

// The block of each pair.
fn blocks_of(alloc: Global, of: &Predecessors) -> Result<Vec<u32>, AllocError>
    ensures { IfOk result (λ v. v.items ≡ map (λ p. p.0) of.now.pairs) }
{
    let mut blocks = Vec::with_capacity(alloc, of.of_all().len())?;
    for block in 0..of.len() {
        let above = of.above(block);
        for _predecessor in above {
            blocks.push(block)?;
        }
    }
    Ok(blocks)
}

// Predecessors with the block of each pair, and with the pairs by predecessor.
pub(crate) fn with_index(alloc: Global, predecessors: Predecessors) -> Result<Rests, AllocError>
    ensures { IfOk result (λ r. r ≡ predecessors) }
{
    let n = predecessors.len();
    let blocks = blocks_of(alloc, &predecessors)?;
    let starts = starts_of(alloc, n, predecessors.of_all())?;
    let filled = filled_by(alloc, n, predecessors.of_all(), &starts)?;
    Ok(Rests {
        predecessors,
        blocks,
        starts,
        filled,
    })
}

// The first pair with a block at n or above.
fn first_unknown(n: u32, listed: &[(u32, u32)]) -> Option<usize>
    ensures { MatchOption result
        (All (IsKnown n) listed.now)
        (λ i. IsFirstNot (KnownAt n listed.now) (length listed.now) i) }
{
    for (i, (b, p)) in listed.iter().enumerate() {
        if *b >= n || *p >= n {
            return Some(i);
        }
    }
    None
}

impl Rests {
    /// The pairs that are listed for n blocks, at most 2^24. Pairs of a block with itself and repeats are dropped.
    ///
    /// # Errors
    /// In this order: `UnknownBlock` with the place of the first pair that has a block at n or above, `TooMany` for
    /// more than 2^27 listed pairs, and `NoMemory`.
    pub fn from_pairs(alloc: Global, n: u32, listed: &[(u32, u32)]) -> Result<Rests, RestsFault>
        requires { n ≤ MOST_BLOCKS }
        ensures { MatchResult result
            (λ r. (r.blocks ≡ n) × ArePairsOf listed.now r.pairs)
            (λ e. FaultStands n listed.now e) }
    {
        if let Some(i) = first_unknown(n, listed) {
            return Err(RestsFault::UnknownBlock(i));
        }
        if listed.len() > MOST_PAIRS {
            return Err(RestsFault::TooMany);
        }
        let pairs = Vec::from_slice(alloc, listed).map_err(|_| RestsFault::NoMemory)?;
        let listed = ListedPairs::of(n, pairs);
        listed.into_rests(alloc).map_err(|_| RestsFault::NoMemory)
    }

    /// A copy of the pairs and of both indexes, with memory of its own.
    ///
    /// # Errors
    /// Where memory is refused.
    pub fn copy(&self, alloc: Global) -> Result<Rests, AllocError>
        ensures { IfOk result (λ r. r ≡ self.now) }
    {
        let predecessors = self.predecessors.copy(alloc)?;
        let blocks = Vec::from_slice(alloc, &self.blocks)?;
        let starts = Vec::from_slice(alloc, &self.starts)?;
        let filled = Vec::from_slice(alloc, &self.filled)?;
        Ok(Rests {
            predecessors,
            blocks,
            starts,
            filled,
        })
    }

    /// The pairs by block alone, without the index by predecessor.
    pub fn predecessors(&self) -> &Predecessors
        ensures { result.now ≡ self.now }
    {
        &self.predecessors
    }

    /// How many blocks there are.
    pub fn len(&self) -> u32
        ensures is { result ≡ self.now.blocks }
        ensures all { IsRests self.now }
        ensures few { length self.now.pairs ≤ MOST_PAIRS }
    {
        self.predecessors.len()
    }

    /// How many pairs there are.
    pub fn pairs(&self) -> u32
        ensures { result ≡ length self.now.pairs }
    {
        // proof: what is known of all pairs, that they are few
        let _blocks = self.predecessors.len();
        self.blocks.len() as u32
    }

    /// The pair of this number: a block, and the block that it rests on.
    pub fn pair(&self, i: u32) -> (u32, u32)
        requires { i < length self.now.pairs }
        ensures { result ≡ slice_index_or self.now.pairs i (0, 0) }
    {
        (
            self.blocks[i as usize],
            self.predecessors.of_all()[i as usize],
        )
    }

    /// The number of b's first pair, or of the first pair of the blocks after b where b has none.
    pub fn first(&self, b: u32) -> u32
        requires { b < self.now.blocks }
        ensures { result ≡ first_of self.now.pairs b }
    {
        self.predecessors.first(b)
    }

    /// The blocks that b rests on, ascending: those of the pairs from `first(b)` on.
    pub fn above(&self, b: u32) -> &[u32]
        requires { b < self.now.blocks }
        ensures { result.now ≡ above_of self.now.pairs b }
    {
        self.predecessors.above(b)
    }

    /// The numbers of the pairs in which a block rests on p, ascending.
    pub fn below(&self, p: u32) -> &[u32]
        requires { p < self.now.blocks }
        ensures { result.now ≡ below_of self.now.pairs p }
    {
        let from = self.starts[p as usize];
        let to = self.starts[p as usize + 1];
        part(&self.filled, from, to)
    }

    /// The number of the pair (b, p), if there is one.
    pub fn find(&self, b: u32, p: u32) -> Option<u32>
        requires { b < self.now.blocks }
        ensures { MatchOption result
            (¬ (Contains self.now.pairs (b, p)))
            (λ k. (k < length self.now.pairs) × (slice_index_or self.now.pairs k (0, 0) ≡ (b, p))) }
    {
        self.predecessors.find(b, p)
    }
}
