//! Lists the predecessors of one block after another.

ghost use Rattle.std.specs.Prelude.{◌≡◌, ℕ, ◌+◌, ◌++◌, ◌<◌, ◌≤◌, List, [], All, IfOk, IsTrue, MatchResult, OnOk, OnErr, length, map, vec_capacity};
ghost use Rattle.prec_file.specs.Parts.{AreRowsAdded};
ghost use Rattle.prec_file.specs.Rests.{IsOfBlock, IsRowAdded, IsRising, AreApart};

use crate::Predecessors;
use crate::first_pairs::fill;
use crate::limits::MOST_PAIRS;
use crate::pair_order::{add_pairs, sorted_apart};
use fixed_worth::MOST_BLOCKS;
use std::alloc::{AllocError, Global};
use std::marker::Model;

/// A [`Predecessors`] in the making: the blocks are listed one after the other, each with its pairs.
///
/// It keeps what the whole keeps, and needs neither a list of all pairs nor a sort of it.
#[derive(Drop)]
pub struct PredecessorsBuilder {
    blocks: u32,
    // the first block that isn't listed yet
    next: u32,
    // at each block up to that one, the number of its first pair
    firsts: Vec<u32>,
    // the predecessor of each pair
    predecessors: Vec<u32>,
}

impl Model for PredecessorsBuilder {
    ghost use Rattle.prec_file.specs.Rests.{RowsView};
    ghost use Rattle.prec_file.specs.Indexes.{AreRows, pairs_by};

    ghost Value = { RowsView };

    ghost view = { λ r. record {
      blocks = r.blocks;
      next = r.next;
      pairs = pairs_by r.firsts.items r.predecessors.items;
    } };

    ghost invariant = { λ r. AreRows r.blocks r.next
        (pairs_by r.firsts.items r.predecessors.items) r.firsts.items r.predecessors.items };
}

// Puts the predecessors of pairs after others, or nothing where there is no memory.
fn append(list: &mut Vec<u32>, pairs: &[(u32, u32)]) -> Result<(), AllocError>
    ensures added { OnOk result (list.new.items ≡ list.old.items ++ map (λ p. p.1) pairs.now) }
    ensures same { OnErr result (list.new.items ≡ list.old.items) }
{
    list.reserve(pairs.len())?;
    for (_, predecessor) in pairs {
        list.push_reserved(*predecessor);
    }
    Ok(())
}

// Puts numbers after others, each so much higher.
fn put_raised(list: &mut Vec<u32>, numbers: &[u32], by: u32)
    requires space { length list.old.items + length numbers.now ≤ vec_capacity list.old }
    requires few { by ≤ MOST_PAIRS }
    requires small { All (λ k. k ≤ MOST_PAIRS) numbers.now }
    ensures { list.new.items ≡ list.old.items ++ map (λ k. by + k) numbers.now }
{
    for number in numbers {
        list.push_reserved(by + *number);
    }
}

// Whether predecessors of a block rise, and the block isn't among them.
fn row_rises(block: u32, row: &[u32]) -> bool
    ensures rising { IsTrue result → IsRising (map (λ p. (block, p)) row.now) }
    ensures apart { IsTrue result → AreApart (map (λ p. (block, p)) row.now) }
{
    // the least number that the next one may be
    let mut least: u64 = 0;
    for predecessor in row {
        if (*predecessor as u64) < least || *predecessor == block {
            return false;
        }
        least = *predecessor as u64 + 1;
    }
    true
}

impl PredecessorsBuilder {
    /// Of so many blocks none is listed yet.
    ///
    /// # Errors
    /// Where memory is refused.
    pub fn new(alloc: Global, blocks: u32) -> Result<PredecessorsBuilder, AllocError>
        requires { blocks ≤ MOST_BLOCKS }
        ensures { IfOk result (λ r. r ≡ record { blocks = blocks; next = 0; pairs = [] }) }
    {
        let mut firsts = Vec::with_capacity(alloc, blocks as usize + 1)?;
        firsts.push_reserved(0);
        Ok(PredecessorsBuilder {
            blocks,
            next: 0,
            firsts,
            predecessors: Vec::new(alloc),
        })
    }

    /// How many pairs there are so far.
    pub fn pairs(&self) -> usize
        ensures is { result ≡ length self.now.pairs }
        ensures few { result ≤ MOST_PAIRS }
    {
        self.predecessors.len()
    }

    // The first block that isn't listed yet.
    pub(crate) fn next(&self) -> u32
        ensures { result ≡ self.now.next }
    {
        self.next
    }

    // Lists the blocks before one, as far as they aren't listed yet, without pairs.
    pub(crate) fn skip_to(&mut self, block: u32) -> Result<(), AllocError>
        requires beyond { self.old.next ≤ block }
        requires within { block ≤ self.old.blocks }
        ensures { OnOk result
            (self.new ≡ record { blocks = self.old.blocks; next = block; pairs = self.old.pairs }) }
    {
        self.firsts.reserve((block - self.next) as usize)?;
        let size = block as usize + 1;
        fill(&mut self.firsts, size, self.predecessors.len() as u32);
        self.next = block;
        Ok(())
    }

    // Lists the next block with its predecessors: each once and in order, but itself.
    pub(crate) fn push_row(&mut self, alloc: Global, row: &[u32]) -> Result<(), AllocError>
        requires next { self.old.next < self.old.blocks }
        requires known { All (λ p. p < self.old.blocks) row.now }
        requires few { length self.old.pairs + length row.now ≤ MOST_PAIRS }
        ensures { OnOk result ((added : List (ℕ × ℕ))
            × IsRowAdded self.old self.new (map (λ p. (self.old.next, p)) row.now) added) }
    {
        let block = self.next;
        if !row_rises(block, row) {
            let mut pairs = Vec::new(alloc);
            add_pairs(&mut pairs, block, row)?;
            self.push_block(pairs)?;
            return Ok(());
        }
        self.firsts.reserve(1)?;
        self.predecessors.extend_from_slice(row)?;
        let beyond = self.predecessors.len() as u32;
        self.firsts.push_reserved(beyond);
        self.next = block + 1;
        Ok(())
    }

    /// Lists the next block with its pairs, and gives these back: each once and in order, except that with itself.
    ///
    /// # Errors
    /// Where memory is refused; then nothing is listed.
    pub fn push_block(&mut self, pairs: Vec<(u32, u32)>) -> Result<Vec<(u32, u32)>, AllocError>
        requires next { self.old.next < self.old.blocks }
        requires own { All (IsOfBlock self.old.blocks self.old.next) pairs.items }
        requires few { length self.old.pairs + length pairs.items ≤ MOST_PAIRS }
        ensures { MatchResult result
            (λ added. IsRowAdded self.old self.new pairs.items added.items)
            (λ _. self.new ≡ self.old) }
    {
        let added = sorted_apart(pairs);
        self.firsts.reserve(1)?;
        append(&mut self.predecessors, &added)?;
        self.firsts.push_reserved(self.predecessors.len() as u32);
        self.next += 1;
        Ok(added)
    }

    /// The pairs, where every block is listed.
    pub fn finish(self) -> Predecessors
        requires { self.next ≡ self.blocks }
        ensures { result ≡ record { blocks = self.blocks; pairs = self.pairs } }
    {
        Predecessors::of_lists(self.blocks, self.firsts, self.predecessors)
    }

    // Lists the blocks of another one after its own, and says whether it did. It didn't where a block of the other's
    // pairs is listed here, or its blocks are fewer, where both have too many pairs, and where memory is refused.
    pub(crate) fn append(&mut self, other: PredecessorsBuilder) -> bool
        ensures { IsTrue result → AreRowsAdded self.old other self.new }
    {
        if other.blocks != self.blocks || other.next < self.next {
            return false;
        }
        if other.firsts[self.next as usize] != 0 {
            return false;
        }
        let before = self.predecessors.len();
        if before + other.predecessors.len() > MOST_PAIRS {
            return false;
        }
        let (_, begun) = other.firsts.split_at(self.next as usize + 1);
        let Ok(()) = self.firsts.reserve(begun.len()) else {
            return false;
        };
        let Ok(()) = self.predecessors.extend_from_slice(&other.predecessors) else {
            return false;
        };
        put_raised(&mut self.firsts, begun, before as u32);
        self.next = other.next;
        true
    }

    // The pairs, where the blocks that aren't listed have none.
    pub(crate) fn whole(mut self) -> Result<Predecessors, AllocError>
        ensures { IfOk result (λ r. r ≡ record { blocks = self.blocks; pairs = self.pairs }) }
    {
        let blocks = self.blocks;
        self.skip_to(blocks)?;
        Ok(self.finish())
    }
}
