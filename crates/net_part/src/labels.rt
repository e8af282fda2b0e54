//! Keeps a label for each block, and how many blocks have each label, so that a gap in the labels is seen at once.

ghost use Rattle.std.specs.Prelude.{◌≡◌, ◌<◌, ◌-◌, ◌^◌, IfOk};

use crate::fault::PseudoflowFault;
use std::alloc::{AllocError, Global};
use std::marker::Model;

/// A label for each block, and how many blocks have each label.
///
/// A label is a lower bound on how many pairs lead from the block to one of label 0 (a distance label, as in
/// push-relabel algorithms). Labels go from 0 to one more than the number of blocks, which is the label of those that
/// were lifted out of the search.
#[derive(Drop)]
pub struct Labels {
    of_blocks: Vec<u32>,
    counts: Vec<u32>,
    highest: u32,
}

impl Model for Labels {
    ghost use Rattle.std.specs.Prelude.{ℕ, length};

    ghost Value = { ℕ };

    ghost view = { λ l. length l.of_blocks.items };
}

impl Labels {
    /// So many blocks, each of label 0.
    pub fn new(alloc: Global, n: u32) -> Result<Labels, AllocError>
        requires { n < 2 ^ 32 - 2 }
        ensures { IfOk result (λ l. l ≡ n) }
    {
        let highest = n + 1;
        let of_blocks = vec![in alloc; 0u32; n as usize]?;
        let mut counts = vec![in alloc; 0u32; highest as usize + 1]?;
        counts[0] = n;
        Ok(Labels {
            of_blocks,
            counts,
            highest,
        })
    }

    /// The label of b.
    pub fn at(&self, b: u32) -> u32
        requires { b < self.now }
    {
        self.of_blocks[b as usize]
    }

    /// How many blocks have the label.
    pub fn count(&self, label: u32) -> u32 {
        match self.counts.get(label as usize) {
            Some(count) => *count,
            None => 0,
        }
    }

    /// Gives b another label.
    ///
    /// # Errors
    /// `Broken` where the label is above the highest, or no block is counted at the old one.
    pub fn relabel(&mut self, b: u32, label: u32) -> Result<(), PseudoflowFault>
        requires { b < self.old }
        ensures { self.new ≡ self.old }
    {
        let old = self.of_blocks[b as usize];
        let fewer = self
            .count(old)
            .checked_sub(1)
            .ok_or(PseudoflowFault::Broken)?;
        let more = self
            .count(label)
            .checked_add(1)
            .ok_or(PseudoflowFault::Broken)?;
        if label as usize >= self.counts.len() || old as usize >= self.counts.len() {
            return Err(PseudoflowFault::Broken);
        }
        self.counts[old as usize] = fewer;
        self.counts[label as usize] = more;
        self.of_blocks[b as usize] = label;
        Ok(())
    }

    /// Gives b the next higher label.
    ///
    /// # Errors
    /// `Broken` where it has the highest.
    pub fn raise(&mut self, b: u32) -> Result<(), PseudoflowFault>
        requires { b < self.old }
        ensures { self.new ≡ self.old }
    {
        let next = self.of_blocks[b as usize].checked_add(1);
        self.relabel(b, next.ok_or(PseudoflowFault::Broken)?)
    }

    /// Gives b the highest label, that of the blocks which are lifted out of the search.
    ///
    /// # Errors
    /// `Broken` where no block is counted at its label.
    pub fn lift(&mut self, b: u32) -> Result<(), PseudoflowFault>
        requires { b < self.old }
        ensures { self.new ≡ self.old }
    {
        self.relabel(b, self.highest)
    }

    /// Whether b is lifted out of the search.
    pub fn is_lifted(&self, b: u32) -> bool
        requires { b < self.now }
    {
        self.at(b) == self.highest
    }

    /// How many blocks were lifted out of the search.
    pub fn lifted(&self) -> u32 {
        self.count(self.highest)
    }
}
