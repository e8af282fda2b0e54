//! The queue of a breadth-first search among blocks: takes each block once, gives them in the order
//! in which they came, and at the end ascending.

ghost use Rattle.std.specs.Prelude.{◌≡◌, [], ◌<◌, ◌≤◌, length, IfOk, slice_index};
ghost use Rattle.closure_net.specs.Network.{holds_of};
ghost use Rattle.closure_net.specs.Searches.{list_with};
ghost use Rattle.prec_file.specs.Rests.{numbers_passing};

use fixed_worth::MOST_BLOCKS;
use std::alloc::{AllocError, Global};
use std::marker::Model;

// The blocks that were found, in their order, which is the queue, and a mark for each.
#[derive(Drop)]
pub(crate) struct Search {
    marks: Vec<bool>,
    found: Vec<u32>,
}

impl Model for Search {
    ghost use Rattle.std.specs.Prelude.{length};
    ghost use Rattle.std.specs.Vec.{vec_capacity};
    ghost use Rattle.closure_net.specs.Searches.{SearchView, IsSearch};

    ghost Value = { SearchView };

    ghost view = { λ s. record { blocks = length s.marks.items; found = s.found.items } };

    ghost invariant = { λ s. IsSearch s.marks.items s.found.items (vec_capacity s.found) };
}

impl Search {
    // Among n blocks, of which none is found yet.
    pub(crate) fn new(alloc: Global, n: u32) -> Result<Search, AllocError>
        requires { n ≤ MOST_BLOCKS }
        ensures { IfOk result (λ s. (s.blocks ≡ n) × (s.found ≡ [])) }
    {
        let marks: Vec<bool> = vec![in alloc; false; n as usize]?;
        let found: Vec<u32> = Vec::with_capacity(alloc, n as usize)?;
        Ok(Search { marks, found })
    }

    // Finds b, unless it is found already.
    pub(crate) fn add(&mut self, b: u32)
        requires { b < self.old.blocks }
        ensures { (self.new.blocks ≡ self.old.blocks)
            × (self.new.found ≡ list_with self.old.found b) }
    {
        if !self.marks[b as usize] {
            self.found.push_reserved(b);
            self.marks[b as usize] = true;
        }
    }

    // How many blocks there are.
    pub(crate) fn blocks(&self) -> u32
        ensures { result ≡ self.now.blocks }
    {
        self.marks.len() as u32
    }

    // How many of them are found.
    pub(crate) fn len(&self) -> usize
        ensures is { result ≡ length self.now.found }
        ensures most { result ≤ self.now.blocks }
    {
        self.found.len()
    }

    // The i-th block that was found, from 0 on.
    pub(crate) fn at(&self, i: usize) -> u32
        requires { i < length self.now.found }
        ensures is { result ≡ slice_index self.now.found i }
        ensures known { result < self.now.blocks }
    {
        self.found[i]
    }

    // Whether b is found.
    fn holds(&self, b: u32) -> bool
        requires { b < self.now.blocks }
        ensures { result ≡ holds_of self.now.found b }
    {
        self.marks[b as usize]
    }

    // What is found, ascending.
    pub(crate) fn ascending(&self, alloc: Global) -> Result<Vec<u32>, AllocError>
        ensures { IfOk result
            (λ v. v.items ≡ numbers_passing (holds_of self.now.found) self.now.blocks) }
    {
        let mut blocks: Vec<u32> = Vec::new(alloc);
        for b in 0..self.blocks() {
            if self.holds(b) {
                blocks.push(b)?;
            }
        }
        Ok(blocks)
    }
}
