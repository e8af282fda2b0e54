//! Collects the blocks of a pit as they are read, and gives the pit once they are all there, in the same memory.

ghost use Rattle.std.specs.Prelude.{◌≡◌, ◌<◌, ◌≤◌, ◌∷◌, ◌++◌, [], true, false, length, IfOk, IsOk};
ghost use Rattle.closure_net.specs.Network.{IsAscending};

use closure_net::Pit;
use std::alloc::{AllocError, Global};
use std::marker::Model;
use std::mem;

/// A list of blocks with space for more, or the pit that was made of it.
#[derive(Drop)]
pub struct PitList {
    blocks: Vec<u32>,
    pit: Option<Pit>,
}

impl Model for PitList {
    ghost use Rattle.std.specs.Prelude.{vec_capacity};
    ghost use Rattle.std.specs.Option.{is_some};
    ghost use Rattle.check_pit.specs.PitLists.{PitListView, blocks_of_pit};

    ghost Value = { PitListView };

    ghost view = { λ p. record {
      blocks = blocks_of_pit p.blocks.items p.pit;
      space = vec_capacity p.blocks;
      is_pit = is_some p.pit;
    } };
}

impl PitList {
    // No block, and space for n.
    pub(crate) fn new(alloc: Global, n: u32) -> Result<PitList, AllocError>
        ensures blocks { IfOk result (λ p. p.blocks ≡ []) }
        ensures space { IfOk result (λ p. n ≤ p.space) }
        ensures open { IfOk result (λ p. p.is_pit ≡ false) }
    {
        let blocks = Vec::with_capacity(alloc, n as usize)?;
        Ok(PitList { blocks, pit: None })
    }

    // No block any more, and space for n.
    pub(crate) fn clear(&mut self, n: u32) -> Result<(), AllocError>
        ensures blocks { IfOk result (λ _. self.new.blocks ≡ []) }
        ensures space { IfOk result (λ _. n ≤ self.new.space) }
        ensures open { IfOk result (λ _. self.new.is_pit ≡ false) }
        ensures succeeds { self.old.is_pit ≡ false → n ≤ self.old.space → IsOk result }
    {
        // the pit's list has the space already, so that no memory is asked for
        if let Some(pit) = self.pit.take() {
            self.blocks = pit.into_blocks();
        }
        self.blocks.clear();
        self.blocks.reserve(n as usize)
    }

    // One more block.
    pub(crate) fn push(&mut self, block: u32)
        requires open { self.old.is_pit ≡ false }
        requires space { length self.old.blocks < self.old.space }
        ensures blocks { self.new.blocks ≡ self.old.blocks ++ block ∷ [] }
        ensures space { self.new.space ≡ self.old.space }
        ensures open { self.new.is_pit ≡ false }
    {
        self.blocks.push_reserved(block);
    }

    // Makes the pit of the blocks.
    pub(crate) fn make_pit(&mut self)
        requires open { self.old.is_pit ≡ false }
        requires ascending { IsAscending self.old.blocks }
        ensures blocks { self.new.blocks ≡ self.old.blocks }
        ensures made { self.new.is_pit ≡ true }
    {
        let none = Vec::new(*self.blocks.allocator());
        let blocks = mem::replace(&mut self.blocks, none);
        match Pit::new(blocks) {
            Some(pit) => self.pit = Some(pit),
            None => unreachable!(),
        }
    }

    // The pit of the blocks.
    pub(crate) fn pit(&self) -> &Pit
        requires { self.now.is_pit ≡ true }
        ensures { result.now ≡ self.now.blocks }
    {
        match &self.pit {
            Some(pit) => pit,
            None => unreachable!(),
        }
    }
}
