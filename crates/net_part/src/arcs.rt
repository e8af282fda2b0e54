//! What each block of a search rests on, by the numbers of the search: one row of numbers, which holds no block outside
//! it.

ghost use Rattle.std.specs.Prelude.{◌≡◌, ◌<◌, ◌≤◌, ℕ, All, IfOk, IfSome, length};

use crate::fault::PseudoflowFault;
use crate::labels::Labels;
use crate::leading::{Look, WaysUp};
use crate::links::Link;
use prec_file::Rests;
use std::alloc::Global;
use std::marker::Model;

/// What each block of a search rests on, by the numbers of the search: first what block 0 rests on, then what block 1
/// does, and so on. A block that has no number can't take anything, and is left out.
#[derive(Drop)]
pub struct Arcs {
    blocks: u32,
    above: Vec<u32>,
    // where the predecessors of each block end
    ends: Vec<u32>,
}

impl Model for Arcs {
    ghost use Rattle.std.specs.Prelude.{ℕ, ◌≡◌, ◌<◌, All};

    ghost Value = { ℕ };

    ghost view = { λ a. a.blocks };

    ghost invariant = { λ a. All (λ p. p < a.blocks) a.above.items };
}

// The number of a block, of so many.
fn number_of(numbers: &[Link], block: u32, count: u32) -> Option<u32>
    ensures { IfSome result (λ k. k < count) }
{
    match numbers.get(block as usize) {
        Some(number) => number.block(count as usize),
        None => None,
    }
}

// Adds the numbers of what b rests on.
fn add_above(
    rests: &Rests,
    numbers: &[Link],
    b: u32,
    count: u32,
    above: &mut Vec<u32>,
) -> Result<(), PseudoflowFault>
    requires block { b < rests.now.blocks }
    requires known { All (λ p. p < count) above.old.items }
    ensures { All (λ p. p < count) above.new.items }
{
    for p in rests.above(b) {
        if let Some(number) = number_of(numbers, *p, count) {
            above.push(number).map_err(|_| PseudoflowFault::NoMemory)?;
        }
    }
    Ok(())
}

impl Arcs {
    /// The pairs among so many blocks, of which each block of the net has its number, or none.
    ///
    /// # Errors
    /// `NoMemory` where memory was refused; `Broken` never.
    pub(crate) fn of(
        alloc: Global,
        rests: &Rests,
        blocks: &[Link],
        numbers: &[Link],
        count: u32,
    ) -> Result<Arcs, PseudoflowFault>
        ensures { IfOk result (λ a. a ≡ count) }
    {
        let n = rests.len() as usize;
        let mut above = Vec::with_capacity(alloc, rests.pairs() as usize)?;
        let mut ends = Vec::with_capacity(alloc, blocks.len())?;
        for block in blocks {
            let b = block.block(n).ok_or(PseudoflowFault::Broken)?;
            add_above(rests, numbers, b, count, &mut above)?;
            let end = u32::try_from(above.len()).map_err(|_| PseudoflowFault::Broken)?;
            ends.push(end).map_err(|_| PseudoflowFault::NoMemory)?;
        }
        Ok(Arcs {
            blocks: count,
            above,
            ends,
        })
    }

    // Where the predecessors of a block end.
    fn end(&self, block: usize) -> u32 {
        match self.ends.get(block) {
            Some(end) => *end,
            None => 0,
        }
    }
}

/// The first place in a range of a block with the label, or the end of the range where none has it.
pub(crate) fn first_with_label(
    labels: &Labels,
    blocks: &[u32],
    from: usize,
    to: usize,
    label: u32,
) -> usize
    requires known { All (λ b. b < labels.now) blocks.now }
    requires to { to ≤ length blocks.now }
    ensures { result ≤ to }
{
    for place in from..to {
        if labels.at(blocks[place]) == label {
            return place;
        }
    }
    to
}

// The block at a place before an end, if the place is one, of so many blocks.
fn block_before(blocks: &[u32], place: usize, end: usize, count: u32) -> Option<u32>
    requires { All (λ b. b < count) blocks.now }
    ensures { IfSome result (λ b. b < count) }
{
    if place < end && place < blocks.len() {
        Some(blocks[place])
    } else {
        None
    }
}

impl WaysUp for Arcs {
    ghost count = { λ a. a };

    fn len(&self) -> u32 {
        self.blocks
    }

    fn ends(&self, b: u32) -> (u32, u32) {
        let first = match (b as usize).checked_sub(1) {
            Some(before) => self.end(before),
            None => 0,
        };
        (first, self.end(b as usize))
    }

    fn find(&self, labels: &Labels, b: u32, look: Look) -> (u32, Option<u32>) {
        let to = (look.to as usize).min(self.above.len());
        let place = first_with_label(labels, &self.above, look.from as usize, to, look.label);
        (
            place as u32,
            block_before(&self.above, place, to, self.blocks),
        )
    }
}
