//! A set of blocks that gives the first of its blocks at or after a given one, and passes over empty stretches at
//! once.

ghost use Rattle.std.specs.Prelude.{◌≡◌, ◌↔◌, ◌+◌, ◌<◌, ◌≤◌, ◌^◌, true, false, IsTrue, IfOk, MatchOption, length, replicate, slice_set};
ghost use Rattle.async_step.specs.Marks.{mark_at, count_after_shift, CanShift, NoneWithin, IsFirstWithin, IsFirstRound};

use fixed_worth::MOST_BLOCKS;
use std::alloc::{AllocError, Global};
use std::marker::Model;

// How many blocks a count of each level speaks of.
const SMALL: usize = 64;

const MIDDLE: usize = 4_096;

const LARGE: usize = 262_144;

/// A set of the blocks below a number. Beside a mark for each block it counts the marks of each 64,
/// of each 4,096 and of each 262,144 blocks, so that empty stretches are passed over at once.
#[derive(Drop)]
pub struct Marks {
    marks: Vec<bool>,
    small: Vec<u32>,
    middle: Vec<u32>,
    large: Vec<u32>,
    held: u32,
}

impl Model for Marks {
    ghost use Rattle.std.specs.Prelude.{List, Bool};
    ghost use Rattle.async_step.specs.Marks.{IsMarks};

    ghost Value = { List Bool };

    ghost view = { λ m. m.marks.items };

    ghost invariant = { λ m.
        IsMarks m.marks.items m.small.items m.middle.items m.large.items m.held };
}

// A count of one more, or of one fewer.
fn count_after_shift(count: u32, up: bool) -> u32
    requires { CanShift up count }
    ensures { result ≡ count_after_shift up count }
{
    if up { count + 1 } else { count - 1 }
}

impl Marks {
    /// No block of these.
    pub fn new(alloc: Global, blocks: u32) -> Result<Marks, AllocError>
        requires { blocks ≤ MOST_BLOCKS }
        ensures { IfOk result (λ m. m ≡ replicate blocks false) }
    {
        let n = blocks as usize;
        Ok(Marks {
            marks: vec![in alloc; false; n]?,
            small: vec![in alloc; 0; n / SMALL + 1]?,
            middle: vec![in alloc; 0; n / MIDDLE + 1]?,
            large: vec![in alloc; 0; n / LARGE + 1]?,
            held: 0,
        })
    }

    /// Whether there is none.
    pub fn is_empty(&self) -> bool
        ensures { IsTrue result ↔ NoneWithin self.now 0 (length self.now) }
    {
        self.held == 0
    }

    /// Puts the block in, or takes it out.
    pub fn set(&mut self, block: u32, marked: bool)
        requires { block < length self.old }
        ensures { self.new ≡ slice_set self.old block marked }
    {
        let at = block as usize;
        if self.marks[at] == marked {
            return;
        }
        self.marks[at] = marked;
        self.small[at / SMALL] = count_after_shift(self.small[at / SMALL], marked);
        self.middle[at / MIDDLE] = count_after_shift(self.middle[at / MIDDLE], marked);
        self.large[at / LARGE] = count_after_shift(self.large[at / LARGE], marked);
        self.held = count_after_shift(self.held, marked);
    }

    // A number of blocks from this one on that are not in the set: none exactly where this one is.
    fn gap_at(&self, at: usize) -> usize
        requires { at < length self.now }
        ensures none { NoneWithin self.now at (at + result) }
        ensures here { result ≡ 0 → mark_at self.now at ≡ true }
        ensures few { at + result ≤ 2 ^ 25 }
    {
        if at % LARGE == 0 && self.large[at / LARGE] == 0 {
            return LARGE;
        }
        if at % MIDDLE == 0 && self.middle[at / MIDDLE] == 0 {
            return MIDDLE;
        }
        if at % SMALL == 0 && self.small[at / SMALL] == 0 {
            return SMALL;
        }
        if self.marks[at] { 0 } else { 1 }
    }

    // The first block of the set from one block up to another.
    fn first_within(&self, from: usize, to: usize) -> Option<u32>
        requires { to ≤ length self.now }
        ensures { MatchOption result
            (NoneWithin self.now from to)
            (λ b. IsFirstWithin self.now from to b) }
    {
        let mut at = from;
        while at < to {
            let gap = self.gap_at(at);
            if gap == 0 {
                return Some(at as u32);
            }
            at += gap;
        }
        None
    }

    /// The first block of the set at or after a block, going round.
    pub fn first_round(&self, from: u32) -> Option<u32>
        ensures { MatchOption result
            (NoneWithin self.now 0 (length self.now))
            (λ b. IsFirstRound (λ c. mark_at self.now c ≡ true) (length self.now) from b) }
    {
        let n = self.marks.len();
        let from = if (from as usize) < n {
            from as usize
        } else {
            0
        };
        match self.first_within(from, n) {
            Some(block) => Some(block),
            None => self.first_within(0, from),
        }
    }
}
