//! Which blocks a search needs, and their numbers in it.

ghost use Rattle.std.specs.Prelude.{◌≡◌, ◌<◌, ◌≤◌, IfOk, length};

use net_part::{Budget, Link, NO_LINK, PseudoflowFault};
use places::Precedence;
use std::alloc::{AllocError, Global};
use std::marker::Model;

/// Ore and the blocks that it rests on, directly or by others. They are numbered depth first.
#[derive(Drop)]
pub(crate) struct Numbering {
    /// The blocks in the order of their numbers.
    pub(crate) blocks: Vec<Link>,
    /// For each block of the mine a link to its number.
    pub(crate) numbers: Vec<Link>,
}

impl Model for Numbering {
    ghost use Rattle.std.specs.Prelude.{ℕ, length};

    ghost Value = { ℕ };

    ghost view = { λ n. length n.numbers.items };
}

// A block at which the walk stands, and how many of its ways it has passed.
#[derive(Clone, Copy)]
struct Stand {
    block: Link,
    passed: u32,
}

impl Numbering {
    // Of n blocks none has a number yet.
    fn new(alloc: Global, n: u32) -> Result<Numbering, AllocError>
        ensures { IfOk result (λ s. s ≡ n) }
    {
        let blocks = Vec::new(alloc);
        let numbers = vec![in alloc; NO_LINK; n as usize]?;
        Ok(Numbering { blocks, numbers })
    }

    // Whether b is a block without a number.
    fn lacks(&self, b: u32) -> bool {
        match self.numbers.get(b as usize) {
            Some(number) => number.block(self.blocks.len()).is_none(),
            None => false,
        }
    }

    // Gives b the next number, where it is a block.
    fn add(&mut self, b: u32) -> Result<(), PseudoflowFault>
        ensures { self.new ≡ self.old }
    {
        let number = u32::try_from(self.blocks.len()).map_err(|_| PseudoflowFault::Broken)?;
        if b as usize >= self.numbers.len() {
            return Err(PseudoflowFault::Broken);
        }
        self.numbers[b as usize] = Link::to(number);
        self.blocks
            .push(Link::to(b))
            .map_err(|_| PseudoflowFault::NoMemory)
    }
}

// The first way of b from one on that leads to a block without a number, and that block.
fn next_above<P: Precedence>(
    held: &P,
    numbering: &Numbering,
    b: u32,
    from: u32,
) -> Option<(u32, u32)>
    requires { b < (P.shown held.now).blocks }
{
    for way in from..held.ways(b) {
        if let Some(p) = held.way(b, way)
            && numbering.lacks(p)
        {
            return Some((way, p));
        }
    }
    None
}

// Puts a block, of whose ways so many were passed, on the walk.
fn stand_at(stands: &mut Vec<Stand>, b: u32, passed: u32) -> Result<(), PseudoflowFault> {
    let block = Link::to(b);
    stands
        .push(Stand { block, passed })
        .map_err(|_| PseudoflowFault::NoMemory)
}

// Goes on with the walk at a block: numbers the next block above it that has no number, and stands there then.
fn step<P: Precedence>(
    held: &P,
    numbering: &mut Numbering,
    stands: &mut Vec<Stand>,
    stand: Stand,
    budget: &mut Budget,
) -> Result<(), PseudoflowFault>
    ensures kept { numbering.new ≡ numbering.old }
    ensures less { budget.new.left ≤ budget.old.left }
{
    let n = held.len() as usize;
    let b = stand.block.block(n).ok_or(PseudoflowFault::Broken)?;
    let Some((way, p)) = next_above(held, numbering, b, stand.passed) else {
        return budget.spend(held.ways(b).saturating_sub(stand.passed) as u64);
    };
    budget.spend(way.saturating_sub(stand.passed) as u64)?;
    stand_at(stands, b, way.saturating_add(1))?;
    numbering.add(p)?;
    stand_at(stands, p, 0)
}

// Numbers a block, and then what it rests on that has no number.
fn number_with_above<P: Precedence>(
    held: &P,
    numbering: &mut Numbering,
    stands: &mut Vec<Stand>,
    b: u32,
    budget: &mut Budget,
) -> Result<(), PseudoflowFault>
    ensures kept { numbering.new ≡ numbering.old }
    ensures less { budget.new.left ≤ budget.old.left }
{
    numbering.add(b)?;
    stand_at(stands, b, 0)?;
    while let Some(stand) = stands.pop() {
        budget.spend(1)?;
        step(held, numbering, stands, stand, budget)?;
    }
    Ok(())
}

/// The numbers of the blocks of positive worth, and of those that they rest on.
///
/// # Errors
/// `Unsettled` where the turns are used up; `NoMemory` where memory was refused; `Broken` never.
pub(crate) fn numbering_of<P: Precedence>(
    alloc: Global,
    held: &P,
    nanos: &[i128],
    budget: &mut Budget,
) -> Result<Numbering, PseudoflowFault>
    ensures numbers { IfOk result (λ s. s ≡ (P.shown held.now).blocks) }
    ensures less { budget.new.left ≤ budget.old.left }
{
    let n = held.len();
    let mut numbering = Numbering::new(alloc, n)?;
    let mut stands = Vec::new(alloc);
    for b in 0..n {
        let is_ore = match nanos.get(b as usize) {
            Some(worth) => *worth > 0,
            None => false,
        };
        if is_ore && numbering.lacks(b) {
            number_with_above(held, &mut numbering, &mut stands, b, budget)?;
        }
    }
    Ok(numbering)
}
