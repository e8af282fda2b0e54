//! Which blocks a search needs, and their numbers in it.

ghost use Rattle.std.specs.Prelude.{◌≡◌, ◌<◌, ◌≤◌, All, IfOk, length};

use crate::budget::Budget;
use crate::fault::PseudoflowFault;
use crate::labels::Labels;
use crate::links::{Link, NO_LINK};
use prec_file::Rests;
use std::alloc::{AllocError, Global};
use std::marker::Model;

/// The blocks among which something can flow: those of positive worth that aren't lifted, and the blocks that they rest
/// on, directly or by others, that aren't either.
///
/// They are numbered depth first. So what a tree's walk looks at stands close together, whichever numbers the blocks
/// have in the model.
#[derive(Drop)]
pub(crate) struct Numbering {
    /// The blocks in the order of their numbers.
    pub(crate) blocks: Vec<Link>,
    /// For each block of the net a link to its number.
    pub(crate) numbers: Vec<Link>,
}

impl Model for Numbering {
    ghost use Rattle.std.specs.Prelude.{ℕ, length};

    ghost Value = { ℕ };

    ghost view = { λ n. length n.numbers.items };
}

impl Numbering {
    // Of n blocks none has a number yet.
    fn new(alloc: Global, n: u32) -> Result<Numbering, AllocError>
        ensures { IfOk result (λ s. s ≡ n) }
    {
        let blocks = Vec::with_capacity(alloc, n as usize)?;
        let numbers = vec![in alloc; NO_LINK; n as usize]?;
        Ok(Numbering { blocks, numbers })
    }

    // Whether b has a number.
    fn holds(&self, b: u32) -> bool
        requires { b < self.now }
    {
        self.numbers[b as usize].block(self.blocks.len()).is_some()
    }

    // Gives b the next number.
    fn add(&mut self, b: u32) -> Result<(), PseudoflowFault>
        requires { b < self.old }
        ensures { self.new ≡ self.old }
    {
        let number = u32::try_from(self.blocks.len()).map_err(|_| PseudoflowFault::Broken)?;
        self.numbers[b as usize] = Link::to(number);
        self.blocks
            .push(Link::to(b))
            .map_err(|_| PseudoflowFault::NoMemory)
    }
}

// A block at which the walk stands, and how many of its predecessors it has passed.
#[derive(Clone, Copy)]
struct Stand {
    block: Link,
    passed: usize,
}

// The first place from one on of a block that is to get a number, or the end where there is none.
fn first_without_number(numbering: &Numbering, labels: &Labels, above: &[u32], from: usize) -> usize
    requires numbers { All (λ p. p < numbering.now) above.now }
    requires labels { labels.now ≡ numbering.now }
    ensures { result ≤ length above.now }
{
    for place in from..above.len() {
        let p = above[place];
        if !numbering.holds(p) && !labels.is_lifted(p) {
            return place;
        }
    }
    above.len()
}

// Goes on with the walk at a block: numbers the next of its predecessors that has no number, and stands there then.
fn step(
    rests: &Rests,
    labels: &Labels,
    numbering: &mut Numbering,
    stands: &mut Vec<Stand>,
    stand: Stand,
    budget: &mut Budget,
) -> Result<(), PseudoflowFault>
    requires numbers { numbering.old ≡ rests.now.blocks }
    requires labels { labels.now ≡ rests.now.blocks }
    ensures kept { numbering.new ≡ numbering.old }
    ensures less { budget.new.left ≤ budget.old.left }
{
    let n = rests.len() as usize;
    let b = stand.block.block(n).ok_or(PseudoflowFault::Broken)?;
    let above = rests.above(b);
    let place = first_without_number(numbering, labels, above, stand.passed);
    budget.spend(place.saturating_sub(stand.passed) as u64)?;
    if place < above.len() {
        let passed = place + 1;
        stands
            .push(Stand { passed, ..stand })
            .map_err(|_| PseudoflowFault::NoMemory)?;
        let p = above[place];
        numbering.add(p)?;
        let block = Link::to(p);
        stands
            .push(Stand { block, passed: 0 })
            .map_err(|_| PseudoflowFault::NoMemory)?;
    }
    Ok(())
}

// Numbers a block, and then what it rests on that has no number.
fn number_with_above(
    rests: &Rests,
    labels: &Labels,
    numbering: &mut Numbering,
    stands: &mut Vec<Stand>,
    b: u32,
    budget: &mut Budget,
) -> Result<(), PseudoflowFault>
    requires block { b < rests.now.blocks }
    requires numbers { numbering.old ≡ rests.now.blocks }
    requires labels { labels.now ≡ rests.now.blocks }
    ensures kept { numbering.new ≡ numbering.old }
    ensures less { budget.new.left ≤ budget.old.left }
{
    numbering.add(b)?;
    let block = Link::to(b);
    stands
        .push(Stand { block, passed: 0 })
        .map_err(|_| PseudoflowFault::NoMemory)?;
    while let Some(stand) = stands.pop() {
        budget.spend(1)?;
        step(rests, labels, numbering, stands, stand, budget)?;
    }
    Ok(())
}

/// The numbers of the blocks among which something can flow, by the labels that all blocks have before the search.
///
/// # Errors
/// `Unsettled` where the turns are used up; `NoMemory` where memory was refused; `Broken` never.
pub(crate) fn numbering_of(
    alloc: Global,
    rests: &Rests,
    labels: &Labels,
    budget: &mut Budget,
) -> Result<Numbering, PseudoflowFault>
    requires { labels.now ≡ rests.now.blocks }
    ensures numbers { IfOk result (λ s. s ≡ rests.now.blocks) }
    ensures less { budget.new.left ≤ budget.old.left }
{
    let n = rests.len();
    let mut numbering = Numbering::new(alloc, n)?;
    let mut stands = Vec::new(alloc);
    for b in 0..n {
        let is_strong = labels.at(b) > 0 && !labels.is_lifted(b);
        if is_strong && !numbering.holds(b) {
            number_with_above(rests, labels, &mut numbering, &mut stands, b, budget)?;
        }
    }
    Ok(numbering)
}
