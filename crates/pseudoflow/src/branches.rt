//! Lists the forest that a search leaves, tree by tree and each block before those that hang under it, and the pairs of
//! its arcs.

ghost use Rattle.std.specs.Prelude.{◌≡◌, ◌<◌, All, length, IfOk, IfSome};
ghost use Rattle.prec_file.specs.Rests.{IsKnown};

use crate::forest::{Direction, Forest};
use net_part::{Amount, Budget, Link, NO_LINK, PseudoflowFault};
use std::alloc::Global;

/// A block of a finished forest.
#[derive(Clone, Copy)]
pub struct Branch {
    /// The block of the net.
    pub(crate) block: Link,
    /// The place of its parent in its tree, before its own. A root, which begins a tree, has none.
    pub(crate) parent: Link,
    /// How the arc of the block and its parent points.
    pub(crate) direction: Direction,
}

// Lists a block, and notes its place in its tree, which begins at a place of the list.
fn list_block<A: Amount>(
    forest: &Forest<A>,
    blocks: &[Link],
    b: u32,
    begin: usize,
    places: &mut [Link],
    branches: &mut Vec<Branch>,
) -> Result<(), PseudoflowFault>
    requires block { b < forest.now }
    requires blocks { length blocks.now ≡ forest.now }
    requires places { length places.old ≡ forest.now }
    ensures { length places.new ≡ length places.old }
{
    let after = branches.len().saturating_sub(begin);
    let place = u32::try_from(after).map_err(|_| PseudoflowFault::Broken)?;
    let parent = match forest.parent(b) {
        Some(parent) => places[parent as usize],
        None => NO_LINK,
    };
    places[b as usize] = Link::to(place);
    branches
        .push(Branch {
            block: blocks[b as usize],
            parent,
            direction: forest.direction(b),
        })
        .map_err(|_| PseudoflowFault::NoMemory)
}

// Lists the blocks of a tree, each before those that hang under it.
fn list_tree<A: Amount>(
    forest: &Forest<A>,
    blocks: &[Link],
    root: u32,
    places: &mut [Link],
    branches: &mut Vec<Branch>,
    budget: &mut Budget,
) -> Result<(), PseudoflowFault>
    requires root { root < forest.now }
    requires blocks { length blocks.now ≡ forest.now }
    requires places { length places.old ≡ forest.now }
    ensures { length places.new ≡ length places.old }
{
    let begin = branches.len();
    let mut next = Some(root);
    while let Some(b) = next {
        budget.spend(1)?;
        list_block(forest, blocks, b, begin, places, branches)?;
        next = forest.next_in_preorder(b, budget)?;
    }
    Ok(())
}

/// The blocks of a forest, tree by tree, and each before those that hang under it. They are numbers of these blocks of
/// the net.
///
/// # Errors
/// `Unsettled` where the turns are used up; `NoMemory` where memory was refused; `Broken` never.
pub(crate) fn branches_of<A: Amount>(
    alloc: Global,
    forest: &Forest<A>,
    blocks: &[Link],
    budget: &mut Budget,
) -> Result<Vec<Branch>, PseudoflowFault>
    requires { length blocks.now ≡ forest.now }
{
    let mut places = vec![in alloc; NO_LINK; blocks.len()]?;
    let mut branches = Vec::with_capacity(alloc, blocks.len())?;
    for root in 0..forest.len() {
        if forest.parent(root).is_none() {
            list_tree(
                forest,
                blocks,
                root,
                places.as_mut_slice(),
                &mut branches,
                budget,
            )?;
        }
    }
    Ok(branches)
}

// The pair of the arc of a branch and its parent, which stands so many places after where its tree begins, of n
// blocks.
fn pair_of(branches: &[Branch], begin: usize, branch: Branch, n: u32) -> Option<(u32, u32)>
    ensures { IfSome result (IsKnown n) }
{
    let parent = branch.parent.block(branches.len())?;
    let place = begin.saturating_add(parent as usize);
    let other = branches.get(place)?.block.block(n as usize)?;
    let block = branch.block.block(n as usize)?;
    match branch.direction {
        Direction::Up => Some((block, other)),
        Direction::Down => Some((other, block)),
    }
}

/// The pairs of the arcs of a forest, among n blocks: those over which anything can flow.
///
/// # Errors
/// `NoMemory` where memory was refused.
pub fn pairs_of(
    alloc: Global,
    branches: &[Branch],
    n: u32,
) -> Result<Vec<(u32, u32)>, PseudoflowFault>
    ensures known { IfOk result (λ v. All (IsKnown n) v.items) }
{
    let mut pairs: Vec<(u32, u32)> = Vec::new(alloc);
    let mut begin = 0;
    for place in 0..branches.len() {
        let branch = branches[place];
        if branch.parent.block(branches.len()).is_none() {
            begin = place;
        }
        if let Some(pair) = pair_of(branches, begin, branch, n) {
            pairs.push(pair).map_err(|_| PseudoflowFault::NoMemory)?;
        }
    }
    Ok(pairs)
}
