//! The flow of a finished forest, in the net's own amounts.

ghost use Rattle.std.specs.Prelude.{◌≡◌, ◌<◌, length, IfOk};
ghost use Rattle.closure_net.specs.Network.{FlowFits};

use crate::branches::Branch;
use crate::forest::Direction;
use closure_net::{Carried, Flow, Net};
use net_part::PseudoflowFault;
use ordered_group::{OrderedGroup, smaller};
use std::alloc::Global;
use std::marker::Model;

// The sum.
fn sum<G: OrderedGroup>(a: G, b: G) -> Result<G, PseudoflowFault> {
    a.try_add(b).ok_or(PseudoflowFault::TooLarge)
}

// The difference.
fn difference<G: OrderedGroup>(a: G, b: G) -> Result<G, PseudoflowFault> {
    a.try_sub(b).ok_or(PseudoflowFault::TooLarge)
}

// Sets the amount of an arc that was not set before. Only a positive one is stored, which saves memory: an arc that was
// never set carries nothing.
fn put<G: OrderedGroup>(
    carried: &mut Carried<G>,
    arc: u32,
    amount: G,
) -> Result<(), PseudoflowFault>
    requires { arc < length carried.old }
    ensures { length carried.new ≡ length carried.old }
{
    if amount.is_positive() {
        carried.set(arc, amount)?;
    }
    Ok(())
}

// A flow that is being made.
#[derive(Drop)]
struct Draft<'a, G: OrderedGroup> {
    net: &'a Net<G>,
    source: Carried<G>,
    rest: Carried<G>,
    sink: Carried<G>,
}

impl<'a, G: OrderedGroup> Model for Draft<'a, G> {
    ghost use Rattle.std.specs.Prelude.{◌≡◌, length};
    ghost use Rattle.closure_net.specs.Network.{NetView};

    ghost Value = { NetView };

    ghost view = { λ d. d.net.now };

    ghost invariant = { λ d. (length d.source ≡ length d.net.now.worths)
        × (length d.rest ≡ length d.net.now.pairs) × (length d.sink ≡ length d.net.now.worths) };
}

impl<'a, G: OrderedGroup> Draft<'a, G> {
    // Nothing flows.
    fn new(alloc: Global, net: &'a Net<G>) -> Result<Draft<'a, G>, PseudoflowFault>
        ensures { IfOk result (λ d. d ≡ net.now) }
    {
        let n = net.len();
        Ok(Draft {
            net,
            source: Carried::nothing(alloc, n)?,
            rest: Carried::nothing(alloc, net.rests().pairs())?,
            sink: Carried::nothing(alloc, n)?,
        })
    }

    // Sets both arcs of the block that brings an imbalance, and takes the imbalance off one of them, as far as it has
    // as much: off its arc from the source in a strong tree, else off its arc to the sink. Returns what is left of it.
    fn cancel_at_end(&mut self, b: u32, is_strong: bool, imbalance: G) -> Result<G, PseudoflowFault>
        requires { b < length self.old.worths }
        ensures { self.new ≡ self.old }
    {
        let positive = self.net.positive(b);
        let negative = self.net.negative(b);
        let end = if is_strong { positive } else { negative };
        let part = smaller(imbalance, end);
        let rest = difference(end, part)?;
        put(&mut self.source, b, if is_strong { rest } else { positive })?;
        put(&mut self.sink, b, if is_strong { negative } else { rest })?;
        difference(imbalance, part)
    }

    // Sets what the pair of a block and its parent carries, where that is something.
    fn carry(
        &mut self,
        b: u32,
        parent: u32,
        direction: Direction,
        amount: G,
    ) -> Result<(), PseudoflowFault>
        requires block { b < length self.old.worths }
        requires parent { parent < length self.old.worths }
        ensures { self.new ≡ self.old }
    {
        if !amount.is_positive() {
            return Ok(());
        }
        let rests = self.net.rests();
        let found = match direction {
            Direction::Up => rests.find(b, parent),
            Direction::Down => rests.find(parent, b),
        };
        let Some(pair) = found else {
            return Err(PseudoflowFault::Broken);
        };
        put(&mut self.rest, pair, amount)
    }

    // The flow.
    fn finish(self) -> Flow<G>
        ensures { FlowFits self.entry result }
    {
        let Draft {
            net: _,
            source,
            rest,
            sink,
        } = self;
        Flow::new(source, rest, sink)
    }
}

// The block of a branch.
fn block_of<G: OrderedGroup>(net: &Net<G>, branch: Branch) -> Result<u32, PseudoflowFault>
    ensures { IfOk result (λ b. b < length net.now.worths) }
{
    let found = branch.block.block(net.len() as usize);
    found.ok_or(PseudoflowFault::Broken)
}

// For each branch of a tree the sum of the worths of its block and of all that hang under it: what its arc carries up.
fn put_sums<G: OrderedGroup>(
    net: &Net<G>,
    tree: &[Branch],
    sums: &mut Vec<G>,
) -> Result<(), PseudoflowFault>
    ensures { IfOk result (λ _. length sums.new.items ≡ length tree.now) }
{
    sums.clear();
    for branch in tree {
        let b = block_of(net, *branch)?;
        sums.push(net.worth(b))
            .map_err(|_| PseudoflowFault::NoMemory)?;
    }
    for k in (0..tree.len()).rev() {
        if let Some(parent) = tree[k].parent.block(tree.len()) {
            sums[parent as usize] = sum(sums[parent as usize], sums[k])?;
        }
    }
    Ok(())
}

// Takes as much of what is left of the parent's imbalance off the arc of a branch as that brings, and sets what the arc
// carries then: how much was taken off, which is the imbalance of the branch now.
fn cancel_at_arc<G: OrderedGroup>(
    draft: &mut Draft<'_, G>,
    tree: &[Branch],
    amounts: &mut [G],
    k: usize,
    parent: u32,
    is_strong: bool,
) -> Result<G, PseudoflowFault>
    requires place { k < length tree.now }
    requires parent { parent < length tree.now }
    requires amounts { length amounts.old ≡ length tree.now }
    ensures draft { draft.new ≡ draft.old }
    ensures amounts { length amounts.new ≡ length amounts.old }
{
    let branch = tree[k];
    let b = block_of(draft.net, branch)?;
    let above = block_of(draft.net, tree[parent as usize])?;
    let flow = match branch.direction {
        Direction::Up => amounts[k],
        Direction::Down => difference(G::zero(), amounts[k])?,
    };
    let brings = (branch.direction == Direction::Up) == is_strong;
    let left = amounts[parent as usize];
    let taken = if brings {
        smaller(left, flow)
    } else {
        G::zero()
    };
    amounts[parent as usize] = difference(left, taken)?;
    draft.carry(b, above, branch.direction, difference(flow, taken)?)?;
    Ok(taken)
}

// Takes the imbalance of the root of a tree off the arcs that bring it, branch by branch. The amounts are the sums of
// the branches; of those that were passed they are what is left of the imbalance.
fn cancel_in_tree<G: OrderedGroup>(
    draft: &mut Draft<'_, G>,
    tree: &[Branch],
    amounts: &mut [G],
) -> Result<(), PseudoflowFault>
    requires { length amounts.old ≡ length tree.now }
    ensures { draft.new ≡ draft.old }
{
    let mut is_strong = false;
    for k in 0..tree.len() {
        let imbalance = match tree[k].parent.block(tree.len()) {
            Some(parent) => cancel_at_arc(draft, tree, amounts, k, parent, is_strong)?,
            None => {
                is_strong = amounts[k].is_positive();
                let deficit = difference(G::zero(), amounts[k])?;
                if is_strong { amounts[k] } else { deficit }
            }
        };
        let b = block_of(draft.net, tree[k])?;
        amounts[k] = draft.cancel_at_end(b, is_strong, imbalance)?;
    }
    Ok(())
}

// Whether the branch at a place is the last of its tree.
fn ends_tree(branches: &[Branch], place: usize) -> bool
    requires { place < length branches.now }
{
    match branches.get(place + 1) {
        Some(next) => next.parent.block(branches.len()).is_none(),
        None => true,
    }
}

/// The flow of a forest in which no tree is strong except those from which no pair leads to another.
///
/// All arcs of the source and the sink are saturated at first, and what an arc of the forest carries up is what the
/// blocks under it are worth. What a strong root has left goes back to the source by the arcs that brought it, and what
/// a weak root lacks is taken off what goes to the sink. Between the other blocks of the net nothing flows. Beside the
/// flow it takes memory for the largest tree alone.
pub fn flow_of_forest<G: OrderedGroup>(
    alloc: Global,
    net: &Net<G>,
    branches: &[Branch],
) -> Result<Flow<G>, PseudoflowFault>
    ensures { IfOk result (λ flow. FlowFits net.now flow) }
{
    let mut draft = Draft::new(alloc, net)?;
    let mut sums = Vec::new(alloc);
    let mut root = 0;
    for place in 0..branches.len() {
        if ends_tree(branches, place) && root <= place {
            let tree = &branches[root..place + 1];
            put_sums(net, tree, &mut sums)?;
            cancel_in_tree(&mut draft, tree, sums.as_mut_slice())?;
            root = place + 1;
        }
    }
    Ok(draft.finish())
}
