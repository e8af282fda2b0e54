//! Computes the label that each block has before the search: how many pairs lead from it, at the fewest, to a block of
//! no positive worth. A block from which none leads to such a one is lifted out of the search.

ghost use Rattle.std.specs.Prelude.{◌≡◌, ◌<◌, ◌≤◌, length, IfOk};

use crate::arcs::first_with_label;
use crate::budget::Budget;
use crate::fault::PseudoflowFault;
use crate::labels::Labels;
use crate::links::Link;
use closure_net::Net;
use ordered_group::OrderedGroup;
use prec_file::Rests;
use std::alloc::Global;

// Lifts the blocks of positive worth. Those that are found get a lower label.
fn lift_positive_blocks<G: OrderedGroup>(
    net: &Net<G>,
    labels: &mut Labels,
    budget: &mut Budget,
) -> Result<(), PseudoflowFault>
    requires labels { labels.old ≡ length net.now.worths }
    ensures kept { labels.new ≡ labels.old }
    ensures less { budget.new.left ≤ budget.old.left }
{
    for b in 0..net.len() {
        budget.spend(1)?;
        if net.worth(b).is_positive() {
            labels.lift(b)?;
        }
    }
    Ok(())
}

// Gives b a label, and puts it after the other blocks that were found.
fn find(
    labels: &mut Labels,
    found: &mut Vec<Link>,
    b: u32,
    label: u32,
) -> Result<(), PseudoflowFault>
    requires { b < labels.old }
    ensures { labels.new ≡ labels.old }
{
    labels.relabel(b, label)?;
    found
        .push(Link::to(b))
        .map_err(|_| PseudoflowFault::NoMemory)
}

// Whether b rests on a block of label 0.
fn rests_on_lowest(
    rests: &Rests,
    labels: &Labels,
    b: u32,
    budget: &mut Budget,
) -> Result<bool, PseudoflowFault>
    requires block { b < rests.now.blocks }
    requires labels { labels.now ≡ rests.now.blocks }
    ensures less { budget.new.left ≤ budget.old.left }
{
    // proof: the pairs are of the blocks of `rests`
    let _blocks = rests.len();
    let above = rests.above(b);
    let place = first_with_label(labels, above, 0, above.len(), 0);
    budget.spend((place as u64).saturating_add(1))?;
    Ok(place < above.len())
}

// Finds the lifted blocks that rest on one of label 0, and gives them label 1.
fn find_lowest(
    rests: &Rests,
    labels: &mut Labels,
    found: &mut Vec<Link>,
    budget: &mut Budget,
) -> Result<(), PseudoflowFault>
    requires labels { labels.old ≡ rests.now.blocks }
    ensures kept { labels.new ≡ labels.old }
    ensures less { budget.new.left ≤ budget.old.left }
{
    for b in 0..rests.len() {
        if labels.is_lifted(b) && rests_on_lowest(rests, labels, b, budget)? {
            find(labels, found, b, 1)?;
        }
    }
    Ok(())
}

// Finds the lifted blocks that rest on p, and gives them the label above that of p.
fn find_below(
    rests: &Rests,
    labels: &mut Labels,
    p: u32,
    found: &mut Vec<Link>,
    budget: &mut Budget,
) -> Result<(), PseudoflowFault>
    requires block { p < rests.now.blocks }
    requires labels { labels.old ≡ rests.now.blocks }
    ensures kept { labels.new ≡ labels.old }
    ensures less { budget.new.left ≤ budget.old.left }
{
    // proof: the pairs are of the blocks of `rests`
    let _blocks = rests.len();
    let label = labels.at(p).checked_add(1).ok_or(PseudoflowFault::Broken)?;
    for k in rests.below(p) {
        budget.spend(1)?;
        let (b, _) = rests.pair(*k);
        if labels.is_lifted(b) {
            find(labels, found, b, label)?;
        }
    }
    Ok(())
}

// Finds what rests on the blocks that were found, in the order in which they were found.
fn find_all(
    rests: &Rests,
    labels: &mut Labels,
    found: &mut Vec<Link>,
    budget: &mut Budget,
) -> Result<(), PseudoflowFault>
    requires labels { labels.old ≡ rests.now.blocks }
    ensures kept { labels.new ≡ labels.old }
    ensures less { budget.new.left ≤ budget.old.left }
{
    let n = rests.len() as usize;
    for at in 0..n {
        if at >= found.len() {
            return Ok(());
        }
        let p = found[at].block(n).ok_or(PseudoflowFault::Broken)?;
        find_below(rests, labels, p, found, budget)?;
    }
    Ok(())
}

/// The labels before the search: for each block, how many pairs lead from it, at the fewest, to one that is of no
/// positive worth. Where none leads to such a block, it is lifted: it is in the pit, with all that it rests on.
///
/// Labels of 1 for all blocks of positive worth would be right too, but a tree climbs from a lower label to a higher
/// one by walks over all its blocks: in a chain of which the lower half is ore, these grow with the square of the
/// blocks. Breadth first, against the pairs, in time and memory linear in the blocks and pairs.
///
/// # Errors
/// `Unsettled` where the turns are used up; `NoMemory` where memory was refused; `Broken` never.
pub(crate) fn first_labels<G: OrderedGroup>(
    alloc: Global,
    net: &Net<G>,
    budget: &mut Budget,
) -> Result<Labels, PseudoflowFault>
    ensures blocks { IfOk result (λ labels. labels ≡ length net.now.worths) }
    ensures less { budget.new.left ≤ budget.old.left }
{
    let rests = net.rests();
    let n = rests.len();
    let mut labels = Labels::new(alloc, n)?;
    lift_positive_blocks(net, &mut labels, budget)?;
    let mut found = Vec::with_capacity(alloc, n as usize)?;
    find_lowest(rests, &mut labels, &mut found, budget)?;
    find_all(rests, &mut labels, &mut found, budget)?;
    Ok(labels)
}
