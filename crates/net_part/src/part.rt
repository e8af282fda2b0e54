//! Takes out of a net what a search looks at: the blocks among which something can flow, what they rest on, and their
//! first labels.

ghost use Rattle.std.specs.Prelude.{◌≡◌, ◌<◌, ◌≤◌, ◌-◌, ◌^◌, length, IfOk};

use crate::arcs::Arcs;
use crate::budget::Budget;
use crate::fault::PseudoflowFault;
use crate::first_labels::first_labels;
use crate::labels::Labels;
use crate::leading::WaysUp;
use crate::links::Link;
use crate::numbering::{Numbering, numbering_of};
use closure_net::Net;
use ordered_group::OrderedGroup;
use std::alloc::Global;
use std::marker::Model;

/// The blocks of a net among which something can flow, and the pairs among them.
///
/// The other blocks take no part: a block under no ore is in no best pit, and ore that rests on ore alone is in each.
#[derive(Drop)]
pub struct Part<W: WaysUp> {
    /// The blocks in the order of their numbers.
    pub blocks: Vec<Link>,
    /// What they rest on.
    pub above: W,
    /// The labels before the search, by number.
    pub labels: Labels,
    /// How many blocks of the net were lifted.
    pub lifted: u32,
}

impl<W: WaysUp> Model for Part<W> {
    ghost use Rattle.std.specs.Prelude.{◌≡◌, ℕ, length};

    ghost Value = { ℕ };

    ghost view = { λ p. length p.blocks.items };

    ghost invariant = { λ p. (W.count p.above ≡ length p.blocks.items)
        × (p.labels ≡ length p.blocks.items) };
}

// How many blocks these are, of n.
//
// # Errors
// `Broken` where they are more than n.
fn count_of(blocks: &[Link], n: u32) -> Result<u32, PseudoflowFault>
    ensures is { IfOk result (λ count. count ≡ length blocks.now) }
    ensures most { IfOk result (λ count. count ≤ n) }
{
    if blocks.len() > n as usize {
        return Err(PseudoflowFault::Broken);
    }
    Ok(blocks.len() as u32)
}

// The labels of so many blocks of a net, by their numbers.
fn labels_by_number(
    alloc: Global,
    labels: &Labels,
    n: u32,
    blocks: &[Link],
    count: u32,
) -> Result<Labels, PseudoflowFault>
    requires labels { n ≡ labels.now }
    requires blocks { count ≡ length blocks.now }
    requires few { count < 2 ^ 32 - 2 }
    ensures { IfOk result (λ found. found ≡ count) }
{
    let mut found = Labels::new(alloc, count)?;
    for k in 0..count {
        let b = blocks[k as usize]
            .block(n as usize)
            .ok_or(PseudoflowFault::Broken)?;
        found.relabel(k, labels.at(b))?;
    }
    Ok(found)
}

impl<W: WaysUp> Part<W> {
    /// The part of these blocks of a net, which rest on one another in this way and have these labels before the
    /// search.
    pub fn new(blocks: Vec<Link>, above: W, labels: Labels) -> Part<W>
        requires above { W.count above ≡ length blocks.items }
        requires labels { labels ≡ length blocks.items }
        ensures { result ≡ length blocks.items }
    {
        Part {
            blocks,
            above,
            labels,
            lifted: 0,
        }
    }
}

impl Part<Arcs> {
    /// The part of a net that a search looks at.
    ///
    /// # Errors
    /// `Unsettled` where the turns are used up; `NoMemory` where memory was refused; `Broken` never.
    pub fn of<G: OrderedGroup>(
        alloc: Global,
        net: &Net<G>,
        budget: &mut Budget,
    ) -> Result<Part<Arcs>, PseudoflowFault>
        ensures { budget.new.left ≤ budget.old.left }
    {
        let rests = net.rests();
        let n = rests.len();
        let all = first_labels(alloc, net, budget)?;
        let Numbering { blocks, numbers } = numbering_of(alloc, rests, &all, budget)?;
        let count = count_of(&blocks, n)?;
        let above = Arcs::of(alloc, rests, &blocks, &numbers, count)?;
        let labels = labels_by_number(alloc, &all, n, &blocks, count)?;
        Ok(Part {
            blocks,
            above,
            labels,
            lifted: all.lifted(),
        })
    }
}
