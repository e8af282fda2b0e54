//! Runs a search: merges or lifts the strong trees, those of the highest label first, until there is none or its turns
//! are used up.

ghost use Rattle.std.specs.Prelude.{◌≡◌, ◌<◌, ◌≤◌, length, IfOk};

use crate::buckets::Buckets;
use crate::forest::Forest;
use crate::reporting::Progress;
use net_part::{Amount, Budget, Labels, PseudoflowFault, WaysUp};
use std::alloc::Global;
use std::marker::Model;

// How many turns there are from one report to the next: a millisecond or less.
const STRIDE: u64 = 1 << 16;

/// A search: a pseudoflow whose arcs that carry something form a forest, and the labels that guide it. Its blocks go by
/// the numbers of a part of the net.
#[derive(Drop)]
pub(crate) struct Search<A: Amount, W: WaysUp> {
    pub(crate) above: W,
    pub(crate) forest: Forest<A>,
    pub(crate) labels: Labels,
    pub(crate) buckets: Buckets,
    // no strong root waits at a higher label
    pub(crate) highest: u32,
}

impl<A: Amount, W: WaysUp> Model for Search<A, W> {
    ghost use Rattle.std.specs.Prelude.{◌≡◌, ℕ};

    ghost Value = { ℕ };

    ghost view = { λ s. s.forest };

    ghost invariant = { λ s. (W.count s.above ≡ s.forest) × (s.labels ≡ s.forest) };
}

// Puts the blocks of positive worth, of which each is a tree of its own, into the buckets of their labels: the highest
// of these labels, and 0 where there are none.
fn add_strong_blocks<A: Amount>(
    labels: &Labels,
    n: u32,
    forest: &mut Forest<A>,
    buckets: &mut Buckets,
) -> Result<u32, PseudoflowFault>
    requires blocks { n ≡ forest.old }
    requires labels { labels.now ≡ forest.old }
    ensures { forest.new ≡ forest.old }
{
    let mut highest = 0;
    for b in (0..n).rev() {
        let label = labels.at(b);
        if label > 0 {
            buckets.push(forest, label, b)?;
            highest = label.max(highest);
        }
    }
    Ok(highest)
}

impl<A: Amount, W: WaysUp> Search<A, W> {
    /// Each block is a tree of its own, and those of positive worth wait as strong roots.
    pub(crate) fn open(
        alloc: Global,
        above: W,
        labels: Labels,
        worths: &[A],
    ) -> Result<Search<A, W>, PseudoflowFault>
        requires labels { labels ≡ W.count above }
        requires worths { length worths.now ≡ W.count above }
        ensures { IfOk result (λ s. s ≡ W.count above) }
    {
        let n = above.len();
        let mut forest = Forest::new(alloc, worths, &above)?;
        let mut buckets = Buckets::new(alloc, n as usize + 2)?;
        let highest = add_strong_blocks(&labels, n, &mut forest, &mut buckets)?;
        Ok(Search {
            above,
            forest,
            labels,
            buckets,
            highest,
        })
    }

    /// Puts a root into the bucket of its label.
    pub(crate) fn add_strong_root(&mut self, root: u32) -> Result<(), PseudoflowFault>
        requires { root < self.old }
        ensures { self.new ≡ self.old }
    {
        let label = self.labels.at(root);
        self.buckets.push(&mut self.forest, label, root)
    }

    /// Merges or lifts strong trees, those of the highest label first, until there is none. So many of the net's blocks
    /// were lifted before.
    pub(crate) fn run<P: Progress>(
        &mut self,
        lifted: u32,
        blocks: u32,
        budget: &mut Budget,
        progress: &P,
    ) -> Result<(), PseudoflowFault>
        ensures kept { self.new ≡ self.old }
        ensures less { budget.new.left ≤ budget.old.left }
    {
        let mut report_at = budget.left;
        while let Some(root) = self.highest_strong_root(budget)? {
            budget.spend(1)?;
            self.process_root(root, budget)?;
            if budget.left <= report_at {
                progress.report(lifted.saturating_add(self.labels.lifted()), blocks);
                report_at = budget.left.saturating_sub(STRIDE);
            }
        }
        progress.report(blocks, blocks);
        Ok(())
    }
}
