//! Which strong tree comes next, and which trees are lifted out of the search.

ghost use Rattle.std.specs.Prelude.{◌≡◌, ◌<◌, ◌≤◌, IfOk, IfSome};

use crate::buckets::Buckets;
use crate::forest::Forest;
use crate::search::Search;
use net_part::{Amount, Budget, Labels, PseudoflowFault, WaysUp};

// Lifts the blocks of a tree out of the search.
fn lift<A: Amount>(
    forest: &Forest<A>,
    labels: &mut Labels,
    root: u32,
    budget: &mut Budget,
) -> Result<(), PseudoflowFault>
    requires root { root < forest.now }
    requires labels { labels.old ≡ forest.now }
    ensures kept { labels.new ≡ labels.old }
    ensures less { budget.new.left ≤ budget.old.left }
{
    let mut next = Some(root);
    while let Some(block) = next {
        budget.spend(1)?;
        labels.lift(block)?;
        next = forest.next_in_preorder(block, budget)?;
    }
    Ok(())
}

// Lifts each tree whose root waits at the label.
fn lift_all<A: Amount>(
    buckets: &mut Buckets,
    forest: &Forest<A>,
    labels: &mut Labels,
    label: u32,
    budget: &mut Budget,
) -> Result<(), PseudoflowFault>
    requires labels { labels.old ≡ forest.now }
    ensures kept { labels.new ≡ labels.old }
    ensures less { budget.new.left ≤ budget.old.left }
{
    while let Some(root) = buckets.pop(forest, label) {
        budget.spend(1)?;
        lift(forest, labels, root, budget)?;
    }
    Ok(())
}

// The highest label, from one on down, at which a strong root waits and below which there is a block: 0 where there is
// none. The strong trees over a gap, a label that no block has, can't be merged with any other, and are lifted.
fn highest_label<A: Amount>(
    buckets: &mut Buckets,
    forest: &Forest<A>,
    labels: &mut Labels,
    from: u32,
    budget: &mut Budget,
) -> Result<u32, PseudoflowFault>
    requires labels { labels.old ≡ forest.now }
    ensures kept { labels.new ≡ labels.old }
    ensures less { budget.new.left ≤ budget.old.left }
{
    let mut label = from;
    while let Some(below) = label.checked_sub(1) {
        budget.spend(1)?;
        if buckets.has(forest, label) {
            if labels.count(below) > 0 {
                return Ok(label);
            }
            lift_all(buckets, forest, labels, label, budget)?;
        }
        label = below;
    }
    Ok(0)
}

// Gives label 1 to the strong roots that wait at label 0.
fn raise_lowest<A: Amount>(
    buckets: &mut Buckets,
    forest: &mut Forest<A>,
    labels: &mut Labels,
    budget: &mut Budget,
) -> Result<(), PseudoflowFault>
    requires labels { labels.old ≡ forest.old }
    ensures forest { forest.new ≡ forest.old }
    ensures labels { labels.new ≡ labels.old }
    ensures less { budget.new.left ≤ budget.old.left }
{
    while let Some(root) = buckets.pop(forest, 0) {
        budget.spend(1)?;
        labels.raise(root)?;
        forest.begin_arcs(root);
        buckets.push(forest, 1, root)?;
    }
    Ok(())
}

impl<A: Amount, W: WaysUp> Search<A, W> {
    /// Takes the first of the strong roots of the highest label. Where all that wait have label 0, they get label 1.
    pub(crate) fn highest_strong_root(
        &mut self,
        budget: &mut Budget,
    ) -> Result<Option<u32>, PseudoflowFault>
        ensures kept { self.new ≡ self.old }
        ensures less { budget.new.left ≤ budget.old.left }
        ensures known { IfOk result (λ found. IfSome found (λ root. root < self.old)) }
    {
        let (buckets, labels) = (&mut self.buckets, &mut self.labels);
        let mut label = highest_label(buckets, &self.forest, labels, self.highest, budget)?;
        if label == 0 {
            raise_lowest(buckets, &mut self.forest, labels, budget)?;
            label = highest_label(buckets, &self.forest, labels, 1, budget)?;
        }
        self.highest = label;
        Ok(self.buckets.pop(&self.forest, label))
    }
}
