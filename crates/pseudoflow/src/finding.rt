//! The search of a strong tree for an arc over which it can be merged.

ghost use Rattle.std.specs.Prelude.{◌≡◌, ◌+◌, ◌<◌, ◌≤◌, IfOk, IfSome};

use crate::forest::Forest;
use crate::search::Search;
use net_part::{Amount, Budget, Labels, Look, PseudoflowFault, WaysUp};

/// An arc over which a strong tree is merged: a block of the tree, and one that it rests on whose label is one lower
/// than that of the tree's root.
#[derive(Clone, Copy)]
pub(crate) struct MergerArc {
    pub(crate) strong: u32,
    pub(crate) weak: u32,
}

// Up to which way there are turns to look, from one on.
fn end_of_look(from: u32, end: u32, turns: u64) -> u32
    ensures ways { result ≤ end }
    ensures turns { result ≤ from + turns }
{
    let most = turns.min(end as u64) as u32;
    from.saturating_add(most).min(end)
}

// The first block of the label on which b rests, from the current arc of b on, which moves there.
fn find_weak<A: Amount, W: WaysUp>(
    above: &W,
    labels: &Labels,
    forest: &mut Forest<A>,
    b: u32,
    label: u32,
    budget: &mut Budget,
) -> Result<Option<u32>, PseudoflowFault>
    requires block { b < forest.old }
    requires above { W.count above.now ≡ forest.old }
    requires labels { labels.now ≡ forest.old }
    ensures kept { forest.new ≡ forest.old }
    ensures less { budget.new.left ≤ budget.old.left }
    ensures known { IfOk result (λ found. IfSome found (λ p. p < forest.old)) }
{
    let (from, end) = forest.arcs_left(b);
    let to = end_of_look(from, end, budget.left);
    let (arc, found) = above.find(labels, b, Look { from, to, label });
    forest.set_current_arc(b, arc);
    budget.spend((arc.saturating_sub(from) as u64).saturating_add(1))?;
    Ok(found)
}

// Moves the walk over the children of b to the next one that has its label. Where there is none, b gets the next higher
// label, and its pairs are all to be looked at again.
fn check_children<A: Amount>(
    forest: &mut Forest<A>,
    labels: &mut Labels,
    b: u32,
    budget: &mut Budget,
) -> Result<(), PseudoflowFault>
    requires block { b < forest.old }
    requires labels { labels.old ≡ forest.old }
    ensures forest { forest.new ≡ forest.old }
    ensures labels { labels.new ≡ labels.old }
    ensures less { budget.new.left ≤ budget.old.left }
{
    let label = labels.at(b);
    while let Some(child) = forest.unvisited(b) {
        budget.spend(1)?;
        if labels.at(child) == label {
            return Ok(());
        }
        forest.pass_child(b, child);
    }
    labels.raise(b)?;
    forest.begin_arcs(b);
    Ok(())
}

impl<A: Amount, W: WaysUp> Search<A, W> {
    /// Merges a strong tree, and pushes its excess up. Where no arc is found over which it can be merged, it waits
    /// again: its root has got a higher label, as each block of the root's label that had no child of that label.
    pub(crate) fn process_root(
        &mut self,
        root: u32,
        budget: &mut Budget,
    ) -> Result<(), PseudoflowFault>
        requires { root < self.old }
        ensures kept { self.new ≡ self.old }
        ensures less { budget.new.left ≤ budget.old.left }
    {
        match self.find_merger(root, budget)? {
            Some(arc) => {
                self.forest.merge(arc, budget)?;
                self.push_excess(root, budget)
            }
            None => {
                self.highest = self.highest.max(self.labels.at(root));
                self.add_strong_root(root)
            }
        }
    }

    // Walks depth first over the blocks of the root's label until an arc is found over which the tree can be merged.
    fn find_merger(
        &mut self,
        root: u32,
        budget: &mut Budget,
    ) -> Result<Option<MergerArc>, PseudoflowFault>
        requires { root < self.old }
        ensures kept { self.new ≡ self.old }
        ensures less { budget.new.left ≤ budget.old.left }
        ensures known { IfOk result (λ found. IfSome found (λ arc. (arc.strong < self.old)
            × (arc.weak < self.old))) }
    {
        let mut at = root;
        let mut found = self.visit(at, budget)?;
        while found.is_none() {
            budget.spend(1)?;
            if let Some(child) = self.forest.unvisited(at) {
                self.forest.pass_child(at, child);
                at = child;
                found = self.visit(at, budget)?;
            } else if let Some(parent) = self.forest.parent(at) {
                at = parent;
                check_children(&mut self.forest, &mut self.labels, at, budget)?;
            } else {
                return Ok(None);
            }
        }
        Ok(found)
    }

    // Looks for an arc at a block, and begins the walk over its children where there is none.
    fn visit(
        &mut self,
        strong: u32,
        budget: &mut Budget,
    ) -> Result<Option<MergerArc>, PseudoflowFault>
        requires { strong < self.old }
        ensures kept { self.new ≡ self.old }
        ensures less { budget.new.left ≤ budget.old.left }
        ensures known { IfOk result (λ found. IfSome found (λ arc. (arc.strong < self.old)
            × (arc.weak < self.old))) }
    {
        let label = self.highest.checked_sub(1).ok_or(PseudoflowFault::Broken)?;
        self.forest.begin_visits(strong);
        let found = find_weak(
            &self.above,
            &self.labels,
            &mut self.forest,
            strong,
            label,
            budget,
        )?;
        if let Some(weak) = found {
            return Ok(Some(MergerArc { strong, weak }));
        }
        check_children(&mut self.forest, &mut self.labels, strong, budget)?;
        Ok(None)
    }
}
