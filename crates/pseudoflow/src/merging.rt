//! Merging a strong tree with the tree of a block on which one of its blocks rests.

ghost use Rattle.std.specs.Prelude.{◌≡◌, ◌<◌, ◌≤◌};

use crate::finding::MergerArc;
use crate::forest::{Direction, Forest};
use net_part::{Amount, Budget, PseudoflowFault};

impl<A: Amount> Forest<A> {
    /// Hangs the strong tree of a merger arc under its weak block. The tree is turned over: each arc from the strong
    /// block up to the old root keeps what it carries, and its two blocks change places.
    pub(crate) fn merge(
        &mut self,
        arc: MergerArc,
        budget: &mut Budget,
    ) -> Result<(), PseudoflowFault>
        requires strong { arc.strong < self.old }
        requires weak { arc.weak < self.old }
        ensures kept { self.new ≡ self.old }
        ensures less { budget.new.left ≤ budget.old.left }
    {
        let mut block = arc.strong;
        let mut parent = arc.weak;
        let mut direction = Direction::Up;
        let mut flow = A::zero();
        loop {
            budget.spend(1)?;
            let old_parent = self.parent(block);
            let old_direction = self.direction(block);
            let old_flow = self.flow(block);
            self.cut(block);
            self.link(parent, block, direction);
            self.set_flow(block, flow);
            let Some(next) = old_parent else {
                return Ok(());
            };
            parent = block;
            direction = old_direction.reversed();
            flow = old_flow;
            block = next;
        }
    }
}
