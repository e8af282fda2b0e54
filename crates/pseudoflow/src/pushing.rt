//! Pushing the excess of a merged tree up to its new root.

ghost use Rattle.std.specs.Prelude.{◌≡◌, ◌<◌, ◌≤◌};

use crate::forest::{Direction, Forest};
use crate::search::Search;
use net_part::{Amount, Budget, PseudoflowFault, WaysUp};

// Pushes as much of a block's excess to its parent as their arc's residual capacity takes.
fn push_to_parent<A: Amount>(
    forest: &mut Forest<A>,
    block: u32,
    parent: u32,
) -> Result<(), PseudoflowFault>
    requires block { block < forest.old }
    requires parent { parent < forest.old }
    ensures { forest.new ≡ forest.old }
{
    let excess = forest.excess(block);
    let flow = forest.flow(block);
    let (pushed, flow) = match forest.direction(block) {
        Direction::Up => (excess, flow.sum(excess)?),
        Direction::Down => {
            let pushed = excess.lesser(flow);
            (pushed, flow.difference(pushed)?)
        }
    };
    forest.set_flow(block, flow);
    forest.set_excess(parent, forest.excess(parent).sum(pushed)?);
    forest.set_excess(block, excess.difference(pushed)?);
    Ok(())
}

impl<A: Amount, W: WaysUp> Search<A, W> {
    /// Pushes the excess of a block up to the root of its tree. A block that keeps some of it, since its arc's residual
    /// capacity is less, is split off: it becomes a strong root.
    pub(crate) fn push_excess(
        &mut self,
        from: u32,
        budget: &mut Budget,
    ) -> Result<(), PseudoflowFault>
        requires { from < self.old }
        ensures kept { self.new ≡ self.old }
        ensures less { budget.new.left ≤ budget.old.left }
    {
        let mut block = from;
        // whether the block had an excess before it got this one: such a root waits in its bucket already
        let mut waits = true;
        while self.forest.excess(block).is_positive() {
            let Some(parent) = self.forest.parent(block) else {
                return if waits {
                    Ok(())
                } else {
                    self.add_strong_root(block)
                };
            };
            budget.spend(1)?;
            waits = self.forest.excess(parent).is_positive();
            push_to_parent(&mut self.forest, block, parent)?;
            if self.forest.excess(block).is_positive() {
                self.forest.cut(block);
                self.add_strong_root(block)?;
            }
            block = parent;
        }
        Ok(())
    }
}
