//! Walks over a tree block after block, each before those that hang under it, or past all of these.

ghost use Rattle.std.specs.Prelude.{◌<◌, ◌≤◌, IfOk, IfSome};

use crate::forest::Forest;
use net_part::{Amount, Budget, PseudoflowFault};

impl<A: Amount> Forest<A> {
    /// The block after b in its tree, in preorder: each block stands before those that hang under it.
    pub(crate) fn next_in_preorder(
        &self,
        b: u32,
        budget: &mut Budget,
    ) -> Result<Option<u32>, PseudoflowFault>
        requires { b < self.now }
        ensures less { budget.new.left ≤ budget.old.left }
        ensures known { IfOk result (λ found. IfSome found (λ c. c < self.now)) }
    {
        match self.first_child(b) {
            Some(child) => Ok(Some(child)),
            None => self.next_beyond(b, budget),
        }
    }

    /// The block in preorder after b and all that hang under it.
    pub(crate) fn next_beyond(
        &self,
        b: u32,
        budget: &mut Budget,
    ) -> Result<Option<u32>, PseudoflowFault>
        requires { b < self.now }
        ensures less { budget.new.left ≤ budget.old.left }
        ensures known { IfOk result (λ found. IfSome found (λ c. c < self.now)) }
    {
        let mut at = b;
        while let Some(parent) = self.parent(at) {
            budget.spend(1)?;
            if let Some(sibling) = self.next_sibling(at) {
                return Ok(Some(sibling));
            }
            at = parent;
        }
        Ok(None)
    }
}
