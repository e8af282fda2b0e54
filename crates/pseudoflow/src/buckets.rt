//! The strong roots that wait, by their labels.

ghost use Rattle.std.specs.Prelude.{◌≡◌, ◌<◌, IfSome};

use crate::forest::Forest;
use net_part::{Amount, Link, NO_LINK, PseudoflowFault};
use std::alloc::{AllocError, Global};

// The first and the last root of a bucket.
#[derive(Clone, Copy)]
struct Ends {
    first: Link,
    last: Link,
}

const EMPTY: Ends = Ends {
    first: NO_LINK,
    last: NO_LINK,
};

/// For each label a bucket of strong roots, first in and first out. The forest has the link from each root to the one
/// after it.
#[derive(Drop)]
pub(crate) struct Buckets {
    ends: Vec<Ends>,
}

impl Buckets {
    /// Empty buckets for so many labels.
    pub(crate) fn new(alloc: Global, labels: usize) -> Result<Buckets, AllocError> {
        let ends = vec![in alloc; EMPTY; labels]?;
        Ok(Buckets { ends })
    }

    /// Whether a root waits at the label.
    pub(crate) fn has<A: Amount>(&self, forest: &Forest<A>, label: u32) -> bool {
        match self.ends.get(label as usize) {
            Some(ends) => forest.block(ends.first).is_some(),
            None => false,
        }
    }

    /// Puts a root into the bucket of a label, after the others.
    ///
    /// # Errors
    /// `Broken` where there is no such label.
    pub(crate) fn push<A: Amount>(
        &mut self,
        forest: &mut Forest<A>,
        label: u32,
        root: u32,
    ) -> Result<(), PseudoflowFault>
        requires { root < forest.old }
        ensures { forest.new ≡ forest.old }
    {
        if label as usize >= self.ends.len() {
            return Err(PseudoflowFault::Broken);
        }
        let Ends { first, last } = self.ends[label as usize];
        forest.set_next_root(root, NO_LINK);
        let link = Link::to(root);
        let first = match forest.block(last) {
            Some(last) => {
                forest.set_next_root(last, link);
                first
            }
            None => link,
        };
        self.ends[label as usize] = Ends { first, last: link };
        Ok(())
    }

    /// Takes the first root out of the bucket of a label.
    pub(crate) fn pop<A: Amount>(&mut self, forest: &Forest<A>, label: u32) -> Option<u32>
        ensures { IfSome result (λ root. root < forest.now) }
    {
        if label as usize >= self.ends.len() {
            return None;
        }
        let Ends { first, last } = self.ends[label as usize];
        let root = forest.block(first)?;
        let next = forest.next_root(root);
        self.ends[label as usize] = match forest.block(next) {
            Some(_) => Ends { first: next, last },
            None => EMPTY,
        };
        Some(root)
    }
}
