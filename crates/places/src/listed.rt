//! A list of pairs as a precedence: the ways of a block lead to the blocks that the list has for it, in order.

use crate::Precedence;
use prec_file::Predecessors;

impl Precedence for Predecessors {
    ghost use Rattle.places.specs.Ways.{listed};

    ghost shown = { listed };

    fn len(&self) -> u32 {
        Predecessors::len(self)
    }

    fn ways(&self, b: u32) -> u32 {
        // proof: there are few pairs
        let _few = Predecessors::len(self);
        self.above(b).len() as u32
    }

    fn way(&self, b: u32, k: u32) -> Option<u32> {
        self.above(b).get(k as usize).copied()
    }

    fn has(&self, b: u32, p: u32) -> bool {
        self.find(b, p).is_some()
    }
}
