//! Guesses where in the index of places the block at an offset is found, from where it was found last. A wrong guess
//! costs time and changes no answer.

use std::alloc::{AllocError, Global};

// For how many levels guesses are kept apart. Where blocks are missing, the way to an offset in the index differs from
// level to level, and levels follow one another in a file in which z runs fastest.
const LEVELS: usize = 128;

// The place in the index of a block, and that at which a lookup from it ended.
#[derive(Clone, Copy)]
struct Lookup {
    from: usize,
    to: usize,
}

// The last lookup of each offset from each level. The next one is expected as far on in the index as its block is from
// the last one's, which is so in a full box whatever the order of the blocks. Nothing rests on a good guess but time,
// and no contract says what it is.
#[derive(Drop)]
pub(crate) struct Guesses {
    offsets: usize,
    last: Vec<Lookup>,
    // the place in the index of the block that is looked from, and where the lookups of its level begin
    from: usize,
    first: usize,
}

// The slot of a level: levels that follow one another have their own.
fn slot_of(z: i32) -> usize {
    (z as i64 + 2_147_483_648) as usize % LEVELS
}

impl Guesses {
    // So far each lookup of so many offsets is expected to end at the block itself.
    pub(crate) fn new(alloc: Global, offsets: usize) -> Result<Guesses, AllocError> {
        let none = Lookup { from: 0, to: 0 };
        let last = vec![in alloc; none; offsets.saturating_mul(LEVELS)]?;
        Ok(Guesses {
            offsets,
            last,
            from: 0,
            first: 0,
        })
    }

    // Looks from a block on a level from now on, which stands at this place in the index.
    pub(crate) fn stand_on(&mut self, from: usize, z: i32) {
        self.from = from;
        self.first = slot_of(z).wrapping_mul(self.offsets);
    }

    // Where the block at offset i is expected in the index.
    pub(crate) fn at(&self, i: usize) -> usize {
        match self.last.get(self.first.wrapping_add(i)) {
            Some(last) => last.to.saturating_add(self.from).saturating_sub(last.from),
            None => self.from,
        }
    }

    // Notes where the lookup of offset i ended.
    pub(crate) fn note(&mut self, i: usize, to: usize) {
        if let Some(last) = self.last.get_mut(self.first.wrapping_add(i)) {
            *last = Lookup {
                from: self.from,
                to,
            };
        }
    }
}
