//! Gathers the places and the chosen values of blocks, record by record, and refuses an unknown block and a second
//! record of one.

ghost use Rattle.std.specs.Prelude.{◌≡◌, ℕ, ◌+◌, ◌*◌, ◌≤◌, Bool, true, false, pos, Some, None, length, replicate, slice_set, slice_index_or, IfOk, MatchResult};
ghost use Rattle.blocks_file.specs.Records as spec;
ghost use Rattle.blocks_file.specs.RowReading.{ArePut};

use crate::BlocksFault;
use crate::limits::MOST_COLUMNS;
use crate::place::Place;
use fixed_worth::{MOST_BLOCKS, Micros};
use std::alloc::{AllocError, Global};

// Which blocks have had a record, their places, and the values of the chosen columns, those of a block together.
#[derive(Drop)]
pub(crate) struct Kept {
    pub seen: Vec<bool>,
    pub places: Vec<Place>,
    pub values: Vec<Micros>,
}

// So many amounts of zero.
pub(crate) fn zeros(alloc: Global, count: usize) -> Result<Vec<Micros>, AllocError>
    ensures { IfOk result (λ values. values.items ≡ replicate count (pos 0)) }
{
    let Some(zero) = Micros::new(0) else {
        unreachable!()
    };
    vec![in alloc; zero; count]
}

// Puts a row after so many values.
fn put_row(values: &mut [Micros], from: usize, row: &[Micros])
    requires { from + length row.now ≤ length values.old }
    ensures { ArePut from row.now values.old values.new }
{
    for i in 0..row.len() {
        values[from + i] = row[i];
    }
}

impl Kept {
    // No block has had a record.
    pub(crate) fn new(alloc: Global, n: u32, width: u32) -> Result<Kept, AllocError>
        requires { (n ≤ MOST_BLOCKS) × (width ≤ MOST_COLUMNS) }
        ensures { IfOk result (λ kept. (kept.seen.items ≡ replicate n false)
            × (length kept.places.items ≡ n) × (length kept.values.items ≡ n * width)) }
    {
        let seen = vec![in alloc; false; n as usize]?;
        let places = vec![in alloc; Place { x: 0, y: 0, z: 0 }; n as usize]?;
        let values = zeros(alloc, n as usize * width as usize)?;
        Ok(Kept {
            seen,
            places,
            values,
        })
    }

    // Takes the record of a block whose first this is.
    pub(crate) fn keep(
        &mut self,
        block: u64,
        place: Place,
        row: &[Micros],
        line: u64,
    ) -> Result<(), BlocksFault>
        requires few { (length self.old.seen.items ≤ MOST_BLOCKS)
            × (length row.now ≤ MOST_COLUMNS) }
        requires places { length self.old.places.items ≡ length self.old.seen.items }
        requires values { length self.old.values.items
            ≡ length self.old.seen.items * length row.now }
        ensures { let had : ℕ → Bool = λ b. slice_index_or self.old.seen.items b false in
            MatchResult result
            (λ _. (spec.blocks_block_fault (length self.old.seen.items) had line block ≡ None)
            × (self.new.seen.items ≡ slice_set self.old.seen.items block true)
            × (self.new.places.items ≡ slice_set self.old.places.items block place)
            × ArePut (block * length row.now) row.now self.old.values.items self.new.values.items)
            (λ e. spec.blocks_block_fault (length self.old.seen.items) had line block ≡ Some e) }
    {
        if block >= self.seen.len() as u64 {
            return Err(BlocksFault::UnknownBlock(line));
        }
        let at = block as usize;
        if self.seen[at] {
            return Err(BlocksFault::Repeated(line));
        }
        self.seen[at] = true;
        self.places[at] = place;
        put_row(self.values.as_mut_slice(), at * row.len(), row);
        Ok(())
    }
}
