//! Makes the index by block: for each block the number of its first pair, where the pairs are in order.

ghost use Rattle.std.specs.Prelude.{◌≡◌, ℕ, ◌<◌, ◌≤◌, All, IfOk, length, slice_index, vec_capacity};
ghost use Rattle.prec_file.specs.Rests.{IsKnown, IsRising, from_at};
ghost use Rattle.prec_file.specs.Indexes.{IsStarts};

use crate::limits::MOST_PAIRS;
use fixed_worth::MOST_BLOCKS;
use std::alloc::{AllocError, Global};

// Puts a number until there are so many.
pub(crate) fn fill(list: &mut Vec<u32>, size: usize, number: u32)
    requires space { size ≤ vec_capacity list.old }
    requires fewer { length list.old.items ≤ size }
    ensures size { length list.new.items ≡ size }
    ensures space { vec_capacity list.new ≡ vec_capacity list.old }
    ensures kept { (i : ℕ) → i < length list.old.items
        → slice_index list.new.items i ≡ slice_index list.old.items i }
    ensures filled { (i : ℕ) → length list.old.items ≤ i → i < size
        → slice_index list.new.items i ≡ number }
{
    while list.len() < size {
        list.push_reserved(number);
    }
}

// At each block up to n, the number of its first pair, where the pairs are in order.
pub(crate) fn firsts_of(alloc: Global, n: u32, pairs: &[(u32, u32)]) -> Result<Vec<u32>, AllocError>
    requires blocks { n ≤ MOST_BLOCKS }
    requires few { length pairs.now ≤ MOST_PAIRS }
    requires known { All (IsKnown n) pairs.now }
    requires rising { IsRising pairs.now }
    ensures { IfOk result (λ v. IsStarts (from_at pairs.now) (length pairs.now) n v.items) }
{
    let size = n as usize + 1;
    let mut firsts: Vec<u32> = Vec::with_capacity(alloc, size)?;
    for (k, (b, _)) in pairs.iter().enumerate() {
        let beyond = *b as usize + 1;
        if firsts.len() < beyond {
            fill(&mut firsts, beyond, k as u32);
        }
    }
    fill(&mut firsts, size, pairs.len() as u32);
    Ok(firsts)
}
