//! Marks the blocks that have had a record, and refuses an unknown block and a second record of one.

ghost use Rattle.std.specs.Prelude.{◌≡◌, ℕ, ◌<◌, Bool, true, false, Some, None, length, slice_set, slice_index_or, MatchResult};
ghost use Rattle.upit_file.specs.Body as spec;

use crate::upit_fault::UpitFault;

// The place of a block whose first record this is, which is marked.
pub(crate) fn first_place(seen: &mut Vec<bool>, block: u64, line: u64) -> Result<usize, UpitFault>
    ensures { let had : ℕ → Bool = λ b. slice_index_or seen.old.items b false in MatchResult result
        (λ place. (place ≡ block) × (place < length seen.old.items)
        × (spec.upit_block_fault (length seen.old.items) had line block ≡ None)
        × (seen.new.items ≡ slice_set seen.old.items block true))
        (λ e. spec.upit_block_fault (length seen.old.items) had line block ≡ Some e) }
{
    if block >= seen.len() as u64 {
        return Err(UpitFault::UnknownBlock(line));
    }
    let place = block as usize;
    if seen[place] {
        return Err(UpitFault::Repeated(line));
    }
    seen[place] = true;
    Ok(place)
}
