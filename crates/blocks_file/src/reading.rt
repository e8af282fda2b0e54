//! Reads a `.blocks` text: gives its blocks with their places and the chosen columns, or the first fault of the text.

ghost use Rattle.std.specs.Prelude.{◌≡◌, ◌≤◌, [], Some, None, Err, length, MatchResult};
ghost use Rattle.blocks_file.specs.Records as spec;
ghost use Rattle.blocks_file.specs.Denotes.{DenotesModel};
ghost use Rattle.blocks_file.specs.RowReading.{AreKept};

use crate::counting::count_records;
use crate::kept::{Kept, zeros};
use crate::record::read_record;
use crate::{BlockModel, BlocksFault, MOST_COLUMNS};
use fixed_worth::{Lines, MOST_BLOCKS};
use std::alloc::Global;

// Reads the records of a text that has n of them.
fn read_records(alloc: Global, text: &[u8], columns: &[u32], n: u32) -> Result<Kept, BlocksFault>
    requires few { length columns.now ≤ MOST_COLUMNS }
    requires short { spec.long_fault (spec.lines_in text.now) ≡ None }
    requires counted { n ≡ length (spec.record_line_numbers (spec.lines_in text.now)) }
    requires bound { n ≤ MOST_BLOCKS }
    ensures { let all = spec.lines_in text.now in MatchResult result
        (λ kept. (spec.first_blocks_fault n columns.now [] all ≡ None)
        × AreKept n columns.now all kept.places.items kept.values.items)
        (λ e. spec.UnlessBlocksMemory e (spec.first_blocks_fault n columns.now [] all ≡ Some e)) }
{
    let mut kept = Kept::new(alloc, n, columns.len() as u32).map_err(|_| BlocksFault::NoMemory)?;
    let mut row = zeros(alloc, columns.len()).map_err(|_| BlocksFault::NoMemory)?;
    let mut lines = Lines::new(text);
    loop {
        match lines.next_line() {
            Ok(Some(line)) => {
                let number = lines.number();
                let Some(record) = read_record(row.as_mut_slice(), columns, line, number)? else {
                    continue;
                };
                kept.keep(record.block, record.place, row.as_slice(), number)?;
            }
            Ok(None) => return Ok(kept),
            // counting has met no line that is too long
            Err(_) => unreachable!(),
        }
    }
}

/// The blocks of a text, with their places and at most [`MOST_COLUMNS`] chosen columns. Column 0 is the first field
/// after `z`; a column may be chosen twice, and none need be.
///
/// A record is `block x y z` and any number of columns. Lines without a field, and those whose first field begins with
/// `%`, are skipped. The blocks of a text are those from 0 up to the number of its records, each once, in any order.
///
/// # Errors
/// `Text` for the first line of more than 65,536 bytes; then `TooMany` for the record after the 2^24th. Otherwise that
/// of the first faulty line, and of its faults the first in this order: `Text` for fewer than four fields, `Number`,
/// `NoColumn`, `UnknownBlock`, `Repeated`. `NoMemory` where memory is refused, which is asked for once no line is too
/// long and no record too many.
pub fn read_blocks(alloc: Global, text: &[u8], columns: &[u32]) -> Result<BlockModel, BlocksFault>
    requires { length columns.now ≤ MOST_COLUMNS }
    ensures value { MatchResult result
        (λ m. (spec.blocks_fault_of columns.now text.now ≡ None)
        × DenotesModel columns.now text.now m)
        (λ e. spec.UnlessBlocksMemory e (spec.blocks_fault_of columns.now text.now ≡ Some e)) }
    ensures early { (fault : BlocksFault) → spec.early_fault (spec.lines_in text.now) ≡ Some fault
        → result ≡ Err fault }
{
    let n = count_records(text)?;
    let kept = read_records(alloc, text, columns, n)?;
    Ok(BlockModel::of(n, columns.len() as u32, kept.places, kept.values))
}
