//! Reads the text of a design: gives a mark for each block of the model, set where a line names the block, or the
//! first fault of the text.

ghost use Rattle.std.specs.Prelude.{◌≡◌, ◌≤◌, false, length, slice_index_or, None, Some, MatchResult};
ghost use Rattle.fixed_worth.specs.Text.{fields_of};
ghost use Rattle.design_file.specs.Records.{AreMarks, UnlessDesignMemory, design_fault_of, design_marks_after, design_record_fault};

use crate::DesignFault;
use crate::named_block::{block_word, is_open_after, is_passed};
use fixed_worth::{LINE_BYTES, Lines, MOST_BLOCKS, whole};
use std::alloc::Global;

// Reads a line, and marks its block.
fn read_line(marks: &mut [bool], line: &[u8], n: u32, number: u64) -> Result<(), DesignFault>
    requires short { length line.now ≤ LINE_BYTES }
    requires all { length marks.old ≡ n }
    ensures { MatchResult result
        (λ _. (design_record_fault n (λ b. slice_index_or marks.old b false) number
        (fields_of line.now) ≡ None)
        × (marks.new ≡ design_marks_after (fields_of line.now) marks.old))
        (λ e. design_record_fault n (λ b. slice_index_or marks.old b false) number
        (fields_of line.now) ≡ Some e) }
{
    if is_passed(line) {
        return Ok(());
    }
    let word = match block_word(line) {
        Some(word) => word,
        None => return Err(DesignFault::Text(number)),
    };
    let block = match whole(word) {
        Ok(block) => block,
        Err(_) => return Err(DesignFault::Number(number)),
    };
    if block >= n as u64 {
        return Err(DesignFault::UnknownBlock(number));
    }
    if marks[block as usize] {
        return Err(DesignFault::Repeated(number));
    }
    marks[block as usize] = true;
    Ok(())
}

/// The blocks that a design has, of n blocks, at most 2^24: a mark for each block.
///
/// Each line names a block, as `b` or as `PIT b`. Passed over are lines without a field, those whose first field begins
/// with `%`, and those that a certificate has beside its pit, by their first field: `PITCERT`, `BLOCKS`, `PRICE`,
/// `GROUP`, `SOURCE`, `REST`, `SINK` and `END`. The lines may come in any order, but after a line `PITCERT` a line
/// `END` must follow.
///
/// # Errors
/// That of the first faulty line, and of its faults the first in this order: `Text` for more than 65,536 bytes or
/// another form, `Number`, `UnknownBlock`, `Repeated`. `Truncated` where no line is faulty and a certificate that
/// begins in the text has no line `END`. `NoMemory` where memory for the marks is refused.
pub fn read_design(alloc: Global, text: &[u8], n: u32) -> Result<Vec<bool>, DesignFault>
    requires { n ≤ MOST_BLOCKS }
    ensures { MatchResult result
        (λ marks. (design_fault_of n text.now ≡ None) × AreMarks n text.now marks.items)
        (λ e. UnlessDesignMemory e (design_fault_of n text.now ≡ Some e)) }
{
    let mut marks = vec![in alloc; false; n as usize].map_err(|_| DesignFault::NoMemory)?;
    let mut lines = Lines::new(text);
    let mut is_open = false;
    loop {
        match lines.next_line() {
            Ok(Some(line)) => {
                let number = lines.number();
                read_line(marks.as_mut_slice(), line, n, number)?;
                is_open = is_open_after(is_open, line);
            }
            Ok(None) if is_open => return Err(DesignFault::Truncated),
            Ok(None) => return Ok(marks),
            Err(_) => return Err(DesignFault::Text(lines.number() + 1)),
        }
    }
}
