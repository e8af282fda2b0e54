//! Counts the records of a text, before memory for their blocks is taken; refuses a line that is too long, and too
//! many records.

ghost use Rattle.std.specs.Prelude.{◌≡◌, ◌≤◌, not, Some, None, length, MatchResult};
ghost use Rattle.fixed_worth.specs.Text.{fields_of};
ghost use Rattle.fixed_worth.specs.Record.{is_skipped};
ghost use Rattle.blocks_file.specs.Records as spec;

use crate::BlocksFault;
use fixed_worth::{Fields, LINE_BYTES, Lines, MOST_BLOCKS, is_remark};

fn is_record(line: &[u8]) -> bool
    requires { length line.now ≤ LINE_BYTES }
    ensures { result ≡ not (is_skipped (fields_of line.now)) }
{
    Fields::new(line)
        .next()
        .is_some_and(|field| !is_remark(field.text))
}

// Counts the records of a text that has no line that is too long, and not too many records.
pub(crate) fn count_records(text: &[u8]) -> Result<u32, BlocksFault>
    ensures { let all = spec.lines_in text.now in MatchResult result
        (λ n. (spec.long_fault all ≡ None) × (spec.many_fault all ≡ None)
        × (n ≡ length (spec.record_line_numbers all)) × (n ≤ MOST_BLOCKS))
        (λ e. spec.early_fault all ≡ Some e) }
{
    let mut lines = Lines::new(text);
    let mut count: u64 = 0;
    // the line of the first record that is too many
    let mut extra: u64 = 0;
    loop {
        match lines.next_line() {
            Ok(Some(line)) => {
                let number = lines.number();
                if is_record(line) {
                    if count == MOST_BLOCKS as u64 {
                        extra = number;
                    }
                    count += 1;
                }
            }
            Ok(None) => return if count > MOST_BLOCKS as u64 {
                Err(BlocksFault::TooMany(extra))
            } else {
                Ok(count as u32)
            },
            Err(_) => return Err(BlocksFault::Text(lines.number() + 1)),
        }
    }
}
