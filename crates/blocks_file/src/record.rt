//! Reads a line of a `.blocks` text: gives its block, its place and the values of the chosen columns, nothing for a
//! line to skip, or what is wrong with it.

ghost use Rattle.std.specs.Prelude.{◌≡◌, ◌≤◌, false, Some, None, length, MatchResult, MatchOption, IsTrue};
ghost use Rattle.fixed_worth.specs.Text.{fields_of};
ghost use Rattle.fixed_worth.specs.Record.{is_skipped};
ghost use Rattle.blocks_file.specs.Records as spec;
ghost use Rattle.blocks_file.specs.RowReading.{HoldsValues};

use crate::BlocksFault;
use crate::place::{Place, read_coordinate};
use crate::row::{are_there, read_row};
use fixed_worth::{Fields, LINE_BYTES, Micros, is_remark, whole};

// A record without its columns.
#[derive(Clone, Copy)]
pub(crate) struct Record {
    pub block: u64,
    pub place: Place,
}

// The block and the place that four fields are.
fn read_head(block: &[u8], x: &[u8], y: &[u8], z: &[u8]) -> Option<Record>
    ensures { MatchOption result
        (spec.head_reads block.now x.now y.now z.now ≡ false)
        (λ r. IsTrue (spec.head_reads block.now x.now y.now z.now)
        × (r.block ≡ spec.number_of block.now)
        × (r.place ≡ spec.place_at x.now y.now z.now)) }
{
    let block = whole(block).ok()?;
    let x = read_coordinate(x)?;
    let y = read_coordinate(y)?;
    let z = read_coordinate(z)?;
    Some(Record {
        block,
        place: Place { x, y, z },
    })
}

// Reads a line that may be a record, and puts the values of the chosen columns into the row.
pub(crate) fn read_record(
    row: &mut [Micros],
    columns: &[u32],
    text: &[u8],
    line: u64,
) -> Result<Option<Record>, BlocksFault>
    requires short { length text.now ≤ LINE_BYTES }
    requires size { length row.old ≡ length columns.now }
    ensures { MatchResult result
        (λ given. MatchOption given (IsTrue (is_skipped (fields_of text.now)))
        (λ r. (is_skipped (fields_of text.now) ≡ false)
        × (spec.blocks_shape_fault line columns.now (fields_of text.now) ≡ None)
        × (r.block ≡ spec.block_of (fields_of text.now))
        × (r.place ≡ spec.place_of_record (fields_of text.now))
        × HoldsValues columns.now (spec.columns_of (fields_of text.now)) row.new))
        (λ e. (is_skipped (fields_of text.now) ≡ false)
        × (spec.blocks_shape_fault line columns.now (fields_of text.now) ≡ Some e)) }
{
    let mut fields = Fields::new(text);
    let Some(block) = fields.next() else {
        return Ok(None);
    };
    if is_remark(block.text) {
        return Ok(None);
    }
    let x = fields.next().ok_or(BlocksFault::Text(line))?;
    let y = fields.next().ok_or(BlocksFault::Text(line))?;
    let z = fields.next().ok_or(BlocksFault::Text(line))?;
    let record = read_head(block.text, x.text, y.text, z.text).ok_or(BlocksFault::Number(line))?;
    let count = read_row(row, columns, fields, line)?;
    if are_there(columns, count) {
        Ok(Some(record))
    } else {
        Err(BlocksFault::NoColumn(line))
    }
}
