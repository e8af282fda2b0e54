//! Reads the chosen columns among the fields of a record, and counts its columns, so that a missing column is
//! noticed.

ghost use Rattle.std.specs.Prelude.{◌≡◌, ◌==◌, ◌≤◌, true, None, length, map, MatchResult};
ghost use Rattle.std.specs.List.{list_any};
ghost use Rattle.blocks_file.specs.Records as spec;
ghost use Rattle.blocks_file.specs.RowReading.{AreFilled, AreTaken, IsRow};

use crate::BlocksFault;
use fixed_worth::{Fields, LINE_BYTES, Micros};

fn is_chosen(columns: &[u32], column: u32) -> bool
    ensures { result ≡ list_any (λ c. c == column) columns.now }
{
    columns.iter().any(|c| *c == column)
}

// Puts a column's value wherever the column was chosen.
fn fill(row: &mut [Micros], columns: &[u32], column: u32, value: Micros)
    requires { length row.old ≡ length columns.now }
    ensures { AreFilled columns.now column value row.old row.new }
{
    for i in 0..columns.len() {
        if columns[i] == column {
            row[i] = value;
        }
    }
}

// Reads a column's field, where the column was chosen.
fn take_field(
    row: &mut [Micros],
    columns: &[u32],
    column: u32,
    field: &[u8],
    line: u64,
) -> Result<(), BlocksFault>
    requires { length row.old ≡ length columns.now }
    ensures { MatchResult result
        (λ _. AreTaken columns.now column field.now row.old row.new)
        (λ e. (e ≡ BlocksFault.Number line) × (list_any (λ c. c == column) columns.now ≡ true)
        × (spec.value_read field.now ≡ None)) }
{
    if !is_chosen(columns, column) {
        return Ok(());
    }
    let value = Micros::from_text(field).map_err(|_| BlocksFault::Number(line))?;
    fill(row, columns, column, value);
    Ok(())
}

// Reads the chosen columns among the fields: how many fields there are.
pub(crate) fn read_row(
    row: &mut [Micros],
    columns: &[u32],
    fields: Fields,
    line: u64,
) -> Result<u32, BlocksFault>
    requires size { length row.old ≡ length columns.now }
    requires few { length fields ≤ LINE_BYTES }
    ensures { MatchResult result
        (λ n. (n ≡ length fields.entry)
        × IsRow columns.now (map (λ f. f.text) fields.entry) n row.new)
        (λ e. (e ≡ BlocksFault.Number line)
        × (list_any (spec.is_bad (map (λ f. f.text) fields.entry)) columns.now ≡ true)) }
{
    let mut column = 0;
    for field in fields {
        take_field(row, columns, column, field.text, line)?;
        column += 1;
    }
    Ok(column)
}

// Whether each chosen column is below the number of columns.
pub(crate) fn are_there(columns: &[u32], count: u32) -> bool
    ensures { result ≡ spec.are_there columns.now count }
{
    columns.iter().all(|c| *c < count)
}
