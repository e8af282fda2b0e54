//! A row for the best pit at a factor, its blocks and its worth, and the lines of such rows.

ghost use Rattle.std.specs.Prelude.{◌≡◌, Some, IfOk};
ghost use Rattle.std.specs.String.{string_bytes};
ghost use Rattle.series_pits.specs.ShellTable.{row_text, shell_row_line, shell_table_text};

use fixed_worth::Nanos;
use std::alloc::{AllocError, Global};
use std::fmt;

/// What the best pit of a mine at a factor has.
#[derive(Clone, Copy, Debug, PartialEq, Eq)]
pub struct ShellRow {
    /// The factor, in thousandths.
    pub factor: u32,
    /// How many blocks the pit has.
    pub blocks: u32,
    /// What they are worth at the factor, in billionths.
    pub worth: i128,
}

impl fmt::Display for ShellRow {
    ghost output = { λ row. Some (row_text row) };

    fn fmt<W: fmt::Write>(&self, f: &mut fmt::Formatter<W>) -> fmt::Result {
        let worth = Nanos(self.worth);
        write!(f, "SHELL {} {} {worth}", self.factor, self.blocks)
    }
}

// The line of a row.
fn line_of(alloc: Global, row: ShellRow) -> Result<String, AllocError>
    ensures { IfOk result (λ line. string_bytes line ≡ shell_row_line row) }
{
    format!(in alloc; "{row}\n")
}

/// The lines of the rows, one after the other.
///
/// # Errors
/// Memory was refused.
pub fn table_of(alloc: Global, rows: &[ShellRow]) -> Result<Vec<u8>, AllocError>
    ensures { IfOk result (λ text. text.items ≡ shell_table_text rows.now) }
{
    let mut text: Vec<u8> = Vec::new(alloc);
    for i in 0..rows.len() {
        let line = line_of(alloc, rows[i])?;
        text.extend_from_slice(line.as_bytes())?;
    }
    Ok(text)
}
