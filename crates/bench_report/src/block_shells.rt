//! Gives the shell of each block of a series as comma-separated values.

ghost use Rattle.std.specs.Prelude.{◌≡◌, ◌++◌, Some, None, IfOk, OnOk};
ghost use Rattle.shells.specs.Prices.{priced_count};
ghost use Rattle.shells.specs.Series.{shell_at, IsSeries};
ghost use Rattle.bench_report.specs.BlockShells.{block_shell_line, block_table_text};
ghost use Rattle.bench_report.specs.Written.{IsReady, written_bytes};

use crate::written_table::put_fields;
use csv::{Writer, WriterBuilder};
use shells::Series;
use std::alloc::{AllocError, Global};

// Writes the record of a block that has a shell.
fn put_held(alloc: Global, wtr: &mut Writer<Vec<u8>>, b: u32, factor: u32) -> Result<(), AllocError>
    requires ready { IsReady wtr.old }
    ensures ready { OnOk result (IsReady wtr.new) }
    ensures text { OnOk result
        (written_bytes wtr.new ≡ written_bytes wtr.old ++ block_shell_line b (Some factor)) }
{
    let block = format!(in alloc; "{b}")?;
    let shell = format!(in alloc; "{factor}")?;
    put_fields(wtr, &[block.as_bytes(), shell.as_bytes()])
}

// Writes the record of a block that has none.
fn put_unheld(alloc: Global, wtr: &mut Writer<Vec<u8>>, b: u32) -> Result<(), AllocError>
    requires ready { IsReady wtr.old }
    ensures ready { OnOk result (IsReady wtr.new) }
    ensures text { OnOk result
        (written_bytes wtr.new ≡ written_bytes wtr.old ++ block_shell_line b None) }
{
    let block = format!(in alloc; "{b}")?;
    put_fields(wtr, &[block.as_bytes(), b""])
}

// Writes the record of a block.
fn put_block(
    alloc: Global,
    wtr: &mut Writer<Vec<u8>>,
    b: u32,
    shell: Option<u32>,
) -> Result<(), AllocError>
    requires ready { IsReady wtr.old }
    ensures ready { OnOk result (IsReady wtr.new) }
    ensures text { OnOk result
        (written_bytes wtr.new ≡ written_bytes wtr.old ++ block_shell_line b shell) }
{
    match shell {
        Some(factor) => put_held(alloc, wtr, b, factor),
        None => put_unheld(alloc, wtr, b),
    }
}

/// The shell of each block of a series as comma-separated values: a line with the names of the columns, and a line for
/// each block, ascending. The shell is in thousandths, and empty where the block has none.
///
/// # Errors
/// Memory was refused.
pub fn block_shells_text(alloc: Global, series: &Series) -> Result<Vec<u8>, AllocError>
    ensures text { IfOk result (λ v. v.items ≡ block_table_text
        (shell_at series.now.shells) (priced_count series.now.prices)) }
    ensures series { OnOk result (IsSeries series.now) }
{
    // proof: what every series is
    let _factors = series.factors();
    let mut wtr = WriterBuilder::new().from_writer(Vec::new(alloc));
    put_fields(&mut wtr, &[b"block", b"shell"])?;
    for b in 0..series.prices().len() {
        put_block(alloc, &mut wtr, b, series.shell_of(b))?;
    }
    match wtr.into_inner() {
        Ok(text) => Ok(text),
        Err(_) => Err(AllocError),
    }
}
