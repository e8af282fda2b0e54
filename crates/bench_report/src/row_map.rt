//! Adds blocks to the rows of their bench and shell, which are kept in order, or tells that a sum doesn't fit.

ghost use Rattle.std.specs.Prelude.{◌≡◌, ◌^◌, ◌<◌, Some, OnOk, IfErr, MatchResult};
ghost use Rattle.std.specs.BTreeMap.{Updates, get};
ghost use Rattle.bench_report.specs.Benches.{by_bench};
ghost use Rattle.bench_report.specs.GrowingRows.{no_blocks, with_block, row_at, RowTakesBlock, AddFaultStands};

use crate::bench_row::BenchRow;
use crate::report_fault::ReportFault;
use std::collections::BTreeMap;

// Rows by their bench and shell. An ordered map takes a block in logarithmic time, whatever the heights are, and has
// the rows in the order of the table.
pub(crate) type Rows = BTreeMap<(i32, u32), BenchRow>;

// The row of a bench and a shell with no block.
fn empty_row(place: (i32, u32)) -> BenchRow
    ensures { result ≡ no_blocks place }
{
    let (z, shell) = place;
    BenchRow {
        z,
        shell,
        blocks: 0,
        tonnes: 0,
        worth: 0,
    }
}

// The row of a bench and a shell, as it is by now.
fn row_so_far(rows: &Rows, place: (i32, u32)) -> BenchRow
    ensures { result ≡ row_at (get by_bench rows.now) place }
{
    match rows.get(&place) {
        Some(row) => *row,
        None => empty_row(place),
    }
}

// The row with a block more.
fn with_one_more(row: BenchRow, tonnes: i128, worth: i128) -> Result<BenchRow, ReportFault>
    requires { row.blocks < 2 ^ 24 }
    ensures { MatchResult result
        (λ r. (r ≡ with_block row tonnes worth) × RowTakesBlock row tonnes worth)
        (λ e. (e ≡ ReportFault.TooLarge) × AddFaultStands row tonnes worth e) }
{
    let tonnes = row.tonnes.checked_add(tonnes).ok_or(ReportFault::TooLarge)?;
    let worth = row.worth.checked_add(worth).ok_or(ReportFault::TooLarge)?;
    Ok(BenchRow {
        z: row.z,
        shell: row.shell,
        blocks: row.blocks + 1,
        tonnes,
        worth,
    })
}

// Adds a block to the row of its bench and its shell.
pub(crate) fn add_block(
    rows: &mut Rows,
    place: (i32, u32),
    tonnes: i128,
    worth: i128,
) -> Result<(), ReportFault>
    requires { (row_at (get by_bench rows.old) place).blocks < 2 ^ 24 }
    ensures added { OnOk result (Updates by_bench rows.old rows.new place
        (Some (with_block (row_at (get by_bench rows.old) place) tonnes worth))) }
    ensures fits { OnOk result (RowTakesBlock (row_at (get by_bench rows.old) place) tonnes worth) }
    ensures refused { IfErr result
        (λ e. AddFaultStands (row_at (get by_bench rows.old) place) tonnes worth e) }
{
    let row = with_one_more(row_so_far(rows, place), tonnes, worth)?;
    match rows.insert(place, row) {
        Ok(_) => Ok(()),
        Err(_) => Err(ReportFault::NoMemory),
    }
}
