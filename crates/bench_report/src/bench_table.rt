//! Makes the bench table of a model and a series of shells: the blocks, tonnes and worth of each shell on each bench,
//! or why there is no table.

ghost use Rattle.std.specs.Prelude.{◌≡◌, ◌<◌, ◌↔◌, [], pos, length, IsTrue, IfOk, OnOk, IfErr, MatchResult, slice_index_or};
ghost use Rattle.std.specs.BTreeMap.{get, values, IsOrdered};
ghost use Rattle.blocks_file.specs.Denotes.{origin};
ghost use Rattle.bench_report.specs.Benches.{reported_blocks, by_bench, IsBenchTable};
ghost use Rattle.bench_report.specs.Faults.{SameLengths, AllSumsFit, ReportFaultStands};
ghost use Rattle.bench_report.specs.GrowingRows.{IsTallied, TallyFaultStands};

use crate::bench_row::BenchRow;
use crate::report_fault::ReportFault;
use crate::row_map::{Rows, add_block};
use blocks_file::BlockModel;
use shells::Series;
use std::alloc::Global;
use std::collections::BTreeMap;

// Whether the model, the series and the worths are of the same number of blocks.
fn has_lengths(model: &BlockModel, series: &Series, worths: &[i128]) -> bool
    ensures { IsTrue result ↔ SameLengths model.now series.now worths.now }
{
    let blocks = model.len();
    series.prices().len() == blocks && worths.len() == blocks as usize
}

// The rows in the order of their benches and shells.
fn in_order(alloc: Global, rows: Rows) -> Result<Vec<BenchRow>, ReportFault>
    ensures value { IfOk result (λ v. v.items ≡ values rows) }
    ensures ordered { OnOk result (IsOrdered by_bench rows) }
    ensures only_memory { IfErr result (λ e. e ≡ ReportFault.NoMemory) }
{
    // proof: the keys of every map ascend
    let _few = rows.len();
    Ok(rows.into_values().collect(alloc)?)
}

// The bench and the shell of a block that has one.
fn bench_and_shell(model: &BlockModel, b: u32, shell: u32) -> (i32, u32)
    requires { b < model.now.blocks }
    ensures { result ≡ ((slice_index_or model.now.places b origin).z, shell) }
{
    (model.place(b).z, shell)
}

// The tonnes of a block, by the column that has them.
fn tonnes_of(model: &BlockModel, column: u32, b: u32) -> i128
    requires column { column < length model.now.columns }
    requires known { b < model.now.blocks }
    ensures { result ≡ slice_index_or (slice_index_or model.now.columns column []) b (pos 0) }
{
    i128::from(model.column(column, b).get())
}

// The worth of a block.
fn worth_of(worths: &[i128], b: u32) -> i128
    requires { b < length worths.now }
    ensures { result ≡ slice_index_or worths.now b (pos 0) }
{
    worths[b as usize]
}

// The rows of all blocks that have a shell, by bench and shell. Blocks are added in the order of their numbers, so that
// a sum overflows 128 bits here where one in that order does.
fn tally(
    alloc: Global,
    model: &BlockModel,
    series: &Series,
    tonnes: u32,
    worths: &[i128],
) -> Result<Rows, ReportFault>
    requires column { tonnes < length model.now.columns }
    requires lengths { SameLengths model.now series.now worths.now }
    ensures { let m = reported_blocks model.now series.now tonnes worths.now in MatchResult result
        (λ rows. IsTallied m m.blocks (get by_bench rows))
        (λ e. TallyFaultStands m e) }
{
    let mut rows = BTreeMap::new(alloc);
    for b in 0..model.len() {
        if let Some(shell) = series.shell_of(b) {
            let place = bench_and_shell(model, b, shell);
            let mass = tonnes_of(model, tonnes, b);
            let worth = worth_of(worths, b);
            add_block(&mut rows, place, mass, worth)?;
        }
    }
    Ok(rows)
}

/// The bench table: a row for each bench and shell that have a block, by bench and then by shell, both ascending.
///
/// A block's bench is its height, and its shell is that of the series; a block without a shell is in no row. `tonnes`
/// is the place, among the columns that were chosen when the blocks were read, of the column with their tonnes; it must
/// be below the number of these. `worths` has a worth in billionths for each block, at whatever price the report is
/// made.
///
/// # Errors
/// `WrongModel` where the model, the series and the worths aren't of the same number of blocks; then `TooLarge` where
/// the tonnes or the worths of a row, added in the order of the blocks, leave 128 bits on the way. `NoMemory` where
/// memory is refused.
pub fn rows(
    alloc: Global,
    model: &BlockModel,
    series: &Series,
    tonnes: u32,
    worths: &[i128],
) -> Result<Vec<BenchRow>, ReportFault>
    requires { tonnes < length model.now.columns }
    ensures { let m = reported_blocks model.now series.now tonnes worths.now in MatchResult result
        (λ rows. SameLengths model.now series.now worths.now × AllSumsFit m
        × IsBenchTable m rows.items)
        (λ e. ReportFaultStands model.now series.now worths.now m e) }
{
    if !has_lengths(model, series, worths) {
        return Err(ReportFault::WrongModel);
    }
    let by_place = tally(alloc, model, series, tonnes, worths)?;
    let rows = in_order(alloc, by_place)?;
    Ok(rows)
}
