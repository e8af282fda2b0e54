//! Gives the rows of the bench table of a mine's shells, with the blocks' worths at one factor.

ghost use Rattle.std.specs.Prelude.{IfOk, OnOk};
ghost use Rattle.shells.specs.Prices.{worths_at};
ghost use Rattle.shells.specs.Series.{IsSeries};
ghost use Rattle.bench_report.specs.Benches.{IsBenchTable};
ghost use Rattle.report_engines.specs.ReportParts.{IsPricedModel, AreSmallAmounts, blocks_with};

use bench_report::{BenchRow, ReportFault, rows};
use blocks_file::BlockModel;
use mine_inputs::{PriceColumns, place_beside};
use shells::{Factor, Series};
use std::alloc::{AllocError, Global};
use std::thread::Threads;

/// The blocks of a mine with the columns of their prices and their tonnes, and the shells that they are in.
#[derive(Clone, Copy, Drop)]
pub struct ShellBlocks<'a> {
    /// The blocks.
    pub model: &'a BlockModel,
    /// The columns of their prices.
    pub priced_by: &'a PriceColumns,
    /// The shells.
    pub series: &'a Series,
}

/// The rows of the bench table of blocks in shells, where these are the amounts of the blocks that its worths add up.
/// At most 2^24 blocks have tonnes and amounts that are small beside 128 bits, so that no sum overflows.
///
/// # Errors
/// Memory was refused.
pub fn rows_of(
    alloc: Global,
    blocks: &ShellBlocks<'_>,
    amounts: &[i128],
) -> Result<Vec<BenchRow>, AllocError>
    requires priced { IsPricedModel
        blocks.now.priced_by.now blocks.now.model.now blocks.now.series.now.prices }
    requires small { AreSmallAmounts blocks.now.model.now amounts.now }
    ensures rows { IfOk result (λ rows. IsBenchTable (blocks_with
        blocks.now.model.now blocks.now.priced_by.now blocks.now.series.now amounts.now)
        rows.items) }
    ensures series { OnOk result (IsSeries blocks.now.series.now) }
{
    // proof: at each factor the blocks with a shell of at most that factor are the best pit
    let _factors = blocks.series.factors();
    // proof: there are at most 2^24 blocks
    let _blocks = blocks.model.len();
    let tonnes = place_beside(blocks.priced_by);
    match rows(alloc, blocks.model, blocks.series, tonnes, amounts) {
        Ok(rows) => Ok(rows),
        Err(ReportFault::NoMemory) => Err(AllocError),
        Err(ReportFault::WrongModel) => unreachable!(),
        Err(ReportFault::TooLarge) => unreachable!(),
    }
}

/// The rows of the bench table of blocks in shells, with the worths of the blocks at a factor.
///
/// # Errors
/// Memory was refused.
pub fn rows_at(
    rt: &(impl Threads + Sync),
    alloc: Global,
    blocks: &ShellBlocks<'_>,
    factor: Factor,
) -> Result<Vec<BenchRow>, AllocError>
    requires { IsPricedModel
        blocks.now.priced_by.now blocks.now.model.now blocks.now.series.now.prices }
    ensures rows { IfOk result (λ rows. IsBenchTable (blocks_with
        blocks.now.model.now blocks.now.priced_by.now blocks.now.series.now
        (worths_at blocks.now.series.now.prices factor)) rows.items) }
    ensures series { OnOk result (IsSeries blocks.now.series.now) }
{
    // proof: a factor is at most 10,000
    let _thousandths = factor.get();
    let worths = blocks.series.prices().worths_at(rt, alloc, factor)?;
    rows_of(alloc, blocks, worths.as_slice())
}
