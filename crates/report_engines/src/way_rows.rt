//! Gives the bench table of a mine's shells with the tonnes that go each way at one factor.

ghost use Rattle.std.specs.Prelude.{◌≡◌, ◌<◌, true, map, length, IfOk};
ghost use Rattle.std.specs.List.{range_with_len};
ghost use Rattle.shells.specs.Prices.{priced_count, way_at, worths_at};
ghost use Rattle.bench_report.specs.declared.bench_row.BenchRow.{BenchRow};
ghost use Rattle.bench_report.specs.Benches.{IsBenchTable};
ghost use Rattle.bench_report.specs.WayTonnes.{bench_text, way_count};
ghost use Rattle.report_engines.specs.ReportParts.{IsPricedModel, AreWayColumns, IsWayColumn, blocks_with, tonnes_if, tonnes_going, ways_among};

use crate::bench_rows::{ShellBlocks, rows_of};
use bench_report::{BenchRow, report_text, way_table};
use blocks_file::BlockModel;
use mine_inputs::{PriceColumns, place_beside};
use shells::{Factor, Prices};
use std::alloc::{AllocError, Global};

// How many ways prices have: each has two columns.
fn way_number(priced_by: &PriceColumns) -> u32
    ensures { result ≡ ways_among priced_by.now }
{
    match priced_by {
        PriceColumns::Plain { .. } => 0,
        PriceColumns::Treated { .. } => place_beside(priced_by) / 2,
    }
}

// Which way each block goes at a factor.
fn ways_at(alloc: Global, prices: &Prices, factor: Factor) -> Result<Vec<Option<u32>>, AllocError>
    ensures { IfOk result (λ v. v.items
        ≡ map (way_at prices.now factor) (range_with_len 0 (priced_count prices.now))) }
{
    let mut ways: Vec<Option<u32>> = Vec::new(alloc);
    for b in 0..prices.len() {
        ways.push(prices.way_of(b, factor))?;
    }
    Ok(ways)
}

// The tonnes of a block where it goes this way, and nothing otherwise.
fn tonnes_of(model: &BlockModel, column: u32, b: u32, goes: Option<u32>, way: u32) -> i128
    requires column { column < length model.now.columns }
    requires known { b < model.now.blocks }
    ensures { result ≡ tonnes_if model.now column b goes way }
{
    match goes {
        Some(place) if place == way => i128::from(model.column(column, b).get()),
        _ => 0,
    }
}

// The tonnes of each block that goes this way, and nothing for each other.
fn tonnes_that_go(
    alloc: Global,
    model: &BlockModel,
    column: u32,
    ways: &[Option<u32>],
    way: u32,
) -> Result<Vec<i128>, AllocError>
    requires column { column < length model.now.columns }
    requires each { length ways.now ≡ model.now.blocks }
    ensures { IfOk result (λ v. v.items
        ≡ map (tonnes_going model.now column ways.now way) (range_with_len 0 model.now.blocks)) }
{
    let mut tonnes: Vec<i128> = Vec::new(alloc);
    for b in 0..model.len() {
        tonnes.push(tonnes_of(model, column, b, ways[b as usize], way))?;
    }
    Ok(tonnes)
}

// The worths of rows.
fn worths_of(alloc: Global, rows: &[BenchRow]) -> Result<Vec<i128>, AllocError>
    ensures { IfOk result (λ v. v.items ≡ map (λ (r : BenchRow). r.worth) rows.now) }
{
    let mut worths: Vec<i128> = Vec::new(alloc);
    for i in 0..rows.len() {
        worths.push(rows[i].worth)?;
    }
    Ok(worths)
}

// The tonnes of each row that go this way: those of the row of its place in the table that adds them up.
fn way_column(
    alloc: Global,
    blocks: &ShellBlocks<'_>,
    ways: &[Option<u32>],
    way: u32,
) -> Result<Vec<i128>, AllocError>
    requires priced { IsPricedModel
        blocks.now.priced_by.now blocks.now.model.now blocks.now.series.now.prices }
    requires each { length ways.now ≡ blocks.now.model.now.blocks }
    ensures { IfOk result (λ v. IsWayColumn
        blocks.now.model.now blocks.now.priced_by.now blocks.now.series.now ways.now way v.items) }
{
    // proof: at most 2^16 columns are chosen
    let _columns = blocks.model.columns();
    let tonnes = place_beside(blocks.priced_by);
    let going = tonnes_that_go(alloc, blocks.model, tonnes, ways, way)?;
    let rows = rows_of(alloc, blocks, going.as_slice())?;
    let column = worths_of(alloc, rows.as_slice())?;
    Ok(column)
}

// The tonnes of each row by each way.
fn way_columns(
    alloc: Global,
    blocks: &ShellBlocks<'_>,
    ways: &[Option<u32>],
) -> Result<Vec<Vec<i128>>, AllocError>
    requires priced { IsPricedModel
        blocks.now.priced_by.now blocks.now.model.now blocks.now.series.now.prices }
    requires each { length ways.now ≡ blocks.now.model.now.blocks }
    ensures { IfOk result (λ v. AreWayColumns
        blocks.now.model.now blocks.now.priced_by.now blocks.now.series.now ways.now
        (ways_among blocks.now.priced_by.now) v.items) }
{
    let mut columns: Vec<Vec<i128>> = Vec::new(alloc);
    for way in 0..way_number(blocks.priced_by) {
        let column = way_column(alloc, blocks, ways, way)?;
        columns.push(column)?;
    }
    Ok(columns)
}

// The text of the bench table with the tonnes by way at a factor.
fn text_with_ways(
    alloc: Global,
    blocks: &ShellBlocks<'_>,
    factor: Factor,
    rows: &[BenchRow],
) -> Result<Vec<u8>, AllocError>
    requires priced { IsPricedModel
        blocks.now.priced_by.now blocks.now.model.now blocks.now.series.now.prices }
    requires table { IsBenchTable (blocks_with
        blocks.now.model.now blocks.now.priced_by.now blocks.now.series.now
        (worths_at blocks.now.series.now.prices factor)) rows.now }
    ensures { IfOk result (λ text. text.items ≡ bench_text true (blocks_with
        blocks.now.model.now blocks.now.priced_by.now blocks.now.series.now
        (worths_at blocks.now.series.now.prices factor))
        (way_at blocks.now.series.now.prices factor)
        (way_count blocks.now.series.now.prices) rows.now) }
{
    let ways = ways_at(alloc, blocks.series.prices(), factor)?;
    let by_way = way_columns(alloc, blocks, ways.as_slice())?;
    let text = way_table(alloc, rows, by_way.as_slice())?;
    Ok(text)
}

/// The text of the bench table of blocks in shells, with the worths of the blocks at a factor; and where ways are
/// wanted, with the tonnes that go each way at that factor.
///
/// # Errors
/// Memory was refused.
pub fn text_of(
    alloc: Global,
    blocks: &ShellBlocks<'_>,
    factor: Factor,
    rows: &[BenchRow],
    ways: bool,
) -> Result<Vec<u8>, AllocError>
    requires priced { IsPricedModel
        blocks.now.priced_by.now blocks.now.model.now blocks.now.series.now.prices }
    requires table { IsBenchTable (blocks_with
        blocks.now.model.now blocks.now.priced_by.now blocks.now.series.now
        (worths_at blocks.now.series.now.prices factor)) rows.now }
    ensures { IfOk result (λ text. text.items ≡ bench_text ways (blocks_with
        blocks.now.model.now blocks.now.priced_by.now blocks.now.series.now
        (worths_at blocks.now.series.now.prices factor))
        (way_at blocks.now.series.now.prices factor)
        (way_count blocks.now.series.now.prices) rows.now) }
{
    if ways {
        text_with_ways(alloc, blocks, factor, rows)
    } else {
        report_text(alloc, rows)
    }
}
