//! Reads settings and blocks, and predecessors where a text of their own lists them: gives a mine with prices and
//! tonnes, the factors of its shells and that of the report, or the first fault of an input.

ghost use Rattle.std.specs.Prelude.{◌≡◌, ◌+◌, ◌-◌, ◌^◌, ◌<◌, ◌↔◌, [], None, length, IfOk, IfSome, MatchResult, IsErrOf};
ghost use Rattle.settings_file.specs.Settings.{first_missing};
ghost use Rattle.settings_file.specs.Values.{AreFactors};
ghost use Rattle.mine_inputs.specs.Inputs.{IsMissing, ReadsSettingsText, SettingsReadFails};
ghost use Rattle.mine_inputs.specs.BlockTexts.{ReadsBlocks, BlocksReadFails};
ghost use Rattle.shells.specs.Prices.{priced_count, NoRevenueNegative};
ghost use Rattle.mine_inputs.specs.PricedTexts.{columns_said, place_beside, unused_by};
ghost use Rattle.mine_inputs.specs.SlopedTexts.{column_after};
ghost use Rattle.shell_engines.specs.Devices.{ForSeries, InputsCanCount, failures_in, input_failures, NoInputFailed, precedence_in};
ghost use Rattle.report_engines.specs.ReportTexts.{report_keys, ReportMineFails};
ghost use Rattle.report_engines.specs.ReportParts.{report_columns_by, report_list, IsSaid, SaidFails, PricedModelFails, IsReportRead, IsPricedModel, ReadsRests, RestsReadFail};

use blocks_file::BlockModel;
use counted_devices::CountedRead;
use engine_faults::EngineFault;
use held_pairs::{HeldPairs, Holder};
use mine_inputs::{
    PriceColumns, held_by_slopes, held_from, place_beside, price_columns, priced_blocks_from,
    priced_settings_from, prices_of, settings_from,
};
use series_pits::SeriesMine;
use settings_file::{Key, Settings};
use shell_engines::series_inputs::{SeriesInputs, factor_of, factors_of};
use shells::{Factor, Prices};
use std::alloc::Global;
use std::thread::Threads;

/// A mine that is reported.
#[derive(Drop)]
pub struct ReportMine {
    /// Its prices and its precedence, the factors of its shells, and that of the report.
    pub series: SeriesMine,
    /// Its blocks, with the columns of their prices and their tonnes.
    pub model: BlockModel,
    /// The columns of their prices.
    pub priced_by: PriceColumns,
    ghost priced: { IsPricedModel priced_by model series.prices },
}

// The columns of blocks that a report reads: last that of regions, where the settings name it.
#[derive(Drop)]
struct ReportColumns {
    prices: PriceColumns,
    tonnes: u32,
    region: Option<u32>,
}

// The columns of prices, where settings say all that a report needs.
fn prices_among(settings: &Settings, is_sloped: bool) -> Result<PriceColumns, EngineFault>
    ensures columns { MatchResult result
        (λ columns. (columns ≡ columns_said settings.now)
        × (first_missing (report_keys is_sloped settings.now) settings.now ≡ None))
        (IsMissing (report_keys is_sloped settings.now) settings.now) }
    ensures no_device { ¬ IsErrOf result EngineFault.Device }
{
    if is_sloped {
        price_columns(settings, &[Key::Slopes, Key::Tonnes, Key::Factors])
    } else {
        price_columns(settings, &[Key::Tonnes, Key::Factors])
    }
}

// The columns that settings name, where they say all that a report needs.
fn columns_of(settings: &Settings, is_sloped: bool) -> Result<ReportColumns, EngineFault>
    ensures columns { MatchResult result
        (λ columns. (columns ≡ report_columns_by settings.now)
        × (first_missing (report_keys is_sloped settings.now) settings.now ≡ None))
        (IsMissing (report_keys is_sloped settings.now) settings.now) }
    ensures no_device { ¬ IsErrOf result EngineFault.Device }
{
    let prices = prices_among(settings, is_sloped)?;
    let Some(tonnes) = settings.tonnes() else {
        unreachable!();
    };
    let region = settings.region();
    Ok(ReportColumns {
        prices,
        tonnes,
        region,
    })
}

// What settings say of a report.
#[derive(Drop)]
struct Said {
    settings: Settings,
    columns: ReportColumns,
    factors: Vec<Factor>,
    factor: Factor,
    ghost form: { AreFactors factors.items },
}

// The settings of a text. Use is made of slopes where they say who rests on whom.
fn settings_by<S: CountedRead>(
    alloc: Global,
    from: &mut S,
    is_sloped: bool,
) -> Result<Settings, EngineFault>
    requires { S.failed from.old < 2 ^ 64 - 1 }
    ensures read { IfSome (S.remaining from.old) (λ text. MatchResult result
        (ReadsSettingsText (unused_by is_sloped) text)
        (SettingsReadFails (unused_by is_sloped) text)) }
    ensures device { IsErrOf result EngineFault.Device
        ↔ (S.failed from.new ≡ S.failed from.old + 1) }
    ensures kept { ¬ IsErrOf result EngineFault.Device → S.failed from.new ≡ S.failed from.old }
{
    if is_sloped {
        settings_from(alloc, from, &[])
    } else {
        priced_settings_from(alloc, from)
    }
}

// What a text of settings says of a report.
fn said_from<S: CountedRead>(
    alloc: Global,
    settings: &mut S,
    is_sloped: bool,
) -> Result<Said, EngineFault>
    requires { S.failed settings.old < 2 ^ 64 - 1 }
    ensures read { IfSome (S.remaining settings.old) (λ s. MatchResult result
        (λ said. IsSaid is_sloped s said.settings said.columns said.factors.items said.factor)
        (SaidFails is_sloped s)) }
    ensures columns { IfOk result (λ said. said.columns ≡ report_columns_by said.settings) }
    ensures device { IsErrOf result EngineFault.Device
        ↔ (S.failed settings.new ≡ S.failed settings.old + 1) }
    ensures kept { ¬ IsErrOf result EngineFault.Device
        → S.failed settings.new ≡ S.failed settings.old }
{
    let settings = settings_by(alloc, settings, is_sloped)?;
    let columns = columns_of(&settings, is_sloped)?;
    let factors = factors_of(alloc, &settings)?;
    let factor = factor_of(&settings, factors.as_slice());
    Ok(Said {
        settings,
        columns,
        factors,
        factor,
    })
}

// The blocks of a text with these columns.
fn report_blocks_from<B: CountedRead>(
    alloc: Global,
    blocks: &mut B,
    columns: &ReportColumns,
) -> Result<BlockModel, EngineFault>
    requires { B.failed blocks.old < 2 ^ 64 - 1 }
    ensures read { IfSome (B.remaining blocks.old) (λ text. MatchResult result
        (ReadsBlocks (report_list columns.now) text)
        (BlocksReadFails (report_list columns.now) text)) }
    ensures columns { IfOk result
        (λ model. length model.columns ≡ length (report_list columns.now)) }
    ensures device { IsErrOf result EngineFault.Device
        ↔ (B.failed blocks.new ≡ B.failed blocks.old + 1) }
    ensures kept { ¬ IsErrOf result EngineFault.Device → B.failed blocks.new ≡ B.failed blocks.old }
{
    match columns.region {
        Some(region) => {
            priced_blocks_from(alloc, blocks, &columns.prices, &[columns.tonnes, region])
        }
        None => priced_blocks_from(alloc, blocks, &columns.prices, &[columns.tonnes]),
    }
}

// Blocks with the columns of their prices and their tonnes, and these prices.
#[derive(Drop)]
struct PricedModel {
    model: BlockModel,
    priced_by: PriceColumns,
    prices: Prices,
    ghost priced: { IsPricedModel priced_by model prices },
}

// The blocks of a text with these columns, and their prices.
fn priced_model_from<B: CountedRead>(
    alloc: Global,
    blocks: &mut B,
    columns: ReportColumns,
) -> Result<PricedModel, EngineFault>
    requires { B.failed blocks.old < 2 ^ 64 - 1 }
    ensures read { IfSome (B.remaining blocks.old) (λ text. MatchResult result
        (λ read. ReadsBlocks (report_list columns) text read.model)
        (PricedModelFails columns text)) }
    ensures priced_by { IfOk result (λ read. read.priced_by ≡ columns.prices) }
    ensures columns { IfOk result
        (λ read. length read.model.columns ≡ length (report_list columns)) }
    ensures device { IsErrOf result EngineFault.Device
        ↔ (B.failed blocks.new ≡ B.failed blocks.old + 1) }
    ensures kept { ¬ IsErrOf result EngineFault.Device → B.failed blocks.new ≡ B.failed blocks.old }
{
    let model = report_blocks_from(alloc, blocks, &columns)?;
    let ReportColumns { prices, .. } = columns;
    let priced_by = prices;
    // proof: none of the values of these columns is above 10^18 millionths either way
    let _columns = model.columns();
    let prices = prices_of(alloc, &model, &priced_by)?;
    Ok(PricedModel {
        model,
        priced_by,
        prices,
    })
}

// Who rests on whom: as a text of its own lists it, where there is one, and else by the slopes of settings.
fn rests_from<R: Threads + Sync, D: CountedRead>(
    rt: &R,
    alloc: Global,
    prec: &mut Option<D>,
    read: &PricedModel,
    settings: &Settings,
) -> Result<HeldPairs, EngineFault>
    requires room { failures_in prec.old D.failed < 2 ^ 64 - 1 }
    requires columns { IfSome
        (column_after (place_beside read.now.priced_by + 1) settings.now.region)
        (λ i. i < length read.now.model.columns) }
    ensures read { IfSome (precedence_in prec.old D.remaining) (λ p. MatchResult result
        (ReadsRests p settings.now read.now.priced_by read.now.model (priced_count read.now.prices))
        (RestsReadFail p settings.now read.now.priced_by read.now.model
        (priced_count read.now.prices))) }
    ensures revenues { NoRevenueNegative read.now.prices }
    ensures size { IfOk result (λ rests. rests.blocks ≡ priced_count read.now.prices) }
    ensures device { IsErrOf result EngineFault.Device
        ↔ (failures_in prec.new D.failed ≡ failures_in prec.old D.failed + 1) }
    ensures kept { ¬ IsErrOf result EngineFault.Device
        → failures_in prec.new D.failed ≡ failures_in prec.old D.failed }
{
    // proof: no revenue of prices is negative
    let n = read.prices.len();
    match prec {
        Some(prec) => held_from(rt, alloc, prec, n, None),
        None => {
            // proof: few columns are chosen
            let _columns = read.model.columns();
            let others = place_beside(&read.priced_by) + 1;
            held_by_slopes(alloc, &read.model, others, settings, Holder::Places)
        }
    }
}

/// The mine that settings and blocks denote, with a precedence where one is read; with its tonnes, the factors of the
/// settings and that of the report: the texts are read in this order, each to its end.
///
/// # Errors
/// In this order: `Settings` for a fault of this text or a missing key; `Blocks`; `Prices` for a negative revenue;
/// `Prec`, or where slopes stand in its place `Slope`. `Memory` where memory is refused, `Device` where a read fails.
pub fn report_mine_from<R: Threads + Sync, D: CountedRead>(
    rt: &R,
    alloc: Global,
    inputs: &mut SeriesInputs<D>,
) -> Result<ReportMine, EngineFault>
    requires { InputsCanCount inputs.old D.failed }
    ensures read { ForSeries inputs.old D.remaining (λ s b p. MatchResult result
        (λ mine. IsReportRead s b p mine.series.prices mine.series.predecessors
        mine.series.factors.items mine.model mine.priced_by mine.series.factor)
        (ReportMineFails s b p)) }
    ensures device { IsErrOf result EngineFault.Device
        → input_failures inputs.new D.failed ≡ input_failures inputs.old D.failed + 1 }
    ensures kept { ¬ IsErrOf result EngineFault.Device
        → NoInputFailed inputs.old inputs.new D.failed }
{
    let is_sloped = inputs.has_slopes();
    let said = said_from(alloc, &mut inputs.settings, is_sloped)?;
    let read = priced_model_from(alloc, &mut inputs.blocks, said.columns)?;
    let predecessors = rests_from(rt, alloc, &mut inputs.prec, &read, &said.settings)?;
    let series = SeriesMine {
        prices: read.prices,
        predecessors,
        factors: said.factors,
        factor: said.factor,
    };
    Ok(ReportMine {
        series,
        model: read.model,
        priced_by: read.priced_by,
    })
}
