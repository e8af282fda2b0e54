//! Reads settings and the columns of blocks that they name: gives each block's revenues and charges, or the first
//! fault of an input.

ghost use Rattle.std.specs.Prelude.{◌≡◌, ◌+◌, ◌-◌, ◌*◌, ◌^◌, ◌<◌, ◌≤◌, ◌↔◌, [], ◌++◌, length, None, IfOk, IfSome, OnOk, MatchResult, IsErrOf};
ghost use Rattle.settings_file.specs.Settings.{first_said};
ghost use Rattle.mine_inputs.specs.Limits.{IsWithinLimit};
ghost use Rattle.mine_inputs.specs.PricedTexts.{slope_keys, first_unused, way_list, column_list, columns_beside, values_of, ways_from, first_columns};
ghost use Rattle.mine_inputs.specs.BlockTexts.{ReadsBlocks, BlocksReadFails};
ghost use Rattle.mine_inputs.specs.Inputs.{ReadsSettingsText, SettingsReadFails, ReadsPrices, PricesReadFail, ModelPricesFail};

use crate::columns_of_prices::{PriceColumns, are_few};
use crate::inputs::{blocks_from, unread};
use blocks_file::BlockModel;
use counted_devices::{CountedRead, read_whole};
use engine_faults::{EngineFault, Problem};
use fixed_worth::{MOST_BYTES, Micros};
use settings_file::{Key, MOST_WAYS, Settings, SettingsFault, WayColumns, read_settings};
use shells::{Prices, Way};
use std::alloc::{AllocError, Global};

/// The settings of a text, where the command makes no use of these keys. Whether the keys are there that it needs is
/// asked later.
///
/// # Errors
/// `Settings` for more than 2^32 bytes, for a fault of [`read_settings`], or for the first key that is there and of
/// which no use is made: revenue, cost and processing beside ways, and then these keys.
/// `Memory` where memory is refused, `Device` where a read fails.
pub fn settings_from<R: CountedRead>(
    alloc: Global,
    from: &mut R,
    unused: &[Key],
) -> Result<Settings, EngineFault>
    requires { R.failed from.old < 2 ^ 64 - 1 }
    ensures read { IfSome (R.remaining from.old) (λ text. MatchResult result
        (ReadsSettingsText unused.now text)
        (SettingsReadFails unused.now text)) }
    ensures device { IsErrOf result EngineFault.Device
        ↔ (R.failed from.new ≡ R.failed from.old + 1) }
    ensures kept { ¬ IsErrOf result EngineFault.Device → R.failed from.new ≡ R.failed from.old }
{
    let too_long = EngineFault::Settings(Problem::InputTooLong);
    let text = read_whole(alloc, from, MOST_BYTES).map_err(|fault| unread(fault, too_long))?;
    settings_in(alloc, text.as_slice(), unused)
}

// What a text says as settings, where no use is made of these keys.
fn settings_in(alloc: Global, text: &[u8], unused: &[Key]) -> Result<Settings, EngineFault>
    requires { IsWithinLimit text.now }
    ensures read { MatchResult result
        (ReadsSettingsText unused.now text.now)
        (SettingsReadFails unused.now text.now) }
    ensures no_device { ¬ IsErrOf result EngineFault.Device }
{
    let settings = read_settings(alloc, text)?;
    match first_unused(&settings, unused) {
        Some(key) => Err(EngineFault::Settings(Problem::Fault(SettingsFault::Unused(key)))),
        None => Ok(settings),
    }
}

// The first key of which no use is made and at which settings say something: where they list ways these stand in the
// place of revenue, cost and processing, and those come before the keys of the command.
fn first_unused(settings: &Settings, unused: &[Key]) -> Option<Key>
    ensures { result ≡ first_unused unused.now settings.now }
{
    if settings.says(Key::Ways) {
        if settings.says(Key::Revenue) {
            return Some(Key::Revenue);
        }
        if settings.says(Key::Cost) {
            return Some(Key::Cost);
        }
        if settings.says(Key::Processing) {
            return Some(Key::Processing);
        }
    }
    first_said(settings, unused)
}

// The first of these keys at which settings say something.
fn first_said(settings: &Settings, keys: &[Key]) -> Option<Key>
    ensures { result ≡ first_said keys.now settings.now }
{
    for key in keys {
        if settings.says(*key) {
            return Some(*key);
        }
    }
    None
}

/// The settings of a mine with prices, whose precedence is a text of its own: no use is made of slopes by region.
///
/// # Errors
/// Those of [`settings_from`], with the keys `slopes`, `region` and `up`.
pub fn priced_settings_from<R: CountedRead>(
    alloc: Global,
    from: &mut R,
) -> Result<Settings, EngineFault>
    requires { R.failed from.old < 2 ^ 64 - 1 }
    ensures read { IfSome (R.remaining from.old) (λ text. MatchResult result
        (ReadsSettingsText slope_keys text)
        (SettingsReadFails slope_keys text)) }
    ensures device { IsErrOf result EngineFault.Device
        ↔ (R.failed from.new ≡ R.failed from.old + 1) }
    ensures kept { ¬ IsErrOf result EngineFault.Device → R.failed from.new ≡ R.failed from.old }
{
    settings_from(alloc, from, &[Key::Slopes, Key::Region, Key::Up])
}

/// The prices of the blocks of a text, in these columns.
///
/// # Errors
/// In this order: `Blocks`, as of [`blocks_from`]; `Prices` for a negative revenue. `Memory` where memory is refused,
/// `Device` where a read fails.
pub fn prices_from<R: CountedRead>(
    alloc: Global,
    from: &mut R,
    columns: &PriceColumns,
) -> Result<Prices, EngineFault>
    requires { R.failed from.old < 2 ^ 64 - 1 }
    ensures read { IfSome (R.remaining from.old) (λ text. MatchResult result
        (ReadsPrices columns.now text)
        (PricesReadFail columns.now text)) }
    ensures device { IsErrOf result EngineFault.Device
        ↔ (R.failed from.new ≡ R.failed from.old + 1) }
    ensures kept { ¬ IsErrOf result EngineFault.Device → R.failed from.new ≡ R.failed from.old }
{
    let model = priced_blocks_from(alloc, from, columns, &[])?;
    prices_of(alloc, &model, columns)
}

// Puts the columns of ways after those that are chosen, of each its revenue and then its processing.
fn push_ways(chosen: &mut Vec<u32>, ways: &[WayColumns]) -> Result<(), AllocError>
    ensures { OnOk result (chosen.new.items ≡ chosen.old.items ++ way_list ways.now) }
{
    for way in ways {
        chosen.push(way.revenue)?;
        chosen.push(way.processing)?;
    }
    Ok(())
}

// The numbers of the columns of prices, and after them the others.
fn columns_beside(
    alloc: Global,
    columns: &PriceColumns,
    others: &[u32],
) -> Result<Vec<u32>, AllocError>
    ensures { IfOk result (λ v. v.items ≡ columns_beside columns.now others.now) }
{
    let mut chosen = Vec::new(alloc);
    match columns {
        PriceColumns::Plain { revenue, cost } => {
            chosen.push(*revenue)?;
            chosen.push(*cost)?;
        }
        PriceColumns::Treated { ways, mining } => {
            push_ways(&mut chosen, ways.as_slice())?;
            chosen.push(*mining)?;
        }
    }
    chosen.extend_from_slice(others)?;
    Ok(chosen)
}

/// The blocks of a text with the columns of their prices and, after these, at most two others.
///
/// # Errors
/// Those of [`blocks_from`].
pub fn priced_blocks_from<R: CountedRead>(
    alloc: Global,
    from: &mut R,
    columns: &PriceColumns,
    others: &[u32],
) -> Result<BlockModel, EngineFault>
    requires few { length others.now ≤ 2 }
    requires room { R.failed from.old < 2 ^ 64 - 1 }
    ensures read { IfSome (R.remaining from.old) (λ text. MatchResult result
        (ReadsBlocks (columns_beside columns.now others.now) text)
        (BlocksReadFails (columns_beside columns.now others.now) text)) }
    ensures columns { IfOk result
        (λ model. length model.columns ≡ length (columns_beside columns.now others.now)) }
    ensures device { IsErrOf result EngineFault.Device
        ↔ (R.failed from.new ≡ R.failed from.old + 1) }
    ensures kept { ¬ IsErrOf result EngineFault.Device → R.failed from.new ≡ R.failed from.old }
{
    // proof: with two others there are at most 19 columns
    are_few(columns);
    let chosen = columns_beside(alloc, columns, others)?;
    blocks_from(alloc, from, chosen.as_slice())
}

/// The prices of the blocks of a model in the first of its chosen columns: the revenues and the costs, or of each way
/// its revenues and what its processing costs, and then what mining costs. The numbers of the columns aren't looked at.
///
/// # Errors
/// `Prices` for a negative revenue. `Memory` where memory is refused.
pub fn prices_of(
    alloc: Global,
    model: &BlockModel,
    columns: &PriceColumns,
) -> Result<Prices, EngineFault>
    requires { length (column_list columns.now) ≤ length model.now.columns }
    ensures prices { MatchResult result
        (λ prices. prices ≡ first_columns columns.now model.now)
        (ModelPricesFail columns.now model.now) }
    ensures no_device { ¬ IsErrOf result EngineFault.Device }
{
    match columns {
        PriceColumns::Plain { .. } => {
            let revenue = column_of(alloc, model, 0)?;
            let cost = column_of(alloc, model, 1)?;
            Ok(Prices::new(revenue, cost)?)
        }
        PriceColumns::Treated { ways, .. } => {
            let count = ways.as_slice().len() as u32;
            let ways = ways_of(alloc, model, count)?;
            let mining = column_of(alloc, model, 2 * count)?;
            Ok(Prices::ways(ways, mining)?)
        }
    }
}

// The ways that the first of the chosen columns of a model make, so many of them.
fn ways_of(alloc: Global, model: &BlockModel, count: u32) -> Result<Vec<Way>, AllocError>
    requires { (count ≤ MOST_WAYS) × (2 * count ≤ length model.now.columns) }
    ensures { IfOk result (λ v. v.items ≡ ways_from count model.now) }
{
    let mut ways: Vec<Way> = Vec::new(alloc);
    for i in 0..count {
        let revenue = column_of(alloc, model, 2 * i)?;
        let processing = column_of(alloc, model, 2 * i + 1)?;
        ways.push(Way::new(revenue, processing))?;
    }
    Ok(ways)
}

// The values of a chosen column, block by block.
fn column_of(alloc: Global, model: &BlockModel, i: u32) -> Result<Vec<Micros>, AllocError>
    requires { i < length model.now.columns }
    ensures { IfOk result (λ v. v.items ≡ values_of model.now i) }
{
    let mut values: Vec<Micros> = Vec::new(alloc);
    for b in 0..model.len() {
        values.push(model.column(i, b))?;
    }
    Ok(values)
}
