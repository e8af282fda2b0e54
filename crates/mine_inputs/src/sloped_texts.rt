//! Reads two texts: settings that list slopes by region, and blocks with their places, their prices and their regions.
//! The slopes say which block rests on which, so that no precedence is read.

ghost use Rattle.std.specs.Prelude.{◌≡◌, ◌+◌, ◌-◌, ◌^◌, ◌<◌, ◌↔◌, ℕ, [], None, length, map, IfOk, IfSome, MatchResult, IsErrOf};
ghost use Rattle.mine_inputs.specs.FaultStands.{MineFails};
ghost use Rattle.mine_inputs.specs.Inputs.{AreSlopedTexts};
ghost use Rattle.mine_inputs.specs.Mines.{sloped_texts};
ghost use Rattle.mine_inputs.specs.BlockTexts.{BlocksReadFails, ReadsBlocks};
ghost use Rattle.mine_inputs.specs.PricedTexts.{columns_beside};
ghost use Rattle.mine_inputs.specs.SlopedTexts.{column_after, columns_for, slopes_said};

use crate::columns_of_prices::{PriceColumns, price_columns};
use crate::priced_inputs::{priced_blocks_from, settings_from};
use blocks_file::BlockModel;
use counted_devices::CountedRead;
use engine_faults::EngineFault;
use settings_file::{Key, Settings};
use std::alloc::Global;

// Settings that list slopes, the columns of prices that they name, and the blocks with these columns and with that of
// regions.
#[derive(Drop)]
pub(crate) struct SlopedTexts {
    pub(crate) settings: Settings,
    pub(crate) columns: PriceColumns,
    pub(crate) model: BlockModel,
}

// The settings and the blocks of a mine.
pub(crate) fn sloped_texts_from<D: CountedRead>(
    alloc: Global,
    settings: &mut D,
    blocks: &mut D,
) -> Result<SlopedTexts, EngineFault>
    requires settings_room { D.failed settings.old < 2 ^ 64 - 1 }
    requires blocks_room { D.failed blocks.old < 2 ^ 64 - 1 }
    ensures read { (factor : ℕ)
        → IfSome (D.remaining settings.old) (λ s. IfSome (D.remaining blocks.old) (λ b.
        MatchResult result
        (λ read. AreSlopedTexts s b read.settings read.columns read.model)
        (MineFails (sloped_texts s b factor)))) }
    ensures columns { IfOk result (λ read. length read.model.columns
        ≡ length (columns_beside read.columns (columns_for read.settings.region))) }
    ensures device { IsErrOf result EngineFault.Device
        → D.failed settings.new + D.failed blocks.new
        ≡ D.failed settings.old + D.failed blocks.old + 1 }
    ensures kept { ¬ IsErrOf result EngineFault.Device
        → (D.failed settings.new ≡ D.failed settings.old)
        × (D.failed blocks.new ≡ D.failed blocks.old) }
{
    let settings = settings_from(alloc, settings, &[])?;
    let columns = price_columns(&settings, &[Key::Slopes])?;
    let model = regional_blocks_from(alloc, blocks, &columns, settings.region())?;
    Ok(SlopedTexts {
        settings,
        columns,
        model,
    })
}

/// The blocks of a text with the columns of their prices, and last that of their regions where there is one.
///
/// # Errors
/// Those of [`priced_blocks_from`].
pub fn regional_blocks_from<R: CountedRead>(
    alloc: Global,
    from: &mut R,
    columns: &PriceColumns,
    region: Option<u32>,
) -> Result<BlockModel, EngineFault>
    requires { R.failed from.old < 2 ^ 64 - 1 }
    ensures read { IfSome (R.remaining from.old) (λ text. MatchResult result
        (ReadsBlocks (columns_beside columns.now (columns_for region)) text)
        (BlocksReadFails (columns_beside columns.now (columns_for region)) text)) }
    ensures columns { IfOk result
        (λ model. length model.columns ≡ length (columns_beside columns.now (columns_for region))) }
    ensures device { IsErrOf result EngineFault.Device
        ↔ (R.failed from.new ≡ R.failed from.old + 1) }
    ensures kept { ¬ IsErrOf result EngineFault.Device → R.failed from.new ≡ R.failed from.old }
{
    match region {
        Some(column) => priced_blocks_from(alloc, from, columns, &[column]),
        None => priced_blocks_from(alloc, from, columns, &[]),
    }
}

// The place of the column of regions after so many others, where there is one.
pub(crate) fn column_after(others: u32, region: Option<u32>) -> Option<u32>
    ensures { result ≡ column_after others region }
{
    match region {
        Some(_) => Some(others),
        None => None,
    }
}

// The offsets of each region that settings list, and none where they list none.
pub(crate) fn slopes_of(settings: &Settings) -> &[Vec<(i32, i32, i32)>]
    ensures { map (λ w. w.items) result.now ≡ slopes_said settings.now }
{
    match settings.slopes() {
        Some(slopes) => slopes,
        None => &[],
    }
}
