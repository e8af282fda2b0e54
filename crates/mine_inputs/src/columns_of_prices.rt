//! Which columns of blocks have their prices, as settings name them.

ghost use Rattle.std.specs.Prelude.{◌≡◌, ◌≤◌, ◌∷◌, [], ◌++◌, None, unwrap_or, MatchResult, IsErrOf};
ghost use Rattle.settings_file.specs.Settings.{names_mill, first_missing, is_said};
ghost use Rattle.mine_inputs.specs.PricedTexts.{keys_by, columns_said, place_beside};
ghost use Rattle.mine_inputs.specs.Inputs.{IsMissing};

use crate::way_list::WayList;
use engine_faults::{EngineFault, Problem};
use settings_file::{Key, Settings, SettingsFault, WayColumns};

/// The columns of blocks that have their prices.
#[derive(Drop)]
pub enum PriceColumns {
    /// The numbers of the columns of revenues and of costs.
    Plain { revenue: u32, cost: u32 },
    /// Where blocks are treated: the columns of each way, and the number of that of what it costs to mine them.
    Treated { ways: WayList, mining: u32 },
}

/// The columns of prices that settings name: those of ways where they list them, else of the one way of a mill where
/// they name one of its charges, else of revenues and costs.
///
/// # Errors
/// `Settings` with the first key that is missing, of those that the prices need and these others: where ways are listed
/// the others, mining; of a mill revenue, the others, processing, mining; and else revenue, cost, the others.
pub fn price_columns(settings: &Settings, others: &[Key]) -> Result<PriceColumns, EngineFault>
    ensures columns { MatchResult result
        (λ columns. (columns ≡ columns_said settings.now)
        × (first_missing
        (keys_by (is_said settings.now Key.Ways) (names_mill settings.now) others.now)
        settings.now ≡ None))
        (IsMissing
        (keys_by (is_said settings.now Key.Ways) (names_mill settings.now) others.now)
        settings.now) }
    ensures no_device { ¬ IsErrOf result EngineFault.Device }
{
    if let Some(ways) = settings.ways() {
        let mining = mining_column(settings, others)?;
        let ways = WayList::of(ways);
        return Ok(PriceColumns::Treated { ways, mining });
    }
    let Some(revenue) = settings.revenue() else {
        return Err(missing(Key::Revenue));
    };
    if settings.names_mill() {
        let (processing, mining) = mill_columns(settings, others)?;
        let ways = WayList::of(&[WayColumns {
            revenue,
            processing,
        }]);
        Ok(PriceColumns::Treated { ways, mining })
    } else {
        let cost = cost_column(settings, others)?;
        Ok(PriceColumns::Plain { revenue, cost })
    }
}

// The column of costs, where the other keys are there too.
fn cost_column(settings: &Settings, others: &[Key]) -> Result<u32, EngineFault>
    ensures columns { MatchResult result
        (λ cost. (cost ≡ unwrap_or settings.now.cost 0)
        × (first_missing (Key.Cost ∷ others.now) settings.now ≡ None))
        (IsMissing (Key.Cost ∷ others.now) settings.now) }
    ensures no_device { ¬ IsErrOf result EngineFault.Device }
{
    let Some(cost) = settings.cost() else {
        return Err(missing(Key::Cost));
    };
    need(settings, others)?;
    Ok(cost)
}

// The columns of a mill's charges, processing and mining, where the other keys are there too.
fn mill_columns(settings: &Settings, others: &[Key]) -> Result<(u32, u32), EngineFault>
    ensures columns { MatchResult result
        (λ charges. (charges
        ≡ (unwrap_or settings.now.processing 0, unwrap_or settings.now.mining 0))
        × (first_missing (others.now ++ (Key.Processing ∷ Key.Mining ∷ [])) settings.now ≡ None))
        (IsMissing (others.now ++ (Key.Processing ∷ Key.Mining ∷ [])) settings.now) }
    ensures no_device { ¬ IsErrOf result EngineFault.Device }
{
    need(settings, others)?;
    let Some(processing) = settings.processing() else {
        return Err(missing(Key::Processing));
    };
    let Some(mining) = settings.mining() else {
        return Err(missing(Key::Mining));
    };
    Ok((processing, mining))
}

// The column of what mining costs, where the other keys are there too.
fn mining_column(settings: &Settings, others: &[Key]) -> Result<u32, EngineFault>
    ensures columns { MatchResult result
        (λ mining. (mining ≡ unwrap_or settings.now.mining 0)
        × (first_missing (others.now ++ (Key.Mining ∷ [])) settings.now ≡ None))
        (IsMissing (others.now ++ (Key.Mining ∷ [])) settings.now) }
    ensures no_device { ¬ IsErrOf result EngineFault.Device }
{
    need(settings, others)?;
    let Some(mining) = settings.mining() else {
        return Err(missing(Key::Mining));
    };
    Ok(mining)
}

// That settings say something at each of these keys.
fn need(settings: &Settings, keys: &[Key]) -> Result<(), EngineFault>
    ensures keys { MatchResult result
        (λ _. first_missing keys.now settings.now ≡ None)
        (IsMissing keys.now settings.now) }
    ensures no_device { ¬ IsErrOf result EngineFault.Device }
{
    for key in keys {
        if !settings.says(*key) {
            return Err(missing(*key));
        }
    }
    Ok(())
}

/// The fault of settings without a key that is needed.
pub fn missing(key: Key) -> EngineFault
    ensures { result ≡ EngineFault.Settings (Problem.Fault (SettingsFault.Missing key)) }
{
    EngineFault::Settings(Problem::Fault(SettingsFault::Missing(key)))
}

// There are at most 17 columns of prices.
pub(crate) fn are_few(columns: &PriceColumns)
    ensures { place_beside columns.now ≤ 17 }
{
    if let PriceColumns::Treated { ways, .. } = columns {
        // proof: there are at most 8 ways
        let _ways = ways.as_slice();
    }
}

/// How many columns of prices there are: the place after them of the first other column of
/// [`priced_blocks_from`](crate::priced_blocks_from).
pub fn place_beside(columns: &PriceColumns) -> u32
    ensures { result ≡ place_beside columns.now }
{
    match columns {
        PriceColumns::Plain { .. } => 2,
        PriceColumns::Treated { ways, .. } => 2 * ways.as_slice().len() as u32 + 1,
    }
}
