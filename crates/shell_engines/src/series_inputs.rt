//! Reads settings and blocks, and predecessors where a text of their own lists them: gives a mine with prices and the
//! factors at which its shells are drawn, or the first fault of an input.

ghost use Rattle.std.specs.Prelude.{◌≡◌, ◌≤◌, ◌<◌, ◌+◌, ◌-◌, ◌^◌, ◌⊎◌, ◌∷◌, [], None, length, unwrap_or, All, IfOk, IfErr, IfSome, MatchResult, IsErrOf};
ghost use Rattle.settings_file.specs.Settings.{first_missing};
ghost use Rattle.settings_file.specs.Values.{AreFactors};
ghost use Rattle.mine_inputs.specs.Inputs.{IsMissing};
ghost use Rattle.mine_inputs.specs.Mines.{by_text, by_slopes};
ghost use Rattle.shell_engines.specs.Devices.{ForSeries, InputsCanCount, input_failures, is_without, NoInputFailed};
ghost use Rattle.shell_engines.specs.SeriesTexts.{IsSeriesRead, SeriesMineFails, factor_by};

use counted_devices::CountedRead;
use engine_faults::EngineFault;
use fixed_worth::MOST_FACTOR;
use held_pairs::Holder;
use mine_inputs::{
    held_by_slopes, held_from, missing, place_beside, price_columns, priced_settings_from,
    prices_from, prices_of, regional_blocks_from, settings_from,
};
use series_pits::SeriesMine;
use settings_file::{Key, Settings};
use shells::Factor;
use std::alloc::{AllocError, Global};
use std::thread::Threads;

/// The inputs of a mine whose blocks have prices. They are read in the order of these fields, each to its end.
#[derive(Drop)]
pub struct SeriesInputs<D> {
    /// The settings, which say which columns are prices, and name the factors.
    pub settings: D,
    /// MineLib's `.blocks`, which has these columns.
    pub blocks: D,
    /// What rests on what: MineLib's `.prec`; or none, where the settings list slopes.
    pub prec: Option<D>,
}

impl<D> SeriesInputs<D> {
    /// Whether slopes of the settings say what rests on what.
    pub fn has_slopes(&self) -> bool
        ensures { result ≡ is_without self.now.prec }
    {
        match &self.prec {
            Some(_) => false,
            None => true,
        }
    }
}

// The factors of so many thousandths each.
fn factors_from(alloc: Global, thousandths: &[u32]) -> Result<Vec<Factor>, AllocError>
    requires { All (λ k. k ≤ MOST_FACTOR) thousandths.now }
    ensures { IfOk result (λ v. v.items ≡ thousandths.now) }
{
    let mut factors: Vec<Factor> = Vec::new(alloc);
    for i in 0..thousandths.len() {
        let Some(factor) = Factor::new(thousandths[i]) else {
            unreachable!();
        };
        factors.push(factor)?;
    }
    Ok(factors)
}

/// The factors of settings, ascending.
///
/// # Errors
/// `Settings` where the settings name none, before all else. `Memory` where memory is refused.
pub fn factors_of(alloc: Global, settings: &Settings) -> Result<Vec<Factor>, EngineFault>
    ensures factors { IfOk result (λ v. (v.items ≡ unwrap_or settings.now.factors [])
        × (first_missing (Key.Factors ∷ []) settings.now ≡ None)) }
    ensures form { IfOk result (λ v. AreFactors v.items) }
    ensures fault { IfErr result (λ e. (e ≡ EngineFault.Memory)
        ⊎ IsMissing (Key.Factors ∷ []) settings.now e) }
    ensures named { IsErrOf result EngineFault.Memory
        → first_missing (Key.Factors ∷ []) settings.now ≡ None }
{
    match settings.factors() {
        Some(thousandths) => Ok(factors_from(alloc, thousandths)?),
        None => Err(missing(Key::Factors)),
    }
}

/// The factor of the report: the one that the settings name, or else the last of the factors.
pub fn factor_of(settings: &Settings, factors: &[Factor]) -> Factor
    requires some { 1 ≤ length factors.now }
    requires are { factors.now ≡ unwrap_or settings.now.factors [] }
    ensures { result ≡ factor_by settings.now }
{
    match settings.report() {
        Some(thousandths) => match Factor::new(thousandths) {
            Some(factor) => factor,
            None => unreachable!(),
        },
        None => factors[factors.len() - 1],
    }
}

// The mine whose precedence is a text of its own.
fn listed_series<R: Threads + Sync, D: CountedRead>(
    rt: &R,
    alloc: Global,
    settings: &mut D,
    blocks: &mut D,
    prec: &mut D,
) -> Result<SeriesMine, EngineFault>
    requires settings_room { D.failed settings.old < 2 ^ 64 - 1 }
    requires blocks_room { D.failed blocks.old < 2 ^ 64 - 1 }
    requires prec_room { D.failed prec.old < 2 ^ 64 - 1 }
    ensures read { IfSome (D.remaining settings.old) (λ s. IfSome (D.remaining blocks.old) (λ b.
        IfSome (D.remaining prec.old) (λ p. MatchResult result
        (λ mine. IsSeriesRead s b (by_text p) mine.prices mine.predecessors mine.factors.items
        mine.factor)
        (SeriesMineFails s b (by_text p))))) }
    ensures device { IsErrOf result EngineFault.Device
        → D.failed settings.new + D.failed blocks.new + D.failed prec.new
        ≡ D.failed settings.old + D.failed blocks.old + D.failed prec.old + 1 }
    ensures kept { ¬ IsErrOf result EngineFault.Device
        → (D.failed settings.new ≡ D.failed settings.old)
        × (D.failed blocks.new ≡ D.failed blocks.old)
        × (D.failed prec.new ≡ D.failed prec.old) }
{
    let settings = priced_settings_from(alloc, settings)?;
    let columns = price_columns(&settings, &[Key::Factors])?;
    let factors = factors_of(alloc, &settings)?;
    let factor = factor_of(&settings, factors.as_slice());
    let prices = prices_from(alloc, blocks, &columns)?;
    let predecessors = held_from(rt, alloc, prec, prices.len(), None)?;
    Ok(SeriesMine {
        prices,
        predecessors,
        factors,
        factor,
    })
}

// The mine whose settings list slopes, by which its blocks rest on one another.
fn sloped_series<D: CountedRead>(
    alloc: Global,
    settings: &mut D,
    blocks: &mut D,
) -> Result<SeriesMine, EngineFault>
    requires settings_room { D.failed settings.old < 2 ^ 64 - 1 }
    requires blocks_room { D.failed blocks.old < 2 ^ 64 - 1 }
    ensures read { IfSome (D.remaining settings.old) (λ s. IfSome (D.remaining blocks.old) (λ b.
        MatchResult result
        (λ mine. IsSeriesRead s b by_slopes mine.prices mine.predecessors mine.factors.items
        mine.factor)
        (SeriesMineFails s b by_slopes))) }
    ensures device { IsErrOf result EngineFault.Device
        → D.failed settings.new + D.failed blocks.new
        ≡ D.failed settings.old + D.failed blocks.old + 1 }
    ensures kept { ¬ IsErrOf result EngineFault.Device
        → (D.failed settings.new ≡ D.failed settings.old)
        × (D.failed blocks.new ≡ D.failed blocks.old) }
{
    let settings = settings_from(alloc, settings, &[])?;
    let columns = price_columns(&settings, &[Key::Slopes, Key::Factors])?;
    let factors = factors_of(alloc, &settings)?;
    let factor = factor_of(&settings, factors.as_slice());
    let model = regional_blocks_from(alloc, blocks, &columns, settings.region())?;
    let prices = prices_of(alloc, &model, &columns)?;
    // proof: no revenue of prices is negative
    let _blocks = prices.len();
    let others = place_beside(&columns);
    let predecessors = held_by_slopes(alloc, &model, others, &settings, Holder::Places)?;
    Ok(SeriesMine {
        prices,
        predecessors,
        factors,
        factor,
    })
}

/// The mine that settings and blocks denote, with a precedence where one is read, and the factors of the settings: the
/// texts are read in this order, each to its end.
///
/// # Errors
/// In this order: `Settings` for a fault of this text or a missing key; `Blocks`; `Prices` for a negative revenue;
/// `Prec`, or where slopes stand in its place `Slope`. `Memory` where memory is refused, `Device` where a read fails.
pub fn series_mine_from<R: Threads + Sync, D: CountedRead>(
    rt: &R,
    alloc: Global,
    inputs: &mut SeriesInputs<D>,
) -> Result<SeriesMine, EngineFault>
    requires { InputsCanCount inputs.old D.failed }
    ensures read { ForSeries inputs.old D.remaining (λ s b p. MatchResult result
        (λ mine. IsSeriesRead s b p mine.prices mine.predecessors mine.factors.items
        mine.factor)
        (SeriesMineFails s b p)) }
    ensures device { IsErrOf result EngineFault.Device
        → input_failures inputs.new D.failed ≡ input_failures inputs.old D.failed + 1 }
    ensures kept { ¬ IsErrOf result EngineFault.Device
        → NoInputFailed inputs.old inputs.new D.failed }
{
    match &mut inputs.prec {
        Some(prec) => listed_series(rt, alloc, &mut inputs.settings, &mut inputs.blocks, prec),
        None => sloped_series(alloc, &mut inputs.settings, &mut inputs.blocks),
    }
}
