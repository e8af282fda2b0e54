//! Reads the inputs of a mine, or who rests on whom by slopes alone. Where settings list slopes the pairs are held by a
//! list or by the places of the blocks, as is asked, and by these no list is made.

ghost use Rattle.std.specs.Prelude.{◌≡◌, ◌+◌, ◌-◌, ◌^◌, ◌<◌, ℕ, List, length, IfSome, MatchResult, IsErrOf};
ghost use Rattle.blocks_file.specs.Denotes.{narrowed};
ghost use Rattle.mine_inputs.specs.FaultStands.{MineFails};
ghost use Rattle.mine_inputs.specs.Inputs.{AreSlopedTexts, AreValuedTexts, PairsSaidFail};
ghost use Rattle.mine_inputs.specs.MineInputs.{ForTexts, CanCount, NoneFailed, OneFailed};
ghost use Rattle.mine_inputs.specs.Mines.{sloped_texts, valued_texts};
ghost use Rattle.mine_inputs.specs.PricedTexts.{columns_beside};
ghost use Rattle.mine_inputs.specs.ReadMines.{ArePairsBy, IsMineRead};
ghost use Rattle.mine_inputs.specs.SlopedTexts.{SlopesRead, column_after, columns_for, rests_said};

use crate::columns_of_prices::place_beside;
use crate::mine_kinds::HeldMine;
use crate::mines::{MineInputs, mine_of_prec};
use crate::priced_inputs::prices_of;
use crate::sloped_inputs::up_of;
use crate::sloped_texts::{SlopedTexts, column_after, sloped_texts_from, slopes_of};
use crate::valued_texts::{ValuedTexts, valued_texts_from};
use crate::worths::Worths;
use blocks_file::BlockModel;
use counted_devices::CountedRead;
use engine_faults::EngineFault;
use held_pairs::{HeldPairs, Holder, pairs_by_region};
use settings_file::Settings;
use std::alloc::Global;
use std::thread::Threads;

// Who rests on whom by the slopes that settings list.
fn held_said(
    alloc: Global,
    model: &BlockModel,
    settings: &Settings,
    holder: Holder,
) -> Result<HeldPairs, EngineFault>
    ensures pairs { MatchResult result
        (λ rests. (rests.blocks ≡ model.now.blocks) × SlopesRead settings.now model.now
        × ArePairsBy (rests_said settings.now model.now) rests.pairs)
        (PairsSaidFail settings.now model.now) }
    ensures no_device { ¬ IsErrOf result EngineFault.Device }
{
    let slopes = slopes_of(settings);
    let up = up_of(settings.up());
    match pairs_by_region(alloc, model, slopes, up, holder) {
        Ok(found) => Ok(found),
        Err(fault) => Err(EngineFault::from(fault)),
    }
}

/// Who rests on whom by the slopes that settings list, among blocks of which the column after so many others says in
/// which region each is, where the settings name it. No list of pairs is made, if a grid holds the places.
///
/// # Errors
/// `Blocks` where two blocks have one place, `Slope` where a region isn't one of the settings, or where a list has to
/// be made and would have too many pairs. `Memory` where memory is refused.
pub fn held_by_slopes(
    alloc: Global,
    model: &BlockModel,
    others: u32,
    settings: &Settings,
    holder: Holder,
) -> Result<HeldPairs, EngineFault>
    requires { IfSome (column_after others settings.now.region)
        (λ i. i < length model.now.columns) }
    ensures pairs { MatchResult result
        (λ rests. (rests.blocks ≡ model.now.blocks)
        × SlopesRead settings.now
        (narrowed (column_after others settings.now.region) model.now)
        × ArePairsBy (rests_said settings.now
        (narrowed (column_after others settings.now.region) model.now)) rests.pairs)
        (PairsSaidFail settings.now
        (narrowed (column_after others settings.now.region) model.now)) }
    ensures no_device { ¬ IsErrOf result EngineFault.Device }
{
    let placed = model.narrowed(alloc, column_after(others, settings.region()))?;
    held_said(alloc, &placed, settings, holder)
}

// The mine of the blocks that were read.
fn held_of_texts(alloc: Global, read: SlopedTexts, holder: Holder) -> Result<HeldMine, EngineFault>
    requires { length read.model.columns
        ≡ length (columns_beside read.columns (columns_for read.settings.region)) }
    ensures read { (factor : ℕ) (s b : List ℕ)
        → AreSlopedTexts s b read.settings read.columns read.model
        → MatchResult result
        (λ mine. IsMineRead (sloped_texts s b factor) factor mine.worths mine.predecessors)
        (MineFails (sloped_texts s b factor)) }
    ensures no_device { ¬ IsErrOf result EngineFault.Device }
{
    let SlopedTexts {
        settings,
        columns,
        model,
    } = read;
    let prices = prices_of(alloc, &model, &columns)?;
    // proof: no revenue of prices is negative
    let _blocks = prices.len();
    let others = place_beside(&columns);
    let predecessors = held_by_slopes(alloc, &model, others, &settings, holder)?;
    Ok(HeldMine {
        worths: Worths::Prices(prices),
        predecessors,
    })
}

// The mine that settings and blocks denote by themselves.
fn held_sloped<D: CountedRead>(
    alloc: Global,
    settings: &mut D,
    blocks: &mut D,
    holder: Holder,
) -> Result<HeldMine, EngineFault>
    requires settings_room { D.failed settings.old < 2 ^ 64 - 1 }
    requires blocks_room { D.failed blocks.old < 2 ^ 64 - 1 }
    ensures read { (factor : ℕ)
        → IfSome (D.remaining settings.old) (λ s. IfSome (D.remaining blocks.old) (λ b.
        MatchResult result
        (λ mine. IsMineRead (sloped_texts s b factor) factor mine.worths mine.predecessors)
        (MineFails (sloped_texts s b factor)))) }
    ensures device { IsErrOf result EngineFault.Device
        → D.failed settings.new + D.failed blocks.new
        ≡ D.failed settings.old + D.failed blocks.old + 1 }
    ensures kept { ¬ IsErrOf result EngineFault.Device
        → (D.failed settings.new ≡ D.failed settings.old)
        × (D.failed blocks.new ≡ D.failed blocks.old) }
{
    let read = sloped_texts_from(alloc, settings, blocks)?;
    held_of_texts(alloc, read, holder)
}

// The mine of the blocks and the values that were read.
fn held_of_values(alloc: Global, read: ValuedTexts, holder: Holder) -> Result<HeldMine, EngineFault>
    ensures read { (factor : ℕ) (s b v : List ℕ)
        → AreValuedTexts s b v read.settings read.model read.values
        → MatchResult result
        (λ mine. IsMineRead (valued_texts s b v) factor mine.worths mine.predecessors)
        (MineFails (valued_texts s b v)) }
    ensures no_device { ¬ IsErrOf result EngineFault.Device }
{
    let ValuedTexts {
        settings,
        model,
        values,
    } = read;
    let predecessors = held_said(alloc, &model, &settings, holder)?;
    Ok(HeldMine {
        worths: Worths::Values(values),
        predecessors,
    })
}

// How the pairs are held, and how many threads read the values.
#[derive(Clone, Copy)]
struct Asked {
    holder: Holder,
    threads: Option<u32>,
}

// The mine that settings, blocks and values denote.
fn held_valued<R: Threads + Sync, D: CountedRead>(
    rt: &R,
    alloc: Global,
    settings: &mut D,
    blocks: &mut D,
    upit: &mut D,
    asked: Asked,
) -> Result<HeldMine, EngineFault>
    requires settings_room { D.failed settings.old < 2 ^ 64 - 1 }
    requires blocks_room { D.failed blocks.old < 2 ^ 64 - 1 }
    requires upit_room { D.failed upit.old < 2 ^ 64 - 1 }
    ensures read { (factor : ℕ)
        → IfSome (D.remaining settings.old) (λ s. IfSome (D.remaining blocks.old) (λ b.
        IfSome (D.remaining upit.old) (λ v. MatchResult result
        (λ mine. IsMineRead (valued_texts s b v) factor mine.worths mine.predecessors)
        (MineFails (valued_texts s b v))))) }
    ensures device { IsErrOf result EngineFault.Device
        → D.failed settings.new + D.failed blocks.new + D.failed upit.new
        ≡ D.failed settings.old + D.failed blocks.old + D.failed upit.old + 1 }
    ensures kept { ¬ IsErrOf result EngineFault.Device
        → (D.failed settings.new ≡ D.failed settings.old)
        × (D.failed blocks.new ≡ D.failed blocks.old)
        × (D.failed upit.new ≡ D.failed upit.old) }
{
    let read = valued_texts_from(rt, alloc, settings, blocks, upit, asked.threads)?;
    held_of_values(alloc, read, asked.holder)
}

/// The mine that its texts denote: where slopes say who rests on whom, by the holder that is asked for. Which factor
/// the prices count at is asked later.
///
/// # Errors
/// Of values: `Upit`. Of prices, in this order: `Settings` for a fault of this text or a missing key; `Blocks`;
/// `Prices` for a negative revenue. Of values beside slopes, in this order: `Settings`; `Blocks`; `Upit`, also where
/// there are more or fewer values than blocks. Then `Prec`; or, where slopes say what rests on what, `Slope` with the
/// first fault of `predecessors_by_region`. `Memory` where memory is refused, `Device` where a read fails.
pub fn held_mine<R: Threads + Sync, D: CountedRead>(
    rt: &R,
    alloc: Global,
    inputs: &mut MineInputs<D>,
    holder: Holder,
) -> Result<HeldMine, EngineFault>
    requires { CanCount inputs.old D.failed }
    ensures read { (factor : ℕ)
        → ForTexts inputs.old D.remaining factor (λ texts. MatchResult result
        (λ mine. IsMineRead texts factor mine.worths mine.predecessors)
        (MineFails texts)) }
    ensures device { IsErrOf result EngineFault.Device
        → OneFailed inputs.old inputs.new D.failed 0 0 }
    ensures kept { ¬ IsErrOf result EngineFault.Device → NoneFailed inputs.old inputs.new D.failed }
{
    match inputs {
        MineInputs::Listed {
            worths,
            prec,
            threads,
        } => mine_of_prec(rt, alloc, worths, prec, *threads),
        MineInputs::Sloped { settings, blocks } => held_sloped(alloc, settings, blocks, holder),
        MineInputs::Valued {
            settings,
            blocks,
            upit,
            threads,
        } => {
            let threads = *threads;
            held_valued(rt, alloc, settings, blocks, upit, Asked { holder, threads })
        }
    }
}
