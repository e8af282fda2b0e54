//! The inputs of a mine, of whichever kind; and the mine of those whose precedence is a text of its own.

ghost use Rattle.std.specs.Prelude.{◌≡◌, ◌+◌, ◌-◌, ◌^◌, ◌<◌, ℕ, List, IfSome, MatchResult, IsErrOf};
ghost use Rattle.mine_inputs.specs.FaultStands.{MineFails};
ghost use Rattle.mine_inputs.specs.MineInputs.{ForWorths, WorthsCanCount, NoWorthsFailed, is_priced, worths_failures};
ghost use Rattle.mine_inputs.specs.Mines.{priced_texts};
ghost use Rattle.mine_inputs.specs.ReadMines.{AreWorthsOf, IsMineRead};

use crate::columns_of_prices::price_columns;
use crate::inputs::{held_from, unread};
use crate::mine_kinds::HeldMine;
use crate::priced_inputs::{priced_settings_from, prices_from};
use crate::worths::Worths;
use counted_devices::{CountedRead, read_whole};
use engine_faults::{EngineFault, Problem};
use fixed_worth::MOST_BYTES;
use std::alloc::Global;
use std::thread::Threads;
use upit_file::read_values;

/// The inputs that say what the blocks of a mine are worth.
#[derive(Drop)]
pub enum WorthInputs<D> {
    /// Each block has a value.
    Values {
        /// MineLib's `.upit`.
        upit: D,
    },
    /// Each block has prices.
    Prices {
        /// The settings, which say which columns are prices.
        settings: D,
        /// MineLib's `.blocks`, which has these columns.
        blocks: D,
    },
}

/// The inputs of a mine. They are read in the order of these fields, each to its end.
#[derive(Drop)]
pub enum MineInputs<D> {
    /// A text of its own says what rests on what.
    Listed {
        /// What its blocks are worth.
        worths: WorthInputs<D>,
        /// What rests on what: MineLib's `.prec`.
        prec: D,
        /// How many threads read that text at once, and that of values; as [`prec_file::read_predecessors`] and
        /// [`upit_file::read_values`] choose where it isn't said. The answers are the same.
        threads: Option<u32>,
    },
    /// The blocks have prices, and rest on one another by slopes.
    Sloped {
        /// The settings, which say which columns are prices, list the slopes of each region, and say in which column a
        /// block's region stands.
        settings: D,
        /// MineLib's `.blocks`, which has these columns and the places.
        blocks: D,
    },
    /// The blocks have values, and rest on one another by slopes.
    Valued {
        /// The settings, which list the slopes of each region, and say in which column a block's region stands.
        settings: D,
        /// MineLib's `.blocks`, which has this column and the places.
        blocks: D,
        /// MineLib's `.upit`.
        upit: D,
        /// How many threads read that text at once; as [`upit_file::read_upit`] chooses where it isn't said. The
        /// answers are the same.
        threads: Option<u32>,
    },
}

// What blocks are worth by the columns of prices that settings name.
fn worths_by_prices<D: CountedRead>(
    alloc: Global,
    settings: &mut D,
    blocks: &mut D,
) -> Result<Worths, EngineFault>
    requires settings_room { D.failed settings.old < 2 ^ 64 - 1 }
    requires blocks_room { D.failed blocks.old < 2 ^ 64 - 1 }
    ensures read { (factor : ℕ) (precedence : List ℕ)
        → IfSome (D.remaining settings.old) (λ s. IfSome (D.remaining blocks.old) (λ b.
        MatchResult result
        (AreWorthsOf (priced_texts s b precedence factor) factor)
        (MineFails (priced_texts s b precedence factor)))) }
    ensures device { IsErrOf result EngineFault.Device
        → D.failed settings.new + D.failed blocks.new
        ≡ D.failed settings.old + D.failed blocks.old + 1 }
    ensures kept { ¬ IsErrOf result EngineFault.Device
        → (D.failed settings.new ≡ D.failed settings.old)
        × (D.failed blocks.new ≡ D.failed blocks.old) }
{
    let settings = priced_settings_from(alloc, settings)?;
    let columns = price_columns(&settings, &[])?;
    let prices = prices_from(alloc, blocks, &columns)?;
    // proof: no revenue of prices is negative
    let _blocks = prices.len();
    Ok(Worths::Prices(prices))
}

// The mine whose precedence is a text of its own.
pub(crate) fn mine_of_prec<R: Threads + Sync, D: CountedRead>(
    rt: &R,
    alloc: Global,
    worths: &mut WorthInputs<D>,
    prec: &mut D,
    threads: Option<u32>,
) -> Result<HeldMine, EngineFault>
    requires worths_room { WorthsCanCount worths.old D.failed }
    requires prec_room { D.failed prec.old < 2 ^ 64 - 1 }
    ensures read { (factor : ℕ)
        → IfSome (D.remaining prec.old) (λ p. ForWorths worths.old D.remaining factor p (λ texts.
        MatchResult result
        (λ mine. IsMineRead texts factor mine.worths mine.predecessors)
        (MineFails texts))) }
    ensures device { IsErrOf result EngineFault.Device
        → (is_priced worths.new ≡ is_priced worths.old)
        × (worths_failures worths.new D.failed + D.failed prec.new
        ≡ worths_failures worths.old D.failed + D.failed prec.old + 1) }
    ensures kept { ¬ IsErrOf result EngineFault.Device
        → NoWorthsFailed worths.old worths.new D.failed × (D.failed prec.new ≡ D.failed prec.old) }
{
    let valued = match worths {
        WorthInputs::Values { upit } => {
            let too_long = EngineFault::Upit(Problem::InputTooLong);
            let text = read_whole(alloc, upit, MOST_BYTES).map_err(|fault| unread(
                fault, too_long,
            ))?;
            Worths::Values(read_values(rt, alloc, text.as_slice(), None, threads)?)
        }
        WorthInputs::Prices { settings, blocks } => worths_by_prices(alloc, settings, blocks)?,
    };
    let predecessors = held_from(rt, alloc, prec, valued.len(), threads)?;
    Ok(HeldMine {
        worths: valued,
        predecessors,
    })
}
