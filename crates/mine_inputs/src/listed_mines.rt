//! Reads the inputs of a mine whose pairs are wanted by a list.

ghost use Rattle.std.specs.Prelude.{◌≡◌, ℕ, IfOk, MatchResult, IsErrOf};
ghost use Rattle.certificate_file.specs.ReadBack.{IsPrice};
ghost use Rattle.mine_inputs.specs.FaultStands.{MineFails};
ghost use Rattle.mine_inputs.specs.MineInputs.{ForTexts, CanCount, NoneFailed, OneFailed};
ghost use Rattle.mine_inputs.specs.Mines.{price_wanted};
ghost use Rattle.mine_inputs.specs.ReadMines.{AreRead, IsMineRead};

use crate::held_mines::held_mine;
use crate::mine_kinds::{HeldMine, IndexedMine, ListedMine};
use crate::mines::MineInputs;
use counted_devices::CountedRead;
use engine_faults::EngineFault;
use held_pairs::{Holder, into_list};
use shells::Factor;
use std::alloc::Global;
use std::thread::Threads;

/// The mine that its texts denote, by a list of its pairs. Which factor the prices count at is asked later.
///
/// # Errors
/// Those of [`held_mine`].
pub fn listed_mine<R: Threads + Sync, D: CountedRead>(
    rt: &R,
    alloc: Global,
    inputs: &mut MineInputs<D>,
) -> Result<ListedMine, EngineFault>
    requires { CanCount inputs.old D.failed }
    ensures read { (factor : ℕ)
        → ForTexts inputs.old D.remaining factor (λ texts. MatchResult result
        (λ mine. IsMineRead texts factor mine.worths mine.predecessors)
        (MineFails texts)) }
    ensures device { IsErrOf result EngineFault.Device
        → OneFailed inputs.old inputs.new D.failed 0 0 }
    ensures kept { ¬ IsErrOf result EngineFault.Device → NoneFailed inputs.old inputs.new D.failed }
{
    let HeldMine {
        worths,
        predecessors,
    } = held_mine(rt, alloc, inputs, Holder::List)?;
    let list = into_list(alloc, predecessors)?;
    Ok(ListedMine {
        worths,
        predecessors: list,
    })
}

/// The mine that its texts denote, at a factor where its blocks have prices.
///
/// # Errors
/// Those of [`listed_mine`].
pub fn indexed_mine<R: Threads + Sync, D: CountedRead>(
    rt: &R,
    alloc: Global,
    inputs: &mut MineInputs<D>,
    factor: Factor,
) -> Result<IndexedMine, EngineFault>
    requires { CanCount inputs.old D.failed }
    ensures read { ForTexts inputs.old D.remaining factor (λ texts. MatchResult result
        (λ mine. AreRead texts mine.nanos.items mine.rests
        × (mine.price ≡ price_wanted texts))
        (MineFails texts)) }
    ensures price { IfOk result (λ mine. IsPrice mine.price) }
    ensures device { IsErrOf result EngineFault.Device
        → OneFailed inputs.old inputs.new D.failed 0 0 }
    ensures kept { ¬ IsErrOf result EngineFault.Device → NoneFailed inputs.old inputs.new D.failed }
{
    let ListedMine {
        worths,
        predecessors,
    } = listed_mine(rt, alloc, inputs)?;
    let rests = predecessors.into_rests(alloc)?;
    let nanos = worths.nanos_at(rt, alloc, factor)?;
    let price = worths.price_at(factor);
    Ok(IndexedMine {
        nanos,
        rests,
        price,
    })
}
