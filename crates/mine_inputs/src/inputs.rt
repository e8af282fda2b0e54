//! Reads one input of a mine to its end, as blocks, values or predecessors, or says which input is at fault and why.

ghost use Rattle.std.specs.Prelude.{◌≡◌, ◌+◌, ◌-◌, ◌^◌, ◌<◌, ◌≤◌, ◌↔◌, length, IfOk, IfSome, MatchResult, IsErrOf};
ghost use Rattle.mine_inputs.specs.BlockTexts.{ReadsBlocks, BlocksReadFails};
ghost use Rattle.mine_inputs.specs.Inputs.{ReadsPrec, PrecReadFails, ReadsValues, ValuesReadFail, unread_fault};

use blocks_file::{BlockModel, MOST_COLUMNS, read_blocks};
use counted_devices::{CountedRead, InputFault, read_whole};
use engine_faults::{EngineFault, Problem};
use fixed_worth::{MOST_BLOCKS, MOST_BYTES};
use held_pairs::HeldPairs;
use prec_file::{Predecessors, read_predecessors};
use std::alloc::Global;
use std::thread::Threads;
use upit_file::{Upit, read_upit};

/// What is answered where an input can't be read to its end: this fault where it is too long.
pub fn unread(fault: InputFault, too_long: EngineFault) -> EngineFault
    ensures { result ≡ unread_fault fault too_long }
{
    match fault {
        InputFault::Device => EngineFault::Device,
        InputFault::InputTooLong => too_long,
        InputFault::NoMemory => EngineFault::Memory,
    }
}

/// The blocks of a text with their places and the chosen columns, at most eight.
///
/// # Errors
/// `Blocks` for more than 2^32 bytes, or for a fault of [`read_blocks`]. `Memory` where memory is refused, `Device`
/// where a read fails.
pub fn blocks_from<R: CountedRead>(
    alloc: Global,
    from: &mut R,
    columns: &[u32],
) -> Result<BlockModel, EngineFault>
    requires few { length columns.now ≤ MOST_COLUMNS }
    requires room { R.failed from.old < 2 ^ 64 - 1 }
    ensures read { IfSome (R.remaining from.old) (λ text. MatchResult result
        (ReadsBlocks columns.now text)
        (BlocksReadFails columns.now text)) }
    ensures columns { IfOk result (λ m. length m.columns ≡ length columns.now) }
    ensures device { IsErrOf result EngineFault.Device
        ↔ (R.failed from.new ≡ R.failed from.old + 1) }
    ensures kept { ¬ IsErrOf result EngineFault.Device → R.failed from.new ≡ R.failed from.old }
{
    let too_long = EngineFault::Blocks(Problem::InputTooLong);
    let text = read_whole(alloc, from, MOST_BYTES).map_err(|fault| unread(fault, too_long))?;
    match read_blocks(alloc, text.as_slice(), columns) {
        Ok(model) => Ok(model),
        Err(fault) => Err(EngineFault::from(fault)),
    }
}

// The values of n blocks. So many threads read the text at once, or as many as `read_upit` chooses.
pub(crate) fn values_from<T: Threads + Sync, R: CountedRead>(
    rt: &T,
    alloc: Global,
    from: &mut R,
    n: u32,
    threads: Option<u32>,
) -> Result<Upit, EngineFault>
    requires { R.failed from.old < 2 ^ 64 - 1 }
    ensures read { IfSome (R.remaining from.old) (λ text. MatchResult result
        (ReadsValues n text)
        (ValuesReadFail n text)) }
    ensures device { IsErrOf result EngineFault.Device
        ↔ (R.failed from.new ≡ R.failed from.old + 1) }
    ensures kept { ¬ IsErrOf result EngineFault.Device → R.failed from.new ≡ R.failed from.old }
{
    let too_long = EngineFault::Upit(Problem::InputTooLong);
    let text = read_whole(alloc, from, MOST_BYTES).map_err(|fault| unread(fault, too_long))?;
    match read_upit(rt, alloc, text.as_slice(), n, threads) {
        Ok(values) => Ok(values),
        Err(fault) => Err(EngineFault::from(fault)),
    }
}

/// The predecessors of each of n blocks, without the pairs and the index by predecessor, which a solver needs and a
/// check doesn't. So many threads read the text at once, or as many as [`read_predecessors`] chooses.
///
/// # Errors
/// `Prec` for more than 2^32 bytes, or for a fault of [`read_predecessors`]. `Memory` where memory is refused, `Device`
/// where a read fails.
pub fn predecessors_from<T: Threads + Sync, R: CountedRead>(
    rt: &T,
    alloc: Global,
    from: &mut R,
    n: u32,
    threads: Option<u32>,
) -> Result<Predecessors, EngineFault>
    requires blocks { n ≤ MOST_BLOCKS }
    requires room { R.failed from.old < 2 ^ 64 - 1 }
    ensures read { IfSome (R.remaining from.old) (λ text. MatchResult result
        (ReadsPrec n text)
        (PrecReadFails n text)) }
    ensures size { IfOk result (λ rests. rests.blocks ≡ n) }
    ensures device { IsErrOf result EngineFault.Device
        ↔ (R.failed from.new ≡ R.failed from.old + 1) }
    ensures kept { ¬ IsErrOf result EngineFault.Device → R.failed from.new ≡ R.failed from.old }
{
    let too_long = EngineFault::Prec(Problem::InputTooLong);
    let text = read_whole(alloc, from, MOST_BYTES).map_err(|fault| unread(fault, too_long))?;
    match read_predecessors(rt, alloc, text, n, threads) {
        Ok(predecessors) => Ok(predecessors),
        Err(fault) => Err(EngineFault::from(fault)),
    }
}

/// Who rests on whom among n blocks, by a text that lists it.
///
/// # Errors
/// Those of [`predecessors_from`].
pub fn held_from<T: Threads + Sync, R: CountedRead>(
    rt: &T,
    alloc: Global,
    from: &mut R,
    n: u32,
    threads: Option<u32>,
) -> Result<HeldPairs, EngineFault>
    requires blocks { n ≤ MOST_BLOCKS }
    requires room { R.failed from.old < 2 ^ 64 - 1 }
    ensures read { IfSome (R.remaining from.old) (λ text. MatchResult result
        (ReadsPrec n text)
        (PrecReadFails n text)) }
    ensures size { IfOk result (λ rests. rests.blocks ≡ n) }
    ensures device { IsErrOf result EngineFault.Device
        ↔ (R.failed from.new ≡ R.failed from.old + 1) }
    ensures kept { ¬ IsErrOf result EngineFault.Device → R.failed from.new ≡ R.failed from.old }
{
    match predecessors_from(rt, alloc, from, n, threads) {
        Ok(list) => Ok(HeldPairs::of_list(list)),
        Err(fault) => Err(fault),
    }
}
