//! The engine of `slopes` for a pattern that a word names: the bytes of blocks in, the bytes of a precedence out.

ghost use Rattle.std.specs.Prelude.{◌≡◌, ◌+◌, ◌-◌, ◌^◌, ◌<◌, IfSome, IsErrOf};
ghost use Rattle.option_words.specs.PatternWords.{IsChoice};
ghost use Rattle.slope_engines.specs.Slopes.{named, GivesSlopes};

use crate::slope_pairs::{pattern_for, slopes_of, write_slopes};
use check_engines::Verdict;
use counted_devices::{CountedRead, CountedWrite};
use engine_faults::EngineFault;
use mine_inputs::blocks_from;
use option_words::PatternChoice;
use slope_offsets::{Selection, Up};
use std::alloc::Global;

/// Writes what each block of a text rests on by a pattern, as a precedence file: a line for each block.
///
/// It answers `Done`, never `No`. Where `up` is `MinusZ`, a smaller z is higher; of the reduced pairs those are left
/// out that lead over a third block. The input is read to its end, then the
/// pattern is made, then the pairs, and nothing is written before all are known.
///
/// # Errors
/// In this order: `Blocks` for a fault of the text; `Slope` for a cone of more than 4,096 offsets, for two blocks at
/// one place, or for more than 2^27 of these pairs. `Memory` where memory is refused, `Device` where a read or a write
/// fails: the writer has then received a front of the text, and at every other fault nothing.
///
/// Each device must have counted fewer than 2^64 - 1 failures, so that one more can be counted.
pub fn slopes_engine<B: CountedRead, W: CountedWrite>(
    alloc: Global,
    blocks: &mut B,
    pattern: PatternChoice,
    up: Up,
    selection: Selection,
    out: &mut W,
) -> Result<Verdict, EngineFault>
    requires choice { IsChoice pattern }
    requires blocks_room { B.failed blocks.old < 2 ^ 64 - 1 }
    requires out_room { W.failed out.old < 2 ^ 64 - 1 }

    // What it answers and writes, where the reader tells its bytes.
    ensures answer { IfSome (B.remaining blocks.old) (λ text. GivesSlopes
        (named pattern) text up selection (W.contents out.old) (W.contents out.new) result) }

    // A device is named exactly where one failed.
    ensures device { IsErrOf result EngineFault.Device
        → B.failed blocks.new + W.failed out.new ≡ B.failed blocks.old + W.failed out.old + 1 }
    ensures kept { ¬ IsErrOf result EngineFault.Device
        → (B.failed blocks.new ≡ B.failed blocks.old) × (W.failed out.new ≡ W.failed out.old) }
{
    let model = blocks_from(alloc, blocks, &[])?;
    let pattern = pattern_for(alloc, pattern)?;
    let predecessors = slopes_of(alloc, &model, &pattern, up, selection)?;
    write_slopes(&predecessors, out)?;
    Ok(Verdict::Done)
}
