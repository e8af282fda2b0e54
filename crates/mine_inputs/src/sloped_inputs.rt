//! Reads the blocks of a text with the column that says in which region each is.

ghost use Rattle.std.specs.Prelude.{◌≡◌, ◌+◌, ◌-◌, ◌^◌, ◌<◌, ◌↔◌, IfSome, MatchResult, IsErrOf};
ghost use Rattle.mine_inputs.specs.SlopedTexts.{columns_for, up_by};
ghost use Rattle.mine_inputs.specs.BlockTexts.{ReadsBlocks, BlocksReadFails};

use crate::inputs::blocks_from;
use blocks_file::BlockModel;
use counted_devices::CountedRead;
use engine_faults::EngineFault;
use settings_file::UpSign;
use slope_offsets::Up;
use std::alloc::Global;

/// The blocks of a text with their places, and with the column of their regions where there is one.
///
/// # Errors
/// Those of [`blocks_from`].
pub fn sloped_blocks_from<R: CountedRead>(
    alloc: Global,
    from: &mut R,
    region: Option<u32>,
) -> Result<BlockModel, EngineFault>
    requires { R.failed from.old < 2 ^ 64 - 1 }
    ensures read { IfSome (R.remaining from.old) (λ text. MatchResult result
        (ReadsBlocks (columns_for region) text)
        (BlocksReadFails (columns_for region) text)) }
    ensures device { IsErrOf result EngineFault.Device
        ↔ (R.failed from.new ≡ R.failed from.old + 1) }
    ensures kept { ¬ IsErrOf result EngineFault.Device → R.failed from.new ≡ R.failed from.old }
{
    match region {
        Some(column) => blocks_from(alloc, from, &[column]),
        None => blocks_from(alloc, from, &[]),
    }
}

/// Which way is up, as settings say it: plus, where they don't.
pub fn up_of(sign: Option<UpSign>) -> Up
    ensures { result ≡ up_by sign }
{
    match sign {
        Some(UpSign::Minus) => Up::MinusZ,
        Some(UpSign::Plus) => Up::PlusZ,
        None => Up::PlusZ,
    }
}
