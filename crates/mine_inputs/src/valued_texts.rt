//! Reads three texts: settings that list slopes by region, blocks with their places and regions, and the
//! values of these blocks. The slopes say which block rests on which, so that no precedence is read.

ghost use Rattle.std.specs.Prelude.{◌≡◌, ◌+◌, ◌-◌, ◌^◌, ◌<◌, IfSome, MatchResult, IsErrOf};
ghost use Rattle.mine_inputs.specs.FaultStands.{MineFails};
ghost use Rattle.mine_inputs.specs.Inputs.{ArePlacedTexts, AreValuedTexts, PlacesFail};
ghost use Rattle.mine_inputs.specs.Mines.{valued_texts};

use crate::columns_of_prices::missing;
use crate::inputs::values_from;
use crate::priced_inputs::settings_from;
use crate::sloped_inputs::sloped_blocks_from;
use blocks_file::BlockModel;
use counted_devices::CountedRead;
use engine_faults::EngineFault;
use settings_file::{Key, Settings};
use std::alloc::Global;
use std::thread::Threads;
use upit_file::Upit;

// Settings that list slopes, and the blocks with the column of regions.
#[derive(Drop)]
struct PlacedTexts {
    settings: Settings,
    model: BlockModel,
}

// The settings and the blocks of a mine whose worths are read elsewhere.
fn placed_texts_from<D: CountedRead>(
    alloc: Global,
    settings: &mut D,
    blocks: &mut D,
) -> Result<PlacedTexts, EngineFault>
    requires settings_room { D.failed settings.old < 2 ^ 64 - 1 }
    requires blocks_room { D.failed blocks.old < 2 ^ 64 - 1 }
    ensures read { IfSome (D.remaining settings.old)
        (λ s. IfSome (D.remaining blocks.old) (λ b. MatchResult result
        (λ read. ArePlacedTexts s b read.settings read.model)
        (PlacesFail s b))) }
    ensures device { IsErrOf result EngineFault.Device
        → D.failed settings.new + D.failed blocks.new
        ≡ D.failed settings.old + D.failed blocks.old + 1 }
    ensures kept { ¬ IsErrOf result EngineFault.Device
        → (D.failed settings.new ≡ D.failed settings.old)
        × (D.failed blocks.new ≡ D.failed blocks.old) }
{
    let settings = settings_from(alloc, settings, &[])?;
    if !settings.says(Key::Slopes) {
        return Err(missing(Key::Slopes));
    }
    let model = sloped_blocks_from(alloc, blocks, settings.region())?;
    Ok(PlacedTexts { settings, model })
}

// Settings that list slopes, the blocks with the column of regions, and their values.
#[derive(Drop)]
pub(crate) struct ValuedTexts {
    pub(crate) settings: Settings,
    pub(crate) model: BlockModel,
    pub(crate) values: Upit,
}

// The settings, the blocks and the values of a mine, which so many threads read at once.
pub(crate) fn valued_texts_from<R: Threads + Sync, D: CountedRead>(
    rt: &R,
    alloc: Global,
    settings: &mut D,
    blocks: &mut D,
    upit: &mut D,
    threads: Option<u32>,
) -> Result<ValuedTexts, EngineFault>
    requires settings_room { D.failed settings.old < 2 ^ 64 - 1 }
    requires blocks_room { D.failed blocks.old < 2 ^ 64 - 1 }
    requires upit_room { D.failed upit.old < 2 ^ 64 - 1 }
    ensures read { IfSome (D.remaining settings.old)
        (λ s. IfSome (D.remaining blocks.old) (λ b. IfSome (D.remaining upit.old) (λ v.
        MatchResult result
        (λ read. AreValuedTexts s b v read.settings read.model read.values)
        (MineFails (valued_texts s b v))))) }
    ensures device { IsErrOf result EngineFault.Device
        → D.failed settings.new + D.failed blocks.new + D.failed upit.new
        ≡ D.failed settings.old + D.failed blocks.old + D.failed upit.old + 1 }
    ensures kept { ¬ IsErrOf result EngineFault.Device
        → (D.failed settings.new ≡ D.failed settings.old)
        × (D.failed blocks.new ≡ D.failed blocks.old)
        × (D.failed upit.new ≡ D.failed upit.old) }
{
    let PlacedTexts { settings, model } = placed_texts_from(alloc, settings, blocks)?;
    let values = values_from(rt, alloc, upit, model.len(), threads)?;
    Ok(ValuedTexts {
        settings,
        model,
        values,
    })
}
