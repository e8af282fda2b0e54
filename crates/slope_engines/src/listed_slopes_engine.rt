//! The engine of `slopes` for offsets that settings list: the bytes of settings and blocks in, those of a precedence
//! out.

ghost use Rattle.std.specs.Prelude.{◌≡◌, ◌+◌, ◌-◌, ◌^◌, ◌<◌, Contains, map, IfSome, IsErrOf};
ghost use Rattle.slope_offsets.specs.Offsets.{AreOffsets};
ghost use Rattle.mine_inputs.specs.SlopedTexts.{columns_for};
ghost use Rattle.settings_file.specs.Settings.{settings_of, first_missing};
ghost use Rattle.slope_engines.specs.Slopes.{AreSlopesOfPattern, AreSlopesOfRegions, PatternSlopesFail, RegionSlopesFail, ListFails, listed, listed_offsets, offset_keys, up_chosen, GivesPairs, GivesSlopes};

use crate::slope_pairs::{pattern_listed, slopes_by_region, slopes_of, write_slopes};
use check_engines::Verdict;
use counted_devices::{CountedRead, CountedWrite};
use engine_faults::EngineFault;
use mine_inputs::{blocks_from, missing, settings_from, sloped_blocks_from, up_of};
use settings_file::{Key, Settings};
use slope_offsets::{Selection, Up};
use std::alloc::Global;

// Which pairs are asked for: by which way up, and whether every one.
#[derive(Clone, Copy)]
struct PairsAsked {
    up: Up,
    selection: Selection,
}

/// Writes what each block of a text rests on by the offsets that settings list, as a precedence file: a line for each
/// block. Where the settings name slopes by region, a block's offsets are those of its own region.
///
/// It answers `Done`, never `No`. Which way is up `up` says, and where it doesn't the settings; where it is `MinusZ`, a
/// smaller z is higher. Of the reduced pairs those are left out that lead over a third block. The settings are read to
/// their end, then the blocks; then the pairs are made, and nothing is written before all are known.
///
/// # Errors
/// In this order: `Settings` for a fault of this text, or where it lists no offsets, or names the column of regions and
/// not their slopes; `Blocks`; `Slope`. Of one list of
/// offsets that is the first offset that doesn't lead up, more than 4,096 offsets, two blocks at one place, or more
/// than 2^27 of these pairs; of slopes by region the first fault of `predecessors_by_region`.
/// `Memory` where memory is refused, `Device` where a read or a write fails: the writer has then received a front of
/// the text, and at every other fault nothing.
///
/// Each device must have counted fewer than 2^64 - 1 failures, so that one more can be counted.
pub fn slopes_from_settings_engine<S: CountedRead, B: CountedRead, W: CountedWrite>(
    alloc: Global,
    settings: &mut S,
    blocks: &mut B,
    up: Option<Up>,
    selection: Selection,
    out: &mut W,
) -> Result<Verdict, EngineFault>
    requires settings_room { S.failed settings.old < 2 ^ 64 - 1 }
    requires blocks_room { B.failed blocks.old < 2 ^ 64 - 1 }
    requires out_room { W.failed out.old < 2 ^ 64 - 1 }

    // What it answers and writes, where the readers tell their bytes.
    ensures answer { IfSome (S.remaining settings.old)
        (λ s. IfSome (B.remaining blocks.old) (λ text.
        GivesSlopes (listed s) text (up_chosen up (settings_of s)) selection
        (W.contents out.old) (W.contents out.new) result)) }

    // A device is named exactly where one failed.
    ensures device { IsErrOf result EngineFault.Device
        → S.failed settings.new + B.failed blocks.new + W.failed out.new
        ≡ S.failed settings.old + B.failed blocks.old + W.failed out.old + 1 }
    ensures kept { ¬ IsErrOf result EngineFault.Device
        → (S.failed settings.new ≡ S.failed settings.old)
        × (B.failed blocks.new ≡ B.failed blocks.old) × (W.failed out.new ≡ W.failed out.old) }
{
    let settings = settings_from(alloc, settings, &[])?;
    if let Some(key) = lacking(&settings) {
        return Err(missing(key));
    }
    let up = way_up(&settings, up);
    let asked = PairsAsked { up, selection };
    match settings.slopes() {
        Some(slopes) => region_slopes(alloc, slopes, settings.region(), blocks, asked, out),
        None => pattern_slopes(alloc, offsets_of(&settings), blocks, asked, out),
    }
}

// The first key that settings need to give slopes and don't have. The column of regions alone gives none.
fn lacking(settings: &Settings) -> Option<Key>
    ensures { result ≡ first_missing (offset_keys settings.now) settings.now }
{
    if settings.says(Key::Slopes) {
        None
    } else if settings.says(Key::Region) {
        Some(Key::Slopes)
    } else if settings.says(Key::Offsets) {
        None
    } else {
        Some(Key::Offsets)
    }
}

// The offsets that settings list for every block, and none where they list none.
fn offsets_of(settings: &Settings) -> &[(i32, i32, i32)]
    ensures { result.now ≡ listed_offsets settings.now }
{
    match settings.offsets() {
        Some(offsets) => offsets,
        None => &[],
    }
}

// Which way is up: as the option says, and otherwise as settings do.
fn way_up(settings: &Settings, up: Option<Up>) -> Up
    ensures { result ≡ up_chosen up settings.now }
{
    match up {
        Some(up) => up,
        None => up_of(settings.up()),
    }
}

// What one list of offsets gives of the blocks of a text.
fn pattern_slopes<B: CountedRead, W: CountedWrite>(
    alloc: Global,
    offsets: &[(i32, i32, i32)],
    blocks: &mut B,
    asked: PairsAsked,
    out: &mut W,
) -> Result<Verdict, EngineFault>
    requires blocks_room { B.failed blocks.old < 2 ^ 64 - 1 }
    requires out_room { W.failed out.old < 2 ^ 64 - 1 }
    ensures answer { IfSome (B.remaining blocks.old) (λ text. GivesPairs
        (AreSlopesOfPattern (AreOffsets (Contains offsets.now)) text asked.up asked.selection)
        (PatternSlopesFail (AreOffsets (Contains offsets.now)) (ListFails offsets.now)
        text asked.up asked.selection)
        (W.contents out.old) (W.contents out.new) result) }
    ensures device { IsErrOf result EngineFault.Device
        → B.failed blocks.new + W.failed out.new ≡ B.failed blocks.old + W.failed out.old + 1 }
    ensures kept { ¬ IsErrOf result EngineFault.Device
        → (B.failed blocks.new ≡ B.failed blocks.old) × (W.failed out.new ≡ W.failed out.old) }
{
    let model = blocks_from(alloc, blocks, &[])?;
    let pattern = pattern_listed(alloc, offsets)?;
    let predecessors = slopes_of(alloc, &model, &pattern, asked.up, asked.selection)?;
    write_slopes(&predecessors, out)?;
    Ok(Verdict::Done)
}

// What the offsets of each block's own region give of the blocks of a text.
fn region_slopes<B: CountedRead, W: CountedWrite>(
    alloc: Global,
    slopes: &[Vec<(i32, i32, i32)>],
    region: Option<u32>,
    blocks: &mut B,
    asked: PairsAsked,
    out: &mut W,
) -> Result<Verdict, EngineFault>
    requires blocks_room { B.failed blocks.old < 2 ^ 64 - 1 }
    requires out_room { W.failed out.old < 2 ^ 64 - 1 }
    ensures answer { IfSome (B.remaining blocks.old) (λ text. GivesPairs
        (AreSlopesOfRegions (map (λ w. w.items) slopes.now) (columns_for region)
        text asked.up asked.selection)
        (RegionSlopesFail (map (λ w. w.items) slopes.now) (columns_for region)
        text asked.up asked.selection)
        (W.contents out.old) (W.contents out.new) result) }
    ensures device { IsErrOf result EngineFault.Device
        → B.failed blocks.new + W.failed out.new ≡ B.failed blocks.old + W.failed out.old + 1 }
    ensures kept { ¬ IsErrOf result EngineFault.Device
        → (B.failed blocks.new ≡ B.failed blocks.old) × (W.failed out.new ≡ W.failed out.old) }
{
    let model = sloped_blocks_from(alloc, blocks, region)?;
    let predecessors = slopes_by_region(alloc, &model, slopes, asked.up, asked.selection)?;
    write_slopes(&predecessors, out)?;
    Ok(Verdict::Done)
}
