//! Makes the pattern that is asked for, gives the predecessors of each block of a model by it, or by the slopes of
//! regions, and writes them as a precedence text.

ghost use Rattle.std.specs.Prelude.{◌≡◌, ◌+◌, ◌-◌, ◌^◌, ◌<◌, map, Contains, OnOk, IfOk, IfErr, MatchResult, IsErrOf};
ghost use Rattle.std.specs.Io.KnownBytes.{Appends};
ghost use Rattle.counted_devices.specs.Device.{ReceivedPrefix};
ghost use Rattle.prec_file.specs.Written.{prec_text, AreNarrow};
ghost use Rattle.slope_offsets.specs.Offsets.{AreOffsets};
ghost use Rattle.slope.specs.Slopes.{AreOwnSlopes, AreSlopes, own_offsets};
ghost use Rattle.option_words.specs.PatternWords.{IsChoice};
ghost use Rattle.slope_engines.specs.Slopes.{IsChosen, ChoiceFails, ListFails, PatternMakingFails, PairsMakingFail, RegionsMakingFail};

use blocks_file::BlockModel;
use counted_devices::CountedWrite;
use engine_faults::EngineFault;
use option_words::PatternChoice;
use prec_file::{PrecWriteFault, Predecessors, write_predecessors};
use slope::{laws, predecessors_by_region, predecessors_of};
use slope_offsets::{Pattern, Selection, Up};
use std::alloc::Global;

/// The pattern that is chosen.
///
/// # Errors
/// `Slope` with `TooMany` for a cone of more than 4,096 offsets. `Memory` where memory is refused.
pub fn pattern_for(alloc: Global, choice: PatternChoice) -> Result<Pattern, EngineFault>
    requires { IsChoice choice }
    ensures made { MatchResult result (IsChosen choice) (PatternMakingFails (ChoiceFails choice)) }
    ensures no_device { ¬ IsErrOf result EngineFault.Device }
{
    let made = match choice {
        PatternChoice::Five => Pattern::five(alloc),
        PatternChoice::Nine => Pattern::nine(alloc),
        PatternChoice::Cone { levels, run, rise } => Pattern::cone(alloc, levels, run, rise),
    };
    Ok(made?)
}

/// The pattern of listed offsets.
///
/// # Errors
/// In this order: `Slope` with `NotUpward` for the first offset whose third number isn't at least 1, with `TooMany` for
/// more than 4,096 listed offsets. `Memory` where memory is refused.
pub fn pattern_listed(alloc: Global, listed: &[(i32, i32, i32)]) -> Result<Pattern, EngineFault>
    ensures made { MatchResult result
        (AreOffsets (Contains listed.now))
        (PatternMakingFails (ListFails listed.now)) }
    ensures no_device { ¬ IsErrOf result EngineFault.Device }
{
    Ok(Pattern::custom(alloc, listed)?)
}

/// Who rests on whom among the blocks of a model, by a pattern: every pair, or the reduced ones.
///
/// # Errors
/// `Slope` for two blocks at one place, or for more than 2^27 of the selected pairs. `Memory` where memory is refused.
pub fn slopes_of(
    alloc: Global,
    model: &BlockModel,
    pattern: &Pattern,
    up: Up,
    selection: Selection,
) -> Result<Predecessors, EngineFault>
    ensures made { MatchResult result
        (AreSlopes model.now pattern.now up selection)
        (PairsMakingFail model.now pattern.now up selection) }
    ensures narrow { IfOk result AreNarrow }
    ensures no_device { ¬ IsErrOf result EngineFault.Device }
{
    // proof: a block has no more predecessors than a pattern has offsets
    laws::slopes_are_narrow(pattern);
    match predecessors_of(alloc, model, pattern, up, selection) {
        Ok(predecessors) => Ok(predecessors),
        Err(fault) => Err(EngineFault::from(fault)),
    }
}

/// Who rests on whom among the blocks of a model, by the offsets that are listed for each block's own region.
///
/// # Errors
/// `Slope` with the first fault of `predecessors_by_region`. `Memory` where memory is refused.
pub fn slopes_by_region(
    alloc: Global,
    model: &BlockModel,
    listed: &[Vec<(i32, i32, i32)>],
    up: Up,
    selection: Selection,
) -> Result<Predecessors, EngineFault>
    ensures made { MatchResult result
        (AreOwnSlopes model.now (own_offsets (map
        (λ w. w.items) listed.now) model.now) up selection)
        (RegionsMakingFail (map (λ w. w.items) listed.now) model.now up selection) }
    ensures narrow { IfOk result AreNarrow }
    ensures no_device { ¬ IsErrOf result EngineFault.Device }
{
    match predecessors_by_region(alloc, model, listed, up, selection) {
        Ok(predecessors) => Ok(predecessors),
        Err(fault) => Err(EngineFault::from(fault)),
    }
}

/// Writes pairs as a precedence file.
///
/// # Errors
/// `Device` where a write fails: the writer has then received a prefix of the text.
pub fn write_slopes<W: CountedWrite>(
    predecessors: &Predecessors,
    out: &mut W,
) -> Result<(), EngineFault>
    requires narrow { AreNarrow predecessors.now }
    requires room { W.failed out.old < 2 ^ 64 - 1 }
    ensures sent { OnOk result
        (Appends (W.contents out.old) (W.contents out.new) (prec_text predecessors.now)) }
    ensures kept { OnOk result (W.failed out.new ≡ W.failed out.old) }
    ensures fault { IfErr result (λ e. e ≡ EngineFault.Device) }
    ensures prefix { IfErr result (λ _. ReceivedPrefix
        (W.contents out.old) (W.contents out.new) (prec_text predecessors.now)) }
    ensures counted { IfErr result (λ _. W.failed out.new ≡ W.failed out.old + 1) }
{
    match write_predecessors(predecessors, out) {
        Ok(()) => Ok(()),
        Err(PrecWriteFault::Device) => Err(EngineFault::Device),
        // a block rests on no more blocks than a pattern has offsets, which are few
        Err(PrecWriteFault::TooWide(_)) => unreachable!(),
    }
}
