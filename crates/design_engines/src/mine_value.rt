//! Judges a design over a mine that was read: sums its blocks' worths, looks for pairs that lead out of it, and
//! writes what it comes to.

ghost use Rattle.std.specs.Prelude.{◌≡◌, ◌+◌, ◌-◌, ◌^◌, ◌<◌, ◌↔◌, ℕ, List, length, MatchResult, IsErrOf};
ghost use Rattle.mine_inputs.specs.Mines.{MineTexts};
ghost use Rattle.mine_inputs.specs.ReadMines.{AreRead};
ghost use Rattle.engine_faults.specs.declared.engine_fault.EngineFault.TheVariants as engine;
ghost use Rattle.design_engines.specs.declared.value_fault.ValueFault.TheVariants as value;
ghost use Rattle.design_engines.specs.Designs.{IsValued};
ghost use Rattle.design_engines.specs.DesignTexts.{ReadsDesign};
ghost use Rattle.design_engines.specs.Values.{NoValue, Values};
ghost use Rattle.design_engines.specs.Told.{design_view};

use crate::design_lines::write_design;
use crate::value_fault::{DesignProblem, ValueFault};
use crate::valued::{Valued, verdict_where};
use check_engines::Verdict;
use closure_net::NetFault;
use counted_devices::CountedWrite;
use design_value::{count_marked, open_pairs_of, worth_of_marked};
use engine_faults::EngineFault;
use held_pairs::HeldPairs;
use std::alloc::Global;

/// Judges a design over a mine that was read, and writes what it comes to.
///
/// # Errors
/// `TooLarge` where a sum of the worths of its blocks doesn't fit, `Memory` where memory is refused: then nothing was
/// written. `Device` where a write fails: the writer then has a prefix.
pub(crate) fn value_mine<W: CountedWrite>(
    alloc: Global,
    nanos: &[i128],
    predecessors: &HeldPairs,
    marks: &[bool],
    out: &mut W,
) -> Result<Verdict, ValueFault>
    requires marks { length marks.now ≡ predecessors.now.blocks }
    requires room { W.failed out.old < 2 ^ 64 - 1 }
    ensures answer { (texts : MineTexts) (design : List ℕ)
        → AreRead texts nanos.now predecessors.now
        → ReadsDesign predecessors.now.blocks design marks.now
        → Values texts design (W.contents out.old) (W.contents out.new) result }
    ensures device { IsErrOf result (value.Engine engine.Device)
        ↔ (W.failed out.new ≡ W.failed out.old + 1) }
    ensures kept { ¬ IsErrOf result (value.Engine engine.Device)
        → W.failed out.new ≡ W.failed out.old }
{
    let valued = value_of(alloc, nanos, predecessors, marks)?;
    write_design(alloc, &valued, out)?;
    Ok(verdict_where(valued.open.count))
}

/// What a design comes to over a mine that was read.
///
/// # Errors
/// `TooLarge` where a sum of the worths of its blocks doesn't fit, `Memory` where memory is refused.
pub(crate) fn value_of(
    alloc: Global,
    nanos: &[i128],
    predecessors: &HeldPairs,
    marks: &[bool],
) -> Result<Valued, ValueFault>
    requires marks { length marks.now ≡ predecessors.now.blocks }
    ensures is { (texts : MineTexts) (design : List ℕ) → AreRead texts nanos.now predecessors.now
        → ReadsDesign predecessors.now.blocks design marks.now
        → MatchResult result (λ v. IsValued texts design (design_view v)) (NoValue texts design) }
    ensures no_device { ¬ IsErrOf result (value.Engine engine.Device) }
{
    // proof: what is known of all pairs, that they are of known blocks
    let blocks = predecessors.len();
    // the texts of a mine give as many worths as blocks
    if nanos.len() != blocks as usize {
        return Err(ValueFault::Engine(EngineFault::Model(NetFault::WrongLength)));
    }
    let count = count_marked(marks);
    let worth = match worth_of_marked(marks, nanos) {
        Some(worth) => worth,
        None => return Err(ValueFault::Design(DesignProblem::TooLarge)),
    };
    let open = open_pairs_of(alloc, marks, predecessors)?;
    Ok(Valued { count, worth, open })
}
