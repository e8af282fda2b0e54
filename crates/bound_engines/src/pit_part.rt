//! Judges the certificate of a pit, and restricts what was read of a mine and its periods to the pit's blocks.

ghost use Rattle.std.specs.Prelude.{◌≡◌, ◌+◌, ◌-◌, ◌^◌, ◌<◌, ◌≤◌, length, IfErr, IfOk, IsErrOf};
ghost use Rattle.std.specs.Thread.{IsSync};
ghost use Rattle.engine_faults.specs.declared.engine_fault.EngineFault.TheVariants as engine;
ghost use Rattle.schedule_engines.specs.declared.plan_fault.PlanFault.TheVariants as plan;
ghost use Rattle.planned_mine.specs.declared.bound_fault.BoundFault.TheVariants as bound;
ghost use Rattle.bound_engines.specs.Parts.{IsKeptBy, IsParted, IsPartedOf, IsSoundPart};
ghost use Rattle.planned_mine.specs.TextFaults.{IsBeyondTexts};

use crate::part_judge::PartCase;
use crate::pit_check::PitTold;
use crate::pit_judge::{PitCase, PitMine, judge_pit};
use check_pit::PitFault;
use core::mem::replace_with;
use counted_devices::CountedRead;
use held_pairs::HeldPairs;
use mine_inputs::ListedMine;
use planned_mine::{BesideRead, BoundFault, part_of_plan};
use std::alloc::Global;
use std::thread::Threads;

/// A mine whose pit was judged.
#[derive(Drop)]
pub struct WholeMine {
    /// Who rests on whom.
    pub held: HeldPairs,
}

/// What the blocks of a pit have of a mine and its periods, or why there is no pit.
#[derive(Drop)]
pub enum Parted {
    /// This is theirs; beside it the whole mine.
    Part(PartCase, WholeMine),
    /// The certificate proves no pit, for this reason.
    Refused(PitFault),
}

// What the blocks of a pit that was judged have.
fn part_of_pit(alloc: Global, pit: PitMine, beside: &BesideRead) -> Result<Parted, BoundFault>
    requires few { length beside.now.periods.shared.items ≤ 8 }
    requires kept { IsKeptBy pit.held.blocks pit.told }
    ensures part { IfOk result (IsPartedOf pit beside.now) }
    ensures sound { IfOk result IsSoundPart }
    ensures no_device { ¬ IsErrOf result (bound.Plan (plan.Engine engine.Device)) }
    ensures beyond { IfErr result IsBeyondTexts }
{
    let PitMine {
        worths,
        held,
        factor,
        nanos: _nanos,
        told,
    } = pit;
    let kept = match told {
        PitTold::Kept(kept) => kept,
        PitTold::Refused(fault) => return Ok(Parted::Refused(fault)),
    };
    let figured = match part_of_plan(alloc, &held, &worths, factor, beside, kept.as_slice()) {
        Ok(figured) => figured,
        Err(fault) => return Err(fault),
    };
    let part = PartCase {
        alloc,
        worths,
        factor,
        figured,
    };
    Ok(Parted::Part(part, WholeMine { held }))
}

/// What the blocks of the pit that the certificate of a device proves have of what was read of a mine and its periods.
///
/// # Errors
/// Those of `judge_pit`; `Periods` with `TooLarge` where a figure is too large.
pub fn parted_by<R: Threads + Sync, C: CountedRead>(
    rt: &R,
    alloc: Global,
    mine: ListedMine,
    beside: &BesideRead,
    device: &mut C,
) -> Result<Parted, BoundFault>
    requires few { length beside.now.periods.shared.items ≤ 8 }
    requires count { C.failed device.old < 2 ^ 64 - 1 }
    requires sync { IsSync R.row }
    ensures part { IfOk result
        (IsParted (C.remaining device.old) mine.worths mine.predecessors beside.now) }
    ensures sound { IfOk result IsSoundPart }
    ensures device { IsErrOf result (bound.Plan (plan.Engine engine.Device))
        → C.failed device.new ≡ C.failed device.old + 1 }
    ensures kept { ¬ IsErrOf result (bound.Plan (plan.Engine engine.Device))
        → C.failed device.new ≡ C.failed device.old }
    ensures beyond { IfErr result IsBeyondTexts }
{
    let pit = match replace_with(device, PitCase { rt, alloc, mine }, judge_pit) {
        Ok(pit) => pit,
        Err(fault) => return Err(fault),
    };
    part_of_pit(alloc, pit, beside)
}
