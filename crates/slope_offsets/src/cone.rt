//! Lists the offsets of a cone that opens upward by a slope of run to rise, level by level, and stops where there are
//! too many.

ghost use Rattle.std.specs.Prelude.{◌≡◌, ◌≤◌, ◌+◌, ◌++◌, ◌∷◌, ◌+ℤ◌, ◌-ℤ◌, [], pos, IsTrue, ◌↔◌, MatchResult, length, unsigned_abs};
ghost use Rattle.slope_offsets.specs.Patterns.{IsInCone, IsNear, ConeFaultStands};
ghost use Rattle.slope_offsets.specs.Gathering.{Collects, IsLevel, IsBelowLevel, IsBelowRow, OffsetRefusalStands};

use crate::PatternFault;
use crate::pattern::{MOST_CONE_NUMBER, MOST_OFFSETS};
use std::alloc::Global;

// A level of a cone that opens by `run` for each `rise`, and the greatest distance there, in whole blocks.
#[derive(Clone, Copy)]
struct Level {
    number: u32,
    reach: u32,
    run: u32,
    rise: u32,
}

// Is the offset near enough on its level?
fn is_near(level: Level, x: i32, y: i32) -> bool
    requires level { IsLevel level.number level.reach level.run level.rise }
    requires first { unsigned_abs x ≤ 1000000 }
    requires second { unsigned_abs y ≤ 1000000 }
    ensures { IsTrue result ↔ IsNear level.run level.rise (x, y, pos level.number) }
{
    let along = x.unsigned_abs() as u64;
    let across = y.unsigned_abs() as u64;
    let run = level.run as u64;
    let rise = level.rise as u64;
    let number = level.number as u64;
    rise * rise * (along * along + across * across) <= number * number * (run * run)
}

// The step's coordinate, where step 0 is the furthest one below the middle.
fn coordinate(reach: u32, step: u32) -> i32
    requires near { reach ≤ 1000000 }
    requires step { step ≤ 2000000 }
    ensures { result ≡ pos step -ℤ pos reach }
{
    step as i32 - reach as i32
}

// Adds an offset, if there is room for it.
fn add(offsets: &mut Vec<(i32, i32, i32)>, offset: (i32, i32, i32)) -> Result<(), PatternFault>
    ensures { MatchResult result
        (λ _. (offsets.new.items ≡ offsets.old.items ++ offset ∷ [])
        × (length offsets.new.items ≤ MOST_OFFSETS))
        (OffsetRefusalStands offsets.old.items) }
{
    if offsets.len() >= MOST_OFFSETS {
        return Err(PatternFault::TooMany);
    }
    offsets.push(offset).map_err(|_| PatternFault::NoMemory)
}

// Adds the offsets of a level whose first number is x.
fn add_row(offsets: &mut Vec<(i32, i32, i32)>, level: Level, x: i32) -> Result<(), PatternFault>
    requires level { IsLevel level.number level.reach level.run level.rise }
    requires some { 1 ≤ level.number }
    requires first { unsigned_abs x ≤ 1000000 }
    requires few { length offsets.old.items ≤ MOST_OFFSETS }
    requires so_far { Collects
        (IsBelowRow level.run level.rise (pos level.number) x) offsets.old.items }
    ensures { MatchResult result
        (λ _. Collects
        (IsBelowRow level.run level.rise (pos level.number) (x +ℤ pos 1)) offsets.new.items
        × (length offsets.new.items ≤ MOST_OFFSETS))
        (ConeFaultStands level.number level.run level.rise) }
{
    for step in 0..2 * level.reach + 1 {
        let y = coordinate(level.reach, step);
        if is_near(level, x, y) {
            add(offsets, (x, y, level.number as i32))?;
        }
    }
    Ok(())
}

// Adds the offsets of a level.
fn add_level(offsets: &mut Vec<(i32, i32, i32)>, level: Level) -> Result<(), PatternFault>
    requires level { IsLevel level.number level.reach level.run level.rise }
    requires some { 1 ≤ level.number }
    requires few { length offsets.old.items ≤ MOST_OFFSETS }
    requires so_far { Collects
        (IsBelowLevel level.run level.rise (pos level.number)) offsets.old.items }
    ensures { MatchResult result
        (λ _. Collects
        (IsBelowLevel level.run level.rise (pos (level.number + 1))) offsets.new.items
        × (length offsets.new.items ≤ MOST_OFFSETS))
        (ConeFaultStands level.number level.run level.rise) }
{
    for step in 0..2 * level.reach + 1 {
        let x = coordinate(level.reach, step);
        add_row(offsets, level, x)?;
    }
    Ok(())
}

// The offsets of a cone, each once. It stops at the offset after the 4,096th.
pub(crate) fn cone_offsets(
    alloc: Global,
    levels: u32,
    run: u32,
    rise: u32,
) -> Result<Vec<(i32, i32, i32)>, PatternFault>
    requires levels { levels ≤ MOST_CONE_NUMBER }
    requires run { run ≤ MOST_CONE_NUMBER }
    requires rise { (1 ≤ rise) × (rise ≤ MOST_CONE_NUMBER) }
    ensures { MatchResult result
        (λ offsets. Collects (IsInCone levels run rise) offsets.items
        × (length offsets.items ≤ MOST_OFFSETS))
        (ConeFaultStands levels run rise) }
{
    let mut offsets = Vec::new(alloc);
    for number in 1..levels + 1 {
        let level = Level {
            number,
            reach: number * run / rise,
            run,
            rise,
        };
        add_level(&mut offsets, level)?;
    }
    Ok(offsets)
}
