//! The offsets from a block to its predecessors: 1:5, 1:9, a cone of a slope, or those of a list, which is refused
//! where an offset doesn't lead up.

ghost use Rattle.std.specs.Prelude.{◌≡◌, ◌≤◌, Err, All, IfOk, List, MatchOption, MatchResult, Contains, length};
ghost use Rattle.prec_file.specs.Rests.{IsFirstNot};
ghost use Rattle.slope_offsets.specs.Offsets.{Offset, IsUpward, IsPattern, AreOffsets};
ghost use Rattle.slope_offsets.specs.Patterns.{five_offsets, nine_offsets, IsInCone, UpwardAt, ListFaultStands, ConeFaultStands};

use crate::PatternFault;
use crate::cone::cone_offsets;
use crate::offset_order::in_order;
use crate::two_steps::widened;
use std::alloc::{AllocError, Global};
use std::marker::Model;

/// The offsets from a block to those that it rests on: at most 4,096, each once and in order.
///
/// An offset has a number for each axis, and its third number, at least 1, counts levels upward.
#[derive(Drop)]
pub struct Pattern {
    offsets: Vec<(i32, i32, i32)>,
    // the same in numbers so wide that the difference of any two fits
    wide: Vec<(i64, i64, i64)>,
}

impl Model for Pattern {
    ghost Value = { List Offset };

    ghost view = { λ p. p.offsets.items };

    ghost invariant = { λ p. IsPattern p.offsets.items × (p.wide.items ≡ p.offsets.items) };
}

/// The greatest number of a cone: its levels, its run and its rise.
pub const MOST_CONE_NUMBER: u32 = 1_000;

/// The most offsets that a pattern may have.
pub const MOST_OFFSETS: usize = 4_096;

// Contracts cite the limits by their names, so a wrong number would change code and contract alike: these are the
// numbers.
fn numbers()
    ensures cone { MOST_CONE_NUMBER ≡ 1000 }
    ensures offsets { MOST_OFFSETS ≡ 4096 }
{}

/// The first offset that doesn't lead up.
pub fn first_not_upward(listed: &[(i32, i32, i32)]) -> Option<usize>
    ensures { MatchOption result
        (All IsUpward listed.now)
        (λ i. IsFirstNot (UpwardAt listed.now) (length listed.now) i) }
{
    for (i, offset) in listed.iter().enumerate() {
        if offset.2 < 1 {
            return Some(i);
        }
    }
    None
}

impl Pattern {
    // The pattern of these offsets.
    fn of(alloc: Global, offsets: Vec<(i32, i32, i32)>) -> Result<Pattern, AllocError>
        requires { IsPattern offsets.items }
        ensures is { IfOk result (λ p. p ≡ offsets.items) }
        ensures all { IfOk result IsPattern }
    {
        let wide = widened(alloc, &offsets)?;
        Ok(Pattern { offsets, wide })
    }

    /// A copy.
    pub fn copied(&self, alloc: Global) -> Result<Pattern, AllocError>
        ensures is { IfOk result (λ p. p ≡ self.now) }
        ensures all { IfOk result IsPattern }
    {
        let offsets = Vec::from_slice(alloc, &self.offsets)?;
        Pattern::of(alloc, offsets)
    }

    /// The pattern of few offsets that lead up.
    pub fn gathered(alloc: Global, listed: &[(i32, i32, i32)]) -> Result<Pattern, AllocError>
        requires upward { All IsUpward listed.now }
        requires few { length listed.now ≤ MOST_OFFSETS }
        ensures is { IfOk result (AreOffsets (Contains listed.now)) }
        ensures all { IfOk result IsPattern }
    {
        let offsets = in_order(Vec::from_slice(alloc, listed)?);
        let pattern = Pattern::of(alloc, offsets)?;
        Ok(pattern)
    }

    /// The block above and the four that share a side with it, which is called 1:5.
    ///
    /// # Errors
    /// `NoMemory`.
    pub fn five(alloc: Global) -> Result<Pattern, PatternFault>
        ensures { MatchResult result
            (AreOffsets (Contains five_offsets))
            (λ e. e ≡ PatternFault.NoMemory) }
    {
        let listed = [(0, 0, 1), (1, 0, 1), (-1, 0, 1), (0, 1, 1), (0, -1, 1)];
        Pattern::gathered(alloc, &listed).map_err(|_| PatternFault::NoMemory)
    }

    /// The square of nine blocks above, which is called 1:9.
    ///
    /// # Errors
    /// `NoMemory`.
    pub fn nine(alloc: Global) -> Result<Pattern, PatternFault>
        ensures { MatchResult result
            (AreOffsets (Contains nine_offsets))
            (λ e. e ≡ PatternFault.NoMemory) }
    {
        let listed = [
            (-1, -1, 1),
            (-1, 0, 1),
            (-1, 1, 1),
            (0, -1, 1),
            (0, 0, 1),
            (0, 1, 1),
            (1, -1, 1),
            (1, 0, 1),
            (1, 1, 1),
        ];
        Pattern::gathered(alloc, &listed).map_err(|_| PatternFault::NoMemory)
    }

    /// A cone that opens upward by `run` for each `rise`: on each of so many levels above, the blocks whose distance
    /// along the first two axes is at most level * run / rise. Each of the three numbers is from 1 to 1,000.
    ///
    /// # Errors
    /// `TooMany` for more than 4,096 offsets, and `NoMemory`.
    pub fn cone(alloc: Global, levels: u32, run: u32, rise: u32) -> Result<Pattern, PatternFault>
        requires levels { (1 ≤ levels) × (levels ≤ MOST_CONE_NUMBER) }
        requires run { (1 ≤ run) × (run ≤ MOST_CONE_NUMBER) }
        requires rise { (1 ≤ rise) × (rise ≤ MOST_CONE_NUMBER) }
        ensures { MatchResult result
            (AreOffsets (IsInCone levels run rise))
            (ConeFaultStands levels run rise) }
    {
        let listed = cone_offsets(alloc, levels, run, rise)?;
        match Pattern::of(alloc, in_order(listed)) {
            Ok(pattern) => Ok(pattern),
            Err(_) => Err(PatternFault::NoMemory),
        }
    }

    /// The offsets of a list, which may be empty; repeats are dropped.
    ///
    /// # Errors
    /// In this order: `NotUpward` with the place of the first offset whose third number isn't at least 1, `TooMany` for
    /// more than 4,096 listed offsets, and `NoMemory`.
    pub fn custom(alloc: Global, listed: &[(i32, i32, i32)]) -> Result<Pattern, PatternFault>
        ensures value { MatchResult result
            (λ p. All IsUpward listed.now × (length listed.now ≤ MOST_OFFSETS)
            × AreOffsets (Contains listed.now) p)
            (ListFaultStands listed.now) }
        ensures memory { result ≡ Err PatternFault.NoMemory
            → All IsUpward listed.now × (length listed.now ≤ MOST_OFFSETS) }
    {
        if let Some(place) = first_not_upward(listed) {
            return Err(PatternFault::NotUpward(place));
        }
        if listed.len() > MOST_OFFSETS {
            return Err(PatternFault::TooMany);
        }
        Pattern::gathered(alloc, listed).map_err(|_| PatternFault::NoMemory)
    }

    /// The offsets, in order.
    pub fn offsets(&self) -> &[(i32, i32, i32)]
        ensures is { result.now ≡ self.now }
        ensures all { IsPattern self.now }
    {
        &self.offsets
    }

    /// The offsets in wide numbers, in order.
    pub fn wide(&self) -> &[(i64, i64, i64)]
        ensures is { result.now ≡ self.now }
        ensures all { IsPattern self.now }
    {
        &self.wide
    }
}
