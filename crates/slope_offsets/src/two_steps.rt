//! Lists for each offset of each region's pattern by which first steps it may be made in two, so that a pair that other
//! pairs imply can be left out.

ghost use Rattle.std.specs.Global.{Vec};
ghost use Rattle.std.specs.Prelude.{◌≡◌, ℕ, ◌↔◌, ◌<◌, ◌≤◌, ◌-ℤ◌, IfOk, IsTrue, Contains, length, slice_index_or};
ghost use Rattle.slope_offsets.specs.declared.pattern.TheConstants.{MOST_OFFSETS};
ghost use Rattle.slope_offsets.specs.Offsets.{AreOffsetsRising};
ghost use Rattle.slope_offsets.specs.Gathering.{AreFirstSteps, AreRegionSteps, AreStepsOfEach, AreStepsOfRegions, AreStepsTo, HoldsOf, offset_at, rest_after};

use crate::offset_order::in_order;
use crate::{Pattern, Selection};
use std::alloc::{AllocError, Global};

// The number in 64 bits, which have room for the difference of two such numbers.
fn wide_number(number: i32) -> i64
    ensures { result ≡ number }
{
    number as i64
}

// The offset in numbers of 64 bits.
fn wide_offset(offset: (i32, i32, i32)) -> (i64, i64, i64)
    ensures { result ≡ offset }
{
    let along = wide_number(offset.0);
    let across = wide_number(offset.1);
    let up = wide_number(offset.2);
    (along, across, up)
}

// What is left of a number after a step.
fn rest(step: i32, whole: i32) -> i64
    ensures { result ≡ whole -ℤ step }
{
    whole as i64 - step as i64
}

// The offsets in numbers so wide that the difference of any two fits.
pub(crate) fn widened(
    alloc: Global,
    offsets: &[(i32, i32, i32)],
) -> Result<Vec<(i64, i64, i64)>, AllocError>
    ensures { IfOk result (λ v. v.items ≡ offsets.now) }
{
    let mut wide = Vec::new(alloc);
    for offset in offsets {
        wide.push(wide_offset(*offset))?;
    }
    Ok(wide)
}

// The offset that leads on from the place at the step to that at the whole.
fn rest_offset(step: (i32, i32, i32), whole: (i32, i32, i32)) -> (i64, i64, i64)
    ensures { result ≡ rest_after step whole }
{
    let along = rest(step.0, whole.0);
    let across = rest(step.1, whole.1);
    let up = rest(step.2, whole.2);
    (along, across, up)
}

// Whether one of these offsets leads on from the place at the step to that at the whole.
pub(crate) fn leads_on(
    wide: &[(i64, i64, i64)],
    step: (i32, i32, i32),
    whole: (i32, i32, i32),
) -> bool
    requires { AreOffsetsRising wide.now }
    ensures { IsTrue result ↔ Contains wide.now (rest_after step whole) }
{
    let left = rest_offset(step, whole);
    wide.binary_search(&left).is_ok()
}

/// Whether one of these offsets leads on from the place at one offset of a pattern to that at another.
pub fn leads_on_at(
    wide: &[(i64, i64, i64)],
    offsets: &[(i32, i32, i32)],
    step: usize,
    whole: usize,
) -> bool
    requires rising { AreOffsetsRising wide.now }
    requires step { step < length offsets.now }
    requires whole { whole < length offsets.now }
    ensures { IsTrue result ↔ Contains wide.now
        (rest_after (offset_at offsets.now step) (offset_at offsets.now whole)) }
{
    leads_on(wide, offsets[step], offsets[whole])
}

// The numbers of the first steps to an offset.
fn steps_to(
    alloc: Global,
    offsets: &[(i32, i32, i32)],
    all: &[(i64, i64, i64)],
    whole: (i32, i32, i32),
) -> Result<Vec<u32>, AllocError>
    requires few { length offsets.now ≤ MOST_OFFSETS }
    requires all { AreOffsetsRising all.now }
    ensures { IfOk result
        (λ v. AreFirstSteps offsets.now all.now whole (length offsets.now) v.items) }
{
    let mut steps: Vec<u32> = Vec::new(alloc);
    for (a, step) in offsets.iter().enumerate() {
        if leads_on(all, *step, whole) {
            steps.push(a as u32)?;
        }
    }
    Ok(steps)
}

// None where every pair is selected, and else the first steps.
fn selected_steps(
    alloc: Global,
    offsets: &[(i32, i32, i32)],
    all: &[(i64, i64, i64)],
    whole: (i32, i32, i32),
    selection: Selection,
) -> Result<Vec<u32>, AllocError>
    requires few { length offsets.now ≤ MOST_OFFSETS }
    requires all { AreOffsetsRising all.now }
    ensures { IfOk result (λ v. AreStepsTo selection offsets.now all.now whole v.items) }
{
    match selection {
        Selection::Every => Ok(Vec::new(alloc)),
        Selection::Reduced => steps_to(alloc, offsets, all, whole),
    }
}

// For each offset of a pattern the numbers of the first steps to it, from whose place one of all offsets leads on; none
// where every pair is selected.
fn steps_of_each(
    alloc: Global,
    offsets: &[(i32, i32, i32)],
    all: &[(i64, i64, i64)],
    selection: Selection,
) -> Result<Vec<Vec<u32>>, AllocError>
    requires few { length offsets.now ≤ MOST_OFFSETS }
    requires all { AreOffsetsRising all.now }
    ensures { IfOk result (λ v. AreStepsOfEach selection offsets.now all.now
        (length offsets.now) v.items) }
{
    let mut steps = Vec::new(alloc);
    for whole in offsets {
        steps.push(selected_steps(alloc, offsets, all, *whole, selection)?)?;
    }
    Ok(steps)
}

// The offsets of all patterns, in order.
fn all_offsets(alloc: Global, patterns: &[Pattern]) -> Result<Vec<(i64, i64, i64)>, AllocError>
    ensures rising { IfOk result (λ v. AreOffsetsRising v.items) }
    ensures held { IfOk result (λ v. HoldsOf patterns.now (length patterns.now) v.items) }
{
    let mut all: Vec<(i32, i32, i32)> = Vec::new(alloc);
    for pattern in patterns {
        all.extend_from_slice(pattern.offsets())?;
    }
    let all = in_order(all);
    let wide = widened(alloc, &all)?;
    Ok(wide)
}

// The steps of each pattern's offsets.
fn steps_by(
    alloc: Global,
    patterns: &[Pattern],
    all: &[(i64, i64, i64)],
    selection: Selection,
) -> Result<Vec<Vec<Vec<u32>>>, AllocError>
    requires { AreOffsetsRising all.now }
    ensures { IfOk result (λ v. AreStepsOfRegions selection patterns.now all.now
        (length patterns.now) v.items) }
{
    let mut steps = Vec::new(alloc);
    for pattern in patterns {
        steps.push(steps_of_each(alloc, pattern.offsets(), all, selection)?)?;
    }
    Ok(steps)
}

/// For each offset of each region's pattern the numbers of those at which a third block may stand that a pair at it
/// leads over, and the offsets of all patterns, of which one leads on from such a block.
#[derive(Drop)]
pub struct RegionSteps {
    pub all: Vec<(i64, i64, i64)>,
    pub each: Vec<Vec<Vec<u32>>>,
}

/// The steps of these patterns.
pub fn steps_of_regions(
    alloc: Global,
    patterns: &[Pattern],
    selection: Selection,
) -> Result<RegionSteps, AllocError>
    ensures { IfOk result (λ s. AreRegionSteps selection patterns.now s.all.items s.each.items) }
{
    let all = all_offsets(alloc, patterns)?;
    let each = steps_by(alloc, patterns, &all, selection)?;
    Ok(RegionSteps { all, each })
}

impl RegionSteps {
    /// The steps of the offsets of a region.
    pub fn of_region(&self, region: usize) -> &[Vec<u32>]
        requires { region < length self.now.each.items }
        ensures { (d : Vec (Vec ℕ))
            → result.now ≡ (slice_index_or self.now.each.items region d).items }
    {
        self.each[region].as_slice()
    }
}

/// The steps to the offset with this number.
pub fn steps_at(steps: &[Vec<u32>], i: usize) -> &[u32]
    requires { i < length steps.now }
    ensures { (d : Vec ℕ) → result.now ≡ (slice_index_or steps.now i d).items }
{
    steps[i].as_slice()
}
