//! Whether the offsets of regions are right: each leads up, and no region has too many.

ghost use Rattle.std.specs.Prelude.{All, IsTrue, map};
ghost use Rattle.slope_offsets.specs.Offsets.{IsUpward};
ghost use Rattle.slope.specs.Slopes.{AreAllUpward, HaveAllFew};

use slope_offsets::MOST_OFFSETS;

// Whether each of these offsets leads up.
fn all_upward(offsets: &[(i32, i32, i32)]) -> bool
    ensures { IsTrue result → All IsUpward offsets.now }
{
    for offset in offsets {
        if offset.2 < 1 {
            return false;
        }
    }
    true
}

// Whether each offset of each region leads up.
pub(crate) fn lead_up(listed: &[Vec<(i32, i32, i32)>]) -> bool
    ensures { IsTrue result → AreAllUpward (map (λ w. w.items) listed.now) }
{
    for offsets in listed {
        if !all_upward(offsets) {
            return false;
        }
    }
    true
}

// Whether no region has too many offsets.
pub(crate) fn are_few(listed: &[Vec<(i32, i32, i32)>]) -> bool
    ensures { IsTrue result → HaveAllFew (map (λ w. w.items) listed.now) }
{
    for offsets in listed {
        if offsets.len() > MOST_OFFSETS {
            return false;
        }
    }
    true
}
