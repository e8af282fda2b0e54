//! Amounts that hold a set's worth and its number of blocks in one number, so that of sets worth the
//! same the one with fewer blocks is greater.

use crate::groups::{Group, OrderedGroup};
use crate::size::SizeGroup;

/// Worth and size in one number, of units. In a model of n blocks a block is its worth in billionths
/// times n + 1, less 1. So a set is its worth times n + 1, less the number of its blocks, which is at
/// most n: of two sets the one that is worth more is greater, and of two that are worth the same the
/// one with fewer blocks, as with `WorthSize`.
#[derive(Clone, Copy, Debug, PartialEq, Eq, PartialOrd, Ord)]
pub struct Scaled {
    /// The units: a set of three blocks that is worth 1 billionth has 1, in a model of three blocks.
    pub units: i128,
}

impl OrderedGroup for Scaled {
    ghost use Rattle.std.specs.Prelude.{pos, false, refl};
    ghost use Rattle.std.specs.Ordering.{int_cmp};
    ghost use Rattle.ordered_group.specs.Block.{scaled_block, scaled_worth};
    ghost use Rattle.ordered_group.specs.LawProofs.{then_equal};
    ghost use Rattle.ordered_group.specs.ScaledProofs.{scaled_fits, scaled_told};
    ghost use Rattle.ordered_group.specs.declared.groups.Group.TheVariants as group;

    ghost parts_of = { λ x. record { w = x.units; c = pos 0 } };

    ghost block_parts = { scaled_block };

    ghost counts = { false };

    ghost name = { group.Scaled };

    ghost set_worth = { scaled_worth };

    ghost same_parts = { λ x y p i. record { units = (p i).w } };

    ghost order = { λ x y. then_equal (int_cmp x.units y.units) };

    ghost uncounted = { λ x h. refl };

    ghost worth_fits = { scaled_fits };

    ghost tells_worth = { scaled_told };

    fn zero() -> Scaled {
        Scaled { units: 0 }
    }

    fn try_add(self, other: Scaled) -> Option<Scaled> {
        Some(Scaled {
            units: self.units.checked_add(other.units)?,
        })
    }

    fn try_sub(self, other: Scaled) -> Option<Scaled> {
        Some(Scaled {
            units: self.units.checked_sub(other.units)?,
        })
    }

    fn is_positive(self) -> bool {
        self.units > 0
    }

    fn of_block(nanos: i128, n: u32) -> Option<Scaled> {
        // w * (n + 1) may be too large where w * (n + 1) - 1 isn't: both w * n and w - 1 lie between
        // that and zero
        let others = nanos.checked_mul(n as i128)?;
        let own = nanos.checked_sub(1)?;
        Some(Scaled {
            units: others.checked_add(own)?,
        })
    }

    fn group() -> Group {
        Group::Scaled
    }

    fn parts(self) -> (i128, i128) {
        (self.units, 0)
    }

    fn from_parts(worth: i128, count: i128) -> Option<Scaled> {
        if count == 0 {
            Some(Scaled { units: worth })
        } else {
            None
        }
    }

    fn nanos_of_set(self, n: u32, count: u32) -> Option<i128> {
        let scale = n as i128 + 1;
        // the count is added to the remainder, since the units may be the most that there are
        let whole = self.units.div_euclid(scale);
        let rest = self.units.rem_euclid(scale) + count as i128;
        whole.checked_add(rest / scale)
    }
}

impl SizeGroup for Scaled {
    ghost use Rattle.ordered_group.specs.ScaledProofs.{scaled_orders};

    ghost orders_sets = { scaled_orders };
}
