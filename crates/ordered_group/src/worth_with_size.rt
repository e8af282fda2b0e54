//! Amounts that count worth in billionths and, where worths are equal, the number of blocks: fewer
//! blocks are greater.

use crate::groups::{Group, OrderedGroup};
use crate::size::SizeGroup;

/// Worth in billionths, and a count of blocks beside it, which decides where worths are equal. One
/// block counts as -1: of two sets that are worth the same the one with fewer blocks is greater.
#[derive(Clone, Copy, Debug, PartialEq, Eq, PartialOrd, Ord)]
pub struct WorthSize {
    /// The worth in billionths.
    pub nanos: i128,
    /// The count: a set of three blocks has -3.
    pub size: i128,
}

impl OrderedGroup for WorthSize {
    ghost use Rattle.std.specs.Prelude.{true, refl};
    ghost use Rattle.ordered_group.specs.Block.{counted_block};
    ghost use Rattle.ordered_group.specs.LawProofs.{true_not_false, counted_told};
    ghost use Rattle.ordered_group.specs.declared.groups.Group.TheVariants as group;

    ghost parts_of = { λ x. record { w = x.nanos; c = x.size } };

    ghost block_parts = { counted_block };

    ghost counts = { true };

    ghost name = { group.Pair };

    ghost set_worth = { λ a n count. a.w };

    ghost same_parts = { λ x y p i. record { nanos = (p i).w; size = (p i).c } };

    ghost order = { λ x y. refl };

    ghost uncounted = { λ x h. true_not_false h };

    ghost worth_fits = { λ a n count f h. f.0 };

    ghost tells_worth = { counted_told };

    fn zero() -> WorthSize {
        WorthSize { nanos: 0, size: 0 }
    }

    fn try_add(self, other: WorthSize) -> Option<WorthSize> {
        let nanos = self.nanos.checked_add(other.nanos)?;
        let size = self.size.checked_add(other.size)?;
        Some(WorthSize { nanos, size })
    }

    fn try_sub(self, other: WorthSize) -> Option<WorthSize> {
        let nanos = self.nanos.checked_sub(other.nanos)?;
        let size = self.size.checked_sub(other.size)?;
        Some(WorthSize { nanos, size })
    }

    fn is_positive(self) -> bool {
        self.nanos > 0 || self.nanos == 0 && self.size > 0
    }

    fn of_block(nanos: i128, _n: u32) -> Option<WorthSize> {
        Some(WorthSize { nanos, size: -1 })
    }

    fn group() -> Group {
        Group::Pair
    }

    fn parts(self) -> (i128, i128) {
        (self.nanos, self.size)
    }

    fn from_parts(worth: i128, count: i128) -> Option<WorthSize> {
        Some(WorthSize {
            nanos: worth,
            size: count,
        })
    }

    fn nanos_of_set(self, _n: u32, _count: u32) -> Option<i128> {
        Some(self.nanos)
    }
}

impl SizeGroup for WorthSize {
    ghost use Rattle.ordered_group.specs.LawProofs.{counted_orders};

    ghost orders_sets = { counted_orders };
}
