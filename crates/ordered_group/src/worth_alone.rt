//! Amounts that count worth alone, in billionths. Sets that are worth the same are equal, so a
//! maximum closure is one best pit of perhaps many.

use crate::groups::{Group, OrderedGroup};

/// Worth alone, in billionths. Sets that are worth the same are equal here, so it finds one best
/// pit of perhaps many.
#[derive(Clone, Copy, Debug, PartialEq, Eq, PartialOrd, Ord)]
pub struct Worth {
    /// The worth in billionths.
    pub nanos: i128,
}

impl OrderedGroup for Worth {
    ghost use Rattle.std.specs.Prelude.{pos, false, refl};
    ghost use Rattle.std.specs.Ordering.{int_cmp};
    ghost use Rattle.ordered_group.specs.LawProofs.{then_equal, worth_told};
    ghost use Rattle.ordered_group.specs.Block.{worth_block};
    ghost use Rattle.ordered_group.specs.declared.groups.Group.TheVariants as group;

    ghost parts_of = { λ x. record { w = x.nanos; c = pos 0 } };

    ghost block_parts = { worth_block };

    ghost counts = { false };

    ghost name = { group.Worth };

    ghost set_worth = { λ a n count. a.w };

    ghost same_parts = { λ x y p i. record { nanos = (p i).w } };

    ghost order = { λ x y. then_equal (int_cmp x.nanos y.nanos) };

    ghost uncounted = { λ x h. refl };

    ghost worth_fits = { λ a n count f h. f.0 };

    ghost tells_worth = { worth_told };

    fn zero() -> Worth {
        Worth { nanos: 0 }
    }

    fn try_add(self, other: Worth) -> Option<Worth> {
        Some(Worth {
            nanos: self.nanos.checked_add(other.nanos)?,
        })
    }

    fn try_sub(self, other: Worth) -> Option<Worth> {
        Some(Worth {
            nanos: self.nanos.checked_sub(other.nanos)?,
        })
    }

    fn is_positive(self) -> bool {
        self.nanos > 0
    }

    fn of_block(nanos: i128, _n: u32) -> Option<Worth> {
        Some(Worth { nanos })
    }

    fn group() -> Group {
        Group::Worth
    }

    fn parts(self) -> (i128, i128) {
        (self.nanos, 0)
    }

    fn from_parts(worth: i128, count: i128) -> Option<Worth> {
        if count == 0 {
            Some(Worth { nanos: worth })
        } else {
            None
        }
    }

    fn nanos_of_set(self, _n: u32, _count: u32) -> Option<i128> {
        Some(self.nanos)
    }
}
