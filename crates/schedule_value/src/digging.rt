//! Counts the blocks that are dug in one of the periods.

ghost use Rattle.std.specs.Prelude.{◌≡◌, ◌≤◌, cond, nat_lt, length};
ghost use Rattle.ordered_group.specs.Sets.{count_in};
ghost use Rattle.schedule_value.specs.Breaking.{period_by};

use fixed_worth::MOST_BLOCKS;

// One for a block that is dug in one of so many periods.
fn one_if_dug(period: u32, periods: u32) -> u32
    ensures { result ≡ cond (nat_lt period periods) 1 0 }
{
    if period < periods { 1 } else { 0 }
}

/// How many blocks are dug in one of so many periods.
pub(crate) fn count_dug(schedule: &[u32], periods: u32) -> u32
    requires { length schedule.now ≤ MOST_BLOCKS }
    ensures { result ≡ count_in
        (λ b. nat_lt (period_by schedule.now b) periods) (length schedule.now) }
{
    let mut count: u32 = 0;
    for b in 0..schedule.len() {
        count += one_if_dug(schedule[b], periods);
    }
    count
}
