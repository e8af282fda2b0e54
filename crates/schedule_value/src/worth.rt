//! Sums what the blocks of a schedule are worth, each at the weight of the period in which it is dug, in 128 bits,
//! which no such sum leaves.

ghost use Rattle.std.specs.Prelude.{◌≡◌, ◌+◌, ◌<◌, ◌^◌, pos, ◌+ℤ◌, cond, nat_lt, length, []};
ghost use Rattle.schedules.specs.Production.{npv_of};
ghost use Rattle.production_figures.specs.Figures.{production_of, value_by};
ghost use Rattle.schedule_value.specs.Breaking.{period_by};
ghost use Rattle.schedule_value.specs.Bounds.{IsWithin};

use production_figures::Figures;

// What block b is worth in period t.
fn value_at(figures: &Figures, b: u32, t: u32) -> i128
    requires block { b < length figures.now.worths }
    requires period { t < length figures.now.weights }
    ensures is { result ≡ value_by figures.now b t }
    ensures bound { IsWithin 1 result }
{
    // proof: what is known of the figures
    let _periods = figures.periods();
    figures.worth(b) * figures.weight(t) as i128
}

// What block b is worth in its period, if it is dug.
fn value_if_dug(figures: &Figures, b: u32, period: u32) -> i128
    requires { b < length figures.now.worths }
    ensures is { result ≡ cond
        (nat_lt period (length figures.now.weights)) (value_by figures.now b period) (pos 0) }
    ensures bound { IsWithin 1 result }
{
    if period < figures.periods() {
        value_at(figures, b, period)
    } else {
        0
    }
}

// A sum of b values, and one more.
fn with_value(sum: i128, b: u32, value: i128) -> i128
    requires few { b < 2 ^ 24 }
    requires sum { IsWithin b sum }
    requires value { IsWithin 1 value }
    ensures is { result ≡ sum +ℤ value }
    ensures bound { IsWithin (b + 1) result }
{
    sum + value
}

/// What a schedule is worth: each block that is dug, at the weight of its period.
pub(crate) fn npv_at(figures: &Figures, schedule: &[u32]) -> i128
    requires { length schedule.now ≡ length figures.now.worths }
    ensures { result ≡ npv_of (production_of [] figures.now) (period_by schedule.now) }
{
    let mut sum: i128 = 0;
    for b in 0..figures.blocks() {
        let value = value_if_dug(figures, b, schedule[b as usize]);
        sum = with_value(sum, b, value);
    }
    sum
}
