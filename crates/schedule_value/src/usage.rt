//! What a schedule uses in each period, and where that is more than there is.

ghost use Rattle.std.specs.Prelude.{◌≡◌, ◌<◌, ◌≤◌, ◌^◌, pos, ◌+ℤ◌, ◌≤ℤ◌, cond, length, IfOk, OnOk, ◌==◌, [], ◌++◌, int_lt};
ghost use Rattle.schedules.specs.Production.{used_in};
ghost use Rattle.production_figures.specs.Figures.{production_of};
ghost use Rattle.schedule_value.specs.Breaking.{period_by};
ghost use Rattle.schedule_value.specs.Overuse.{over_at, over_if, overs_in_row, overs_in_rows};

use production_figures::Figures;
use std::alloc::{AllocError, Global};

/// A period that uses more of a resource than it has.
#[derive(Clone, Copy, Debug, PartialEq, Eq)]
pub struct Over {
    /// The resource.
    pub resource: u32,
    /// The period.
    pub period: u32,
    /// What it uses, in millionths.
    pub used: i128,
    /// What it has, in millionths.
    pub capacity: i128,
}

// A sum with an amount, where the period is the one that is summed.
fn with_amount(sum: i128, period: u32, t: u32, amount: u64) -> i128
    requires some { pos 0 ≤ℤ sum }
    requires room { sum ≤ℤ pos (2 ^ 100) }
    ensures is { result ≡ sum +ℤ cond (period == t) (pos amount) (pos 0) }
    ensures some { pos 0 ≤ℤ result }
    ensures most { result ≤ℤ (sum +ℤ pos (2 ^ 64)) }
{
    if period == t {
        sum + amount as i128
    } else {
        sum
    }
}

// What the blocks that are dug in period t use of resource r.
fn used_at(figures: &Figures, schedule: &[u32], r: u32, t: u32) -> i128
    requires resource { r < figures.now.resources }
    requires all { length schedule.now ≡ length figures.now.worths }
    ensures { result ≡ used_in (production_of [] figures.now) (period_by schedule.now) r t }
{
    let mut sum: i128 = 0;
    for b in 0..figures.blocks() {
        sum = with_amount(sum, schedule[b as usize], t, figures.used(r, b));
    }
    sum
}

// Adds a period that uses more than it has.
fn push_over(found: &mut Vec<Over>, over: Over) -> Result<(), AllocError>
    ensures { OnOk result (found.new.items ≡ found.old.items ++ over_if
        (int_lt over.capacity over.used) over) }
{
    if over.capacity < over.used {
        found.push(over)?;
    }
    Ok(())
}

// What a period uses of a resource, and what it has.
fn over_of(figures: &Figures, schedule: &[u32], r: u32, t: u32) -> Over
    requires resource { r < figures.now.resources }
    requires period { t < length figures.now.weights }
    requires all { length schedule.now ≡ length figures.now.worths }
    ensures { result ≡ over_at (production_of [] figures.now) (period_by schedule.now) r t }
{
    Over {
        resource: r,
        period: t,
        used: used_at(figures, schedule, r, t),
        capacity: figures.capacity(r, t),
    }
}

// Adds the periods that use more of a resource than they have.
fn push_row(
    found: &mut Vec<Over>,
    figures: &Figures,
    schedule: &[u32],
    r: u32,
) -> Result<(), AllocError>
    requires resource { r < figures.now.resources }
    requires all { length schedule.now ≡ length figures.now.worths }
    ensures { OnOk result (found.new.items ≡ found.old.items ++ overs_in_row
        (production_of [] figures.now) (period_by schedule.now) r (length figures.now.weights)) }
{
    for t in 0..figures.periods() {
        let over = over_of(figures, schedule, r, t);
        push_over(found, over)?;
    }
    Ok(())
}

/// The periods that use more of a resource than they have, resource by resource.
///
/// # Errors
/// Memory was refused.
pub(crate) fn overs_of(
    alloc: Global,
    figures: &Figures,
    schedule: &[u32],
) -> Result<Vec<Over>, AllocError>
    requires { length schedule.now ≡ length figures.now.worths }
    ensures { IfOk result (λ found. found.items ≡ overs_in_rows
        (production_of [] figures.now) (period_by schedule.now) figures.now.resources) }
{
    let mut found: Vec<Over> = Vec::new(alloc);
    for r in 0..figures.resources() {
        push_row(&mut found, figures, schedule, r)?;
    }
    Ok(found)
}
