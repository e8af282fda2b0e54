//! Counts the pairs that a schedule breaks, and gives the first of them: of predecessors, which may be dug in the same
//! period, and of blocks for which others wait so many periods.

ghost use Rattle.std.specs.Prelude.{◌≡◌, ℕ, ◌+◌, ◌<◌, List, [], ◌∷◌, ◌++◌, take, length, IfOk, OnOk};
ghost use Rattle.prec_file.specs.Rests.{first_of};
ghost use Rattle.prec_file.specs.declared.limits.TheConstants.{MOST_PAIRS};
ghost use Rattle.schedule_value.specs.Breaking.{AreBroken, breaks, period_by};

use prec_file::Predecessors;
use std::alloc::{AllocError, Global};

/// How many pairs (b, p) a schedule breaks, where b is dug and p isn't dug so many periods before or earlier, and the
/// first 20 of them, by b and then by p.
#[derive(Drop)]
pub struct BrokenPairs {
    /// How many there are.
    pub count: u64,
    /// The first of them.
    pub first: Vec<(u32, u32)>,
}

// The most pairs that are told.
const MOST_TOLD: usize = 20;

// Takes in a pair, which is broken or isn't.
fn pass_pair(broken: &mut BrokenPairs, pair: (u32, u32), is: bool) -> Result<(), AllocError>
    requires { broken.old.count < MOST_PAIRS }
    ensures { OnOk result ((lag : ℕ) (schedule : ℕ → ℕ) (periods : ℕ) (ps : List (ℕ × ℕ))
        → breaks lag schedule periods pair ≡ is
        → AreBroken lag schedule periods ps broken.old.count broken.old.first.items
        → AreBroken lag schedule periods (ps ++ pair
        ∷ []) broken.new.count broken.new.first.items) }
{
    if !is {
        return Ok(());
    }
    broken.count += 1;
    if broken.first.len() >= MOST_TOLD {
        return Ok(());
    }
    broken.first.push(pair)?;
    Ok(())
}

// Whether the schedule breaks the pair (b, p).
fn is_broken(schedule: &[u32], periods: u32, lag: u32, b: u32, p: u32) -> bool
    requires block { b < length schedule.now }
    requires predecessor { p < length schedule.now }
    ensures { result ≡ breaks lag (period_by schedule.now) periods (b, p) }
{
    let period = schedule[b as usize];
    let first = lag as u64 + schedule[p as usize] as u64;
    period < periods && (period as u64) < first
}

// Takes in the pairs of a block, which are the next ones.
fn pass_block(
    broken: &mut BrokenPairs,
    schedule: &[u32],
    periods: u32,
    lag: u32,
    predecessors: &Predecessors,
    b: u32,
) -> Result<(), AllocError>
    requires known { b < predecessors.now.blocks }
    requires all { length schedule.now ≡ predecessors.now.blocks }
    requires before { AreBroken lag (period_by schedule.now) periods
        (take (first_of predecessors.now.pairs b) predecessors.now.pairs)
        broken.old.count broken.old.first.items }
    ensures { OnOk result (AreBroken lag (period_by schedule.now) periods (take (first_of
        predecessors.now.pairs (b + 1)) predecessors.now.pairs) broken.new.count
        broken.new.first.items) }
{
    // proof: what is known of all pairs, that they are in order and of known blocks
    let _blocks = predecessors.len();
    let row = predecessors.above(b);
    for i in 0..row.len() {
        let p = row[i];
        let is = is_broken(schedule, periods, lag, b, p);
        pass_pair(broken, (b, p), is)?;
    }
    Ok(())
}

/// The pairs that a schedule breaks: those of a block that is dug, and of one that isn't dug so many periods before or
/// earlier.
///
/// # Errors
/// Memory was refused.
pub(crate) fn broken_pairs_of(
    alloc: Global,
    schedule: &[u32],
    periods: u32,
    lag: u32,
    predecessors: &Predecessors,
) -> Result<BrokenPairs, AllocError>
    requires { length schedule.now ≡ predecessors.now.blocks }
    ensures { IfOk result (λ broken. AreBroken lag
        (period_by schedule.now) periods predecessors.now.pairs broken.count broken.first.items) }
{
    let mut broken = BrokenPairs {
        count: 0,
        first: Vec::new(alloc),
    };
    // proof: what is known of all pairs, that they are of known blocks
    let _blocks = predecessors.len();
    for b in 0..predecessors.len() {
        pass_block(&mut broken, schedule, periods, lag, predecessors, b)?;
    }
    Ok(broken)
}
