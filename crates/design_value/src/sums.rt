//! Sums the worths of the marked blocks, or tells that a sum doesn't fit.

ghost use Rattle.std.specs.Prelude.{◌≡◌, pos, ◌+ℤ◌, cond, length, MatchOption, FitsSigned};
ghost use Rattle.std.specs.Int.{w128};
ghost use Rattle.ordered_group.specs.Sets.{worth_in};
ghost use Rattle.design_value.specs.Sums.{marked_in, worth_listed, SumLeaves};

// A sum with the worth of a block that is marked.
fn with_worth(sum: i128, mark: bool, nanos: i128) -> Option<i128>
    ensures { MatchOption result
        (¬ (FitsSigned w128 (sum +ℤ cond mark nanos (pos 0))))
        (λ more. more ≡ sum +ℤ cond mark nanos (pos 0)) }
{
    if mark {
        sum.checked_add(nanos)
    } else {
        Some(sum)
    }
}

/// The sum of the worths of the marked blocks, in billionths; none where a sum of them, ascending, doesn't fit 128
/// bits.
pub fn worth_of_marked(marks: &[bool], nanos: &[i128]) -> Option<i128>
    requires { length marks.now ≡ length nanos.now }
    ensures { MatchOption result
        (SumLeaves (worth_listed nanos.now) (marked_in marks.now) (length nanos.now))
        (λ sum. sum ≡ worth_in (worth_listed nanos.now) (marked_in marks.now) (length nanos.now)) }
{
    let mut sum: i128 = 0;
    for b in 0..nanos.len() {
        match with_worth(sum, marks[b], nanos[b]) {
            Some(more) => sum = more,
            None => return None,
        }
    }
    Some(sum)
}
