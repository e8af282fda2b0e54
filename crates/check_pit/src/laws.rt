//! Laws of what a check decides: that a closed set that is tight by a flow is a maximum closure, and is refused for
//! nothing but sums that don't fit. Each is the contract of a function that does nothing.

ghost use Rattle.check_pit.specs.Duality.{WeakDuality};
ghost use Rattle.check_pit.specs.LineLaws.{LineSumsTell};
ghost use Rattle.check_pit.specs.Tightness.{RefusedForSizeOnly};

/// A closed set that sums to what the source could still give by some flow is a greatest closed set,
/// and the flow is a greatest one.
pub fn tight_closed_set_is_greatest()
    ensures { WeakDuality }
{}

/// A closed pit of the net's blocks that is tight by a flow is accepted, or refused as `TooLarge`:
/// no other fault holds of it, in whatever order a check looks for them.
pub fn tight_closed_pit_is_refused_for_size_only()
    ensures { RefusedForSizeOnly }
{}

/// What is summed while the lines of a certificate are read, balance by balance, tells of its flow whether each block
/// is balanced and whether the pit is tight by it.
pub fn line_sums_tell_flow()
    ensures { LineSumsTell }
{}
