//! Sorts a list of offsets and drops repeats, so that a pattern has each offset once and in order.

ghost use Rattle.std.specs.Prelude.{◌≤◌, length, Contains};
ghost use Rattle.slope_offsets.specs.Offsets.{Offset, AreOffsetsRising};

// The offsets in order, each once.
pub(crate) fn in_order(mut offsets: Vec<(i32, i32, i32)>) -> Vec<(i32, i32, i32)>
    ensures rising { AreOffsetsRising result.items }
    ensures held { (o : Offset) → Contains offsets.items o → Contains result.items o }
    ensures only { (o : Offset) → Contains result.items o → Contains offsets.items o }
    ensures fewer { length result.items ≤ length offsets.items }
{
    offsets.sort_unstable();
    offsets.dedup();
    offsets
}
