//! Writes the line that says what is wrong with the expanded mine, without taking memory.

ghost use Rattle.std.specs.Prelude.{◌≡◌, ◌+◌, ◌-◌, ◌^◌, ◌<◌, OnOk, OnErr};
ghost use Rattle.std.specs.Io.KnownBytes.{Appends};
ghost use Rattle.counted_devices.specs.Device.{ReceivedPrefix};
ghost use Rattle.planned_mine.specs.NodesLines.{nodes_problem_line};

use crate::bound_fault::NodesProblem;
use counted_devices::{CountedWrite, WriteFault, write_text};

/// Writes the line of what is wrong with the expanded mine: `fault: nodes `, and the problem. It takes no memory.
///
/// [`WriteFault::Device`] where a write failed: the writer has then received a prefix of the line.
///
/// `out` must have counted fewer than 2^64 - 1 failures, so that one more can be counted.
pub fn write_nodes_problem<W: CountedWrite>(
    problem: NodesProblem,
    out: &mut W,
) -> Result<(), WriteFault>
    requires { W.failed out.old < 2 ^ 64 - 1 }
    ensures line { OnOk result
        (Appends (W.contents out.old) (W.contents out.new) (nodes_problem_line problem)) }
    ensures kept { OnOk result (W.failed out.new ≡ W.failed out.old) }
    ensures prefix { OnErr result
        (ReceivedPrefix (W.contents out.old) (W.contents out.new) (nodes_problem_line problem)) }
    ensures counted { OnErr result (W.failed out.new ≡ W.failed out.old + 1) }
{
    write_text(out, line_of(problem))
}

// The line of a problem.
fn line_of(problem: NodesProblem) -> &'static [u8]
    ensures { result.now ≡ nodes_problem_line problem }
{
    match problem {
        NodesProblem::TooManyNodes => b"fault: nodes TooManyNodes\n",
        NodesProblem::TooManyPairs => b"fault: nodes TooManyPairs\n",
        NodesProblem::TooLarge => b"fault: nodes TooLarge\n",
    }
}
