//! Writes the line that says what is wrong with a design, without taking memory.

ghost use Rattle.std.specs.Prelude.{◌≡◌, ◌+◌, ◌-◌, ◌^◌, ◌<◌, ◌≤◌, ◌++◌, length, OnOk, OnErr};
ghost use Rattle.std.specs.Io.KnownBytes.{Appends};
ghost use Rattle.counted_devices.specs.Device.{ReceivedPrefix};
ghost use Rattle.design_file.specs.Records.{design_fault_text};
ghost use Rattle.design_engines.specs.FaultText.{design_problem_text, design_problem_words, design_problem_line};

use crate::value_fault::DesignProblem;
use check_engines::push_at;
use counted_devices::{CountedWrite, ShortLine, WriteFault, write_text};
use design_file::DesignFault;

/// Writes the line of what is wrong with a design: `fault: design `, and the problem. It takes no memory.
///
/// [`WriteFault::Device`] where a write failed: the writer has then received a prefix of the line.
///
/// `out` must have counted fewer than 2^64 - 1 failures, so that one more can be counted.
pub fn write_problem<W: CountedWrite>(problem: DesignProblem, out: &mut W) -> Result<(), WriteFault>
    requires { W.failed out.old < 2 ^ 64 - 1 }
    ensures line { OnOk result
        (Appends (W.contents out.old) (W.contents out.new) (design_problem_line problem)) }
    ensures kept { OnOk result (W.failed out.new ≡ W.failed out.old) }
    ensures prefix { OnErr result
        (ReceivedPrefix (W.contents out.old) (W.contents out.new) (design_problem_line problem)) }
    ensures counted { OnErr result (W.failed out.new ≡ W.failed out.old + 1) }
{
    let mut line = ShortLine::new();
    line.push(b"fault: ");
    push_words(&mut line, problem);
    line.push(b"\n");
    write_text(out, line.as_bytes())
}

// The word for what has the fault, and the problem.
fn push_words(line: &mut ShortLine, problem: DesignProblem)
    requires { length line.old ≤ 16 }
    ensures text { line.new ≡ line.old ++ design_problem_words problem }
    ensures length { length line.new ≤ length line.old + 70 }
{
    line.push(b"design ");
    push_problem(line, problem);
}

fn push_problem(line: &mut ShortLine, problem: DesignProblem)
    requires { length line.old ≤ 64 }
    ensures text { line.new ≡ line.old ++ design_problem_text problem }
    ensures length { length line.new ≤ length line.old + 60 }
{
    match problem {
        DesignProblem::InputTooLong => line.push(b"InputTooLong"),
        DesignProblem::TooLarge => line.push(b"TooLarge"),
        DesignProblem::Fault(fault) => push_fault(line, fault),
    }
}

fn push_fault(line: &mut ShortLine, fault: DesignFault)
    requires { length line.old ≤ 64 }
    ensures text { line.new ≡ line.old ++ design_fault_text fault }
    ensures length { length line.new ≤ length line.old + 60 }
{
    match fault {
        DesignFault::Text(n) => push_at(line, b"Text", n),
        DesignFault::Number(n) => push_at(line, b"Number", n),
        DesignFault::UnknownBlock(n) => push_at(line, b"UnknownBlock", n),
        DesignFault::Repeated(n) => push_at(line, b"Repeated", n),
        DesignFault::Truncated => line.push(b"Truncated"),
        DesignFault::NoMemory => line.push(b"NoMemory"),
    }
}
