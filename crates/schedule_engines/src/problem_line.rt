//! Writes the lines that say what is wrong with periods or with a schedule, without taking memory.

ghost use Rattle.std.specs.Prelude.{◌≡◌, ◌+◌, ◌-◌, ◌^◌, ◌<◌, ◌≤◌, ◌++◌, length, codes, decimal, OnOk, OnErr};
ghost use Rattle.std.specs.Io.KnownBytes.{Appends};
ghost use Rattle.counted_devices.specs.Device.{ReceivedPrefix};
ghost use Rattle.fixed_worth.specs.FaultText.{at_line};
ghost use Rattle.periods_file.specs.Keys.{key_name};
ghost use Rattle.periods_file.specs.Periods.{periods_fault_text};
ghost use Rattle.schedule_engines.specs.FaultText.{periods_problem_line, periods_problem_text, periods_problem_words, schedule_problem_line, schedule_problem_text, schedule_problem_words};

use crate::plan_fault::{PeriodsProblem, ScheduleProblem};
use counted_devices::{CountedWrite, ShortLine, WriteFault, write_text};
use periods_file::{PeriodKey, PeriodsFault};
use schedule_file::ScheduleFault;

/// Writes the line of what is wrong with periods: `fault: periods `, and the problem. It takes no memory.
///
/// [`WriteFault::Device`] where a write failed: the writer has then received a prefix of the line.
///
/// `out` must have counted fewer than 2^64 - 1 failures, so that one more can be counted.
pub fn write_periods_problem<W: CountedWrite>(
    problem: PeriodsProblem,
    out: &mut W,
) -> Result<(), WriteFault>
    requires { W.failed out.old < 2 ^ 64 - 1 }
    ensures line { OnOk result
        (Appends (W.contents out.old) (W.contents out.new) (periods_problem_line problem)) }
    ensures kept { OnOk result (W.failed out.new ≡ W.failed out.old) }
    ensures prefix { OnErr result
        (ReceivedPrefix (W.contents out.old) (W.contents out.new) (periods_problem_line problem)) }
    ensures counted { OnErr result (W.failed out.new ≡ W.failed out.old + 1) }
{
    let mut line = ShortLine::new();
    line.push(b"fault: ");
    push_periods_words(&mut line, problem);
    line.push(b"\n");
    write_text(out, line.as_bytes())
}

/// Writes the line of what is wrong with a schedule: `fault: schedule `, and the problem. It takes no memory.
///
/// [`WriteFault::Device`] where a write failed: the writer has then received a prefix of the line.
///
/// `out` must have counted fewer than 2^64 - 1 failures, so that one more can be counted.
pub fn write_schedule_problem<W: CountedWrite>(
    problem: ScheduleProblem,
    out: &mut W,
) -> Result<(), WriteFault>
    requires { W.failed out.old < 2 ^ 64 - 1 }
    ensures line { OnOk result
        (Appends (W.contents out.old) (W.contents out.new) (schedule_problem_line problem)) }
    ensures kept { OnOk result (W.failed out.new ≡ W.failed out.old) }
    ensures prefix { OnErr result
        (ReceivedPrefix (W.contents out.old) (W.contents out.new) (schedule_problem_line problem)) }
    ensures counted { OnErr result (W.failed out.new ≡ W.failed out.old + 1) }
{
    let mut line = ShortLine::new();
    line.push(b"fault: ");
    push_schedule_words(&mut line, problem);
    line.push(b"\n");
    write_text(out, line.as_bytes())
}

// The word for the periods, and the problem.
fn push_periods_words(line: &mut ShortLine, problem: PeriodsProblem)
    requires { length line.old ≤ 16 }
    ensures text { line.new ≡ line.old ++ periods_problem_words problem }
    ensures length { length line.new ≤ length line.old + 110 }
{
    line.push(b"periods ");
    push_periods(line, problem);
}

// The word for the schedule, and the problem.
fn push_schedule_words(line: &mut ShortLine, problem: ScheduleProblem)
    requires { length line.old ≤ 16 }
    ensures text { line.new ≡ line.old ++ schedule_problem_words problem }
    ensures length { length line.new ≤ length line.old + 70 }
{
    line.push(b"schedule ");
    push_schedule(line, problem);
}

fn push_periods(line: &mut ShortLine, problem: PeriodsProblem)
    requires { length line.old ≤ 32 }
    ensures text { line.new ≡ line.old ++ periods_problem_text problem }
    ensures length { length line.new ≤ length line.old + 100 }
{
    match problem {
        PeriodsProblem::InputTooLong => line.push(b"InputTooLong"),
        PeriodsProblem::Fault(fault) => push_fault(line, fault),
        PeriodsProblem::BlockCount => line.push(b"BlockCount"),
        PeriodsProblem::NegativeUse(r, b) => push_cell(line, b"NegativeUse", r, b),
        PeriodsProblem::UnknownWait(c, b) => push_cell(line, b"UnknownWait", c, b),
        PeriodsProblem::TooLarge => line.push(b"TooLarge"),
    }
}

// A name, and a column and a block in parentheses.
fn push_cell(line: &mut ShortLine, name: &[u8], column: u32, b: u32)
    requires room { length line.old ≤ 32 }
    requires short { length name.now ≤ 16 }
    ensures text { line.new ≡ line.old
        ++ (name.now
        ++ (codes "(" ++ (decimal column ++ (codes ", " ++ (decimal b ++ codes ")"))))) }
    ensures length { length line.new ≤ length line.old + 100 }
{
    line.push(name);
    line.push(b"(");
    line.push_number(u128::from(column));
    line.push(b", ");
    line.push_number(u128::from(b));
    line.push(b")");
}

fn push_fault(line: &mut ShortLine, fault: PeriodsFault)
    requires { length line.old ≤ 32 }
    ensures text { line.new ≡ line.old ++ periods_fault_text fault }
    ensures length { length line.new ≤ length line.old + 60 }
{
    match fault {
        PeriodsFault::NotToml => line.push(b"NotToml"),
        PeriodsFault::UnknownKey => line.push(b"UnknownKey"),
        PeriodsFault::BadValue(key) => push_key(line, b"BadValue", key),
        PeriodsFault::Missing(key) => push_key(line, b"Missing", key),
        PeriodsFault::NoMemory => line.push(b"NoMemory"),
    }
}

// A name, and the number of a line in parentheses.
fn push_at(line: &mut ShortLine, name: &[u8], number: u64)
    requires room { length line.old ≤ 64 }
    requires short { length name.now ≤ 16 }
    ensures text { line.new ≡ line.old ++ at_line name.now number }
    ensures length { length line.new ≤ length line.old + 60 }
{
    line.push(name);
    line.push(b"(");
    line.push_number(u128::from(number));
    line.push(b")");
}

// A name, and a key in parentheses.
fn push_key(line: &mut ShortLine, name: &[u8], key: PeriodKey)
    requires room { length line.old ≤ 64 }
    requires short { length name.now ≤ 16 }
    ensures text { line.new ≡ line.old ++ (name.now ++ (codes "(" ++ (key_name key ++ codes ")"))) }
    ensures length { length line.new ≤ length line.old + 60 }
{
    line.push(name);
    line.push(b"(");
    line.push(key.name().as_bytes());
    line.push(b")");
}

fn push_schedule(line: &mut ShortLine, problem: ScheduleProblem)
    requires { length line.old ≤ 64 }
    ensures text { line.new ≡ line.old ++ schedule_problem_text problem }
    ensures length { length line.new ≤ length line.old + 60 }
{
    match problem {
        ScheduleProblem::InputTooLong => line.push(b"InputTooLong"),
        ScheduleProblem::Fault(ScheduleFault::Text(n)) => push_at(line, b"Text", n),
        ScheduleProblem::Fault(ScheduleFault::Number(n)) => push_at(line, b"Number", n),
        ScheduleProblem::Fault(ScheduleFault::UnknownBlock(n)) => push_at(line, b"UnknownBlock", n),
        ScheduleProblem::Fault(ScheduleFault::UnknownPeriod(n)) => {
            push_at(line, b"UnknownPeriod", n)
        }
        ScheduleProblem::Fault(ScheduleFault::UnknownWay(n)) => push_at(line, b"UnknownWay", n),
        ScheduleProblem::Fault(ScheduleFault::Repeated(n)) => push_at(line, b"Repeated", n),
        ScheduleProblem::Fault(ScheduleFault::NoMemory) => line.push(b"NoMemory"),
    }
}
