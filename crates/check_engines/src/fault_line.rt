//! Writes the line of a fault, which names the input and what is wrong with it, without taking memory. Gives the exit
//! status of an engine's answer.
//!
//! Each fault's text is here a second time, beside its `Display`: the kit's `fmt::Write` says what was written only on
//! `Ok`, and this line must not fail.

ghost use Rattle.std.specs.Prelude.{◌≡◌, ◌+◌, ◌-◌, ◌^◌, ◌<◌, ◌≤◌, ◌++◌, length, OnOk, OnErr};
ghost use Rattle.std.specs.Io.KnownBytes.{Appends};
ghost use Rattle.std.specs.Prelude.{codes, decimal};
ghost use Rattle.counted_devices.specs.Device.{ReceivedPrefix};
ghost use Rattle.blocks_file.specs.Records.{blocks_fault_text};
ghost use Rattle.slope_offsets.specs.FaultText.{pattern_fault_text};
ghost use Rattle.slope.specs.FaultText.{region_fault_text, slope_fault_text};
ghost use Rattle.fixed_worth.specs.FaultText.{at_line};
ghost use Rattle.upit_file.specs.Records.{upit_fault_text};
ghost use Rattle.prec_file.specs.Faults.{prec_fault_text};
ghost use Rattle.closure_net.specs.Faults.{net_fault_text};
ghost use Rattle.settings_file.specs.Keys.{settings_key_name};
ghost use Rattle.settings_file.specs.Settings.{settings_fault_text};
ghost use Rattle.shells.specs.FaultText.{prices_fault_text};
ghost use Rattle.trace_file.specs.Faults.{trace_fault_text};
ghost use Rattle.engine_faults.specs.EngineFaults.{problem_text, slope_text, certificate_problem_text};
ghost use Rattle.check_engines.specs.OutputLines.{fault_line, fault_words, input_word, problem_words};
ghost use Rattle.check_engines.specs.Statuses.{status_of};

use crate::judgement::Verdict;
use blocks_file::BlocksFault;
use check_pit::CertFault;
use closure_net::NetFault;
use counted_devices::{CountedWrite, ShortLine, WriteFault, write_text};
use engine_faults::{CertificateProblem, EngineFault, Problem, SlopeProblem};
use prec_file::PrecFault;
use settings_file::{Key, SettingsFault};
use shells::PricesFault;
use slope::{RegionFault, SlopeFault};
use slope_offsets::PatternFault;
use trace_file::TraceFault;
use upit_file::UpitFault;

/// The exit status of an engine's answer: 0 done, 1 no, 3 a fault of an input, 4 memory, a device,
/// a thread or a stranger's board.
pub fn status(answer: &Result<Verdict, EngineFault>) -> u8
    ensures { result ≡ status_of answer.now }
{
    match answer {
        Ok(Verdict::Done) => 0,
        Ok(Verdict::No) => 1,
        Err(EngineFault::Memory | EngineFault::Device) => 4,
        Err(EngineFault::Thread | EngineFault::Stranger) => 4,
        Err(_) => 3,
    }
}

/// Writes the line of a fault: `fault: `, the input that has it, and the fault. It takes no memory.
///
/// [`WriteFault::Device`] where a write failed: the writer has then received a prefix of the line.
///
/// `out` must have counted fewer than 2^64 - 1 failures, so that one more can be counted.
pub fn write_fault<W: CountedWrite>(fault: &EngineFault, out: &mut W) -> Result<(), WriteFault>
    requires { W.failed out.old < 2 ^ 64 - 1 }
    ensures line { OnOk result
        (Appends (W.contents out.old) (W.contents out.new) (fault_line fault.now)) }
    ensures kept { OnOk result (W.failed out.new ≡ W.failed out.old) }
    ensures prefix { OnErr result
        (ReceivedPrefix (W.contents out.old) (W.contents out.new) (fault_line fault.now)) }
    ensures counted { OnErr result (W.failed out.new ≡ W.failed out.old + 1) }
{
    let mut line = ShortLine::new();
    line.push(b"fault: ");
    push_words(&mut line, fault);
    line.push(b"\n");
    write_text(out, line.as_bytes())
}

// What has the fault, and the fault.
fn push_words(line: &mut ShortLine, fault: &EngineFault)
    requires { length line.old ≤ 16 }
    ensures text { line.new ≡ line.old ++ fault_words fault.now }
    ensures length { length line.new ≤ length line.old + 106 }
{
    line.push(input_word(fault).as_bytes());
    push_problem(line, fault);
}

// The word for what has the fault, with a space after it. What the machine fails at has none.
fn input_word(fault: &EngineFault) -> &'static str
    ensures word { result.now ≡ input_word fault.now }
    ensures short { length result.now ≤ 12 }
{
    match fault {
        EngineFault::Blocks(_) => "blocks ",
        EngineFault::Upit(_) => "upit ",
        EngineFault::Prec(_) => "prec ",
        EngineFault::Settings(_) => "settings ",
        EngineFault::Prices(_) => "prices ",
        EngineFault::Slope(_) => "slope ",
        EngineFault::Model(_) => "model ",
        EngineFault::Certificate(_) => "certificate ",
        EngineFault::Trace(_) => "trace ",
        EngineFault::Memory | EngineFault::Device => "",
        EngineFault::Thread | EngineFault::Stranger => "",
    }
}

// The fault, without the word for what has it.
fn push_problem(line: &mut ShortLine, fault: &EngineFault)
    requires { length line.old ≤ 32 }
    ensures text { line.new ≡ line.old ++ problem_words fault.now }
    ensures length { length line.new ≤ length line.old + 94 }
{
    match fault {
        EngineFault::Blocks(problem) => push_blocks(line, problem),
        EngineFault::Upit(problem) => push_upit(line, problem),
        EngineFault::Prec(problem) => push_prec(line, problem),
        EngineFault::Settings(problem) => push_settings(line, problem),
        EngineFault::Prices(fault) => push_prices(line, fault),
        EngineFault::Slope(problem) => push_slope(line, problem),
        EngineFault::Model(fault) => push_model(line, fault),
        EngineFault::Certificate(problem) => push_certificate(line, problem),
        EngineFault::Trace(problem) => push_trace(line, problem),
        EngineFault::Memory => line.push(b"memory"),
        EngineFault::Device => line.push(b"device"),
        EngineFault::Thread => line.push(b"thread"),
        EngineFault::Stranger => line.push(b"stranger"),
    }
}

/// Appends a name, and a line's number in parentheses.
pub fn push_at(line: &mut ShortLine, name: &[u8], number: u64)
    requires room { length line.old ≤ 64 }
    requires short { length name.now ≤ 16 }
    ensures text { line.new ≡ line.old ++ at_line name.now number }
    ensures length { length line.new ≤ length line.old + 60 }
{
    line.push(name);
    line.push(b"(");
    line.push_number(u128::from(number));
    line.push(b")");
}

fn push_blocks(line: &mut ShortLine, problem: &Problem<BlocksFault>)
    requires { length line.old ≤ 64 }
    ensures text { line.new ≡ line.old ++ problem_text blocks_fault_text problem.now }
    ensures length { length line.new ≤ length line.old + 60 }
{
    match problem {
        Problem::InputTooLong => line.push(b"InputTooLong"),
        Problem::Fault(BlocksFault::Text(n)) => push_at(line, b"Text", *n),
        Problem::Fault(BlocksFault::Number(n)) => push_at(line, b"Number", *n),
        Problem::Fault(BlocksFault::NoColumn(n)) => push_at(line, b"NoColumn", *n),
        Problem::Fault(BlocksFault::UnknownBlock(n)) => push_at(line, b"UnknownBlock", *n),
        Problem::Fault(BlocksFault::Repeated(n)) => push_at(line, b"Repeated", *n),
        Problem::Fault(BlocksFault::TooMany(n)) => push_at(line, b"TooMany", *n),
        Problem::Fault(BlocksFault::NoMemory) => line.push(b"NoMemory"),
    }
}

// A name, and a key in parentheses.
fn push_key(line: &mut ShortLine, name: &[u8], key: Key)
    requires room { length line.old ≤ 64 }
    requires short { length name.now ≤ 16 }
    ensures text { line.new ≡ line.old
        ++ (name.now ++ (codes "(" ++ (settings_key_name key ++ codes ")"))) }
    ensures length { length line.new ≤ length line.old + 60 }
{
    line.push(name);
    line.push(b"(");
    line.push(key.name().as_bytes());
    line.push(b")");
}

fn push_settings(line: &mut ShortLine, problem: &Problem<SettingsFault>)
    requires { length line.old ≤ 64 }
    ensures text { line.new ≡ line.old ++ problem_text settings_fault_text problem.now }
    ensures length { length line.new ≤ length line.old + 60 }
{
    match problem {
        Problem::InputTooLong => line.push(b"InputTooLong"),
        Problem::Fault(SettingsFault::NotToml) => line.push(b"NotToml"),
        Problem::Fault(SettingsFault::UnknownKey) => line.push(b"UnknownKey"),
        Problem::Fault(SettingsFault::BadValue(key)) => push_key(line, b"BadValue", *key),
        Problem::Fault(SettingsFault::Unused(key)) => push_key(line, b"Unused", *key),
        Problem::Fault(SettingsFault::Missing(key)) => push_key(line, b"Missing", *key),
        Problem::Fault(SettingsFault::NoMemory) => line.push(b"NoMemory"),
    }
}

fn push_prices(line: &mut ShortLine, fault: &PricesFault)
    requires { length line.old ≤ 64 }
    ensures text { line.new ≡ line.old ++ prices_fault_text fault.now }
    ensures length { length line.new ≤ length line.old + 60 }
{
    match fault {
        PricesFault::WrongLength => line.push(b"WrongLength"),
        PricesFault::NegativeRevenue(b) => push_at(line, b"NegativeRevenue", u64::from(*b)),
    }
}

fn push_slope(line: &mut ShortLine, problem: &SlopeProblem)
    requires { length line.old ≤ 64 }
    ensures text { line.new ≡ line.old ++ slope_text problem.now }
    ensures length { length line.new ≤ length line.old + 94 }
{
    match problem {
        SlopeProblem::Pattern(fault) => push_pattern(line, fault),
        SlopeProblem::Pairs(fault) => push_pairs(line, fault),
        SlopeProblem::Regions(fault) => push_regions(line, fault),
    }
}

fn push_pattern(line: &mut ShortLine, fault: &PatternFault)
    requires { length line.old ≤ 64 }
    ensures text { line.new ≡ line.old ++ pattern_fault_text fault.now }
    ensures length { length line.new ≤ length line.old + 60 }
{
    match fault {
        PatternFault::NotUpward(place) => push_at(line, b"NotUpward", *place as u64),
        PatternFault::TooMany => line.push(b"TooMany"),
        PatternFault::NoMemory => line.push(b"NoMemory"),
    }
}

fn push_pairs(line: &mut ShortLine, fault: &SlopeFault)
    requires { length line.old ≤ 64 }
    ensures text { line.new ≡ line.old ++ slope_fault_text fault.now }
    ensures length { length line.new ≤ length line.old + 94 }
{
    match fault {
        SlopeFault::SamePlace(first, second) => {
            push_two(line, b"SamePlace(", u64::from(*first), u64::from(*second))
        }
        SlopeFault::TooMany => line.push(b"TooMany"),
        SlopeFault::NoMemory => line.push(b"NoMemory"),
    }
}

fn push_regions(line: &mut ShortLine, fault: &RegionFault)
    requires { length line.old ≤ 64 }
    ensures text { line.new ≡ line.old ++ region_fault_text fault.now }
    ensures length { length line.new ≤ length line.old + 94 }
{
    match fault {
        RegionFault::SamePlace(first, second) => {
            push_two(line, b"SamePlace(", u64::from(*first), u64::from(*second))
        }
        RegionFault::UnknownRegion(block) => push_at(line, b"UnknownRegion", u64::from(*block)),
        RegionFault::NotUpward(region, place) => {
            push_two(line, b"NotUpward(", *region as u64, *place as u64)
        }
        RegionFault::TooManyOffsets(region) => push_at(line, b"TooManyOffsets", *region as u64),
        RegionFault::TooManyRegions => line.push(b"TooManyRegions"),
        RegionFault::TooMany => line.push(b"TooMany"),
        RegionFault::NoMemory => line.push(b"NoMemory"),
    }
}

// Two numbers in parentheses, after a name with the first of these.
fn push_two(line: &mut ShortLine, name: &[u8], first: u64, second: u64)
    requires line { length line.old ≤ 64 }
    requires name { length name.now ≤ 12 }
    ensures text { line.new ≡ line.old ++ name.now ++ decimal first ++ codes ", "
        ++ decimal second ++ codes ")" }
    ensures length { length line.new ≤ length line.old + 94 }
{
    line.push(name);
    line.push_number(u128::from(first));
    line.push(b", ");
    line.push_number(u128::from(second));
    line.push(b")");
}

fn push_upit(line: &mut ShortLine, problem: &Problem<UpitFault>)
    requires { length line.old ≤ 64 }
    ensures text { line.new ≡ line.old ++ problem_text upit_fault_text problem.now }
    ensures length { length line.new ≤ length line.old + 60 }
{
    match problem {
        Problem::InputTooLong => line.push(b"InputTooLong"),
        Problem::Fault(UpitFault::Text(n)) => push_at(line, b"Text", *n),
        Problem::Fault(UpitFault::Number(n)) => push_at(line, b"Number", *n),
        Problem::Fault(UpitFault::NoObjective(n)) => push_at(line, b"NoObjective", *n),
        Problem::Fault(UpitFault::NotUpit(n)) => push_at(line, b"NotUpit", *n),
        Problem::Fault(UpitFault::WrongBlocks(n)) => push_at(line, b"WrongBlocks", *n),
        Problem::Fault(UpitFault::UnknownBlock(n)) => push_at(line, b"UnknownBlock", *n),
        Problem::Fault(UpitFault::Repeated(n)) => push_at(line, b"Repeated", *n),
        Problem::Fault(UpitFault::NoMemory) => line.push(b"NoMemory"),
    }
}

fn push_prec(line: &mut ShortLine, problem: &Problem<PrecFault>)
    requires { length line.old ≤ 64 }
    ensures text { line.new ≡ line.old ++ problem_text prec_fault_text problem.now }
    ensures length { length line.new ≤ length line.old + 60 }
{
    match problem {
        Problem::InputTooLong => line.push(b"InputTooLong"),
        Problem::Fault(PrecFault::Text(n)) => push_at(line, b"Text", *n),
        Problem::Fault(PrecFault::Number(n)) => push_at(line, b"Number", *n),
        Problem::Fault(PrecFault::UnknownBlock(n)) => push_at(line, b"UnknownBlock", *n),
        Problem::Fault(PrecFault::Repeated(n)) => push_at(line, b"Repeated", *n),
        Problem::Fault(PrecFault::WrongCount(n)) => push_at(line, b"WrongCount", *n),
        Problem::Fault(PrecFault::TooMany(n)) => push_at(line, b"TooMany", *n),
        Problem::Fault(PrecFault::NoMemory) => line.push(b"NoMemory"),
    }
}

fn push_model(line: &mut ShortLine, fault: &NetFault)
    requires { length line.old ≤ 64 }
    ensures text { line.new ≡ line.old ++ net_fault_text fault.now }
    ensures length { length line.new ≤ length line.old + 60 }
{
    match fault {
        NetFault::WrongLength => line.push(b"WrongLength"),
        NetFault::TooLarge => line.push(b"TooLarge"),
        NetFault::NoMemory => line.push(b"NoMemory"),
    }
}

fn push_certificate(line: &mut ShortLine, problem: &CertificateProblem)
    requires { length line.old ≤ 64 }
    ensures text { line.new ≡ line.old ++ certificate_problem_text problem.now }
    ensures length { length line.new ≤ length line.old + 60 }
{
    match problem {
        CertificateProblem::InputTooLong => line.push(b"InputTooLong"),
        CertificateProblem::WrongPrice => line.push(b"WrongPrice"),
        CertificateProblem::Fault(CertFault::Text(n)) => push_at(line, b"Text", *n),
        CertificateProblem::Fault(CertFault::Number(n)) => push_at(line, b"Number", *n),
        CertificateProblem::Fault(CertFault::OutOfOrder(n)) => push_at(line, b"OutOfOrder", *n),
        CertificateProblem::Fault(CertFault::UnknownPair(n)) => push_at(line, b"UnknownPair", *n),
        CertificateProblem::Fault(CertFault::Truncated) => line.push(b"Truncated"),
        CertificateProblem::Fault(CertFault::NoMemory) => line.push(b"NoMemory"),
    }
}

fn push_trace(line: &mut ShortLine, problem: &Problem<TraceFault>)
    requires { length line.old ≤ 64 }
    ensures text { line.new ≡ line.old ++ problem_text trace_fault_text problem.now }
    ensures length { length line.new ≤ length line.old + 60 }
{
    match problem {
        Problem::InputTooLong => line.push(b"InputTooLong"),
        Problem::Fault(TraceFault::Text(n)) => push_at(line, b"Text", *n),
        Problem::Fault(TraceFault::Truncated) => line.push(b"Truncated"),
        Problem::Fault(TraceFault::TooMany) => line.push(b"TooMany"),
        Problem::Fault(TraceFault::NoMemory) => line.push(b"NoMemory"),
    }
}
