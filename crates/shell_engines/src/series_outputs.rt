//! Takes the answer of an engine over several factors, and writes its table of blocks, where asked for, and then its
//! lines.

ghost use Rattle.std.specs.Prelude.{◌≡◌, ◌+◌, ◌-◌, ◌^◌, ◌<◌, OnOk, OnErr, IfOk, IfErr, IsErrOf};
ghost use Rattle.std.specs.Io.KnownBytes.{Appends};
ghost use Rattle.counted_devices.specs.Device.{ReceivedPrefix};
ghost use Rattle.shell_engines.specs.Answering.{IsCutShort};
ghost use Rattle.shell_engines.specs.Devices.{is_asked, contents_in, failures_in, OutputsCanCount, output_failures, NoOutputFailed, wanted_by};

use check_engines::Verdict;
use counted_devices::{CountedWrite, WriteFault, write_text};
use engine_faults::EngineFault;

/// Where such an engine writes.
#[derive(Drop)]
pub struct SeriesOutputs<V, W> {
    /// What the table of blocks and their shells is written to, where it is asked for.
    pub by_block: Option<V>,
    /// What the answer is written to.
    pub out: W,
    /// Whether it is wanted which way each block goes.
    pub ways: bool,
}

/// What is wanted beside the lines of an answer.
#[derive(Clone, Copy, Debug, PartialEq, Eq)]
pub struct Wanted {
    /// The table of blocks and their shells.
    pub table: bool,
    /// Which way each block goes at the factor of the report.
    pub ways: bool,
}

impl<V, W> SeriesOutputs<V, W> {
    /// What is wanted beside the answer.
    pub fn wanted(&self) -> Wanted
        ensures { result ≡ wanted_by self.now }
    {
        Wanted {
            table: self.has_table(),
            ways: self.ways,
        }
    }

    // Whether the table of blocks is asked for.
    fn has_table(&self) -> bool
        ensures { result ≡ is_asked self.now.by_block }
    {
        match &self.by_block {
            Some(_) => true,
            None => false,
        }
    }
}

/// How such an engine ends, and what it writes.
#[derive(Drop)]
pub struct Answer {
    /// How it ends.
    pub verdict: Verdict,
    /// The table of blocks and their shells; empty where none is asked for, and where no series stands.
    pub table: Vec<u8>,
    /// What it answers.
    pub text: Vec<u8>,
}

// Writes the table, where it is asked for.
fn send_table<V: CountedWrite>(by_block: &mut Option<V>, table: &[u8]) -> Result<(), WriteFault>
    requires { failures_in by_block.old V.failed < 2 ^ 64 - 1 }
    ensures sent { OnOk result (Appends
        (contents_in by_block.old V.contents) (contents_in by_block.new V.contents) table.now) }
    ensures kept { OnOk result
        (failures_in by_block.new V.failed ≡ failures_in by_block.old V.failed) }
    ensures prefix { OnErr result (ReceivedPrefix
        (contents_in by_block.old V.contents) (contents_in by_block.new V.contents) table.now) }
    ensures counted { OnErr result
        (failures_in by_block.new V.failed ≡ failures_in by_block.old V.failed + 1) }
{
    match by_block {
        Some(device) => write_text(device, table),
        None => Ok(()),
    }
}

/// Writes the table of an answer, where it is asked for, and then its text; and ends so.
///
/// # Errors
/// `Device` at the first write that fails: a prefix of the table was written; or the table, and a prefix of the text.
pub fn send<V: CountedWrite, W: CountedWrite>(
    answer: &Answer,
    outputs: &mut SeriesOutputs<V, W>,
) -> Result<Verdict, EngineFault>
    requires { OutputsCanCount outputs.old V.failed W.failed }
    ensures sent { IfOk result (λ v. (v ≡ answer.now.verdict)
        × Appends (contents_in outputs.old.by_block V.contents)
        (contents_in outputs.new.by_block V.contents) answer.now.table.items
        × Appends (W.contents outputs.old.out) (W.contents outputs.new.out) answer.now.text.items) }
    ensures cut { IfErr result (λ e. (e ≡ EngineFault.Device)
        × IsCutShort answer.now.table.items answer.now.text.items
        (contents_in outputs.old.by_block V.contents) (contents_in outputs.new.by_block V.contents)
        (W.contents outputs.old.out) (W.contents outputs.new.out)) }
    ensures device { IsErrOf result EngineFault.Device
        → output_failures outputs.new V.failed W.failed
        ≡ output_failures outputs.old V.failed W.failed + 1 }
    ensures kept { ¬ IsErrOf result EngineFault.Device
        → NoOutputFailed outputs.old outputs.new V.failed W.failed }
{
    send_table(&mut outputs.by_block, answer.table.as_slice())?;
    write_text(&mut outputs.out, answer.text.as_slice())?;
    Ok(answer.verdict)
}
