//! Writes the line of a judgement: `ACCEPTED` with the pit's blocks and worth, or `REFUSED` with the fault.

ghost use Rattle.std.specs.Prelude.{◌≡◌, ◌+◌, ◌-◌, ◌^◌, ◌<◌, OnOk, IfOk, IfErr, IsErrOf, ◌↔◌};
ghost use Rattle.std.specs.Io.KnownBytes.{Appends};
ghost use Rattle.std.specs.String.{string_bytes};
ghost use Rattle.check_engines.specs.OutputLines.{judgement_line, group_mark};
ghost use Rattle.check_engines.specs.Checking.{LineFails};

use crate::judgement::Judgement;
use counted_devices::{CountedWrite, write_text};
use engine_faults::EngineFault;
use fixed_worth::Nanos;
use ordered_group::Group;
use std::alloc::{AllocError, Global};

/// Writes the line of a judgement: `ACCEPTED`, the number of blocks and the worth, or `REFUSED` and
/// the fault.
///
/// # Errors
/// `Memory` where memory is refused; then nothing is written. `Device` where a write fails; the writer then has a
/// prefix of the line.
pub fn write_judgement<W: CountedWrite>(
    alloc: Global,
    judgement: Judgement,
    out: &mut W,
) -> Result<(), EngineFault>
    requires { W.failed out.old < 2 ^ 64 - 1 }
    ensures line { OnOk result
        (Appends (W.contents out.old) (W.contents out.new) (judgement_line judgement)) }
    ensures fault { IfErr result
        (LineFails (W.contents out.old) (W.contents out.new) (judgement_line judgement)) }
    ensures device { IsErrOf result EngineFault.Device ↔ (W.failed out.new ≡ W.failed out.old + 1) }
    ensures kept { ¬ IsErrOf result EngineFault.Device → W.failed out.new ≡ W.failed out.old }
{
    let line = line_of(alloc, judgement)?;
    write_text(out, line.as_bytes())?;
    Ok(())
}

/// The line of a judgement.
///
/// # Errors
/// Memory was refused.
pub fn line_of(alloc: Global, judgement: Judgement) -> Result<String, AllocError>
    ensures { IfOk result (λ line. string_bytes line ≡ judgement_line judgement) }
{
    match judgement {
        Judgement::Accepted {
            group,
            count,
            worth,
        } => {
            let worth = Nanos(worth);
            let mark = mark_of(group);
            format!(in alloc; "ACCEPTED {count} {worth}{mark}\n")
        }
        Judgement::Refused(fault) => format!(in alloc; "REFUSED {fault}\n"),
    }
}

// What follows the worth on the line: something where worth alone was counted, and otherwise nothing.
fn mark_of(group: Group) -> &'static str
    ensures { result.now ≡ group_mark group }
{
    match group {
        Group::Worth => " GROUP WORTH",
        Group::Pair => "",
        Group::Scaled => "",
    }
}
