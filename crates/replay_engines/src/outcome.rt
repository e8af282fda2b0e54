//! What comes of repeating a trace, and its lines: a run at its end with the check's verdict, a run that isn't at
//! its end, or a step that is refused.

ghost use Rattle.std.specs.Prelude.{◌≡◌, ◌+◌, ◌-◌, ◌^◌, ◌<◌, ◌↔◌, OnOk, IfOk, IfErr, IsErrOf};
ghost use Rattle.std.specs.Io.KnownBytes.{Appends};
ghost use Rattle.std.specs.String.{string_bytes};
ghost use Rattle.check_engines.specs.Checking.{LineFails};
ghost use Rattle.replay_engines.specs.Outcomes.{outcome_text};

use async_step::StepRefusal;
use check_engines::judgement_line::line_of;
use check_engines::{Judgement, Verdict};
use counted_devices::{CountedWrite, write_text};
use engine_faults::EngineFault;
use std::alloc::{AllocError, Global};

/// What comes of the steps of a trace.
#[derive(Clone, Copy)]
pub enum Outcome {
    /// All steps were made, and no block has excess or an operation.
    Quiet {
        /// How many steps there are.
        steps: u64,
        /// What a check says of the flow, with the pit of the blocks that the source reaches in it.
        judgement: Judgement,
    },
    /// All steps were made, and some block has excess or an operation.
    Open {
        /// How many steps there are.
        steps: u64,
    },
    /// A step is refused.
    Refused {
        /// Its place among the steps, counted from 1.
        place: usize,
        /// Why it is.
        refusal: StepRefusal,
    },
}

impl Outcome {
    ghost use Rattle.replay_engines.specs.Outcomes.{outcome_verdict};

    /// How an engine ends with this outcome.
    pub fn verdict(self) -> Verdict
        ensures { result ≡ outcome_verdict self }
    {
        match self {
            Outcome::Quiet { judgement, .. } => judgement.verdict(),
            Outcome::Open { .. } | Outcome::Refused { .. } => Verdict::No,
        }
    }
}

/// Writes the lines of an outcome: `REPLAYED`, the number of steps and `QUIET`, with the line of `check` after it;
/// `REPLAYED`, the number of steps and `OPEN`; or `REFUSED`, the place and the refusal.
pub fn write_outcome<W: CountedWrite>(
    alloc: Global,
    outcome: Outcome,
    out: &mut W,
) -> Result<(), EngineFault>
    requires { W.failed out.old < 2 ^ 64 - 1 }
    ensures lines { OnOk result
        (Appends (W.contents out.old) (W.contents out.new) (outcome_text outcome)) }
    ensures fault { IfErr result
        (LineFails (W.contents out.old) (W.contents out.new) (outcome_text outcome)) }
    ensures device { IsErrOf result EngineFault.Device ↔ (W.failed out.new ≡ W.failed out.old + 1) }
    ensures kept { ¬ IsErrOf result EngineFault.Device → W.failed out.new ≡ W.failed out.old }
{
    let text = text_of(alloc, outcome)?;
    write_text(out, text.as_bytes())?;
    Ok(())
}

fn text_of(alloc: Global, outcome: Outcome) -> Result<String, AllocError>
    ensures { IfOk result (λ text. string_bytes text ≡ outcome_text outcome) }
{
    match outcome {
        Outcome::Quiet { steps, judgement } => quiet_text(alloc, steps, judgement),
        Outcome::Open { steps } => format!(in alloc; "REPLAYED {steps} OPEN\n"),
        Outcome::Refused { place, refusal } => format!(in alloc; "REFUSED {place} {refusal}\n"),
    }
}

fn quiet_text(alloc: Global, steps: u64, judgement: Judgement) -> Result<String, AllocError>
    ensures { IfOk result
        (λ text. string_bytes text ≡ outcome_text (Outcome.Quiet steps judgement)) }
{
    let line = line_of(alloc, judgement)?;
    format!(in alloc; "REPLAYED {steps} QUIET\n{line}")
}
