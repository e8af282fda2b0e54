//! Reads a trace as an input of an engine: gives its steps, or its first fault.

ghost use Rattle.std.specs.Prelude.{◌≡◌, ◌+◌, ◌-◌, ◌^◌, ◌<◌, ◌↔◌, IfSome, MatchResult, IsErrOf};
ghost use Rattle.mine_inputs.specs.Limits.{IsWithinLimit};
ghost use Rattle.replay_engines.specs.TraceTexts.{ReadsTrace, TraceReadFails};

use async_step::Event;
use counted_devices::{CountedRead, read_whole};
use engine_faults::{EngineFault, Problem};
use fixed_worth::MOST_BYTES;
use mine_inputs::unread;
use std::alloc::Global;
use trace_file::read_trace;

/// The steps of a trace. The bytes of its text are given back here.
///
/// # Errors
/// `Trace` for a text that is too long, or the fault of the first faulty line. `Memory` where memory is refused,
/// `Device` where a read fails.
pub fn events_from<E: CountedRead>(alloc: Global, from: &mut E) -> Result<Vec<Event>, EngineFault>
    requires { E.failed from.old < 2 ^ 64 - 1 }
    ensures read { IfSome (E.remaining from.old) (λ text. MatchResult result
        (λ v. ReadsTrace text v.items)
        (TraceReadFails text)) }
    ensures device { IsErrOf result EngineFault.Device
        ↔ (E.failed from.new ≡ E.failed from.old + 1) }
    ensures kept { ¬ IsErrOf result EngineFault.Device → E.failed from.new ≡ E.failed from.old }
{
    let too_long = EngineFault::Trace(Problem::InputTooLong);
    let text = read_whole(alloc, from, MOST_BYTES).map_err(|fault| unread(fault, too_long))?;
    events_in(alloc, text.as_slice())
}

// The steps that a text says.
fn events_in(alloc: Global, text: &[u8]) -> Result<Vec<Event>, EngineFault>
    requires { IsWithinLimit text.now }
    ensures read { MatchResult result (λ v. ReadsTrace text.now v.items) (TraceReadFails text.now) }
    ensures no_device { ¬ IsErrOf result EngineFault.Device }
{
    Ok(read_trace(alloc, text)?)
}
