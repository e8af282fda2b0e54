//! Reads a design as an input of an engine: gives a mark for each block of the mine, or the first fault of the text.

ghost use Rattle.std.specs.Prelude.{◌≡◌, ◌+◌, ◌-◌, ◌^◌, ◌<◌, ◌≤◌, ◌↔◌, ◌⊎◌, length, IfOk, IfSome, MatchResult, IsErrOf};
ghost use Rattle.mine_inputs.specs.Limits.{IsTooLong, IsWithinLimit};
ghost use Rattle.engine_faults.specs.declared.engine_fault.EngineFault.TheVariants as engine;
ghost use Rattle.design_engines.specs.declared.value_fault.DesignProblem.TheVariants as problem;
ghost use Rattle.design_engines.specs.declared.value_fault.ValueFault.TheVariants as value;
ghost use Rattle.design_engines.specs.DesignTexts.{ReadsDesign, DesignReadFails};

use crate::value_fault::{DesignProblem, ValueFault};
use counted_devices::{CountedRead, InputFault, read_whole};
use design_file::{DesignFault, read_design};
use engine_faults::EngineFault;
use fixed_worth::{MOST_BLOCKS, MOST_BYTES};
use std::alloc::Global;

/// The marks of the blocks of a design, of n blocks. The bytes of its text are given back here.
///
/// # Errors
/// `Design` for a text that is too long, or the fault of the first faulty line. `Memory` where memory is refused,
/// `Device` where a read fails.
pub(crate) fn marks_from<E: CountedRead>(
    alloc: Global,
    from: &mut E,
    n: u32,
) -> Result<Vec<bool>, ValueFault>
    requires blocks { n ≤ MOST_BLOCKS }
    requires room { E.failed from.old < 2 ^ 64 - 1 }
    ensures read { IfSome (E.remaining from.old) (λ text. MatchResult result
        (λ v. ReadsDesign n text v.items)
        (DesignReadFails n text)) }
    ensures size { IfOk result (λ v. length v.items ≡ n) }
    ensures device { IsErrOf result (value.Engine engine.Device)
        ↔ (E.failed from.new ≡ E.failed from.old + 1) }
    ensures kept { ¬ IsErrOf result (value.Engine engine.Device)
        → E.failed from.new ≡ E.failed from.old }
{
    let text = text_from(alloc, from)?;
    marks_in(alloc, text.as_slice(), n)
}

// All bytes of a design.
fn text_from<E: CountedRead>(alloc: Global, from: &mut E) -> Result<Vec<u8>, ValueFault>
    requires { E.failed from.old < 2 ^ 64 - 1 }
    ensures read { IfSome (E.remaining from.old) (λ text. MatchResult result (λ v. v.items ≡ text)
        (λ e. (e ≡ value.Engine engine.Memory) ⊎ (e ≡ value.Engine engine.Device)
        ⊎ ((e ≡ value.Design problem.InputTooLong) × IsTooLong text))) }
    ensures within { IfOk result (λ v. IsWithinLimit v.items) }
    ensures device { IsErrOf result (value.Engine engine.Device)
        ↔ (E.failed from.new ≡ E.failed from.old + 1) }
    ensures kept { ¬ IsErrOf result (value.Engine engine.Device)
        → E.failed from.new ≡ E.failed from.old }
{
    match read_whole(alloc, from, MOST_BYTES) {
        Ok(text) => Ok(text),
        Err(InputFault::Device) => Err(ValueFault::Engine(EngineFault::Device)),
        Err(InputFault::InputTooLong) => Err(ValueFault::Design(DesignProblem::InputTooLong)),
        Err(InputFault::NoMemory) => Err(ValueFault::Engine(EngineFault::Memory)),
    }
}

// The marks of the blocks that a text names.
fn marks_in(alloc: Global, text: &[u8], n: u32) -> Result<Vec<bool>, ValueFault>
    requires blocks { n ≤ MOST_BLOCKS }
    requires within { IsWithinLimit text.now }
    ensures read { MatchResult result
        (λ v. ReadsDesign n text.now v.items)
        (DesignReadFails n text.now) }
    ensures size { IfOk result (λ v. length v.items ≡ n) }
    ensures no_device { ¬ IsErrOf result (value.Engine engine.Device) }
{
    match read_design(alloc, text, n) {
        Ok(marks) => Ok(marks),
        Err(DesignFault::NoMemory) => Err(ValueFault::Engine(EngineFault::Memory)),
        Err(fault) => Err(ValueFault::Design(DesignProblem::Fault(fault))),
    }
}
