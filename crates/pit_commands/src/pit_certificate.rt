//! Opens the certificate of a pit, where one is named.

ghost use Rattle.std.specs.Prelude.{IfOk};
ghost use Rattle.bound_engines.specs.Pits.{PitCanCount};

use counted_devices::Counted;
use engine_faults::EngineFault;
use pit_files::{InputNotes, ReportingFile, open_file};
use std::rt::Files;

/// The certificate of a pit, where one is named.
///
/// # Errors
/// `Device` where it can't be opened.
pub(crate) fn open_pit<'a, R: Files + Eprint + AllocGlobal>(
    rt: &'a R,
    verbose: bool,
    pit: Option<&'a str>,
) -> Result<Option<Counted<ReportingFile<'a, R, R::File>>>, EngineFault>
    ensures { IfOk result (λ opened. PitCanCount opened (λ device. device.failures)) }
{
    let Some(name) = pit else {
        return Ok(None);
    };
    match open_file(rt, verbose, name, InputNotes::nothing(rt.alloc())) {
        Ok(file) => Ok(Some(file)),
        Err(fault) => Err(fault),
    }
}
