//! Opens the files that a mine is read from, each with no failure counted yet, and gives them as the inputs of engines.

ghost use Rattle.std.specs.Prelude.{IfOk};
ghost use Rattle.mine_inputs.specs.MineInputs.{CanCount};

use crate::input_notes::InputNotes;
use crate::reporting_files::{ReportingFile, open_file};
use command_line::ModelArgs;
use counted_devices::Counted;
use engine_faults::EngineFault;
use mine_inputs::{MineInputs, WorthInputs};
use std::rt::Files;

/// Opens the files of a mine, that of the predecessors first, if there is one. So many threads are to read that file
/// and the file of values at once; as many as the readers choose where it isn't said.
///
/// # Errors
/// `Device` where one can't be opened.
pub fn open_mine<'a, R: Files + Eprint + AllocGlobal>(
    rt: &'a R,
    verbose: bool,
    prec: &'a str,
    model: ModelArgs<'a>,
    threads: Option<u32>,
) -> Result<MineInputs<Counted<ReportingFile<'a, R, R::File>>>, EngineFault>
    ensures { IfOk result (λ mine. CanCount mine (λ device. device.failures)) }
{
    match model {
        ModelArgs::Values { upit } => {
            let prec = open_file(rt, verbose, prec, InputNotes::nothing(rt.alloc()))?;
            let upit = open_file(rt, verbose, upit, InputNotes::nothing(rt.alloc()))?;
            let worths = WorthInputs::Values { upit };
            Ok(MineInputs::Listed {
                worths,
                prec,
                threads,
            })
        }
        ModelArgs::Prices { settings, blocks } => {
            let prec = open_file(rt, verbose, prec, InputNotes::nothing(rt.alloc()))?;
            let heard = InputNotes::of_settings(rt.alloc(), verbose, None);
            let settings = open_file(rt, verbose, settings, heard)?;
            let blocks = open_file(rt, verbose, blocks, InputNotes::nothing(rt.alloc()))?;
            let worths = WorthInputs::Prices { settings, blocks };
            Ok(MineInputs::Listed {
                worths,
                prec,
                threads,
            })
        }
        ModelArgs::Sloped { settings, blocks } => {
            let heard = InputNotes::of_sloped_settings(rt.alloc(), verbose);
            let settings = open_file(rt, verbose, settings, heard)?;
            let blocks = open_file(rt, verbose, blocks, InputNotes::nothing(rt.alloc()))?;
            Ok(MineInputs::Sloped { settings, blocks })
        }
        ModelArgs::Valued {
            settings,
            blocks,
            upit,
        } => {
            let heard = InputNotes::of_sloped_settings(rt.alloc(), verbose);
            let settings = open_file(rt, verbose, settings, heard)?;
            let blocks = open_file(rt, verbose, blocks, InputNotes::nothing(rt.alloc()))?;
            let upit = open_file(rt, verbose, upit, InputNotes::nothing(rt.alloc()))?;
            Ok(MineInputs::Valued {
                settings,
                blocks,
                upit,
                threads,
            })
        }
    }
}
