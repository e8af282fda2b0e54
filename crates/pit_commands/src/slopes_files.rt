//! Runs the engine of `slopes` on files: opens all files before any is read, and gives the engine's answer.

ghost use Rattle.option_words.specs.PatternWords.{IsChoice};

use crate::slopes_args::selection_asked;
use check_engines::Verdict;
use command_line::SlopesArgs;
use counted_devices::Counted;
use engine_faults::EngineFault;
use option_words::PatternChoice;
use pit_files::{InputNotes, offsets_of, open_file, output};
use slope_engines::{slopes_engine, slopes_from_settings_engine};
use slope_offsets::Up;
use std::rt::Files;
use std::sync::atomic::AtomicU64;

/// Writes the predecessors of each block of a file, by a pattern. A greater z is higher, where no option says
/// otherwise.
///
/// # Errors
/// `Device` where a file can't be opened; then those of the engine.
pub fn slopes_file<R: Files + Print + Eprint + AllocGlobal>(
    rt: &R,
    args: SlopesArgs<'_>,
    pattern: PatternChoice,
    up: Option<Up>,
) -> Result<Verdict, EngineFault>
    requires { IsChoice pattern }
{
    let offsets = AtomicU64::new(offsets_of(rt.alloc(), pattern));
    let heard = InputNotes::of_blocks(rt.alloc(), args.verbose, &offsets);
    let mut blocks = open_file(rt, args.verbose, args.blocks, heard)?;
    let mut out = Counted::new(output(rt, args.verbose, None));
    let selection = selection_asked(args);
    let up = up.unwrap_or(Up::PlusZ);
    slopes_engine(rt.alloc(), &mut blocks, pattern, up, selection, &mut out)
}

/// Writes the predecessors of each block of a file, by the offsets that a file of settings lists, or by its slopes of
/// regions.
///
/// # Errors
/// `Device` where a file can't be opened; then those of the engine.
pub fn listed_slopes_files<R: Files + Print + Eprint + AllocGlobal>(
    rt: &R,
    args: SlopesArgs<'_>,
    settings: &str,
    up: Option<Up>,
) -> Result<Verdict, EngineFault> {
    let offsets = AtomicU64::new(0);
    let heard = InputNotes::of_settings(rt.alloc(), args.verbose, Some(&offsets));
    let mut settings = open_file(rt, args.verbose, settings, heard)?;
    let heard = InputNotes::of_blocks(rt.alloc(), args.verbose, &offsets);
    let mut blocks = open_file(rt, args.verbose, args.blocks, heard)?;
    let mut out = Counted::new(output(rt, args.verbose, None));
    let selection = selection_asked(args);
    slopes_from_settings_engine(
        rt.alloc(),
        &mut settings,
        &mut blocks,
        up,
        selection,
        &mut out,
    )
}
