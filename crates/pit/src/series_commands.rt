//! Runs the engines of `shells` and `report` on files: opens all before any is read, and gives the engine's answer.

ghost use Rattle.std.specs.Prelude.{◌≡◌, IfOk};
ghost use Rattle.shell_engines.specs.Devices.{InputsCanCount, OutputsCanCount, failures_in};

use check_engines::Verdict;
use command_line::{SeriesArgs, SeriesCommand};
use counted_devices::Counted;
use engine_faults::EngineFault;
use option_words::Effort;
use pit_files::{
    InputNotes, Replaced, ReportingFile, advice_for_series, make_file, open_file, output,
};
use pseudoflow::Progress;
use report_engines::report_engine;
use series_pits::SeriesProgress;
use shell_engines::{SeriesInputs, SeriesOutputs, shells_engine};
use std::io::Printer;
use std::rt::Files;
use std::sync::Wait;
use std::thread::Threads;
use workers::Gate;

/// Draws the shells of the mine of files of settings, blocks and precedence, or makes its bench table.
pub fn series_files<
    'a,
    R: Files + Print + Eprint + Threads + Wait + Sync + AllocGlobal,
    T: Gate + Progress + SeriesProgress,
>(rt: &'a R, args: SeriesArgs<'a>, effort: Effort, watch: &T) -> Result<Verdict, EngineFault> {
    let mut inputs = open_series(rt, args)?;
    series_over(rt, args, effort, watch, &mut inputs)
}

// Does the same over the files of a mine.
fn series_over<
    'a,
    R: Files + Print + Eprint + Threads + Wait + Sync + AllocGlobal,
    T: Gate + Progress + SeriesProgress,
>(
    rt: &'a R,
    args: SeriesArgs<'a>,
    effort: Effort,
    watch: &T,
    inputs: &mut SeriesInputs<Counted<ReportingFile<'a, R, R::File>>>,
) -> Result<Verdict, EngineFault>
    requires { InputsCanCount inputs.old (λ device. device.failures) }
{
    let alloc = rt.alloc();
    let mut outputs = make_outputs(rt, args)?;
    match args.command {
        SeriesCommand::Shells => shells_engine(rt, alloc, inputs, effort, watch, &mut outputs),
        SeriesCommand::Report => report_engine(rt, alloc, inputs, effort, watch, &mut outputs),
    }
}

// Opens the inputs, that of the predecessors first, if there is one.
fn open_series<'a, R: Files + Eprint + AllocGlobal>(
    rt: &'a R,
    args: SeriesArgs<'a>,
) -> Result<SeriesInputs<Counted<ReportingFile<'a, R, R::File>>>, EngineFault>
    ensures { IfOk result (λ inputs. InputsCanCount inputs (λ device. device.failures)) }
{
    let alloc = rt.alloc();
    let prec = open_if_named(rt, args.verbose, args.prec)?;
    let heard = match args.prec {
        Some(_) => InputNotes::of_settings(alloc, args.verbose, None),
        None => InputNotes::of_sloped_settings(alloc, args.verbose),
    };
    let settings = open_file(rt, args.verbose, args.settings, heard)?;
    let blocks = open_file(rt, args.verbose, args.blocks, InputNotes::nothing(alloc))?;
    Ok(SeriesInputs {
        settings,
        blocks,
        prec,
    })
}

// Opens a file, if one is named.
fn open_if_named<'a, R: Files + Eprint + AllocGlobal>(
    rt: &'a R,
    verbose: bool,
    name: Option<&'a str>,
) -> Result<Option<Counted<ReportingFile<'a, R, R::File>>>, EngineFault>
    ensures { IfOk result (λ opened. failures_in opened (λ device. device.failures) ≡ 0) }
{
    match name {
        Some(name) => Ok(Some(open_file(rt, verbose, name, InputNotes::nothing(rt.alloc()))?)),
        None => Ok(None),
    }
}

// Makes the file of the table of blocks, where one is named, and the output.
fn make_outputs<'a, R: Files + Print + Eprint + AllocGlobal>(
    rt: &'a R,
    args: SeriesArgs<'a>,
) -> Result<
    SeriesOutputs<
        Counted<ReportingFile<'a, R, Replaced<R::File>>>,
        Counted<ReportingFile<'a, R, Printer<'a, R>>>,
    >,
    EngineFault,
>
    ensures { IfOk result (λ outputs. OutputsCanCount outputs
        (λ device. device.failures) (λ device. device.failures)) }
{
    let by_block = make_file_if_named(rt, args.verbose, args.by_block)?;
    let out = Counted::new(output(rt, args.verbose, Some(advice_for_series(args))));
    let ways = args.ways;
    Ok(SeriesOutputs {
        by_block,
        out,
        ways,
    })
}

// Makes a file, if one is named.
fn make_file_if_named<'a, R: Files + Eprint + AllocGlobal>(
    rt: &'a R,
    verbose: bool,
    name: Option<&'a str>,
) -> Result<Option<Counted<ReportingFile<'a, R, Replaced<R::File>>>>, EngineFault>
    ensures { IfOk result (λ made. failures_in made (λ device. device.failures) ≡ 0) }
{
    match name {
        Some(name) => Ok(Some(make_file(rt, verbose, name)?)),
        None => Ok(None),
    }
}
