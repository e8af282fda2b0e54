//! Runs the engines of `check`, `replay` and `value` on files: opens all files of a command before any is read, and
//! gives the engine's answer.
//!
//! A function that opens a file holds it, and hands it on by reference to the one that opens the next: where that one
//! can't be opened there is nothing else to give back.

ghost use Rattle.std.specs.Prelude.{◌<◌, ◌-◌, ◌^◌};
ghost use Rattle.mine_inputs.specs.MineInputs.{CanCount};

use check_engines::{Verdict, check_engine};
use command_line::{CheckArgs, ReplayArgs, ValueArgs};
use counted_devices::Counted;
use design_engines::{ValueFault, compare_engine, value_engine};
use engine_faults::EngineFault;
use mine_inputs::MineInputs;
use pit_files::{InputNotes, ReportingFile, open_file, open_mine, output};
use replay_engines::{ReplayAsked, replay_engine};
use shells::Factor;
use std::rt::Files;
use std::thread::Threads;

/// Checks a certificate for the files of a mine, which so many threads read, where that was asked for.
///
/// # Errors
/// `Device` where a file can't be opened; then those of the engine.
pub fn check_files<'a, R: Files + Print + Eprint + Threads + Sync + AllocGlobal>(
    rt: &'a R,
    args: CheckArgs<'a>,
    threads: Option<u32>,
) -> Result<Verdict, EngineFault> {
    let mut mine = open_mine(rt, args.verbose, args.prec, args.model, threads)?;
    check_over(rt, args, &mut mine)
}

// Checks a certificate over a mine.
//
// # Errors
// As for the files of the mine.
fn check_over<'a, R: Files + Print + Eprint + Threads + Sync + AllocGlobal>(
    rt: &'a R,
    args: CheckArgs<'a>,
    mine: &mut MineInputs<Counted<ReportingFile<'a, R, R::File>>>,
) -> Result<Verdict, EngineFault>
    requires { CanCount mine.old (λ device. device.failures) }
{
    let heard = InputNotes::nothing(rt.alloc());
    let mut certificate = open_file(rt, args.verbose, args.certificate, heard)?;
    let mut out = Counted::new(output(rt, args.verbose, None));
    check_engine(rt, rt.alloc(), mine, &mut certificate, &mut out)
}

/// Repeats a run over the mine of files from the file of its trace.
///
/// # Errors
/// `Device` where a file can't be opened; then those of the engine.
pub fn replay_files<'a, R: Files + Print + Eprint + Threads + Sync + AllocGlobal>(
    rt: &'a R,
    args: ReplayArgs<'a>,
    asked: ReplayAsked,
) -> Result<Verdict, EngineFault> {
    let mut mine = open_mine(rt, args.verbose, args.prec, args.model, None)?;
    replay_over(rt, args, asked, &mut mine)
}

// Repeats a run over a mine.
//
// # Errors
// As for the files of the mine.
fn replay_over<'a, R: Files + Print + Eprint + Threads + Sync + AllocGlobal>(
    rt: &'a R,
    args: ReplayArgs<'a>,
    asked: ReplayAsked,
    mine: &mut MineInputs<Counted<ReportingFile<'a, R, R::File>>>,
) -> Result<Verdict, EngineFault>
    requires { CanCount mine.old (λ device. device.failures) }
{
    let heard = InputNotes::nothing(rt.alloc());
    let mut trace = open_file(rt, args.verbose, args.trace, heard)?;
    let mut out = Counted::new(output(rt, args.verbose, None));
    replay_engine(rt, rt.alloc(), mine, &mut trace, asked, &mut out)
}

/// Judges the design of a file over the mine of files, beside the pit of a certificate where one is named.
///
/// # Errors
/// `Device` where a file can't be opened; then those of the engine.
pub fn value_files<'a, R: Files + Print + Eprint + Threads + Sync + AllocGlobal>(
    rt: &'a R,
    args: ValueArgs<'a>,
    factor: Factor,
) -> Result<Verdict, ValueFault> {
    let mut mine = open_mine(rt, args.verbose, args.prec, args.model, None)?;
    value_over(rt, args, factor, &mut mine)
}

// Judges the design over a mine.
//
// # Errors
// As for the files of the mine.
fn value_over<'a, R: Files + Print + Eprint + Threads + Sync + AllocGlobal>(
    rt: &'a R,
    args: ValueArgs<'a>,
    factor: Factor,
    mine: &mut MineInputs<Counted<ReportingFile<'a, R, R::File>>>,
) -> Result<Verdict, ValueFault>
    requires { CanCount mine.old (λ device. device.failures) }
{
    let alloc = rt.alloc();
    let mut design = open_file(rt, args.verbose, args.design, InputNotes::nothing(alloc))?;
    match args.best {
        None => {
            let mut out = Counted::new(output(rt, args.verbose, None));
            value_engine(rt, alloc, mine, &mut design, factor, &mut out)
        }
        Some(best) => value_beside(rt, args, best, mine, &mut design),
    }
}

// Judges a design over a mine, beside the pit of a certificate.
//
// # Errors
// As for the files of the mine.
fn value_beside<'a, R: Files + Print + Eprint + Threads + Sync + AllocGlobal>(
    rt: &'a R,
    args: ValueArgs<'a>,
    best: &'a str,
    mine: &mut MineInputs<Counted<ReportingFile<'a, R, R::File>>>,
    design: &mut Counted<ReportingFile<'a, R, R::File>>,
) -> Result<Verdict, ValueFault>
    requires mine_room { CanCount mine.old (λ device. device.failures) }
    requires design_room { design.old.failures < 2 ^ 64 - 1 }
{
    let alloc = rt.alloc();
    let mut certificate = open_file(rt, args.verbose, best, InputNotes::nothing(alloc))?;
    let mut out = Counted::new(output(rt, args.verbose, None));
    compare_engine(rt, alloc, mine, design, &mut certificate, &mut out)
}
