//! Runs the engines of `schedule` and `bound` on files: opens all files of a command before any is read, and gives the
//! engine's answer.

ghost use Rattle.std.specs.Prelude.{IfOk};
ghost use Rattle.bound_engines.specs.Pits.{CertificatesCanCount};
ghost use Rattle.mine_inputs.specs.MineInputs.{CanCount};
ghost use Rattle.planned_mine.specs.BesideTexts.{BesideCanCount};
ghost use Rattle.schedule_engines.specs.PlanDevices.{PlanCanCount};

use crate::pit_certificate::open_pit;
use bound_engines::{Certificates, bound_engine};
use check_engines::Verdict;
use command_line::{BoundArgs, ModelArgs, ScheduleArgs};
use counted_devices::Counted;
use engine_faults::EngineFault;
use gap_engines::compare_schedule_engine;
use mine_inputs::MineInputs;
use pit_files::{InputNotes, ReportingFile, open_file, open_mine, output};
use planned_mine::{BoundFault, BoundInputs};
use schedule_engines::{ScheduleInputs, schedule_engine};
use shells::Factor;
use std::rt::Files;
use std::thread::Threads;

/// The file with the columns of what blocks use: the blocks of the mine, where no other is named.
pub(crate) fn uses_file<'a>(uses: Option<&'a str>, model: ModelArgs<'a>) -> &'a str {
    match (uses, model) {
        (Some(uses), _) => uses,
        (None, ModelArgs::Prices { blocks, .. }) => blocks,
        (None, ModelArgs::Sloped { blocks, .. }) => blocks,
        (None, ModelArgs::Valued { blocks, .. }) => blocks,
        // the command line needs the option where there are no blocks
        (None, ModelArgs::Values { .. }) => "",
    }
}

/// Opens the file of periods and the one of what blocks use.
///
/// # Errors
/// `Device` where one can't be opened.
pub(crate) fn open_beside<'a, R: Files + Eprint + AllocGlobal>(
    rt: &'a R,
    verbose: bool,
    periods: &'a str,
    uses: &'a str,
) -> Result<BoundInputs<Counted<ReportingFile<'a, R, R::File>>>, EngineFault>
    ensures { IfOk result (λ beside. BesideCanCount beside (λ device. device.failures)) }
{
    let periods = open_file(rt, verbose, periods, InputNotes::nothing(rt.alloc()))?;
    let uses = open_file(rt, verbose, uses, InputNotes::nothing(rt.alloc()))?;
    Ok(BoundInputs { periods, uses })
}

// Opens the certificate of the nodes, after that of a pit where one is named.
//
// # Errors
// `Device` where one can't be opened.
fn open_certificates<'a, R: Files + Eprint + AllocGlobal>(
    rt: &'a R,
    verbose: bool,
    pit: Option<&'a str>,
    nodes: &'a str,
) -> Result<Certificates<Counted<ReportingFile<'a, R, R::File>>>, EngineFault>
    ensures { IfOk result (λ opened. CertificatesCanCount opened (λ device. device.failures)) }
{
    let pit = open_pit(rt, verbose, pit)?;
    let nodes = open_file(rt, verbose, nodes, InputNotes::nothing(rt.alloc()))?;
    Ok(Certificates { pit, nodes })
}

/// Judges the schedule of a file over the mine of files and its periods, beside the bound of a certificate where one is
/// named.
///
/// # Errors
/// `Device` where a file can't be opened; then those of the engine.
pub fn schedule_files<'a, R: Files + Print + Eprint + Threads + Sync + AllocGlobal>(
    rt: &'a R,
    args: ScheduleArgs<'a>,
    factor: Factor,
) -> Result<Verdict, BoundFault> {
    let mut mine = open_mine(rt, args.verbose, args.prec, args.model, None)?;
    schedule_over(rt, args, factor, &mut mine)
}

// Judges a schedule over a mine.
//
// # Errors
// As for the files of the mine.
fn schedule_over<'a, R: Files + Print + Eprint + Threads + Sync + AllocGlobal>(
    rt: &'a R,
    args: ScheduleArgs<'a>,
    factor: Factor,
    mine: &mut MineInputs<Counted<ReportingFile<'a, R, R::File>>>,
) -> Result<Verdict, BoundFault>
    requires { CanCount mine.old (λ device. device.failures) }
{
    let mut beside = open_scheduled(rt, args)?;
    match args.best {
        None => schedule_alone(rt, args.verbose, factor, mine, &mut beside),
        Some(best) => schedule_beside(rt, args, best, mine, &mut beside),
    }
}

// Opens the files of a schedule, of its periods and of what blocks use.
//
// # Errors
// `Device` where one can't be opened.
fn open_scheduled<'a, R: Files + Eprint + AllocGlobal>(
    rt: &'a R,
    args: ScheduleArgs<'a>,
) -> Result<ScheduleInputs<Counted<ReportingFile<'a, R, R::File>>>, EngineFault>
    ensures { IfOk result (λ opened. PlanCanCount opened (λ device. device.failures)) }
{
    let name = uses_file(args.uses, args.model);
    let beside = open_beside(rt, args.verbose, args.periods, name)?;
    let heard = InputNotes::nothing(rt.alloc());
    let schedule = open_file(rt, args.verbose, args.schedule, heard)?;
    let BoundInputs { periods, uses } = beside;
    Ok(ScheduleInputs {
        periods,
        uses,
        schedule,
    })
}

// Judges a schedule over a mine, beside nothing.
//
// # Errors
// Those of the engine.
fn schedule_alone<'a, R: Files + Print + Eprint + Threads + Sync + AllocGlobal>(
    rt: &'a R,
    verbose: bool,
    factor: Factor,
    mine: &mut MineInputs<Counted<ReportingFile<'a, R, R::File>>>,
    beside: &mut ScheduleInputs<Counted<ReportingFile<'a, R, R::File>>>,
) -> Result<Verdict, BoundFault>
    requires mine_room { CanCount mine.old (λ device. device.failures) }
    requires beside_room { PlanCanCount beside.old (λ device. device.failures) }
{
    let mut out = Counted::new(output(rt, verbose, None));
    match schedule_engine(rt, rt.alloc(), mine, beside, factor, &mut out) {
        Ok(true) => Ok(Verdict::Done),
        Ok(false) => Ok(Verdict::No),
        Err(fault) => Err(BoundFault::Plan(fault)),
    }
}

// Judges a schedule over a mine, beside the bound of a certificate.
//
// # Errors
// `Device` where a certificate can't be opened; then those of the engine.
fn schedule_beside<'a, R: Files + Print + Eprint + Threads + Sync + AllocGlobal>(
    rt: &'a R,
    args: ScheduleArgs<'a>,
    best: &'a str,
    mine: &mut MineInputs<Counted<ReportingFile<'a, R, R::File>>>,
    beside: &mut ScheduleInputs<Counted<ReportingFile<'a, R, R::File>>>,
) -> Result<Verdict, BoundFault>
    requires mine_room { CanCount mine.old (λ device. device.failures) }
    requires beside_room { PlanCanCount beside.old (λ device. device.failures) }
{
    let mut certificates = open_certificates(rt, args.verbose, args.pit, best)?;
    let mut out = Counted::new(output(rt, args.verbose, None));
    compare_schedule_engine(rt, rt.alloc(), mine, beside, &mut certificates, &mut out)
}

/// Bounds the worth of every feasible schedule of the mine of files and its periods, by the certificate of a file.
///
/// # Errors
/// `Device` where a file can't be opened; then those of the engine.
pub fn bound_files<'a, R: Files + Print + Eprint + Threads + Sync + AllocGlobal>(
    rt: &'a R,
    args: BoundArgs<'a>,
) -> Result<Verdict, BoundFault> {
    let mut mine = open_mine(rt, args.verbose, args.prec, args.model, None)?;
    bound_over(rt, args, &mut mine)
}

// Bounds the worth of every feasible schedule of a mine.
//
// # Errors
// As for the files of the mine.
fn bound_over<'a, R: Files + Print + Eprint + Threads + Sync + AllocGlobal>(
    rt: &'a R,
    args: BoundArgs<'a>,
    mine: &mut MineInputs<Counted<ReportingFile<'a, R, R::File>>>,
) -> Result<Verdict, BoundFault>
    requires { CanCount mine.old (λ device. device.failures) }
{
    let name = uses_file(args.uses, args.model);
    let mut beside = open_beside(rt, args.verbose, args.periods, name)?;
    bound_beside(rt, args, mine, &mut beside)
}

// Bounds the worth of every feasible schedule of a mine and its periods.
//
// # Errors
// `Device` where a certificate can't be opened; then those of the engine.
fn bound_beside<'a, R: Files + Print + Eprint + Threads + Sync + AllocGlobal>(
    rt: &'a R,
    args: BoundArgs<'a>,
    mine: &mut MineInputs<Counted<ReportingFile<'a, R, R::File>>>,
    beside: &mut BoundInputs<Counted<ReportingFile<'a, R, R::File>>>,
) -> Result<Verdict, BoundFault>
    requires mine_room { CanCount mine.old (λ device. device.failures) }
    requires beside_room { BesideCanCount beside.old (λ device. device.failures) }
{
    let mut certificates = open_certificates(rt, args.verbose, args.pit, args.certificate)?;
    let mut out = Counted::new(output(rt, args.verbose, None));
    bound_engine(rt, rt.alloc(), mine, beside, &mut certificates, &mut out)
}
