//! Runs the engines of `solve` on files: opens all files before any is read, and gives the engine's
//! answer.

ghost use Rattle.std.specs.Prelude.{IfOk};
ghost use Rattle.bound_engines.specs.Pits.{PitCanCount};
ghost use Rattle.mine_inputs.specs.MineInputs.{CanCount};
ghost use Rattle.plan_engines.specs.PlansToSolve.{PlanCanCount};
ghost use Rattle.planned_mine.specs.BesideTexts.{BesideCanCount};

use crate::pit_certificate::open_pit;
use crate::plan_files::{open_beside, uses_file};
use crate::solve_args::{SolveWay, TraceAsked};
use check_engines::Verdict;
use command_line::SolveArgs;
use counted_devices::Counted;
use engine_faults::EngineFault;
use lock_free_engine::{LockFreeAsked, solve_lock_free_engine};
use mine_inputs::MineInputs;
use pit_files::{ReportingFile, advice_to_solve, make_file, open_mine, output};
use plan_engines::{PlanAsked, PlanInputs, solve_plan_engine};
use planned_mine::{BoundFault, BoundInputs};
use pseudoflow::Progress;
use shells::Factor;
use solve_engines::{Outcome, SolveAsked, solve_engine};
use std::rt::Files;
use std::sync::Wait;
use std::thread::Threads;
use traced_engine::{TracedAsked, TracedOutputs, solve_traced_engine};
use workers::Gate;

/// Solves the mine of files as it is asked for, where its blocks have prices at a factor. So many threads read it, where
/// that was asked for.
///
/// # Errors
/// `Device` where a file can't be opened; then those of the engine.
pub fn solve_files<
    'a,
    R: Files + Print + Eprint + Threads + Wait + Sync + AllocGlobal,
    T: Gate + Progress + Outcome,
>(
    rt: &'a R,
    args: SolveArgs<'a>,
    way: SolveWay<'a>,
    factor: Factor,
    threads: Option<u32>,
    watch: &T,
) -> Result<Verdict, EngineFault> {
    let mut mine = open_mine(rt, args.verbose, args.prec, args.model, threads)?;
    solve_over(rt, args, way, factor, &mut mine, watch)
}

// Solves a mine as it is asked for.
//
// # Errors
// `Device` where the file of a trace can't be made; then those of the engine.
fn solve_over<
    'a,
    R: Files + Print + Eprint + Threads + Wait + Sync + AllocGlobal,
    T: Gate + Progress + Outcome,
>(
    rt: &'a R,
    args: SolveArgs<'a>,
    way: SolveWay<'a>,
    factor: Factor,
    mine: &mut MineInputs<Counted<ReportingFile<'a, R, R::File>>>,
    watch: &T,
) -> Result<Verdict, EngineFault>
    requires { CanCount mine.old (λ device. device.failures) }
{
    match way {
        SolveWay::LockFree(effort) => {
            let asked = LockFreeAsked { factor, effort };
            let mut out = Counted::new(output(rt, args.verbose, Some(advice_to_solve(args))));
            solve_lock_free_engine(rt, rt.alloc(), mine, asked, watch, &mut out)
        }
        SolveWay::ByMethod { group, effort } => {
            let asked = SolveAsked {
                factor,
                group,
                effort,
            };
            let mut out = Counted::new(output(rt, args.verbose, Some(advice_to_solve(args))));
            solve_engine(rt, rt.alloc(), mine, asked, watch, &mut out)
        }
        SolveWay::Traced {
            group,
            effort,
            trace,
        } => {
            let asked = TracedAsked {
                factor,
                group,
                effort,
                room: trace.room,
            };
            solve_traced(rt, args, trace, mine, asked, watch)
        }
    }
}

// Solves a mine with the trace of its run.
//
// # Errors
// `Device` where the file of the trace can't be made; then those of the engine.
fn solve_traced<
    'a,
    R: Files + Print + Eprint + Threads + Wait + Sync + AllocGlobal,
    T: Gate + Outcome,
>(
    rt: &'a R,
    args: SolveArgs<'a>,
    trace: TraceAsked<'a>,
    mine: &mut MineInputs<Counted<ReportingFile<'a, R, R::File>>>,
    asked: TracedAsked,
    watch: &T,
) -> Result<Verdict, EngineFault>
    requires { CanCount mine.old (λ device. device.failures) }
{
    let trace = make_file(rt, args.verbose, trace.file)?;
    let out = Counted::new(output(rt, args.verbose, Some(advice_to_solve(args))));
    let mut outputs = TracedOutputs { trace, out };
    solve_traced_engine(rt, rt.alloc(), mine, asked, watch, &mut outputs)
}

/// Solves the mine of blocks and periods of files as it is asked for.
///
/// # Errors
/// `Device` where a file can't be opened; then those of the engine.
pub fn solve_plan_files<
    R: Files + Print + Eprint + Threads + Wait + Sync + AllocGlobal,
    T: Gate + Progress + Outcome,
>(
    rt: &R,
    args: SolveArgs<'_>,
    periods: &str,
    asked: PlanAsked,
    threads: Option<u32>,
    watch: &T,
) -> Result<Verdict, BoundFault> {
    let mut inputs = open_plan(rt, args, periods, threads)?;
    let mut out = Counted::new(output(rt, args.verbose, Some(advice_to_solve(args))));
    solve_plan_engine(rt, rt.alloc(), &mut inputs, asked, watch, &mut out)
}

// Opens all that the mine of blocks and periods is made from.
//
// # Errors
// `Device` where a file can't be opened.
fn open_plan<'a, R: Files + Eprint + AllocGlobal>(
    rt: &'a R,
    args: SolveArgs<'a>,
    periods: &'a str,
    threads: Option<u32>,
) -> Result<PlanInputs<Counted<ReportingFile<'a, R, R::File>>>, EngineFault>
    ensures { IfOk result (λ opened. PlanCanCount opened (λ device. device.failures)) }
{
    let mine = open_mine(rt, args.verbose, args.prec, args.model, threads)?;
    let PeriodInputs { beside, pit } = open_periods(rt, args, periods)?;
    Ok(PlanInputs { mine, beside, pit })
}

// What a mine of blocks and periods is made from, beside the mine.
#[derive(Drop)]
struct PeriodInputs<D> {
    beside: BoundInputs<D>,
    pit: Option<D>,
}

// Opens what the mine of blocks and periods is made from, beside the mine.
//
// # Errors
// `Device` where a file can't be opened.
fn open_periods<'a, R: Files + Eprint + AllocGlobal>(
    rt: &'a R,
    args: SolveArgs<'a>,
    periods: &'a str,
) -> Result<PeriodInputs<Counted<ReportingFile<'a, R, R::File>>>, EngineFault>
    ensures { IfOk result (λ opened. BesideCanCount opened.beside (λ device. device.failures)
        × PitCanCount opened.pit (λ device. device.failures)) }
{
    let name = uses_file(args.uses, args.model);
    let beside = open_beside(rt, args.verbose, periods, name)?;
    let pit = open_pit(rt, args.verbose, args.pit)?;
    Ok(PeriodInputs { beside, pit })
}
