//! `pit`: the ultimate pit of a block model, found and checked.
//!
//! Stands on the engines, which read bytes and write bytes, and whose contracts say which; here they are connected to
//! the arguments of the command line, to files and to standard output, and the exit status is given.
#![tactic(auto)]

mod progress;
mod reasons;
mod series_commands;

use check_engines::{Verdict, status, stored_check, write_fault};
use command_line::{
    BoundArgs, CheckArgs, Commanded, Declined, OffsetsArgs, ReplayArgs, Request, ScheduleArgs,
    SeriesArgs, SlopesArgs, SolveArgs, ValueArgs, WrongValue, declined_for, request_of,
};
use counted_devices::Counted;
use design_engines::{DesignProblem, ValueFault, write_problem};
use engine_faults::{EngineFault, Problem};
use pit_commands::{
    SolveWay, bound_files, check_files, effort_for_series, effort_over_periods, factor_asked,
    listed_slopes_files, pattern_asked, replay_asked, replay_files, schedule_factor_asked,
    schedule_files, slopes_file, solve_files, solve_plan_files, solve_way, table_over_an_input,
    threads_asked, up_asked, value_factor_asked, value_files,
};
use plan_engines::PlanAsked;
use planned_mine::{BoundFault, NodesProblem, write_nodes_problem};
use progress::{Meter, PROGRESS_ALONE, Tells};
use reasons::{advise_on_workers, tell_choice, tell_slope_reason};
use schedule_engines::{
    PeriodsProblem, PlanFault, ScheduleProblem, write_periods_problem, write_schedule_problem,
};
use series_commands::series_files;
use settings_file::{Key, SettingsFault};
use shells::Factor;
use solve_engines::Unwatched;
use std::process::ExitCode;
use std::rt::{Clock, Env, Files};
use std::sync::Wait;
use std::thread::Threads;
use std::{env, io};

// The exit status where the arguments are wrong.
const USAGE: u8 = 2;

// The exit status where a design, periods, a schedule or nodes are wrong, as any other input.
const FAULTY: u8 = 3;

// How the program ends, but for a fault of a mine's own files.
#[derive(Clone, Copy)]
enum Ending {
    // An engine answered.
    Answered(Verdict),
    BadDesign(DesignProblem),
    BadPeriods(PeriodsProblem),
    // The mine of blocks and periods can't be made.
    BadNodes(NodesProblem),
    BadSchedule(ScheduleProblem),
    // Neither a precedence is given nor do settings list slopes, and this fault tells it.
    NoPrecedence(EngineFault),
    // A help text or the version was printed, or what is wrong with the arguments; with this exit status.
    Printed(u8),
}

// Why nothing is answered.
#[derive(Clone, Copy)]
enum Stop<'a> {
    Fault(EngineFault),
    // A value names nothing that its option takes.
    Wrong(WrongValue<'a>),
}

impl<'a> From<EngineFault> for Stop<'a> {
    fn from(fault: EngineFault) -> Stop<'a> {
        Stop::Fault(fault)
    }
}

impl<'a> From<WrongValue<'a>> for Stop<'a> {
    fn from(wrong: WrongValue<'a>) -> Stop<'a> {
        Stop::Wrong(wrong)
    }
}

fn main(rt: HostRuntime) -> ExitCode {
    let mut errors = Counted::new(rt.stderr());
    match run(&rt) {
        Ok(Ending::Answered(verdict)) => ExitCode::from(status(&Ok(verdict))),
        Ok(Ending::Printed(status)) => ExitCode::from(status),
        Ok(Ending::BadDesign(problem)) => {
            let _ = write_problem(problem, &mut errors);
            ExitCode::from(FAULTY)
        }
        Ok(Ending::BadPeriods(problem)) => {
            let _ = write_periods_problem(problem, &mut errors);
            ExitCode::from(FAULTY)
        }
        Ok(Ending::BadNodes(problem)) => {
            let _ = write_nodes_problem(problem, &mut errors);
            ExitCode::from(FAULTY)
        }
        Ok(Ending::BadSchedule(problem)) => {
            let _ = write_schedule_problem(problem, &mut errors);
            ExitCode::from(FAULTY)
        }
        Ok(Ending::NoPrecedence(fault)) => {
            let _ = write_fault(&fault, &mut errors);
            ExitCode::from(USAGE)
        }
        Err(fault) => {
            // Where standard error fails too, the status alone says what was wrong.
            let _ = write_fault(&fault, &mut errors);
            ExitCode::from(status(&Err(fault)))
        }
    }
}

// Does what the arguments ask for.
fn run<R: Files + Print + Eprint + Env + Clock + Threads + Wait + Sync + AllocGlobal>(
    rt: &R,
) -> Result<Ending, EngineFault> {
    let given = match env::args(rt) {
        Ok(given) => given,
        Err(error) if error.kind() == io::ErrorKind::OutOfMemory => return Err(EngineFault::Memory),
        Err(_) => return Ok(usage(rt)),
    };
    let args: Vec<String> = given.collect(rt.alloc())?;
    if args.len() <= 1 {
        let mut out = Counted::new(io::writer(rt));
        return Ok(Ending::Answered(stored_check(rt, rt.alloc(), &mut out)?));
    }
    match request_of(rt.alloc(), args.as_slice()) {
        Ok(request) => answered(rt, request),
        Err(declined) => printed(rt, &declined),
    }
}

// Does what is asked. A mine to which neither arguments nor settings say who rests on whom is a wrong use.
fn answered<R: Files + Print + Eprint + Clock + Threads + Wait + Sync + AllocGlobal>(
    rt: &R,
    request: Request<'_>,
) -> Result<Ending, EngineFault> {
    let verbose = is_verbose(&request);
    let writes_slopes = matches!(request, Request::Slopes(_));
    let answer = match request {
        Request::Bound(args) => bound(rt, args),
        Request::Check(args) => check(rt, args),
        Request::Replay(args) => replay(rt, args),
        Request::Solve(args) => solve(rt, args),
        Request::Series(args) => series(rt, args),
        Request::Slopes(args) => slopes(rt, args),
        Request::Value(args) => value(rt, args),
        Request::Schedule(args) => schedule(rt, args),
    };
    match answer {
        Ok(ending) => Ok(ending),
        Err(Stop::Wrong(wrong)) => printed(rt, &declined_for(rt.alloc(), wrong)),
        Err(Stop::Fault(fault)) => {
            tell_slope_reason(rt, verbose, fault);
            if is_want_of_slopes(fault) && !writes_slopes {
                return Ok(Ending::NoPrecedence(fault));
            }
            Err(fault)
        }
    }
}

// Whether more than the answer is asked for.
fn is_verbose(request: &Request<'_>) -> bool {
    match request {
        Request::Bound(args) => args.verbose,
        Request::Check(args) => args.verbose,
        Request::Replay(args) => args.verbose,
        Request::Solve(args) => args.verbose,
        Request::Series(args) => args.verbose,
        Request::Slopes(args) => args.verbose,
        Request::Value(args) => args.verbose,
        Request::Schedule(args) => args.verbose,
    }
}

// Whether settings list no slopes where a command needs them.
fn is_want_of_slopes(fault: EngineFault) -> bool {
    matches!(
        fault,
        EngineFault::Settings(Problem::Fault(SettingsFault::Missing(Key::Slopes)))
    )
}

// Checks a certificate over the mine of files.
fn check<'a, R: Files + Print + Eprint + Threads + Sync + AllocGlobal>(
    rt: &'a R,
    args: CheckArgs<'a>,
) -> Result<Ending, Stop<'a>> {
    let threads = threads_asked(Commanded::Check, args.threads)?;
    Ok(Ending::Answered(check_files(rt, args, threads)?))
}

// Solves a mine, and tells how far it is where that is asked for.
fn solve<'a, R: Files + Print + Eprint + Clock + Threads + Wait + Sync + AllocGlobal>(
    rt: &'a R,
    args: SolveArgs<'a>,
) -> Result<Ending, Stop<'a>> {
    if let Some(periods) = args.periods {
        return solve_plan(rt, args, periods);
    }
    let way = solve_way(args)?;
    tell_choice(
        rt,
        args.verbose && args.trace.is_none(),
        args.method,
        args.steps,
    );
    advise_on_workers(rt, args.verbose, way);
    let factor = factor_asked(Commanded::Solve, args.model, args.factor)?;
    let threads = threads_asked(Commanded::Solve, args.threads)?;
    Ok(Ending::Answered(solved(rt, args, way, factor, threads)?))
}

fn solved<R: Files + Print + Eprint + Clock + Threads + Wait + Sync + AllocGlobal>(
    rt: &R,
    args: SolveArgs<'_>,
    way: SolveWay<'_>,
    factor: Factor,
    threads: Option<u32>,
) -> Result<Verdict, EngineFault> {
    let tells = Tells {
        progress: args.progress,
        outcome: args.verbose,
    };
    if args.progress || args.verbose {
        let meter = Meter::new(rt, way.steps(), tells);
        solve_files(rt, args, way, factor, threads, &meter)
    } else {
        solve_files(rt, args, way, factor, threads, &Unwatched)
    }
}

// Solves the mine of blocks and periods, and tells how far it is where that is asked for.
fn solve_plan<'a, R: Files + Print + Eprint + Clock + Threads + Wait + Sync + AllocGlobal>(
    rt: &'a R,
    args: SolveArgs<'a>,
    periods: &'a str,
) -> Result<Ending, Stop<'a>> {
    let effort = effort_over_periods(args)?;
    let factor = factor_asked(Commanded::Solve, args.model, args.factor)?;
    let threads = threads_asked(Commanded::Solve, args.threads)?;
    tell_choice(rt, args.verbose, args.method, args.steps);
    let asked = PlanAsked { factor, effort };
    bounded(if args.progress {
        let meter = Meter::new(rt, effort.steps, PROGRESS_ALONE);
        solve_plan_files(rt, args, periods, asked, threads, &meter)
    } else {
        solve_plan_files(rt, args, periods, asked, threads, &Unwatched)
    })
}

// Repeats a run over the mine of files from its trace.
fn replay<'a, R: Files + Print + Eprint + Threads + Sync + AllocGlobal>(
    rt: &'a R,
    args: ReplayArgs<'a>,
) -> Result<Ending, Stop<'a>> {
    let asked = replay_asked(args)?;
    Ok(Ending::Answered(replay_files(rt, args, asked)?))
}

// Judges a design over the mine of files.
fn value<'a, R: Files + Print + Eprint + Threads + Sync + AllocGlobal>(
    rt: &'a R,
    args: ValueArgs<'a>,
) -> Result<Ending, Stop<'a>> {
    let factor = value_factor_asked(args)?;
    match value_files(rt, args, factor) {
        Ok(verdict) => Ok(Ending::Answered(verdict)),
        Err(ValueFault::Design(problem)) => Ok(Ending::BadDesign(problem)),
        Err(ValueFault::Engine(fault)) => Err(Stop::Fault(fault)),
    }
}

// Judges a schedule over the mine of files and its periods.
fn schedule<'a, R: Files + Print + Eprint + Threads + Sync + AllocGlobal>(
    rt: &'a R,
    args: ScheduleArgs<'a>,
) -> Result<Ending, Stop<'a>> {
    let factor = schedule_factor_asked(args)?;
    bounded(schedule_files(rt, args, factor))
}

// Bounds the worth of every feasible schedule of the mine of files and its periods.
fn bound<'a, R: Files + Print + Eprint + Threads + Sync + AllocGlobal>(
    rt: &'a R,
    args: BoundArgs<'a>,
) -> Result<Ending, Stop<'a>> {
    bounded(bound_files(rt, args))
}

// How the program ends with an answer of the mine of blocks and periods.
fn bounded<'a>(answer: Result<Verdict, BoundFault>) -> Result<Ending, Stop<'a>> {
    match answer {
        Ok(verdict) => Ok(Ending::Answered(verdict)),
        Err(BoundFault::Nodes(problem)) => Ok(Ending::BadNodes(problem)),
        Err(BoundFault::Plan(fault)) => unplanned(fault),
    }
}

// How the program ends at a fault of a plan.
fn unplanned<'a>(fault: PlanFault) -> Result<Ending, Stop<'a>> {
    match fault {
        PlanFault::Periods(problem) => Ok(Ending::BadPeriods(problem)),
        PlanFault::Schedule(problem) => Ok(Ending::BadSchedule(problem)),
        PlanFault::Engine(fault) => Err(Stop::Fault(fault)),
    }
}

// Draws the shells of the mine of three files or makes its bench table, and tells how far it is where that is asked
// for.
fn series<'a, R: Files + Print + Eprint + Clock + Threads + Wait + Sync + AllocGlobal>(
    rt: &'a R,
    args: SeriesArgs<'a>,
) -> Result<Ending, Stop<'a>> {
    let effort = effort_for_series(args)?;
    if let Some(wrong) = table_over_an_input(args) {
        return Err(Stop::Wrong(wrong));
    }
    tell_choice(rt, args.verbose, args.method, args.steps);
    let verdict = if args.progress {
        series_files(
            rt,
            args,
            effort,
            &Meter::new(rt, effort.steps, PROGRESS_ALONE),
        )?
    } else {
        series_files(rt, args, effort, &Unwatched)?
    };
    Ok(Ending::Answered(verdict))
}

// Writes the predecessors of the blocks of a file, by a pattern or by the offsets of settings.
fn slopes<'a, R: Files + Print + Eprint + AllocGlobal>(
    rt: &'a R,
    args: SlopesArgs<'a>,
) -> Result<Ending, Stop<'a>> {
    let up = up_asked(args)?;
    Ok(Ending::Answered(match args.offsets {
        OffsetsArgs::Pattern(name) => {
            let pattern = pattern_asked(name)?;
            slopes_file(rt, args, pattern, up)?
        }
        OffsetsArgs::Settings(settings) => listed_slopes_files(rt, args, settings, up)?,
    }))
}

// The arguments are no request, and the reason is printed, or the help or version that they ask for.
fn printed<R: Print + Eprint>(rt: &R, declined: &Declined) -> Result<Ending, EngineFault> {
    if declined.is_want_of_memory() {
        return Err(EngineFault::Memory);
    }
    match declined.print(rt) {
        Ok(()) => Ok(Ending::Printed(declined.status())),
        // where standard error fails, the status alone says that the arguments are wrong
        Err(_) if declined.status() == USAGE => Ok(Ending::Printed(USAGE)),
        Err(_) => Err(EngineFault::Device),
    }
}

// The arguments can't be read at all.
fn usage<R: Eprint>(rt: &R) -> Ending {
    let _ = rt.eprintln("fault: usage");
    Ending::Printed(USAGE)
}
