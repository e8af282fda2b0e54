//! How a mine is to be solved, by the arguments of `solve`: the defaults of its options first, and then each option as
//! what it names, or the value that names nothing that there is.

ghost use Rattle.std.specs.Prelude.{◌≤◌, IfOk};

use crate::wrong;
use async_step::MOST_STEPS;
use command_line::{Commanded, ModelArgs, NamedOption, SolveArgs, WrongValue};
use lock_free_engine::{LockFreeEffort, names_lock_free};
use option_words::{
    Effort, Method, factor_named, group_named, method_named, steps_named, workers_named,
};
use ordered_group::Group;
use shells::Factor;
use traced_engine::room_named;
use workers::MOST_WORKERS;

// The most steps of a run of the machine, where no option says: how long it runs can't be told from a mine's size, so
// it is bounded. Pseudoflow isn't, but by the most that the option takes.
const USUAL_STEPS: u64 = 1_000_000_000;

// How many workers there are, where no option says.
const USUAL_WORKERS: u32 = 1;

// The most steps of a trace, where no option says.
const USUAL_ROOM: u32 = 1_048_576;

/// The trace that is asked for.
#[derive(Clone, Copy)]
pub struct TraceAsked<'a> {
    /// The file to which it is written.
    pub file: &'a str,
    /// The most steps that it may have.
    pub room: u32,
}

/// How `solve` is to solve a mine.
#[derive(Clone, Copy)]
pub enum SolveWay<'a> {
    /// By the method of an effort.
    ByMethod {
        /// What amounts count.
        group: Group,
        /// The method, the workers and the steps.
        effort: Effort,
    },
    /// By the push-relabel machine, with the trace of its run.
    Traced {
        /// What amounts count.
        group: Group,
        /// The workers and the steps.
        effort: Effort,
        /// The trace.
        trace: TraceAsked<'a>,
    },
    /// By a run without a lock.
    LockFree(LockFreeEffort),
}

impl<'a> SolveWay<'a> {
    /// The most steps.
    pub fn steps(self) -> u64 {
        match self {
            SolveWay::ByMethod { effort, .. } => effort.steps,
            SolveWay::Traced { effort, .. } => effort.steps,
            SolveWay::LockFree(effort) => effort.steps,
        }
    }
}

/// How the arguments say that it is solved.
///
/// # Errors
/// The value that names nothing, with its option.
pub fn solve_way<'a>(args: SolveArgs<'a>) -> Result<SolveWay<'a>, WrongValue<'a>> {
    let group = group_asked(Commanded::Solve, args.group)?;
    match args.method {
        Some(method) if asks_for_lock_free(method) => way_without_lock(args, method, group),
        method => {
            let method = method_asked(Commanded::Solve, method)?;
            way_by_method(args, method, group)
        }
    }
}

// A run by a method, or one with a trace.
fn way_by_method<'a>(
    args: SolveArgs<'a>,
    method: Method,
    group: Group,
) -> Result<SolveWay<'a>, WrongValue<'a>> {
    let effort = effort_to_solve(args, method)?;
    Ok(match trace_asked(args, method)? {
        Some(trace) => SolveWay::Traced {
            group,
            effort,
            trace,
        },
        None => SolveWay::ByMethod { group, effort },
    })
}

// A run without a lock: it has amounts of one group, and no trace.
fn way_without_lock<'a>(
    args: SolveArgs<'a>,
    method: &'a str,
    group: Group,
) -> Result<SolveWay<'a>, WrongValue<'a>> {
    // of no effect without a trace, but it has to be a number
    let _room = room_asked(args)?;
    match args.group {
        Some(value) if group != Group::Scaled => {
            let option = NamedOption::GroupWithoutLock { method };
            Err(wrong(Commanded::Solve, option, value))
        }
        _ if args.trace.is_some() => {
            Err(wrong(Commanded::Solve, NamedOption::TracedMethod, method))
        }
        _ => Ok(SolveWay::LockFree(effort_without_lock(args)?)),
    }
}

// How `solve` solves the mine by a method.
//
// # Errors
// The value that names nothing, with its option.
fn effort_to_solve<'a>(args: SolveArgs<'a>, method: Method) -> Result<Effort, WrongValue<'a>> {
    effort_asked(Commanded::Solve, method, args.steps, args.workers)
}

/// How `solve` solves the mine of blocks and periods: not by a run without a lock.
///
/// # Errors
/// The value that names nothing, with its option.
pub fn effort_over_periods<'a>(args: SolveArgs<'a>) -> Result<Effort, WrongValue<'a>> {
    // of no effect without a trace, but it has to be a number
    let _room = room_asked(args)?;
    match args.method {
        Some(method) if asks_for_lock_free(method) => {
            Err(wrong(Commanded::Solve, NamedOption::PlanMethod, method))
        }
        method => effort_to_solve(args, method_asked(Commanded::Solve, method)?),
    }
}

// How much a run of `solve` without a lock may use: it has one worker or two.
//
// # Errors
// The value that names nothing, with its option.
fn effort_without_lock<'a>(args: SolveArgs<'a>) -> Result<LockFreeEffort, WrongValue<'a>> {
    let workers = workers_asked(Commanded::Solve, args.workers)?;
    let steps = steps_asked(Commanded::Solve, args.steps)?;
    let method = args.method.unwrap_or("");
    let option = NamedOption::WorkersWithoutLock { method };
    let value = args.workers.unwrap_or("");
    LockFreeEffort::new(workers, steps).ok_or(wrong(Commanded::Solve, option, value))
}

/// How a mine is solved by a method.
///
/// # Errors
/// The value that names nothing, with its option.
// Steps are the push-relabel machine's, so that `auto` leaves the choice to it where they are given; workers say only
// how many it has where it runs.
pub(crate) fn effort_asked<'a>(
    command: Commanded,
    method: Method,
    steps: Option<&'a str>,
    workers: Option<&'a str>,
) -> Result<Effort, WrongValue<'a>> {
    let are_given = steps.is_some();
    let workers = workers_asked(command, workers)?;
    let steps = steps_asked(command, steps)?;
    let turns = if are_given { steps } else { MOST_STEPS };
    let method = method.where_steps_are(are_given);
    Ok(Effort::new(method, workers, steps, turns))
}

/// The method: by the mine's size, where no option says.
///
/// # Errors
/// The value that names nothing, with its option.
pub fn method_asked<'a>(
    command: Commanded,
    value: Option<&'a str>,
) -> Result<Method, WrongValue<'a>> {
    match value {
        Some(value) => method_named(value.as_bytes()).ok_or(wrong(
            command,
            NamedOption::Method,
            value,
        )),
        None => Ok(Method::Auto),
    }
}

// The most steps of a run.
fn steps_asked<'a>(command: Commanded, value: Option<&'a str>) -> Result<u64, WrongValue<'a>> {
    match value {
        Some(value) => steps_named(value.as_bytes()).ok_or(wrong(
            command,
            NamedOption::Steps,
            value,
        )),
        None => Ok(USUAL_STEPS),
    }
}

// How many workers there are.
fn workers_asked<'a>(command: Commanded, value: Option<&'a str>) -> Result<u32, WrongValue<'a>>
    ensures { IfOk result (λ workers. (1 ≤ workers) × (workers ≤ MOST_WORKERS)) }
{
    match value {
        Some(value) => workers_named(value.as_bytes()).ok_or(wrong(
            command,
            NamedOption::Workers,
            value,
        )),
        None => Ok(USUAL_WORKERS),
    }
}

// The trace, where one is asked for beside a method: of the push-relabel machine alone, so that pseudoflow can't be
// asked for beside it. It would replace an input whose name it has.
//
// # Errors
// The value that names nothing, with its option.
fn trace_asked<'a>(
    args: SolveArgs<'a>,
    method: Method,
) -> Result<Option<TraceAsked<'a>>, WrongValue<'a>> {
    let room = room_asked(args)?;
    match args.trace {
        None => Ok(None),
        Some(_) if method == Method::Pseudoflow => {
            let value = args.method.unwrap_or("");
            Err(wrong(Commanded::Solve, NamedOption::TracedMethod, value))
        }
        Some(file) if args.reads(file) => Err(wrong(Commanded::Solve, NamedOption::Trace, file)),
        Some(file) => Ok(Some(TraceAsked { file, room })),
    }
}

// The most steps of a trace.
//
// # Errors
// The value that names nothing, with its option.
fn room_asked<'a>(args: SolveArgs<'a>) -> Result<u32, WrongValue<'a>> {
    match args.room {
        Some(value) => room_named(value.as_bytes()).ok_or(wrong(
            Commanded::Solve,
            NamedOption::Room,
            value,
        )),
        None => Ok(USUAL_ROOM),
    }
}

/// What amounts count: worth and size, where no option says.
///
/// # Errors
/// The value that names nothing, with its option.
pub(crate) fn group_asked<'a>(
    command: Commanded,
    value: Option<&'a str>,
) -> Result<Group, WrongValue<'a>> {
    match value {
        Some(value) => group_named(value.as_bytes()).ok_or(wrong(
            command,
            NamedOption::Group,
            value,
        )),
        None => Ok(Group::Pair),
    }
}

// Whether a method asks for a run without a lock.
fn asks_for_lock_free(method: &str) -> bool {
    names_lock_free(method.as_bytes())
}

/// The factor at which the revenues of a mine of prices count. Of values none is asked for, and any does.
///
/// # Errors
/// The value that names nothing, with its option.
pub fn factor_asked<'a>(
    command: Commanded,
    model: ModelArgs<'a>,
    value: Option<&'a str>,
) -> Result<Factor, WrongValue<'a>> {
    let value = match model {
        ModelArgs::Values { .. } | ModelArgs::Valued { .. } => "0",
        ModelArgs::Prices { .. } | ModelArgs::Sloped { .. } => value.unwrap_or(""),
    };
    factor_named(value.as_bytes()).ok_or(wrong(command, NamedOption::Factor, value))
}
