//! Reads the arguments of the program: gives the one request that they make, or why there is none.

use crate::bound_command::{BoundArgs, bound_args, bound_command};
use crate::check_command::{CheckArgs, check_args, check_command};
use crate::declined::Declined;
use crate::escaped::{Escaped, has_control};
use crate::options::{STATUSES, names_rests_twice};
use crate::replay_command::{ReplayArgs, replay_args, replay_command};
use crate::report_command::report_command;
use crate::schedule_command::{ScheduleArgs, schedule_args, schedule_command};
use crate::series_options::{SeriesArgs, SeriesCommand, series_args};
use crate::shells_command::shells_command;
use crate::slopes_command::{SlopesArgs, slopes_args, slopes_command};
use crate::solve_command::{SolveArgs, solve_args, solve_command};
use crate::value_command::{ValueArgs, value_args, value_command};
use crate::version::VERSION;
use crate::wrong_value::error_of;
use clap::error::ErrorKind;
use clap::{ArgMatches, Command, Error};
use std::alloc::{AllocError, Global};

const ABOUT: &str =
    "Finds the ultimate pit of a block model and proves it, and checks the certificate of any solver";

const RESTS_TWICE: &str =
    "the argument '--prec <FILE>' cannot be used with '--upit <FILE>' and '--settings <FILE>': beside values the slopes of the settings say what rests on what";

/// What the arguments ask for.
#[derive(Clone, Copy)]
pub enum Request<'a> {
    /// The worth of every feasible schedule is to be bounded by a certificate.
    Bound(BoundArgs<'a>),
    /// A certificate is to be checked.
    Check(CheckArgs<'a>),
    /// A run is to be repeated from its trace.
    Replay(ReplayArgs<'a>),
    /// A schedule is to be judged.
    Schedule(ScheduleArgs<'a>),
    /// Shells are to be drawn, or reported by benches.
    Series(SeriesArgs<'a>),
    /// Predecessors are to be written by a slope pattern.
    Slopes(SlopesArgs<'a>),
    /// A mine is to be solved.
    Solve(SolveArgs<'a>),
    /// A design is to be judged.
    Value(ValueArgs<'a>),
}

/// Reads the arguments, of which the first is the program's name.
///
/// # Errors
/// `Declined` where they ask for a help text or the version, or aren't a request.
pub fn request_of<'a>(alloc: Global, args: &'a [String]) -> Result<Request<'a>, Declined> {
    match parsed(alloc, args) {
        Ok(request) => Ok(request),
        Err(error) if args.iter().any(|arg| has_control(arg)) => {
            Err(Declined::by(escaped_error(alloc, args, error)))
        }
        Err(error) => Err(Declined::by(error)),
    }
}

// What is wrong with arguments of which some have control characters, with these escaped.
fn escaped_error(alloc: Global, args: &[String], error: Error) -> Error {
    let shown = match escaped_args(alloc, args) {
        Ok(shown) => shown,
        Err(refused) => return Error::from(refused),
    };
    match parsed(alloc, &shown) {
        Ok(_) => error,
        Err(error) => error,
    }
}

fn escaped_args(alloc: Global, args: &[String]) -> Result<Vec<String>, AllocError> {
    let mut shown = Vec::new(alloc);
    for arg in args {
        let arg = Escaped { text: arg };
        shown.push(format!(in alloc; "{arg}")?)?;
    }
    Ok(shown)
}

// The matches are lent, so that nothing has to be given back where one of the words is wrong.
fn parsed<'a>(alloc: Global, args: &'a [String]) -> Result<Request<'a>, Error> {
    let matches = pit_command(alloc)?.try_get_matches_from(args)?;
    match request_in(&matches) {
        Some(request) => Ok(request),
        None => Err(error_in(alloc, &matches)),
    }
}

fn request_in<'a>(matches: &ArgMatches<'a>) -> Option<Request<'a>> {
    match matches.subcommand() {
        Some((_, matches)) if names_rests_twice(matches) => None,
        Some((name, matches)) => request_by(name, matches),
        None => None,
    }
}

fn request_by<'a>(name: &str, matches: &ArgMatches<'a>) -> Option<Request<'a>> {
    match name {
        "bound" => Some(Request::Bound(bound_args(matches))),
        "check" => Some(Request::Check(check_args(matches))),
        "replay" => Some(Request::Replay(replay_args(matches))),
        "report" => Some(Request::Series(series_args(SeriesCommand::Report, matches))),
        "schedule" => Some(Request::Schedule(schedule_args(matches))),
        "shells" => Some(Request::Series(series_args(SeriesCommand::Shells, matches))),
        "slopes" => Some(Request::Slopes(slopes_args(matches))),
        "solve" => Some(Request::Solve(solve_args(matches))),
        "value" => Some(Request::Value(value_args(matches))),
        _ => None,
    }
}

// Why matches are no request.
fn error_in(alloc: Global, matches: &ArgMatches<'_>) -> Error {
    let error = match matches.subcommand() {
        Some((name, matches)) if names_rests_twice(matches) => error_of_rests_twice(alloc, name),
        _ => command_missing(alloc),
    };
    match error {
        Ok(error) => error,
        Err(refused) => Error::from(refused),
    }
}

fn command_missing(alloc: Global) -> Result<Error, AllocError> {
    pit_command(alloc)?.error(ErrorKind::MissingSubcommand, "a command is missing")
}

// What is wrong with files of a mine where two of them say what rests on what.
fn error_of_rests_twice(alloc: Global, name: &str) -> Result<Error, AllocError> {
    let (made, name) = match name {
        "bound" => (bound_command(alloc), "pit bound"),
        "check" => (check_command(alloc), "pit check"),
        "replay" => (replay_command(alloc), "pit replay"),
        "schedule" => (schedule_command(alloc), "pit schedule"),
        "value" => (value_command(alloc), "pit value"),
        _ => (solve_command(alloc), "pit solve"),
    };
    error_of(made, name, ErrorKind::ArgumentConflict, RESTS_TWICE)
}

fn pit_command<'a>(alloc: Global) -> Result<Command<'a>, AllocError> {
    let command = Command::new(alloc, "pit")
        .about(ABOUT)
        .version(VERSION)
        .after_help(STATUSES)
        .subcommand_required(true);
    with_judging_commands(alloc, with_mining_commands(alloc, command))
}

fn with_mining_commands<'a>(
    alloc: Global,
    command: Command<'a>,
) -> Result<Command<'a>, AllocError> {
    let command = with_command(Ok(command), check_command(alloc));
    let command = with_command(command, slopes_command(alloc));
    let command = with_command(command, solve_command(alloc));
    let command = with_command(command, shells_command(alloc));
    with_command(command, report_command(alloc))
}

fn with_judging_commands<'a>(
    alloc: Global,
    command: Result<Command<'a>, AllocError>,
) -> Result<Command<'a>, AllocError> {
    let command = with_command(command, value_command(alloc));
    let command = with_command(command, schedule_command(alloc));
    let command = with_command(command, bound_command(alloc));
    with_command(command, replay_command(alloc))
}

fn with_command<'a>(
    command: Result<Command<'a>, AllocError>,
    below: Result<Command<'a>, AllocError>,
) -> Result<Command<'a>, AllocError> {
    match (command, below) {
        (Ok(command), Ok(below)) => command.subcommand(below),
        (Err(refused), _) | (_, Err(refused)) => Err(refused),
    }
}
