//! Declines a request whose option has a value that names nothing: the text says which option, which value, and
//! what the option takes.

use crate::check_command::check_command;
use crate::declined::Declined;
use crate::escaped::Escaped;
use crate::replay_command::replay_command;
use crate::report_command::report_command;
use crate::schedule_command::schedule_command;
use crate::series_options::SeriesCommand;
use crate::shells_command::shells_command;
use crate::slopes_command::slopes_command;
use crate::solve_command::solve_command;
use crate::value_command::value_command;
use clap::error::ErrorKind;
use clap::{Command, Error};
use std::alloc::{AllocError, Global};

/// A command whose options name things.
#[derive(Clone, Copy)]
pub enum Commanded {
    /// `slopes`.
    Slopes,
    /// `check`.
    Check,
    /// `solve`.
    Solve,
    /// `replay`.
    Replay,
    /// `schedule`.
    Schedule,
    /// `value`.
    Value,
    /// `shells` or `report`.
    Series(SeriesCommand),
}

/// An option that names one of a few things, or a number.
#[derive(Clone, Copy)]
pub enum NamedOption<'a> {
    /// `--pattern`.
    Pattern,
    /// `--up`.
    Up,
    /// `--factor`.
    Factor,
    /// `--method`.
    Method,
    /// `--group`.
    Group,
    /// `--steps`.
    Steps,
    /// `--workers`.
    Workers,
    /// `--threads`.
    Threads,
    /// `--room`.
    Room,
    /// `--trace` with the name of an input.
    Trace,
    /// `--by-block` with the name of an input.
    ByBlock,
    /// `--method` where `--trace` is given.
    TracedMethod,
    /// `--method` where `--periods` is given.
    PlanMethod,
    /// `--group` beside the method without a lock.
    GroupWithoutLock {
        /// The method, as it was given.
        method: &'a str,
    },
    /// `--workers` beside the method without a lock.
    WorkersWithoutLock {
        /// The method, as it was given.
        method: &'a str,
    },
}

/// A value that names nothing that its option takes. Which values those are is decided above, where they are read.
#[derive(Clone, Copy)]
pub struct WrongValue<'a> {
    /// The command.
    pub command: Commanded,
    /// The option.
    pub option: NamedOption<'a>,
    /// The value.
    pub value: &'a str,
}

/// Declines a request for such a value: the text names the option, the value and what the option takes.
pub fn declined_for(alloc: Global, wrong: WrongValue<'_>) -> Declined {
    match error_for(alloc, wrong) {
        Ok(error) => Declined::by(error),
        Err(refused) => Declined::by(Error::from(refused)),
    }
}

fn error_for(alloc: Global, wrong: WrongValue<'_>) -> Result<Error, AllocError> {
    let text = text_for(alloc, wrong)?;
    error_of(
        command_of(alloc, wrong.command),
        name_of(wrong.command),
        ErrorKind::ValueValidation,
        text.as_str(),
    )
}

/// The error of a command, by the name that its usage shows, where memory wasn't refused for the command.
pub fn error_of(
    made: Result<Command<'_>, AllocError>,
    name: &'static str,
    kind: ErrorKind,
    text: &str,
) -> Result<Error, AllocError> {
    let mut command = made?.bin_name(name)?;
    command.error(kind, text)
}

fn text_for(alloc: Global, wrong: WrongValue<'_>) -> Result<String, AllocError> {
    let value = Escaped { text: wrong.value };
    let shown = shown(wrong.option);
    let taken = taken(wrong.command, wrong.option);
    match method_beside(wrong.option) {
        Some(method) => text_beside_method(alloc, value, shown, taken, method),
        None => format!(in alloc; "invalid value '{value}' for '{shown}': {taken}"),
    }
}

fn text_beside_method(
    alloc: Global,
    value: Escaped<'_>,
    shown: &str,
    taken: &str,
    method: &str,
) -> Result<String, AllocError> {
    format!(in alloc;
        "invalid value '{value}' for '{shown}': {taken} where --method {method} is given"
    )
}

fn command_of<'a>(alloc: Global, command: Commanded) -> Result<Command<'a>, AllocError> {
    match command {
        Commanded::Slopes => slopes_command(alloc),
        Commanded::Check => check_command(alloc),
        Commanded::Solve => solve_command(alloc),
        Commanded::Replay => replay_command(alloc),
        Commanded::Schedule => schedule_command(alloc),
        Commanded::Value => value_command(alloc),
        Commanded::Series(SeriesCommand::Shells) => shells_command(alloc),
        Commanded::Series(SeriesCommand::Report) => report_command(alloc),
    }
}

// The name that a command's usage shows.
fn name_of(command: Commanded) -> &'static str {
    match command {
        Commanded::Slopes => "pit slopes",
        Commanded::Check => "pit check",
        Commanded::Solve => "pit solve",
        Commanded::Replay => "pit replay",
        Commanded::Schedule => "pit schedule",
        Commanded::Value => "pit value",
        Commanded::Series(SeriesCommand::Shells) => "pit shells",
        Commanded::Series(SeriesCommand::Report) => "pit report",
    }
}

// The method that was given, where it leaves the option less to take.
fn method_beside<'a>(option: NamedOption<'a>) -> Option<&'a str> {
    match option {
        NamedOption::GroupWithoutLock { method } => Some(method),
        NamedOption::WorkersWithoutLock { method } => Some(method),
        _ => None,
    }
}

// The option as the help shows it.
fn shown(option: NamedOption<'_>) -> &'static str {
    match option {
        NamedOption::Pattern => "--pattern <PATTERN>",
        NamedOption::Up => "--up <WAY>",
        NamedOption::Factor => "--factor <FACTOR>",
        NamedOption::Method | NamedOption::TracedMethod | NamedOption::PlanMethod => {
            "--method <METHOD>"
        }
        NamedOption::Group | NamedOption::GroupWithoutLock { .. } => "--group <GROUP>",
        NamedOption::Steps => "--steps <STEPS>",
        NamedOption::Workers | NamedOption::WorkersWithoutLock { .. } => "--workers <WORKERS>",
        NamedOption::Threads => "--threads <THREADS>",
        NamedOption::Room => "--room <ROOM>",
        NamedOption::Trace => "--trace <FILE>",
        NamedOption::ByBlock => "--by-block <FILE>",
    }
}

// What the option takes.
fn taken(command: Commanded, option: NamedOption<'_>) -> &'static str {
    match option {
        NamedOption::Pattern =>
            "five, nine, cone:LEVELS:RUN:RISE with each number from 1 to 1000, or settings",
        NamedOption::Up => "plus or minus",
        NamedOption::Factor => "a whole number from 0 to 10000",
        NamedOption::Method => methods(command),
        NamedOption::Group => "pair, scaled or worth",
        NamedOption::Steps => "a whole number from 1 to 1099511627776",
        NamedOption::Workers | NamedOption::Threads => "a whole number from 1 to 64",
        NamedOption::Room => "a whole number from 1 to 16777216",
        NamedOption::Trace => "a file that isn't an input, since the trace replaces what is in it",
        NamedOption::ByBlock =>
            "a file that isn't an input, since the table replaces what is in it",
        NamedOption::TracedMethod => "auto or push-relabel where --trace is given",
        NamedOption::PlanMethod => "auto, pseudoflow or push-relabel where --periods is given",
        NamedOption::GroupWithoutLock { .. } => "scaled",
        NamedOption::WorkersWithoutLock { .. } => "1 or 2",
    }
}

// The methods that a command takes.
fn methods(command: Commanded) -> &'static str {
    match command {
        Commanded::Solve => "auto, pseudoflow, push-relabel or lock-free",
        _ => "auto, pseudoflow or push-relabel",
    }
}
