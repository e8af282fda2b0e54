//! The options of `shells` and `report`, and what their arguments ask for: the files of a mine with prices, and how
//! each of its pits is found.

use crate::options::{
    PREC_HELP, PRICED_BLOCKS_HELP, file_option, method_option, named_option, progress_option,
    steps_option, text_of, verbose_solving_option, with_arg, with_option, workers_option,
};
use clap::{Arg, ArgAction, ArgMatches, Command};
use std::alloc::{AllocError, Global};

/// A command that goes over a series of factors.
#[derive(Clone, Copy)]
pub enum SeriesCommand {
    /// `shells`.
    Shells,
    /// `report`.
    Report,
}

/// The arguments of such a command: the files, of which that of the predecessors may be left out, and where they were
/// given the method, the steps, the workers and the file of the table of blocks, and whether it says which way each
/// block goes, progress is shown and it is told why a file failed.
#[derive(Clone, Copy)]
pub struct SeriesArgs<'a> {
    pub command: SeriesCommand,
    pub prec: Option<&'a str>,
    pub blocks: &'a str,
    pub settings: &'a str,
    pub method: Option<&'a str>,
    pub steps: Option<&'a str>,
    pub workers: Option<&'a str>,
    pub by_block: Option<&'a str>,
    pub ways: bool,
    pub progress: bool,
    pub verbose: bool,
}

impl SeriesArgs<'_> {
    /// Whether a name is that of a file which is read.
    pub fn reads(self, name: &str) -> bool {
        let is_prec = match self.prec {
            Some(prec) => name == prec,
            None => false,
        };
        is_prec || name == self.blocks || name == self.settings
    }
}

const METHOD_HELP: &str =
    "Which solver computes the flows: auto (the default), pseudoflow or push-relabel";

const METHODS: &str =
    "Which solver computes the flows: auto (the default), pseudoflow or push-relabel

  auto          pseudoflow, and up to 10000 blocks push-relabel where that gives no proof. Push-relabel alone where --steps is given
  pseudoflow    highest-label pseudoflow alone, at one factor for each worker at a time; UNSETTLED where it gives up
  push-relabel  push-relabel alone, with one thread for each worker

One or two workers of push-relabel run without a lock. Where a number of that run doesn't fit 63 bits, they run again with a lock, as more workers always do. The pits are the same.";

const WORKERS_HELP: &str =
    "How many factors pseudoflow solves at a time, or the threads of push-relabel, from 1 to 64 (1 by default)";

const PROGRESS_HELP: &str =
    "Reports on standard error each factor at which a pit is proved, and how far a run of push-relabel is";

const BY_BLOCK_HELP: &str =
    "Writes the shell of each block to this file, and replaces what is in it: lines block,shell, the shell empty where no pit holds the block; not an input";

/// The option that asks which way each block goes; the help says where it is told.
pub fn ways_option<'a>(alloc: Global, help: &'a str) -> Arg<'a> {
    Arg::new(alloc, "ways")
        .long("ways")
        .action(ArgAction::SetTrue)
        .help(help)
}

/// Such a command with its options, with that of ways; the help says what its settings have.
pub fn with_series<'a>(
    alloc: Global,
    command: Command<'a>,
    settings_help: &'a str,
    ways: Result<Arg<'a>, AllocError>,
) -> Result<Command<'a>, AllocError> {
    let command = with_priced_files(alloc, command, settings_help);
    let command = with_table(alloc, with_solver(alloc, command), ways);
    let command = with_arg(command, progress_option(alloc, PROGRESS_HELP));
    with_arg(command, verbose_solving_option(alloc))
}

// With the file of the table of blocks, and whether it says which way each block goes.
fn with_table<'a>(
    alloc: Global,
    command: Result<Command<'a>, AllocError>,
    ways: Result<Arg<'a>, AllocError>,
) -> Result<Command<'a>, AllocError> {
    let by_block = named_option(alloc, "by-block", "FILE", BY_BLOCK_HELP);
    with_option(with_arg(command, by_block), ways)
}

// With the files of a mine with prices.
fn with_priced_files<'a>(
    alloc: Global,
    command: Command<'a>,
    settings_help: &'a str,
) -> Result<Command<'a>, AllocError> {
    let command = with_arg(Ok(command), named_option(alloc, "prec", "FILE", PREC_HELP));
    let command = with_arg(command, file_option(alloc, "blocks", PRICED_BLOCKS_HELP));
    with_arg(command, file_option(alloc, "settings", settings_help))
}

// With how each pit is found.
fn with_solver<'a>(
    alloc: Global,
    command: Result<Command<'a>, AllocError>,
) -> Result<Command<'a>, AllocError> {
    let methods = method_option(alloc, METHOD_HELP).long_help(METHODS);
    let command = with_arg(command, methods);
    let command = with_arg(command, steps_option(alloc));
    with_arg(command, workers_option(alloc, WORKERS_HELP))
}

/// The arguments that were given to this command.
pub fn series_args<'a>(command: SeriesCommand, matches: &ArgMatches<'a>) -> SeriesArgs<'a> {
    SeriesArgs {
        command,
        prec: matches.get_str("prec"),
        blocks: text_of(matches, "blocks"),
        settings: text_of(matches, "settings"),
        method: matches.get_str("method"),
        steps: matches.get_str("steps"),
        workers: matches.get_str("workers"),
        by_block: matches.get_str("by-block"),
        ways: matches.get_flag("ways"),
        progress: matches.get_flag("progress"),
        verbose: matches.get_flag("verbose"),
    }
}
