//! The command `replay`: its options and help, and what its arguments ask for, with the names of the files.

use crate::options::{
    ModelArgs, command_with_help, file_arg, group_option, model_args, text_of, verbose_option,
    with_arg, with_model_at_factor,
};
use clap::{ArgMatches, Command};
use std::alloc::{AllocError, Global};

const ABOUT: &str = "Repeats a run step by step from its trace";

const USAGE: &str =
    "pit replay (--prec <FILE> --upit <FILE> | --upit <FILE> --blocks <FILE> --settings <FILE> | [--prec <FILE>] --blocks <FILE> --settings <FILE> --factor <FACTOR>) [OPTIONS] <TRACE>";

const DETAILS: &str =
    "Repeats a run of push-relabel step by step from its trace. OPEN and REFUSED have the status 1.

Answers:
  REPLAYED steps QUIET  all steps can be made, and no block has anything left to do; on the next line what `pit check` would say of the flow
  REPLAYED steps OPEN   all steps can be made, and some block isn't done
  REFUSED place reason  the step at this place, counted from 1, isn't one that push-relabel may make there";

const TRACE_HELP: &str = "The steps of the run: a PITTRACE text";

/// The files of a replay, where they were given the factor and the kind of amount, and whether it is told why a file
/// failed.
#[derive(Clone, Copy)]
pub struct ReplayArgs<'a> {
    pub prec: &'a str,
    pub model: ModelArgs<'a>,
    pub factor: Option<&'a str>,
    pub group: Option<&'a str>,
    pub trace: &'a str,
    pub verbose: bool,
}

/// The command.
pub fn replay_command<'a>(alloc: Global) -> Result<Command<'a>, AllocError> {
    let command = command_with_help(alloc, "replay", ABOUT, DETAILS).override_usage(USAGE);
    with_trace(alloc, with_model_at_factor(alloc, command))
}

// With what amounts count, the file of the trace, and whether it is told why one failed.
fn with_trace<'a>(
    alloc: Global,
    command: Result<Command<'a>, AllocError>,
) -> Result<Command<'a>, AllocError> {
    let command = with_arg(command, group_option(alloc));
    let command = with_arg(command, file_arg(alloc, "trace", "TRACE", TRACE_HELP));
    with_arg(command, verbose_option(alloc))
}

/// The arguments that were given.
pub fn replay_args<'a>(matches: &ArgMatches<'a>) -> ReplayArgs<'a> {
    ReplayArgs {
        prec: text_of(matches, "prec"),
        model: model_args(matches),
        factor: matches.get_str("factor"),
        group: matches.get_str("group"),
        trace: text_of(matches, "trace"),
        verbose: matches.get_flag("verbose"),
    }
}
