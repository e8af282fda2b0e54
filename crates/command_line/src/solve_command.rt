//! The command `solve`: its options and help, and what its arguments ask for: the files of a mine, and how it is
//! solved.

use crate::options::{
    ModelArgs, command_with_help, group_option, method_option, model_args, named_option,
    number_option, pit_option, progress_option, steps_option, text_of, threads_option,
    verbose_solving_option, with_arg, with_model_at_factor, with_option, workers_option,
};
use clap::{Arg, ArgGroup, ArgMatches, Command};
use std::alloc::{AllocError, Global};

const ABOUT: &str = "Finds the best pit and writes its certificate";

const USAGE: &str =
    "pit solve (--prec <FILE> --upit <FILE> | --upit <FILE> --blocks <FILE> --settings <FILE> | [--prec <FILE>] --blocks <FILE> --settings <FILE> --factor <FACTOR>) [OPTIONS]";

const DETAILS: &str = "Finds the best pit and writes its certificate.

Prints a PITCERT text for `pit check`: the pit, and a flow that proves it. Whatever solver computed the flow, it is checked before anything is written. Prints UNSETTLED where no pit was found within the limits, and REFUSED TooLarge where a number doesn't fit 128 bits (with --method lock-free 63); both have the status 1.

With --trace push-relabel computes the flow, and each of its steps is written to the trace, with which `pit replay` repeats the run. Prints HISTORYFULL, with the status 1, where the run needs more steps than --room has room for.

With --periods it does so for the mine of blocks and periods, in worth alone: `pit bound` takes the certificate. With --pit it does so for the blocks of a best pit alone, numbered anew from 0 on in ascending order; prints REFUSED and the reason, with the status 1, where its certificate doesn't prove it.

Methods:
  auto          push-relabel for at most 1000 blocks, and pseudoflow where a number of its run doesn't fit; for more blocks pseudoflow, and up to 10000 push-relabel where that gives no proof. Push-relabel alone where --steps is given
  pseudoflow    highest-label pseudoflow alone: quick on mines of millions of blocks; UNSETTLED where it gives up
  push-relabel  push-relabel alone: each of its steps is proved, and it is slow above a few thousand blocks
  lock-free     push-relabel without a lock: one or two workers share its state in words of 64 bits, and each step is one operation on one word. Its --group is scaled, whether or not that is given, and it can't be given with --trace";

const METHOD_HELP: &str =
    "Which solver computes the flow: auto (the default), pseudoflow, push-relabel or lock-free";

const WORKERS_HELP: &str =
    "The threads of push-relabel, from 1 to 64 (1 by default), which share one lock; with --method lock-free 1 or 2, without a lock; pseudoflow has one thread";

const PROGRESS_HELP: &str = "Reports on standard error, once a second, how far the run is";

const TRACE_HELP: &str =
    "Writes each step of push-relabel's run to this file, and replaces what is in it: not an input, and not with --method pseudoflow or lock-free";

const PERIODS_HELP: &str =
    "Solves the mine of blocks and periods: what periods weigh and have, and the multipliers, a TOML text. Not with --group, --trace or --method lock-free";

const USES_HELP: &str =
    "With --periods, the blocks with the columns of what they use: the file of --blocks by default, and needed without that";

// What has the uses of blocks: one of these is needed with periods.
const USED: &str = "used";

const ROOM_HELP: &str =
    "The most steps of a trace, from 1 to 16777216 (1048576 by default); no effect without --trace";

/// The arguments of a request to solve: the files, and where they were given the factor, the method, the kind of
/// amount, the steps, the workers, the threads that read, the trace and its room, the periods, a pit and what blocks
/// use, and whether progress is shown and it is told why a file failed.
#[derive(Clone, Copy)]
pub struct SolveArgs<'a> {
    pub prec: &'a str,
    pub model: ModelArgs<'a>,
    pub factor: Option<&'a str>,
    pub method: Option<&'a str>,
    pub group: Option<&'a str>,
    pub steps: Option<&'a str>,
    pub workers: Option<&'a str>,
    pub threads: Option<&'a str>,
    pub trace: Option<&'a str>,
    pub room: Option<&'a str>,
    pub periods: Option<&'a str>,
    pub pit: Option<&'a str>,
    pub uses: Option<&'a str>,
    pub progress: bool,
    pub verbose: bool,
}

impl SolveArgs<'_> {
    /// Whether a name is that of a file which is read.
    pub fn reads(self, name: &str) -> bool {
        let of_model = match self.model {
            ModelArgs::Values { upit } => name == upit,
            ModelArgs::Prices { settings, blocks } => name == settings || name == blocks,
            ModelArgs::Sloped { settings, blocks } => name == settings || name == blocks,
            ModelArgs::Valued {
                settings,
                blocks,
                upit,
            } => name == settings || name == blocks || name == upit,
        };
        of_model || name == self.prec
    }
}

/// The command.
pub fn solve_command<'a>(alloc: Global) -> Result<Command<'a>, AllocError> {
    let command = command_with_help(alloc, "solve", ABOUT, DETAILS).override_usage(USAGE);
    let command = with_run(alloc, with_model_at_factor(alloc, command));
    let command = with_shown(alloc, command);
    with_group(with_periods(alloc, command), used_group(alloc))
}

// The command with this group of options more, where memory was refused for neither.
fn with_group<'a>(
    command: Result<Command<'a>, AllocError>,
    group: Result<ArgGroup<'a>, AllocError>,
) -> Result<Command<'a>, AllocError> {
    match (command, group) {
        (Ok(command), Ok(group)) => command.group(group),
        (Err(refused), _) | (_, Err(refused)) => Err(refused),
    }
}

// With the options of the mine of blocks and periods.
fn with_periods<'a>(
    alloc: Global,
    command: Result<Command<'a>, AllocError>,
) -> Result<Command<'a>, AllocError> {
    let command = with_option(command, periods_option(alloc));
    let command = with_option(command, planned_uses_option(alloc));
    with_option(command, pit_option(alloc).requires_arg("periods"))
}

// What has the uses of blocks.
fn planned_uses_option<'a>(alloc: Global) -> Result<Arg<'a>, AllocError> {
    named_option(alloc, "uses", "FILE", USES_HELP).requires_arg("periods")
}

// What the periods have.
fn periods_option<'a>(alloc: Global) -> Result<Arg<'a>, AllocError> {
    named_option(alloc, "periods", "FILE", PERIODS_HELP)
        .requires_arg(USED)?
        .conflicts_with("group")?
        .conflicts_with("trace")
}

// The options of which one at least has what blocks use.
fn used_group<'a>(alloc: Global) -> Result<ArgGroup<'a>, AllocError> {
    let used = ArgGroup::new(alloc, USED).arg("uses")?;
    Ok(used.arg("blocks")?.multiple(true))
}

// With the options that say how it is solved and bound the run.
fn with_run<'a>(
    alloc: Global,
    command: Result<Command<'a>, AllocError>,
) -> Result<Command<'a>, AllocError> {
    let command = with_arg(command, method_option(alloc, METHOD_HELP));
    let command = with_arg(command, group_option(alloc));
    let command = with_arg(command, steps_option(alloc));
    let command = with_arg(command, workers_option(alloc, WORKERS_HELP));
    with_arg(command, threads_option(alloc))
}

// With the options that show the run.
fn with_shown<'a>(
    alloc: Global,
    command: Result<Command<'a>, AllocError>,
) -> Result<Command<'a>, AllocError> {
    let command = with_arg(command, progress_option(alloc, PROGRESS_HELP));
    let command = with_arg(command, verbose_solving_option(alloc));
    let command = with_arg(command, named_option(alloc, "trace", "FILE", TRACE_HELP));
    with_arg(command, number_option(alloc, "room", "ROOM", ROOM_HELP))
}

/// The arguments that were given.
pub fn solve_args<'a>(matches: &ArgMatches<'a>) -> SolveArgs<'a> {
    SolveArgs {
        prec: text_of(matches, "prec"),
        model: model_args(matches),
        factor: matches.get_str("factor"),
        method: matches.get_str("method"),
        group: matches.get_str("group"),
        steps: matches.get_str("steps"),
        workers: matches.get_str("workers"),
        threads: matches.get_str("threads"),
        trace: matches.get_str("trace"),
        room: matches.get_str("room"),
        periods: matches.get_str("periods"),
        pit: matches.get_str("pit"),
        uses: matches.get_str("uses"),
        progress: matches.get_flag("progress"),
        verbose: matches.get_flag("verbose"),
    }
}
