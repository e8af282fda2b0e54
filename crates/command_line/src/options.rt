//! What the commands share: a command with its help and the text on exit statuses, how options are added to it one by
//! one, and the options that name a file or one of a few things.

use clap::{Arg, ArgAction, ArgMatches, Command};
use std::alloc::{AllocError, Global};

/// The exit statuses, for each command's help.
pub const STATUSES: &str = "Exit status:
  0  done: the answer is on standard output
  1  no: the certificate doesn't prove its pit, the run gave no pit, the design needs other blocks, the schedule isn't feasible, or the trace isn't that of a whole run
  2  usage: a wrong use of the command line
  3  a file is wrong, its numbers are too large, or a pattern gives nothing for it: standard error names the fault, and the line of the file if it has one
  4  memory or a thread was refused, or a file or the output failed

`pit` alone checks a small example that it carries, and prints the answer.";

/// The help of `--prec`, in whose place slopes of the settings may stand.
pub const PREC_HELP: &str =
    "The predecessors of each block: MineLib's .prec; needed unless the settings list slopes";

/// The help of `--upit`.
pub const UPIT_HELP: &str =
    "What each block is worth: MineLib's .upit; needed unless --blocks and --settings are given, and beside these in place of prices, where the settings list slopes";

/// An option that names one of a few things, or a number.
pub fn named_option<'a>(alloc: Global, name: &'a str, shown: &'a str, help: &'a str) -> Arg<'a> {
    Arg::new(alloc, name)
        .long(name)
        .value_name(shown)
        .action(ArgAction::Set)
        .help(help)
}

/// An option that is a number. One with a minus is taken for its value too, and declined with what it may be.
pub fn number_option<'a>(alloc: Global, name: &'a str, shown: &'a str, help: &'a str) -> Arg<'a> {
    named_option(alloc, name, shown, help).allow_negative_numbers(true)
}

/// A command with its help: what it does, in a line and in full, and the exit statuses.
pub fn command_with_help<'a>(
    alloc: Global,
    name: &'a str,
    about: &'a str,
    details: &'a str,
) -> Command<'a> {
    Command::new(alloc, name)
        .about(about)
        .long_about(details)
        .after_help(STATUSES)
}

/// The command with this option more, where memory was refused for neither. Its help shows them in the order in which
/// they are added.
// A command is handed from option to option as what was made of it: a caller that left at each refusal would have to
// give back all that it has made by then, which is dear to prove.
pub fn with_option<'a>(
    command: Result<Command<'a>, AllocError>,
    option: Result<Arg<'a>, AllocError>,
) -> Result<Command<'a>, AllocError> {
    match option {
        Ok(option) => with_arg(command, option),
        Err(refused) => Err(refused),
    }
}

/// The command with this option or argument more, where memory wasn't refused for it.
pub fn with_arg<'a>(
    command: Result<Command<'a>, AllocError>,
    arg: Arg<'a>,
) -> Result<Command<'a>, AllocError> {
    match command {
        Ok(command) => command.arg(arg),
        Err(refused) => Err(refused),
    }
}

/// An option that must be given and names a file.
pub fn file_option<'a>(alloc: Global, name: &'a str, help: &'a str) -> Arg<'a> {
    named_option(alloc, name, "FILE", help).required(true)
}

/// An argument that must be given, beside the options, and names a file.
pub fn file_arg<'a>(alloc: Global, name: &'a str, shown: &'a str, help: &'a str) -> Arg<'a> {
    Arg::new(alloc, name)
        .value_name(shown)
        .required(true)
        .action(ArgAction::Set)
        .help(help)
}

/// The help of `--settings`.
pub const SETTINGS_HELP: &str =
    "The columns of revenues and costs, or of a mill's charges or several ways to treat blocks; the factors of the shells; slopes, where there is no --prec: a TOML text";

/// The help of `--blocks` of a priced model.
pub const PRICED_BLOCKS_HELP: &str =
    "The blocks with the columns that the settings name: MineLib's .blocks";

/// The option of a command over periods that names the blocks which have what is used.
pub fn uses_option<'a>(alloc: Global) -> Result<Arg<'a>, AllocError> {
    named_option(
        alloc,
        "uses",
        "FILE",
        "The blocks with the columns of what they use: MineLib's .blocks; the file of --blocks by default, and needed without that",
    )
    .required_unless_present("blocks")
}

/// What a mine's worths are read from.
#[derive(Clone, Copy)]
pub enum ModelArgs<'a> {
    /// A file of values.
    Values {
        /// MineLib's `.upit`.
        upit: &'a str,
    },
    /// A file of settings, and one of blocks with columns of prices.
    Prices {
        /// The settings.
        settings: &'a str,
        /// MineLib's `.blocks`.
        blocks: &'a str,
    },
    /// The same with no file of the predecessors: the settings list slopes.
    Sloped {
        /// The settings.
        settings: &'a str,
        /// MineLib's `.blocks`.
        blocks: &'a str,
    },
    /// A file of settings that list slopes, one of blocks, and one of their values.
    Valued {
        /// The settings.
        settings: &'a str,
        /// MineLib's `.blocks`.
        blocks: &'a str,
        /// MineLib's `.upit`.
        upit: &'a str,
    },
}

/// The command with the options that name the files of a mine: its precedence, and its values or its settings and
/// blocks; or its values, settings and blocks.
pub fn with_model<'a>(alloc: Global, command: Command<'a>) -> Result<Command<'a>, AllocError> {
    let command = with_option(Ok(command), prec_option(alloc));
    let command = with_option(command, values_option(alloc));
    let command = with_option(command, blocks_option(alloc));
    with_option(command, settings_option(alloc))
}

/// The command with the options that name a model, of values or priced, where the option of the factor is beside them.
pub fn with_model_at_factor<'a>(
    alloc: Global,
    command: Command<'a>,
) -> Result<Command<'a>, AllocError> {
    let command = with_option(Ok(command), prec_option(alloc));
    let command = with_option(command, values_at_factor(alloc));
    let command = with_option(command, blocks_at_factor(alloc));
    let command = with_option(command, settings_option(alloc));
    with_option(command, factor_option(alloc))
}

// The predecessors, in whose place settings may list slopes. Blocks alone are told to need settings, and not this file.
fn prec_option<'a>(alloc: Global) -> Result<Arg<'a>, AllocError> {
    named_option(alloc, "prec", "FILE", PREC_HELP)
        .required_unless_present("settings")?
        .required_unless_present("blocks")
}

// The values of blocks, where neither of the files of a priced model is given.
fn values_option<'a>(alloc: Global) -> Result<Arg<'a>, AllocError> {
    named_option(alloc, "upit", "FILE", UPIT_HELP)
        .required_unless_present("blocks")?
        .required_unless_present("settings")
}

// The values of blocks, where no factor is given either.
fn values_at_factor<'a>(alloc: Global) -> Result<Arg<'a>, AllocError> {
    values_option(alloc)?.required_unless_present("factor")
}

// The blocks of a priced model.
fn blocks_option<'a>(alloc: Global) -> Result<Arg<'a>, AllocError> {
    priced_option(alloc, "blocks", PRICED_BLOCKS_HELP, "settings")
}

// The blocks of a priced model whose factor has to be named.
fn blocks_at_factor<'a>(alloc: Global) -> Result<Arg<'a>, AllocError> {
    blocks_option(alloc)?.requires_arg("factor")
}

// The settings of a priced model.
fn settings_option<'a>(alloc: Global) -> Result<Arg<'a>, AllocError> {
    priced_option(alloc, "settings", SETTINGS_HELP, "blocks")
}

// An option that names a file of a priced model, which needs the other one.
fn priced_option<'a>(
    alloc: Global,
    name: &'a str,
    help: &'a str,
    other: &'a str,
) -> Result<Arg<'a>, AllocError> {
    named_option(alloc, name, "FILE", help).requires_arg(other)
}

/// The files that were given.
pub fn model_args<'a>(matches: &ArgMatches<'a>) -> ModelArgs<'a> {
    match (matches.get_str("settings"), matches.get_str("blocks")) {
        (Some(settings), Some(blocks)) => match matches.get_str("upit") {
            Some(upit) => ModelArgs::Valued {
                settings,
                blocks,
                upit,
            },
            None if matches.contains_id("prec") => ModelArgs::Prices { settings, blocks },
            None => ModelArgs::Sloped { settings, blocks },
        },
        _ => ModelArgs::Values {
            upit: text_of(matches, "upit"),
        },
    }
}

/// Whether a file of the predecessors is given beside values and settings, whose slopes say the same.
pub fn names_rests_twice(matches: &ArgMatches<'_>) -> bool {
    matches.contains_id("prec") && matches.contains_id("upit") && matches.contains_id("settings")
}

// The option that names the factor of a priced model, which needs one.
fn factor_option<'a>(alloc: Global) -> Result<Arg<'a>, AllocError> {
    number_option(
        alloc,
        "factor",
        "FACTOR",
        "The share of the revenues that counts, in thousandths, from 0 to 10000; needed with --blocks, unless --upit is given",
    )
    .requires_arg("blocks")?
    .conflicts_with("upit")
}

/// The option of the factor at which something is judged, where no certificate names it.
pub fn factor_unless_best<'a>(alloc: Global, help: &'a str) -> Result<Arg<'a>, AllocError> {
    number_option(alloc, "factor", "FACTOR", help)
        .requires_arg("blocks")?
        .conflicts_with("upit")?
        .conflicts_with("best")
}

const PIT_HELP: &str =
    "A certificate of a best pit of the mine, at the same price, as `pit solve` writes it and `pit check` judges it: blocks outside the pit are left out of the mine of blocks and periods";

/// The option that names the certificate of a pit, to whose blocks the mine of blocks and periods is restricted.
pub fn pit_option<'a>(alloc: Global) -> Arg<'a> {
    named_option(alloc, "pit", "CERT", PIT_HELP)
}

/// The option that names what amounts count.
pub fn group_option<'a>(alloc: Global) -> Arg<'a> {
    named_option(
        alloc,
        "group",
        "GROUP",
        "What the flow counts: pair (the default), worth and then the fewer blocks; scaled, the same in one number, where the numbers of pair overflow; worth, worth alone",
    )
}

/// The option that names the solver which computes the flow.
pub fn method_option<'a>(alloc: Global, help: &'a str) -> Arg<'a> {
    named_option(alloc, "method", "METHOD", help)
}

/// The option that bounds a run.
pub fn steps_option<'a>(alloc: Global) -> Arg<'a> {
    number_option(
        alloc,
        "steps",
        "STEPS",
        "The most steps of push-relabel, or turns of pseudoflow, from 1 to 1099511627776 (by default 1000000000 steps and 1099511627776 turns); without --method it chooses push-relabel",
    )
}

/// The option that says how many workers there are.
pub fn workers_option<'a>(alloc: Global, help: &'a str) -> Arg<'a> {
    number_option(alloc, "workers", "WORKERS", help)
}

/// The option that says how many threads read a precedence at once, and values.
pub fn threads_option<'a>(alloc: Global) -> Arg<'a> {
    number_option(
        alloc,
        "threads",
        "THREADS",
        "How many threads read --prec and --upit at once, from 1 to 64 (by default as many as there are processors, at most 8, and 1 where a text has less than 2 MB)",
    )
}

/// The option that shows how far a run is.
pub fn progress_option<'a>(alloc: Global, help: &'a str) -> Arg<'a> {
    Arg::new(alloc, "progress")
        .long("progress")
        .action(ArgAction::SetTrue)
        .help(help)
}

/// The option that asks why a file failed.
pub fn verbose_option<'a>(alloc: Global) -> Arg<'a> {
    Arg::new(alloc, "verbose")
        .long("verbose")
        .action(ArgAction::SetTrue)
        .help("Reports on standard error which file failed, and the system's reason")
}

/// That option, of a command that solves.
pub fn verbose_solving_option<'a>(alloc: Global) -> Arg<'a> {
    verbose_option(alloc).help(
        "Reports on standard error which file failed, and the system's reason; after UNSETTLED, what to try",
    )
}

/// A value that clap made sure of.
pub fn text_of<'a>(matches: &ArgMatches<'a>, name: &str) -> &'a str {
    matches.get_str(name).unwrap_or("")
}
