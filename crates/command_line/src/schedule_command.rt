//! The command `schedule`: its options and help, and what its arguments ask for: the files of a schedule, of its
//! periods and of its mine, and of the certificate that bounds it.

use crate::options::{
    ModelArgs, command_with_help, factor_unless_best, file_arg, file_option, model_args,
    named_option, pit_option, text_of, uses_option, verbose_option, with_arg, with_model,
    with_option,
};
use clap::{ArgMatches, Command};
use std::alloc::{AllocError, Global};

const ABOUT: &str = "Judges a schedule: what is it worth in its periods, and can it be dug?";

const USAGE: &str =
    "pit schedule (--prec <FILE> --upit <FILE> --uses <FILE> | [--prec <FILE> | --upit <FILE>] --blocks <FILE> --settings <FILE>) --periods <FILE> [OPTIONS] <SCHEDULE>";

const DETAILS: &str =
    "Judges a schedule: in which period each block is dug. It is feasible where BROKEN has 0 and no line EARLY or OVER comes; otherwise the status is 1.

Answers:
  SCHEDULE count npv               how many blocks it digs, and what they are worth, each at the weight of its period
  BROKEN pairs                     so many times a block needs one that is dug later or never
  BREAKS block predecessor         the first 20 of those
  EARLY pairs                      so many times a block waits for one by the periods and is dug too soon after it
  WAITS block other                the first 20 of those
  OVER resource period used capacity
                                   the period uses more of the resource than it has: resources and periods count from 0
  BOUND v                          with --best: no feasible schedule is worth more than v
  GAP amount                       with --best, of a feasible schedule: what v is more than it is worth

It is exact. With --best a certificate that `pit bound` would refuse gives its line alone, REFUSED and the reason, with the status 1. With --pit too the certificate is that of the blocks of this pit alone.";

const SCHEDULE_HELP: &str =
    "The schedule, a line for each block that is dug: its number and its period, both from 0 on, and perhaps its way, where the model has ways";

const PERIODS_HELP: &str =
    "What periods weigh, which columns have what blocks use of resources, and what each period has: a TOML text";

const BEST_HELP: &str =
    "A certificate of blocks and periods, which bounds the worth of every feasible schedule: what `pit solve --periods` writes. The periods need multipliers; with --blocks it names the factor, and --factor can't be given";

const FACTOR_HELP: &str =
    "The share of the revenues that counts, in thousandths, from 0 to 10000, with --blocks and no --upit; 1000 by default";

/// The files of a schedule, of its periods and of its mine, where they were given the factor, the blocks that have the
/// uses and the certificates of a bound and of a pit, and whether it is told why a file failed.
#[derive(Clone, Copy)]
pub struct ScheduleArgs<'a> {
    pub prec: &'a str,
    pub model: ModelArgs<'a>,
    pub periods: &'a str,
    pub uses: Option<&'a str>,
    pub factor: Option<&'a str>,
    pub best: Option<&'a str>,
    pub pit: Option<&'a str>,
    pub schedule: &'a str,
    pub verbose: bool,
}

/// The command.
pub fn schedule_command<'a>(alloc: Global) -> Result<Command<'a>, AllocError> {
    let command = command_with_help(alloc, "schedule", ABOUT, DETAILS).override_usage(USAGE);
    let command = with_periods(alloc, with_model(alloc, command));
    let command = with_bound(alloc, command);
    let command = with_arg(
        command,
        file_arg(alloc, "schedule", "SCHEDULE", SCHEDULE_HELP),
    );
    with_arg(command, verbose_option(alloc))
}

// With the files of periods and of uses, and at what factor the schedule is judged.
fn with_periods<'a>(
    alloc: Global,
    command: Result<Command<'a>, AllocError>,
) -> Result<Command<'a>, AllocError> {
    let command = with_arg(command, file_option(alloc, "periods", PERIODS_HELP));
    let command = with_option(command, uses_option(alloc));
    with_option(command, factor_unless_best(alloc, FACTOR_HELP))
}

// With what bounds it.
fn with_bound<'a>(
    alloc: Global,
    command: Result<Command<'a>, AllocError>,
) -> Result<Command<'a>, AllocError> {
    let command = with_arg(command, named_option(alloc, "best", "CERT", BEST_HELP));
    with_option(command, pit_option(alloc).requires_arg("best"))
}

/// The arguments that were given.
pub fn schedule_args<'a>(matches: &ArgMatches<'a>) -> ScheduleArgs<'a> {
    ScheduleArgs {
        prec: text_of(matches, "prec"),
        model: model_args(matches),
        periods: text_of(matches, "periods"),
        uses: matches.get_str("uses"),
        factor: matches.get_str("factor"),
        best: matches.get_str("best"),
        pit: matches.get_str("pit"),
        schedule: text_of(matches, "schedule"),
        verbose: matches.get_flag("verbose"),
    }
}
