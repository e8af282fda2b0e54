//! The command `value`: its options and help, and what its arguments ask for: the files of a design and its mine, and
//! what it is compared with.

use crate::options::{
    ModelArgs, command_with_help, factor_unless_best, file_arg, model_args, named_option, text_of,
    verbose_option, with_arg, with_model, with_option,
};
use clap::{ArgMatches, Command};
use std::alloc::{AllocError, Global};

const ABOUT: &str = "Judges a design: what are its blocks worth, and do they need others?";

const USAGE: &str =
    "pit value (--prec <FILE> --upit <FILE> | [--prec <FILE> | --upit <FILE>] --blocks <FILE> --settings <FILE>) [OPTIONS] <DESIGN>";

const DETAILS: &str = "Judges a design: a set of blocks that somebody drew. OPEN has the status 1.

Answers:
  DESIGN count worth           how many blocks the design has, and what they are worth
  CLOSED                       it contains all predecessors of each of its blocks
  OPEN pairs                   so many times a block of it needs one outside
  NEEDS block predecessor      the first 20 of those
  BEST count worth GAP amount  with --best: the pit of the certificate, which `pit check` would accept, and what it is worth more than the design

With --best a certificate that `pit check` would refuse gives its line alone, REFUSED and the reason, with the status 1.";

const DESIGN_HELP: &str =
    "The blocks, a line for each: its number, or PIT and its number; of a certificate the lines PIT are taken";

const BEST_HELP: &str =
    "A certificate of the best pit, with which the design is compared: a PITCERT text. With --blocks it names the factor, and --factor can't be given";

const FACTOR_HELP: &str =
    "The share of the revenues that counts, in thousandths, from 0 to 10000, with --blocks and no --upit; 1000 by default";

/// The files of a design and its mine, where they were given the factor and the certificate of the best pit, and
/// whether it is told why a file failed.
#[derive(Clone, Copy)]
pub struct ValueArgs<'a> {
    pub prec: &'a str,
    pub model: ModelArgs<'a>,
    pub factor: Option<&'a str>,
    pub best: Option<&'a str>,
    pub design: &'a str,
    pub verbose: bool,
}

/// The command.
pub fn value_command<'a>(alloc: Global) -> Result<Command<'a>, AllocError> {
    let command = command_with_help(alloc, "value", ABOUT, DETAILS).override_usage(USAGE);
    with_design(alloc, with_model(alloc, command))
}

// With the factor at which the design is judged, with what it is compared, its file, and whether it is told why one
// failed.
fn with_design<'a>(
    alloc: Global,
    command: Result<Command<'a>, AllocError>,
) -> Result<Command<'a>, AllocError> {
    let command = with_option(command, factor_unless_best(alloc, FACTOR_HELP));
    let command = with_arg(command, named_option(alloc, "best", "CERT", BEST_HELP));
    let command = with_arg(command, file_arg(alloc, "design", "DESIGN", DESIGN_HELP));
    with_arg(command, verbose_option(alloc))
}

/// The arguments that were given.
pub fn value_args<'a>(matches: &ArgMatches<'a>) -> ValueArgs<'a> {
    ValueArgs {
        prec: text_of(matches, "prec"),
        model: model_args(matches),
        factor: matches.get_str("factor"),
        best: matches.get_str("best"),
        design: text_of(matches, "design"),
        verbose: matches.get_flag("verbose"),
    }
}
