//! The command `check`: its options and help, and the files that its arguments name.

use crate::options::{
    ModelArgs, command_with_help, file_arg, model_args, text_of, threads_option, verbose_option,
    with_arg, with_model,
};
use clap::{ArgMatches, Command};
use std::alloc::{AllocError, Global};

const ABOUT: &str = "Checks a certificate: does its flow prove that its pit is the best?";

const USAGE: &str =
    "pit check (--prec <FILE> --upit <FILE> | [--prec <FILE> | --upit <FILE>] --blocks <FILE> --settings <FILE>) [OPTIONS] <CERT>";

const DETAILS: &str = "Checks a certificate: does its flow prove that its pit is the best?

Prints ACCEPTED, the number of blocks and the worth, or REFUSED and the reason. What is accepted is proved. The pit contains all predecessors of each of its blocks, and no such pit is worth more. Every other that is worth as much has more blocks, except with a certificate of GROUP WORTH.

With --blocks and --settings, and no --upit, a block's worth follows from its prices at the factor that the certificate names. Then, of two pits that are accepted over the same files, the one at the lower factor lies within the other, except with a certificate of GROUP WORTH.";

const CERTIFICATE_HELP: &str = "The pit and its flow: a PITCERT text";

/// The files of a check, how many threads read it where that was given, and whether it is told why a file failed.
#[derive(Clone, Copy)]
pub struct CheckArgs<'a> {
    pub prec: &'a str,
    pub model: ModelArgs<'a>,
    pub certificate: &'a str,
    pub threads: Option<&'a str>,
    pub verbose: bool,
}

/// The command.
pub fn check_command<'a>(alloc: Global) -> Result<Command<'a>, AllocError> {
    let command = command_with_help(alloc, "check", ABOUT, DETAILS).override_usage(USAGE);
    with_certificate(alloc, with_model(alloc, command))
}

// With the file of the certificate, how many threads read, and whether it is told why a file failed.
fn with_certificate<'a>(
    alloc: Global,
    command: Result<Command<'a>, AllocError>,
) -> Result<Command<'a>, AllocError> {
    let command = with_arg(
        command,
        file_arg(alloc, "certificate", "CERT", CERTIFICATE_HELP),
    );
    let command = with_arg(command, threads_option(alloc));
    with_arg(command, verbose_option(alloc))
}

/// The arguments that were given.
pub fn check_args<'a>(matches: &ArgMatches<'a>) -> CheckArgs<'a> {
    CheckArgs {
        prec: text_of(matches, "prec"),
        model: model_args(matches),
        certificate: text_of(matches, "certificate"),
        threads: matches.get_str("threads"),
        verbose: matches.get_flag("verbose"),
    }
}
