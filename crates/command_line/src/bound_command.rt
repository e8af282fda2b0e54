//! The command `bound`: its options and help, and the files that its arguments name.

use crate::options::{
    ModelArgs, command_with_help, file_arg, file_option, model_args, pit_option, text_of,
    uses_option, verbose_option, with_arg, with_model, with_option,
};
use clap::{ArgMatches, Command};
use std::alloc::{AllocError, Global};

const ABOUT: &str =
    "Bounds the worth of every feasible schedule, by a certificate of blocks and periods";

const USAGE: &str =
    "pit bound (--prec <FILE> --upit <FILE> --uses <FILE> | [--prec <FILE> | --upit <FILE>] --blocks <FILE> --settings <FILE>) --periods <FILE> [OPTIONS] <CERT>";

const DETAILS: &str =
    "Bounds the worth of every feasible schedule, by a certificate of blocks and periods.

The certificate is of a mine whose blocks are nodes: with n blocks node t * n + b is block b, dug by the end of period t. It needs the nodes of its predecessors in that period, its own of the next, and those of the blocks for which it waits, `lag` periods before. What a node is worth is made from the files, at the multipliers of the periods, never read. A flow has to prove the best pit of these nodes.

With --pit the nodes are those of the blocks of a best pit alone, whose certificate `pit check` accepts, numbered anew from 0 on in ascending order. The bound is on schedules of the whole mine all the same.

Answers:
  BOUND v          no schedule that keeps precedence, capacities and waits is worth more than v,
                   whichever ways its blocks go
  REFUSED reason   a certificate doesn't prove its pit, the first of the two that doesn't; the status is 1

With --blocks and --settings, and no --upit, a block's worth follows from its prices at the factor that the certificate names.";

const PERIODS_HELP: &str =
    "What periods weigh, which columns have what blocks use of resources, what each period has, and the multipliers: a TOML text";

const CERTIFICATE_HELP: &str = "The pit of the nodes and its flow: a PITCERT text of GROUP WORTH";

/// The files of a bound, where they were given the blocks that have the uses and the certificate of a pit, and whether
/// it is told why one failed.
#[derive(Clone, Copy)]
pub struct BoundArgs<'a> {
    pub prec: &'a str,
    pub model: ModelArgs<'a>,
    pub periods: &'a str,
    pub uses: Option<&'a str>,
    pub pit: Option<&'a str>,
    pub certificate: &'a str,
    pub verbose: bool,
}

/// The command.
pub fn bound_command<'a>(alloc: Global) -> Result<Command<'a>, AllocError> {
    let command = command_with_help(alloc, "bound", ABOUT, DETAILS).override_usage(USAGE);
    with_bound(alloc, with_model(alloc, command))
}

// With the files of periods, of uses, of a pit and of the certificate, and whether it is told why one failed.
fn with_bound<'a>(
    alloc: Global,
    command: Result<Command<'a>, AllocError>,
) -> Result<Command<'a>, AllocError> {
    let command = with_arg(command, file_option(alloc, "periods", PERIODS_HELP));
    let command = with_option(command, uses_option(alloc));
    let command = with_arg(command, pit_option(alloc));
    let command = with_arg(
        command,
        file_arg(alloc, "certificate", "CERT", CERTIFICATE_HELP),
    );
    with_arg(command, verbose_option(alloc))
}

/// The arguments that were given.
pub fn bound_args<'a>(matches: &ArgMatches<'a>) -> BoundArgs<'a> {
    BoundArgs {
        prec: text_of(matches, "prec"),
        model: model_args(matches),
        periods: text_of(matches, "periods"),
        uses: matches.get_str("uses"),
        pit: matches.get_str("pit"),
        certificate: text_of(matches, "certificate"),
        verbose: matches.get_flag("verbose"),
    }
}
