//! The command `shells`, which prints the best pit at each factor: its help, and what `--ways` adds to the table of
//! blocks. Its other options are those of all commands over a series of factors.

use crate::options::{SETTINGS_HELP, command_with_help};
use crate::series_options::{ways_option, with_series};
use clap::Command;
use std::alloc::{AllocError, Global};

const ABOUT: &str = "Finds the shells: the best pit at each price of a series";

const DETAILS: &str =
    "Finds the shells: the best pits at rising metal prices, each of which lies within the next.

Prints a line for each of the factors that the settings name, lowest first: SHELL, the factor in thousandths, the number of blocks of the best pit at that share of the revenues, and its worth there. Each pit is checked with a flow that proves it, and nothing is printed before all are.

With --by-block it writes the first shell that holds each block to a file too, which joins the shells to the block model; with --ways it writes there too which of several ways each block goes.

Prints UNSETTLED and the factor where no pit was found within the limits, and REFUSED TooLarge where a number overflows; both have the status 1.";

const WAYS_HELP: &str =
    "Adds to the file of --by-block which way each block goes at the factor of the report (the key `report`, or without it the last of `factors`): lines block,shell,way, the way empty for waste and outside the pits";

/// The command.
pub fn shells_command<'a>(alloc: Global) -> Result<Command<'a>, AllocError> {
    let command = command_with_help(alloc, "shells", ABOUT, DETAILS);
    let ways = ways_option(alloc, WAYS_HELP).requires_arg("by-block");
    with_series(alloc, command, SETTINGS_HELP, ways)
}
