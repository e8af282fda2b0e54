//! The command `report`, which prints the bench table: its help, and what `--ways` adds there. Its other options are
//! those of all commands over a series of factors.

use crate::options::command_with_help;
use crate::series_options::{ways_option, with_series};
use clap::Command;
use std::alloc::{AllocError, Global};

const ABOUT: &str = "Prints the bench table: what each shell has on each bench";

const DETAILS: &str =
    "Prints the bench table: the blocks, tonnes and worth of each shell on each bench.

Prints comma-separated values, which a spreadsheet opens: the line z,shell,blocks,tonnes,worth, and a line for each bench and shell that have a block. The shell of a block is the lowest of the factors in the settings whose best pit contains it; a block that is in no pit is in no line. The worths count at one factor for all shells: `report` in the settings, or without that key the last of `factors`. With --ways a line ends in the tonnes that go each way at that factor: tonnes1, tonnes2, ..

Each pit is found and checked as `pit shells` does it, and nothing is printed before all are. With --by-block it writes the shell of each block to a file too. Prints UNSETTLED and the factor where no pit was found within the limits, and REFUSED TooLarge where a number overflows; both have the status 1.";

const SETTINGS_HELP: &str =
    "The columns of prices, as for shells, and of tonnes; the factors of the shells, and that of the worths; slopes, where there is no --prec: a TOML text";

const WAYS_HELP: &str =
    "Adds the tonnes that go each way to treat a block, at the factor of the worths: tonnes1, tonnes2, ..; and to the file of --by-block each block's way: lines block,shell,way, the way empty for waste and outside the pits";

/// The command.
pub fn report_command<'a>(alloc: Global) -> Result<Command<'a>, AllocError> {
    let command = command_with_help(alloc, "report", ABOUT, DETAILS);
    let ways = ways_option(alloc, WAYS_HELP);
    with_series(alloc, command, SETTINGS_HELP, Ok(ways))
}
