//! The command `slopes`: its options and help, and what its arguments ask for: the file of blocks, the pattern or the
//! settings, and the way up.

use crate::options::{
    command_with_help, file_option, named_option, text_of, verbose_option, with_arg, with_option,
};
use clap::{Arg, ArgAction, ArgMatches, Command};
use std::alloc::{AllocError, Global};

const ABOUT: &str = "Writes the predecessors of each block, by a slope pattern";

const DETAILS: &str = "Writes the predecessors of each block, by a slope pattern.

Prints a .prec file: for each block a line with its number, the number of its predecessors, and those. A block with nothing above it has the line `b 0`.

Patterns:
  five                  the block above and the four that share a side with it (1:5)
  nine                  the square of nine blocks above (1:9)
  cone:LEVELS:RUN:RISE  on each of LEVELS levels above, the blocks within level * RUN / RISE blocks of the axis; each number is from 1 to 1000. RUN and RISE count blocks: docs/GUIDE.md says what walls that makes
  settings              the offsets that the file of --settings lists under `offsets`: [dx, dy, dz] each, from a block to a predecessor; dz counts levels upward and is at least 1. Where it has `slopes` instead, those of the block's own region: `slopes` has a list of offsets for region 0, 1, and so on, and `region` is the number of the column of --blocks that says in which region a block is";

// The pattern that takes the offsets of settings.
const OF_SETTINGS: &str = "settings";

const BLOCKS_HELP: &str = "Where the blocks are: MineLib's .blocks";

const PATTERN_HELP: &str =
    "Which blocks above a block are its predecessors: five, nine, cone:LEVELS:RUN:RISE or settings";

const UP_HELP: &str =
    "Which way is up: plus, where a greater z is higher, or minus. Without it the settings say it under `up`, and otherwise it is plus";

const SETTINGS_HELP: &str =
    "The file that lists the offsets, a TOML text: needed for --pattern settings, not opened with another pattern";

const REDUCE_HELP: &str =
    "Leaves out each predecessor that others imply: of the pattern's two offsets lead to it, and the block between is there. Pits and shells stay the same";

/// What says which blocks above a block are its predecessors.
#[derive(Clone, Copy)]
pub enum OffsetsArgs<'a> {
    /// The name of a pattern.
    Pattern(&'a str),
    /// A file of settings that list offsets.
    Settings(&'a str),
}

/// The arguments of a slope request: the file of blocks, what says the offsets and, where it was given, the direction's
/// name, whether implied pairs are left out, and whether it is told why a file failed.
#[derive(Clone, Copy)]
pub struct SlopesArgs<'a> {
    pub blocks: &'a str,
    pub offsets: OffsetsArgs<'a>,
    pub up: Option<&'a str>,
    pub reduce: bool,
    pub verbose: bool,
}

/// The command.
pub fn slopes_command<'a>(alloc: Global) -> Result<Command<'a>, AllocError> {
    let command = command_with_help(alloc, "slopes", ABOUT, DETAILS);
    let command = with_offsets(alloc, command);
    let command = with_arg(command, reduce_option(alloc));
    with_arg(command, verbose_option(alloc))
}

// With the file of the blocks, the pattern, the way up, and the file of settings that a pattern may need.
fn with_offsets<'a>(alloc: Global, command: Command<'a>) -> Result<Command<'a>, AllocError> {
    let command = with_arg(Ok(command), file_option(alloc, "blocks", BLOCKS_HELP));
    let command = with_arg(command, pattern_option(alloc));
    let command = with_arg(command, named_option(alloc, "up", "WAY", UP_HELP));
    with_option(command, settings_option(alloc))
}

fn pattern_option<'a>(alloc: Global) -> Arg<'a> {
    named_option(alloc, "pattern", "PATTERN", PATTERN_HELP).required(true)
}

// The file of settings, which the pattern of that name needs.
fn settings_option<'a>(alloc: Global) -> Result<Arg<'a>, AllocError> {
    named_option(alloc, "settings", "FILE", SETTINGS_HELP).required_if_eq("pattern", OF_SETTINGS)
}

// The option that leaves out the pairs that others imply.
fn reduce_option<'a>(alloc: Global) -> Arg<'a> {
    Arg::new(alloc, "reduce")
        .long("reduce")
        .action(ArgAction::SetTrue)
        .help(REDUCE_HELP)
}

/// The arguments that were given.
pub fn slopes_args<'a>(matches: &ArgMatches<'a>) -> SlopesArgs<'a> {
    SlopesArgs {
        blocks: text_of(matches, "blocks"),
        offsets: offsets_args(matches),
        up: matches.get_str("up"),
        reduce: matches.get_flag("reduce"),
        verbose: matches.get_flag("verbose"),
    }
}

// The file of settings, where the pattern is theirs; with another pattern they are of no use.
fn offsets_args<'a>(matches: &ArgMatches<'a>) -> OffsetsArgs<'a> {
    let pattern = text_of(matches, "pattern");
    match matches.get_str("settings") {
        Some(settings) if pattern == OF_SETTINGS => OffsetsArgs::Settings(settings),
        _ => OffsetsArgs::Pattern(pattern),
    }
}
