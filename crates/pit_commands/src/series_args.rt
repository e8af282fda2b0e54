//! How `shells` and `report` are to solve a mine, by their arguments; those that would write the table of blocks over
//! an input are refused.

use crate::solve_args::{effort_asked, method_asked};
use crate::wrong;
use command_line::{Commanded, NamedOption, SeriesArgs, WrongValue};
use option_words::Effort;

/// How `shells` and `report` solve the mine at each factor.
///
/// # Errors
/// The value that names nothing, with its option.
pub fn effort_for_series<'a>(args: SeriesArgs<'a>) -> Result<Effort, WrongValue<'a>> {
    let command = Commanded::Series(args.command);
    let method = method_asked(command, args.method)?;
    effort_asked(command, method, args.steps, args.workers)
}

/// The file of the table of blocks where it is named as an input too, which the table would replace.
pub fn table_over_an_input<'a>(args: SeriesArgs<'a>) -> Option<WrongValue<'a>> {
    match args.by_block {
        Some(value) if args.reads(value) => {
            let command = Commanded::Series(args.command);
            Some(wrong(command, NamedOption::ByBlock, value))
        }
        _ => None,
    }
}
