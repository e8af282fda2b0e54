//! What the arguments of `slopes` ask for, or the value that names nothing that there is.

ghost use Rattle.std.specs.Prelude.{IfOk};
ghost use Rattle.option_words.specs.PatternWords.{IsChoice};

use crate::wrong;
use command_line::{Commanded, NamedOption, SlopesArgs, WrongValue};
use option_words::{PatternChoice, pattern_named, up_named};
use slope_offsets::{Selection, Up};

/// Which blocks above a block are its predecessors, by the name of a pattern.
///
/// # Errors
/// The value that names nothing, with its option.
pub fn pattern_asked<'a>(value: &'a str) -> Result<PatternChoice, WrongValue<'a>>
    ensures { IfOk result IsChoice }
{
    let pattern = pattern_named(value.as_bytes());
    pattern.ok_or(wrong(Commanded::Slopes, NamedOption::Pattern, value))
}

/// Which way is up, where an option says.
///
/// # Errors
/// The value that names nothing, with its option.
pub fn up_asked<'a>(args: SlopesArgs<'a>) -> Result<Option<Up>, WrongValue<'a>> {
    match args.up {
        Some(value) => match up_named(value.as_bytes()) {
            Some(up) => Ok(Some(up)),
            None => Err(wrong(Commanded::Slopes, NamedOption::Up, value)),
        },
        None => Ok(None),
    }
}

/// Which pairs are wanted: every one, where no option says.
pub fn selection_asked(args: SlopesArgs<'_>) -> Selection {
    if args.reduce {
        Selection::Reduced
    } else {
        Selection::Every
    }
}
