//! What the arguments of `replay` ask for, or the value that names nothing that there is.

use crate::solve_args::{factor_asked, group_asked};
use command_line::{Commanded, ReplayArgs, WrongValue};
use replay_engines::ReplayAsked;

/// What a replay is asked for.
///
/// # Errors
/// The value that names nothing, with its option.
pub fn replay_asked<'a>(args: ReplayArgs<'a>) -> Result<ReplayAsked, WrongValue<'a>> {
    let group = group_asked(Commanded::Replay, args.group)?;
    let factor = factor_asked(Commanded::Replay, args.model, args.factor)?;
    Ok(ReplayAsked { factor, group })
}
