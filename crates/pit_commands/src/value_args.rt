//! The factor at which `value` and `schedule` judge, by their arguments, or the value that names nothing that there is.

use crate::solve_args::factor_asked;
use command_line::{Commanded, ScheduleArgs, ValueArgs, WrongValue};
use shells::Factor;

// The factor at which a design or a schedule is judged, where no option says: revenues in full.
const FULL: &str = "1000";

/// The factor at which a design is judged.
///
/// # Errors
/// The value that names nothing, with its option.
pub fn value_factor_asked<'a>(args: ValueArgs<'a>) -> Result<Factor, WrongValue<'a>> {
    let value = args.factor.unwrap_or(FULL);
    factor_asked(Commanded::Value, args.model, Some(value))
}

/// The factor at which a schedule is judged.
///
/// # Errors
/// The value that names nothing, with its option.
pub fn schedule_factor_asked<'a>(args: ScheduleArgs<'a>) -> Result<Factor, WrongValue<'a>> {
    let value = args.factor.unwrap_or(FULL);
    factor_asked(Commanded::Schedule, args.model, Some(value))
}
