//! How many threads read the files of a mine, by the arguments of a command, or the value that is no such number.

use crate::wrong;
use command_line::{Commanded, NamedOption, WrongValue};
use option_words::whole_within;

// The most threads that may be asked for.
const MOST_THREADS: u64 = 64;

/// How many threads read, where the arguments say it.
///
/// # Errors
/// The value that is no such number, with its option.
pub fn threads_asked<'a>(
    command: Commanded,
    value: Option<&'a str>,
) -> Result<Option<u32>, WrongValue<'a>> {
    let Some(value) = value else {
        return Ok(None);
    };
    match whole_within(value.as_bytes(), 1, MOST_THREADS) {
        Some(number) => Ok(Some(number as u32)),
        None => Err(wrong(command, NamedOption::Threads, value)),
    }
}
