//! Why the arguments are no request, for a caller to print: a help text, the version, or what is wrong, with the exit
//! status.

use clap::Error;
use clap::error::ErrorKind;
use std::io;

/// Why the arguments ask for nothing that can be done: a help text or the version was asked for, or one is wrong, or
/// memory was refused.
#[derive(Drop)]
pub struct Declined {
    error: Error,
}

impl Declined {
    /// Declines the arguments for this error of the library.
    pub fn by(error: Error) -> Declined {
        Declined { error }
    }

    /// Whether memory was refused.
    pub fn is_want_of_memory(&self) -> bool {
        self.error.kind() == ErrorKind::OutOfMemory
    }

    /// Prints the help or the version on standard output, or what is wrong on standard error.
    ///
    /// # Errors
    /// That of the output.
    pub fn print<R: Print + Eprint>(&self, rt: &R) -> io::Result<()> {
        self.error.print(rt)
    }

    /// The exit status: 0 for a help text or the version, else 2.
    pub fn status(&self) -> u8 {
        self.error.exit_code() as u8
    }
}
