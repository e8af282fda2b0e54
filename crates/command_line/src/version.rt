//! What `pit --version` prints after the program's name.

/// The version, and on a line of its own the logic that this source is proved in, as `rt version` prints it.
///
/// A program can't ask what it was built with, so this is written here, and `tests/run --scripts` compares it with what
/// the kit that is installed says of itself. Several kits have one logic, so the kit's own name isn't told.
pub const VERSION: &str = "0.1.0
logic dac8208d650f15bf";
