//! Which slope patterns can be named: 1:5, 1:9, or a cone by its levels, run and rise.

/// A pattern that the command line can name.
#[derive(Clone, Copy, Debug, PartialEq, Eq)]
pub enum PatternChoice {
    /// The block above and the four that share a side with it, which is called 1:5.
    Five,
    /// The square of nine blocks above, which is called 1:9.
    Nine,
    /// A cone of so many levels, which opens upward by `run` for each `rise`. Each number is from 1 to 1,000.
    Cone { levels: u32, run: u32, rise: u32 },
}
