//! Who is told when the pit at a factor is proved, and how many factors there are.

use solve_engines::Unwatched;

/// What settling a series calls as it goes on, from any of its threads. It can't change the series.
pub trait SeriesProgress {
    /// The pit at a factor, in thousandths, is proved: the `place`-th of `count` factors, from 1. Several workers prove
    /// them in any order.
    fn settled(&self, factor: u32, place: u32, count: u32);
}

impl SeriesProgress for Unwatched {
    fn settled(&self, _factor: u32, _place: u32, _count: u32) {}
}
