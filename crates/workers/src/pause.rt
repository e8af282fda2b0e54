//! How a worker that finds nothing to do waits for the others.

use std::thread;

// The most that it yields at once. A yield takes less than a microsecond where nobody else wants the processor.
const MOST_YIELDS: u32 = 1_024;

/// A wait of a worker that has found nothing to do, while others are at work. It gives its processor away, and each
/// time twice as often as the time before: so a worker that waits long takes few turns, and one that waits shortly is
/// soon back.
#[derive(Clone, Copy)]
pub struct Pause {
    yields: u32,
}

impl Pause {
    /// The first and shortest.
    pub fn shortest() -> Pause {
        Pause { yields: 1 }
    }

    /// Waits, and answers the next and longer one.
    pub fn waited(self) -> Pause {
        for _ in 0..self.yields {
            thread::yield_now();
        }
        Pause {
            yields: self.yields.saturating_mul(2).min(MOST_YIELDS),
        }
    }
}
