//! What a caller allows for solving a mine: the method, the number of threads, and the most steps and turns.

ghost use Rattle.std.specs.Prelude.{◌≡◌, ◌≤◌};
ghost use Rattle.workers.specs.declared.solving.TheConstants.{MOST_WORKERS};

use crate::method::Method;

/// The solver, the threads of the machine's run and the most steps that they make together, and the most turns of
/// pseudoflow.
#[derive(Clone, Copy)]
pub struct Effort {
    /// Which solver, or which first.
    pub method: Method,
    /// The threads.
    pub workers: u32,
    /// The most steps.
    pub steps: u64,
    /// The most turns of pseudoflow. No answer's meaning depends on them: where they don't do, nothing is said of the
    /// mine.
    pub turns: u64,
    ghost some: { 1 ≤ workers },
    ghost few: { workers ≤ MOST_WORKERS },
}

impl Effort {
    /// This method, with `workers` threads, from 1 to 64, at most `steps` steps of the machine, and at most `turns`
    /// turns of pseudoflow.
    pub fn new(method: Method, workers: u32, steps: u64, turns: u64) -> Effort
        requires some { 1 ≤ workers }
        requires few { workers ≤ MOST_WORKERS }
        ensures method { result.method ≡ method }
        ensures workers { result.workers ≡ workers }
        ensures steps { result.steps ≡ steps }
        ensures turns { result.turns ≡ turns }
    {
        Effort {
            method,
            workers,
            steps,
            turns,
        }
    }
}
