//! What a caller may have done before each turn of a worker, such as showing progress or, in tests,
//! making workers wait. It changes nothing of the run.

/// What a worker calls before each of its turns: to show progress, or in a test to make workers wait
/// for each other. It can't change the run.
pub trait Gate: Sync {
    /// Called before a turn of a worker. The turns of each worker are counted from 0.
    fn turn(&self, worker: u32, turn: u64);
}

/// A gate that is always open.
#[derive(Clone, Copy)]
pub struct OpenGate;

impl Gate for OpenGate {
    fn turn(&self, _worker: u32, _turn: u64) {}
}
