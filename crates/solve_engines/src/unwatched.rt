//! For callers that watch nothing: makes no worker wait, and tells nobody of progress or of a pit.

use crate::outcome::Outcome;
use pseudoflow::Progress;
use workers::Gate;

/// A gate that is always open, and a progress and an outcome that tell nobody.
#[derive(Clone, Copy)]
pub struct Unwatched;

impl Gate for Unwatched {
    fn turn(&self, _worker: u32, _turn: u64) {}
}

impl Progress for Unwatched {
    fn report(&self, _settled: u32, _blocks: u32) {}
}

impl Outcome for Unwatched {
    fn proved(&self, _count: u32, _blocks: u32, _worth: i128) {}
}
