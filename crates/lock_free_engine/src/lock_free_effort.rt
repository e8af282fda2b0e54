//! What a run without a lock may use: one worker or two, and a number of turns. Any other number of
//! workers is refused.

ghost use Rattle.std.specs.Prelude.{◌≡◌, ◌≤◌, IfSome, IfNone};
ghost use Rattle.word_runner.specs.Openings.{AreNeitherOneNorTwo};

/// The workers of a run without a lock, and the most turns that they take together.
#[derive(Clone, Copy)]
pub struct LockFreeEffort {
    /// The workers.
    pub workers: u32,
    /// The most turns.
    pub steps: u64,
    ghost some: { 1 ≤ workers },
    ghost few: { workers ≤ 2 },
}

impl LockFreeEffort {
    /// One worker or two, and at most `steps` turns; None for any other number of workers.
    pub fn new(workers: u32, steps: u64) -> Option<LockFreeEffort>
        ensures some { IfSome result (λ e. (e.workers ≡ workers) × (e.steps ≡ steps)) }
        ensures none { IfNone result (AreNeitherOneNorTwo workers) }
    {
        if workers < 1 || workers > 2 {
            return None;
        }
        Some(LockFreeEffort { workers, steps })
    }
}
