//! Tells the user on standard error, at most once a second, how far a run is, and at its end how many blocks the
//! proved pit has and what it is worth.

use fixed_worth::Nanos;
use pseudoflow::Progress;
use series_pits::SeriesProgress;
use solve_engines::Outcome;
use std::rt::Clock;
use std::sync::atomic::{AtomicU64, Ordering};
use std::time::Instant;
use workers::Gate;

// How many turns of a worker there are from one look at the clock to the next: some milliseconds.
const STRIDE: u64 = 1 << 16;

/// What a meter tells.
#[derive(Clone, Copy)]
pub struct Tells {
    /// How far the run is.
    pub progress: bool,
    /// What `solve` found.
    pub outcome: bool,
}

/// How far the run is, and no more.
pub const PROGRESS_ALONE: Tells = Tells {
    progress: true,
    outcome: false,
};

/// Tells on standard error, at most once a second, how far a solver is, and how many seconds have passed: of
/// pseudoflow the blocks that are settled; of the machine the steps that were made and what share of the limit that is.
/// Of shells and of the bench table it tells each factor at which a pit is proved. As a gate of the machine it is
/// always open. It counts turns: those of one worker each make a step; of several workers some find nothing to do, and
/// are counted too.
#[derive(Drop)]
pub struct Meter<'a, R> {
    rt: &'a R,
    limit: u64,
    tells: Tells,
    began: Option<Instant>,
    turns: AtomicU64,
    told: AtomicU64,
    pits: AtomicU64,
}

impl<'a, R: Clock + Eprint> Meter<'a, R> {
    /// Begins to count the steps of a run with this limit.
    pub fn new(rt: &'a R, limit: u64, tells: Tells) -> Meter<'a, R> {
        Meter {
            rt,
            limit,
            tells,
            began: Instant::now(rt).ok(),
            turns: AtomicU64::new(0),
            told: AtomicU64::new(0),
            pits: AtomicU64::new(0),
        }
    }

    // How many whole seconds have passed. None where the clock can't be read.
    fn seconds(&self) -> Option<u64> {
        match self.began {
            Some(began) => match began.elapsed(self.rt) {
                Ok(passed) => Some(passed.as_secs()),
                Err(_) => None,
            },
            None => None,
        }
    }

    // The second that has begun, if nothing was told in it yet: it is taken by the one who asks.
    fn new_second(&self) -> Option<u64> {
        if !self.tells.progress {
            return None;
        }
        let seconds = self.seconds()?;
        let told = self.told.load(Ordering::SeqCst);
        let is_mine = told < seconds
            && self
                .told
                .compare_exchange(told, seconds, Ordering::SeqCst, Ordering::SeqCst)
                .is_ok();
        if is_mine { Some(seconds) } else { None }
    }
}

impl<R: Clock + Eprint + Sync> Gate for Meter<'_, R> {
    fn turn(&self, _worker: u32, turn: u64) {
        if turn % STRIDE == STRIDE - 1 {
            let steps = self
                .turns
                .fetch_add(STRIDE, Ordering::SeqCst)
                .saturating_add(STRIDE);
            if let Some(seconds) = self.new_second() {
                let share = steps.saturating_mul(100) / self.limit.max(1);
                // a run goes on where nobody can be told of it
                let _ = self.rt.eprintln(format_args!(
                    "progress: {steps} steps, {share}% of the limit, {seconds} s"
                ));
            }
        }
    }
}

impl<R: Clock + Eprint> Progress for Meter<'_, R> {
    fn report(&self, settled: u32, blocks: u32) {
        if let Some(seconds) = self.new_second() {
            let _ = self.rt.eprintln(format_args!(
                "progress: {settled} of {blocks} blocks settled, {seconds} s"
            ));
        }
    }
}

impl<R: Clock + Eprint> SeriesProgress for Meter<'_, R> {
    // The pits are counted as they come, which isn't the order of their factors.
    fn settled(&self, factor: u32, _place: u32, count: u32) {
        let pit = self.pits.fetch_add(1, Ordering::SeqCst).saturating_add(1);
        let _ = self.rt.eprintln(format_args!(
            "progress: factor {factor}: the pit is proved, {pit} of {count}"
        ));
    }
}

impl<R: Clock + Eprint> Outcome for Meter<'_, R> {
    fn proved(&self, count: u32, blocks: u32, worth: i128) {
        if self.tells.outcome {
            let seconds = self.seconds().unwrap_or(0);
            let worth = Nanos(worth);
            let _ = self.rt.eprintln(format_args!(
                "proved: {count} of {blocks} blocks, worth {worth}, {seconds} s"
            ));
        }
    }
}
