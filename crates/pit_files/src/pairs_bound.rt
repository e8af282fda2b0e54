//! How many pairs a slope may give, told once its blocks are read and before the pairs are looked for.

ghost use Rattle.option_words.specs.PatternWords.{IsChoice};

use option_words::PatternChoice;
use prec_file::MOST_PAIRS;
use slope_offsets::Pattern;
use std::alloc::Global;
use std::sync::atomic::{AtomicU64, Ordering};

/// How many offsets a pattern has. None where it has too many, which is a fault of its own.
pub fn offsets_of(alloc: Global, choice: PatternChoice) -> u64
    requires { IsChoice choice }
{
    match choice {
        PatternChoice::Five => 5,
        PatternChoice::Nine => 9,
        PatternChoice::Cone { levels, run, rise } => {
            match Pattern::cone(alloc, levels, run, rise) {
                Ok(cone) => cone.offsets().len() as u64,
                Err(_) => 0,
            }
        }
    }
}

/// The records of blocks, counted while they are read, beside the number of offsets, if it is asked for, which is known
/// once they are read.
#[derive(Drop)]
pub struct PairsBound<'a> {
    offsets: Option<&'a AtomicU64>,
    lines: u64,
    is_in_line: bool,
}

impl<'a> PairsBound<'a> {
    /// No record yet.
    pub fn new(offsets: Option<&'a AtomicU64>) -> PairsBound<'a> {
        PairsBound {
            offsets,
            lines: 0,
            is_in_line: false,
        }
    }

    /// Counts the lines that begin in further bytes.
    pub fn count(&mut self, bytes: &[u8]) {
        for byte in bytes {
            if !self.is_in_line {
                self.lines = self.lines.saturating_add(1);
            }
            self.is_in_line = *byte != b'\n';
        }
    }

    /// Tells how many pairs there may be, where that is more than may be written: each block has at most one for each
    /// offset.
    pub fn tell<R: Eprint>(&self, rt: &R) {
        let Some(offsets) = self.offsets else {
            return;
        };
        let offsets = offsets.load(Ordering::SeqCst);
        let blocks = self.lines;
        let pairs = offsets.saturating_mul(blocks);
        if pairs > MOST_PAIRS as u64 {
            let _ = rt.eprintln(format_args!(
                "note: {offsets} offsets give at most {pairs} pairs for {blocks} blocks, and no more than {MOST_PAIRS} are written"
            ));
        }
    }
}
