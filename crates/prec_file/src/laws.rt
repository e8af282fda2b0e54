//! What a written file is, as a law of the definitions that the reader and the writer meet.
//!
//! The function does nothing. A caller names it where its own proof needs the law.

ghost use Rattle.prec_file.specs.Written.{prec_text, AreNarrow, ReadsBack};

use crate::Rests;

/// What [`crate::write_prec`] writes, [`crate::read_prec`] reads without fault, and as the same pairs.
pub fn written_reads_back(rests: &Rests)
    ensures { AreNarrow rests.now → ReadsBack rests.now (prec_text rests.now) }
{
    // proof: the pairs are in order, each once, and of known blocks
    let _ = rests.len();
}
