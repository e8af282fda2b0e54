//! Chooses the solver that computes a mine's flow, by the method that was named and the number of blocks.

ghost use Rattle.std.specs.Prelude.{◌≡◌};
ghost use Rattle.option_words.specs.Methods.{method_of, begins_with_pseudoflow, ends_with_pseudoflow, method_under};

/// Which solver computes a mine's flow. Whichever does, a check decides before anything is written.
#[derive(Clone, Copy, Debug, PartialEq, Eq)]
pub enum Method {
    /// The push-relabel machine for a mine of at most 1,000 blocks, and pseudoflow where a number of its run doesn't
    /// fit; for a larger one pseudoflow, and up to 10,000 blocks the machine where that gives no certificate.
    Auto,
    /// Highest-label pseudoflow alone (Hochbaum 2008).
    Pseudoflow,
    /// The push-relabel machine alone (Hong 2008).
    PushRelabel,
}

// The most blocks of a mine that `Auto` gives to the machine at once: it settles these in a moment.
const FEW_BLOCKS: u32 = 1_000;

// The most blocks of a mine that `Auto` gives to the machine where pseudoflow gives no certificate: a run on more than
// some thousand blocks needs more steps than can be waited for, and more memory than pseudoflow.
const BLOCKS_TO_TRY: u32 = 10_000;

impl Method {
    /// Whether pseudoflow is tried first on a mine of this many blocks.
    pub fn begins_with_pseudoflow(self, blocks: u32) -> bool
        ensures { result ≡ begins_with_pseudoflow self blocks }
    {
        match self {
            Method::Auto => FEW_BLOCKS < blocks,
            Method::Pseudoflow => true,
            Method::PushRelabel => false,
        }
    }

    /// Whether the machine isn't tried where pseudoflow gives no certificate of a mine of this many blocks.
    pub fn ends_with_pseudoflow(self, blocks: u32) -> bool
        ensures { result ≡ ends_with_pseudoflow self blocks }
    {
        match self {
            Method::Auto => BLOCKS_TO_TRY < blocks,
            Method::Pseudoflow => true,
            Method::PushRelabel => false,
        }
    }

    /// The method where steps are asked for by the user: these are the machine's, so `Auto` leaves the choice to it.
    pub fn where_steps_are(self, are_asked: bool) -> Method
        ensures { result ≡ method_under self are_asked }
    {
        match self {
            Method::Auto if are_asked => Method::PushRelabel,
            method => method,
        }
    }
}

/// The method that a word names: `auto`, `pseudoflow` or `push-relabel`.
pub fn method_named(word: &[u8]) -> Option<Method>
    ensures { result ≡ method_of word.now }
{
    if word == b"auto".as_slice() {
        Some(Method::Auto)
    } else if word == b"pseudoflow".as_slice() {
        Some(Method::Pseudoflow)
    } else if word == b"push-relabel".as_slice() {
        Some(Method::PushRelabel)
    } else {
        None
    }
}
