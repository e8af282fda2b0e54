//! What a check says of a certificate: accepted with its count and worth, or refused. What an
//! engine says at its end: done, or no.

ghost use Rattle.std.specs.Prelude.{◌≡◌};

use check_pit::PitFault;
use ordered_group::Group;

/// What a check says of a certificate.
#[derive(Clone, Copy, Debug, PartialEq, Eq)]
pub enum Judgement {
    /// The pit is proved.
    Accepted {
        /// What was counted.
        group: Group,
        /// How many blocks the pit has.
        count: u32,
        /// Its worth in billionths.
        worth: i128,
    },
    /// The certificate proves nothing: the first fault.
    Refused(PitFault),
}

/// How an engine ends where no input has a fault.
#[derive(Clone, Copy, Debug, PartialEq, Eq)]
pub enum Verdict {
    /// The answer is what was asked for.
    Done,
    /// The answer is no.
    No,
}

impl Judgement {
    ghost use Rattle.check_engines.specs.Verdicts.{verdict_of};

    /// How an engine ends with this judgement.
    pub fn verdict(self) -> Verdict
        ensures { result ≡ verdict_of self }
    {
        match self {
            Judgement::Accepted { .. } => Verdict::Done,
            Judgement::Refused(_) => Verdict::No,
        }
    }
}
