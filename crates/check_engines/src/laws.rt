//! Laws that accepted pits at rising factors are nested, and that certificates over a mine by slopes are those over
//! the mine by their pairs; each is the contract of a function that does nothing.

ghost use Rattle.check_engines.specs.Nested.{AcceptedAreNested};
ghost use Rattle.check_engines.specs.SlopePairs.{SlopesAreTheirPairs, ValuedSlopesAreTheirPairs};

/// Of two pits that [`check_engine`](crate::check_engine) accepts over one price table, in amounts with
/// sizes, the one at the lower factor lies within the other.
pub fn accepted_pits_are_nested()
    ensures { AcceptedAreNested }
{}

/// A mine by the slopes that settings list, and the same mine by the precedence file of all pairs that these slopes
/// give: the same bytes are accepted as a certificate over both, with one count and one worth, whether their blocks
/// have prices or values.
pub fn slopes_are_their_pairs()
    ensures priced { SlopesAreTheirPairs }
    ensures valued { ValuedSlopesAreTheirPairs }
{}
