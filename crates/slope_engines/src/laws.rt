//! Laws that a slope's reduced pairs have the same best pit as all of its pairs, also as files; each is the contract of
//! a function that does nothing.

ghost use Rattle.slope_engines.specs.Reduced.{ReducedPairsDecide, ReducedTextsDecide};

/// Of the pairs that a pattern gives the reduced ones decide as every one does: a set is the best pit by them exactly
/// where it is the best pit by all.
pub fn reduced_pairs_decide()
    ensures { ReducedPairsDecide }
{}

/// The file of the reduced pairs and that of every pair denote mines with the same best pit, of whatever blocks are
/// worth. A certificate over the one needn't be one over the other: it may name a pair that the other lacks.
pub fn reduced_texts_decide()
    ensures { ReducedTextsDecide }
{}
