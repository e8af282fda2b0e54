//! Laws of a best pit that is known to lie between two pits, and of the mine of the blocks between them; each is the
//! contract of a function that does nothing.

ghost use Rattle.sub_mines.specs.Laws.{BestByPart, PartOfBest, BestWithin, BestOfRest, KnownByBest, KnownByBounds, AlwaysBounded, BestBounds, BestBetween, BestByNumbers, BestBySmallMine, RowBySmallMine, ListsMakeImages, PassingAreKept};

/// Where the best pit is known to lie between two pits, it is the lower one with the best pit of the blocks between
/// them.
pub fn best_pit_by_part()
    ensures { BestByPart }
{}

/// The best pit lies between them, and what it has beside the lower one is the best pit of the blocks between them.
pub fn part_of_best_pit()
    ensures { PartOfBest }
{}

/// Where the best pit lies within a pit, a set is best exactly where it is best of that pit's blocks alone.
pub fn best_pit_within()
    ensures { BestWithin }
{}

/// Where the best pit has all of a pit, it is that pit with the best one of the other blocks.
pub fn best_pit_of_rest()
    ensures { BestOfRest }
{}

/// The best pit lies between any two pits of which it has one and the other has it.
pub fn known_by_best()
    ensures { KnownByBest }
{}

/// The best pit lies between a floor and a ceiling.
pub fn known_by_bounds()
    ensures { KnownByBounds }
{}

/// No block is a floor, and every block a ceiling.
pub fn always_bounded()
    ensures { AlwaysBounded }
{}

/// Where no block is worth less than before, the best pit from before is a floor, and the later one is a ceiling of
/// what was before.
pub fn best_pits_are_bounds()
    ensures { BestBounds }
{}

/// The best pit between two best pits.
pub fn best_pit_between()
    ensures { BestBetween }
{}

/// The best pit of a part whose blocks have numbers of their own.
pub fn best_pit_by_numbers()
    ensures { BestByNumbers }
{}

/// The best pit of a mine, by that of a small mine.
pub fn best_pit_by_small_mine()
    ensures { BestBySmallMine }
{}

/// What that pit is worth, and how many blocks it has.
pub fn row_by_small_mine()
    ensures { RowBySmallMine }
{}

/// The blocks at the places that a list names are the image of the list.
pub fn lists_make_images()
    ensures { ListsMakeImages }
{}

/// The numbers that pass a test are the list of the set.
pub fn passing_are_kept()
    ensures { PassingAreKept }
{}
