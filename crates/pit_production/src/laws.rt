//! What a bound on the schedules of a pit's blocks alone bounds, as the contract of a function that does nothing.

ghost use Rattle.pit_production.specs.Parts.{ThePartBounds, TheTreatedPartBounds};

/// Where weights fall and blocks give nothing back, what bounds every schedule of the blocks of a richest pit bounds
/// every schedule of the whole mine; also where blocks wait for others, of which pairs those with an end outside the
/// pit are left out.
pub fn the_pit_bounds_all()
    ensures { ThePartBounds }
{}

/// The same where blocks may go several ways, by none of which one is worth more than the mine says.
pub fn the_pit_bounds_each_way()
    ensures { TheTreatedPartBounds }
{}
