//! The laws that there is one bench table of the same blocks, whose rows, order and numbers are
//! determined, and that tonnes by way add up to the treated tonnes. Each is the contract of a function that does
//! nothing.

ghost use Rattle.bench_report.specs.Benches.{TablesAreOne};
ghost use Rattle.bench_report.specs.WayTonnes.{WaysAddUp};

/// There is one bench table of the same blocks: its rows, their order and their numbers are determined.
pub fn bench_table_is_unique()
    ensures { TablesAreOne }
{}

/// Where each block goes one of so many ways or to waste, the tonnes of a bench and a shell by way add up to those of
/// its treated blocks.
pub fn ways_add_up()
    ensures { WaysAddUp }
{}
