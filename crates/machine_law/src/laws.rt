//! Laws of push-relabel runs: their states keep the invariants, nothing that the source gave is lost, and a
//! flow at the end is a maximum flow. Each is the contract of a function that does nothing.

ghost use Rattle.machine_law.specs.Conservation.{RunsConserve};
ghost use Rattle.machine_law.specs.Law.{StepsKeepLaw, RunsKeepLaw};
ghost use Rattle.machine_law.specs.Quiet.{QuietSolves};
ghost use Rattle.machine_law.specs.Table.{StepsAreRows};

/// From a state that keeps the law, a step of any block leads to one that does, over amounts of any
/// size and so at every group.
///
/// The law:
///
/// - Amounts: none is negative; the source gave no block more than the positive part of its worth, and no
///   block gave the sink more than the negative part; what an operation remembers is still true.
/// - Balances: what a block has is its excess and what is coming to it, less what it owes.
/// - Labels: no arc with residual capacity falls by more than one label, except backward arcs that together
///   carry at most what the block will have.
pub fn one_step_keeps_the_law()
    ensures { StepsKeepLaw }
{}

/// After every run from the opening, whatever the order of its steps, the state keeps the law.
pub fn runs_keep_the_law()
    ensures { RunsKeepLaw }
{}

/// Where a run ends with no excess and no operation, its amounts are a flow, no flow takes more from
/// the source, and what the source reaches in what the flow leaves is closed, tight, and sums to as
/// much as any closed set.
pub fn quiet_flow_is_greatest()
    ensures { QuietSolves }
{}

/// A step is a row of the table of steps: of the kind that its row asks for, and to the state that the
/// row leaves.
pub fn steps_are_rows_of_the_table()
    ensures { StepsAreRows }
{}

/// After every run all that the source gave at the opening stands as excess, is carried by a push, or
/// has arrived at the source or the sink. So no excess and no arrival is more than that, and all of it
/// has arrived exactly when there is no excess and no operation left.
pub fn nothing_is_lost()
    ensures { RunsConserve }
{}
