//! The law that the history of a run, written as a trace and replayed over the same net, leads to the run's flow. It
//! is the contract of a function that does nothing.

ghost use Rattle.replay_engines.specs.Histories.{HistoriesAreReplayed};

/// The steps that the turns of a board made to a quiet state, written as a trace and replayed over the same net, are
/// all made again, and the flow that is judged is the flow of that state: a list of steps leads to one state only.
pub fn histories_are_replayed()
    ensures { HistoriesAreReplayed }
{}
