//! The law that a run without a lock leaves a maximum flow of the net that was handed in, though its own net has
//! clipped worths. It is the contract of a function that does nothing.

ghost use Rattle.lock_free_engine.specs.Tightness.{RunsAreTight};

/// A run without a lock is over the net with its negative worths cut at what the source gives in all. Still the flow
/// that it leaves is a maximum flow of the net that was handed in. What the source reaches in what the flow leaves is
/// closed there, tight, and sums to as much as any closed set.
pub fn runs_are_tight()
    ensures { RunsAreTight }
{}
