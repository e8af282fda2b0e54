//! A law of every precedence: its pairs are a list, though nobody need hold one.
//!
//! The function does nothing. A caller names it where its own proof needs the law.

ghost use Rattle.places.specs.Ways.{PrecedenceView, IsPrecedence};
ghost use Rattle.places.specs.Implied.{implied, IsImplied};

/// The list of a precedence's pairs is in order, each once, of known blocks, and has just the pairs of the precedence.
pub fn implied_pairs()
    ensures { (v : PrecedenceView) → IsPrecedence v → IsImplied v (implied v) }
{}
