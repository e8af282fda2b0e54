//! What the blocks of a search rest on, whoever holds it: a list, or the places of the blocks.

ghost use Rattle.std.specs.Prelude.{◌≡◌, ◌<◌, ℕ, IfSome};

use crate::labels::Labels;

/// A look along the ways of a block, from one on and before another, for a block of a label.
#[derive(Clone, Copy)]
pub struct Look {
    /// The first way to look at.
    pub from: u32,
    /// The first way not to look at.
    pub to: u32,
    /// The label that is looked for.
    pub label: u32,
}

/// What each block of a search rests on, by the numbers of the search. The ways of a block have numbers of their own,
/// and a way may lead nowhere.
pub trait WaysUp: Drop {
    // how many blocks there are
    ghost count: { Self → ℕ };

    /// How many blocks there are.
    fn len(&self) -> u32
        ensures { result ≡ count self.now };

    /// The first way of b, and the end of its ways.
    fn ends(&self, b: u32) -> (u32, u32)
        requires { b < count self.now };

    /// The first way at which a look finds a block of the label, and that block; or where the look ends, and none.
    fn find(&self, labels: &Labels, b: u32, look: Look) -> (u32, Option<u32>)
        requires block { b < count self.now }
        requires labels { labels.now ≡ count self.now }
        ensures { IfSome result.1 (λ p. p < count self.now) };
}
