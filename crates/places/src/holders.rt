//! Who precedes a block, by a list or by places, whichever a mine has; or among its nodes in periods.

ghost use Rattle.std.specs.Prelude.{◌≡◌, ◌<◌, ℕ};
ghost use Rattle.prec_file.specs.Rests.{has_pair};
ghost use Rattle.places.specs.Implied.{ArePairs};
ghost use Rattle.places.specs.Held.{pairs_held};
ghost use Rattle.places.specs.Holders.{pairs_lent, lent};

use crate::{Grid, Nodes, Precedence};
use prec_file::Predecessors;

/// A list of pairs, or places in a box.
#[derive(Drop)]
pub enum Held {
    /// As a `.prec` lists them.
    Listed(Predecessors),
    /// By places and offsets.
    Placed(Grid),
}

impl Held {
    /// The holder, lent.
    pub fn as_ref(&self) -> HeldRef<'_>
        ensures { pairs_lent result ≡ pairs_held self.now }
    {
        match self {
            Held::Listed(list) => HeldRef::Listed(list),
            Held::Placed(grid) => HeldRef::Placed(grid),
        }
    }

    /// How many blocks there are.
    pub fn len(&self) -> u32
        ensures is { result ≡ (pairs_held self.now).blocks }
        ensures all { ArePairs (pairs_held self.now) }
    {
        match self {
            Held::Listed(list) => list.len(),
            Held::Placed(grid) => grid.len(),
        }
    }
}

impl Precedence for Held {
    ghost use Rattle.places.specs.Held.{shown as shown_by};

    ghost shown = { shown_by };

    fn len(&self) -> u32 {
        match self {
            Held::Listed(list) => Precedence::len(list),
            Held::Placed(grid) => Precedence::len(grid),
        }
    }

    fn ways(&self, b: u32) -> u32 {
        match self {
            Held::Listed(list) => list.ways(b),
            Held::Placed(grid) => grid.ways(b),
        }
    }

    fn way(&self, b: u32, k: u32) -> Option<u32> {
        match self {
            Held::Listed(list) => list.way(b, k),
            Held::Placed(grid) => grid.way(b, k),
        }
    }

    fn has(&self, b: u32, p: u32) -> bool {
        match self {
            Held::Listed(list) => list.has(b, p),
            Held::Placed(grid) => grid.has(b, p),
        }
    }
}

/// A list of pairs, places in a box, or nodes in periods, that are another's.
#[derive(Clone, Copy)]
pub enum HeldRef<'a> {
    /// As a `.prec` lists them.
    Listed(&'a Predecessors),
    /// By places and offsets.
    Placed(&'a Grid),
    /// By the blocks of the nodes.
    Timed(&'a Nodes),
}

impl<'a> Precedence for HeldRef<'a> {
    ghost use Rattle.places.specs.Holders.{lent};

    ghost shown = { lent };

    fn len(&self) -> u32 {
        match self {
            HeldRef::Listed(list) => Precedence::len(*list),
            HeldRef::Placed(grid) => Precedence::len(*grid),
            HeldRef::Timed(nodes) => Precedence::len(*nodes),
        }
    }

    fn ways(&self, b: u32) -> u32 {
        match self {
            HeldRef::Listed(list) => list.ways(b),
            HeldRef::Placed(grid) => grid.ways(b),
            HeldRef::Timed(nodes) => nodes.ways(b),
        }
    }

    fn way(&self, b: u32, k: u32) -> Option<u32> {
        match self {
            HeldRef::Listed(list) => list.way(b, k),
            HeldRef::Placed(grid) => grid.way(b, k),
            HeldRef::Timed(nodes) => nodes.way(b, k),
        }
    }

    fn has(&self, b: u32, p: u32) -> bool {
        match self {
            HeldRef::Listed(list) => list.has(b, p),
            HeldRef::Placed(grid) => grid.has(b, p),
            HeldRef::Timed(nodes) => nodes.has(b, p),
        }
    }
}

impl<'a> HeldRef<'a> {
    /// How many blocks there are; and whether one rests on another is whether the list of pairs has them.
    pub fn blocks(&self) -> u32
        ensures is { result ≡ (pairs_lent self.now).blocks }
        ensures all { ArePairs (pairs_lent self.now) }
        ensures same { (b p : ℕ)
            → (lent self.now).rests b p ≡ has_pair (pairs_lent self.now).pairs b p }
        ensures size { result ≡ (lent self.now).blocks }
    {
        match self {
            HeldRef::Listed(list) => Predecessors::len(*list),
            HeldRef::Placed(grid) => Precedence::len(*grid),
            HeldRef::Timed(nodes) => Precedence::len(*nodes),
        }
    }
}
