//! The pairs of a mine, by a list or by places, and those of its nodes in periods.

ghost use Rattle.std.specs.Prelude.{◌≡◌, ◌≤◌, ◌^◌, IsTrue, IfSome, MatchResult, length};
ghost use Rattle.prec_file.specs.Rests.{IsRests};
ghost use Rattle.places.specs.Implied.{implied};
ghost use Rattle.places.specs.Grids.{gridded};
ghost use Rattle.places.specs.Holders.{pairs_lent};
ghost use Rattle.places.specs.Nodes.{in_time};
ghost use Rattle.places.specs.Timed.{timed};

use crate::kept::Kept;
use places::{Grid, Held, HeldRef, Nodes, Precedence};
use prec_file::Predecessors;
use std::marker::Model;

/// Pairs (b, p) of blocks, in which b rests on p: a list of at most 2^27, or places in a box, which denote a list of at
/// most 2^36 and hold none. So many have 2^24 blocks of 4,096 offsets each. Or those of nodes in periods, of which none
/// is held either.
///
/// Contracts see the list in each case, so that what is said of pairs by their numbers holds of all.
#[derive(Drop)]
pub struct HeldPairs {
    kept: Kept,
}

impl Model for HeldPairs {
    ghost use Rattle.prec_file.specs.Rests.{RestsView, IsRests};
    ghost use Rattle.held_pairs.specs.Kept.{pairs_kept};

    ghost Value = { RestsView };

    ghost view = { λ h. pairs_kept h.kept };

    ghost invariant = { λ h. IsRests (pairs_kept h.kept) };
}

// The most pairs: 4,096 of each of 2^24 blocks.
const MOST_HELD: u64 = 1 << 36;

// Whether all blocks together have few ways; then there are few pairs.
fn has_few_ways<P: Precedence>(held: &P) -> bool
    ensures { IsTrue result → length (implied (P.shown held.now)).pairs ≤ 2 ^ 36 }
{
    let count = held.len();
    let mut total: u64 = 0;
    for b in 0..count {
        let more = held.ways(b);
        total += more as u64;
        if total > MOST_HELD {
            return false;
        }
    }
    true
}

impl HeldPairs {
    /// The pairs of a list.
    pub fn of_list(list: Predecessors) -> HeldPairs
        ensures { result ≡ list }
    {
        // proof: what is known of every list
        let _blocks = list.len();
        HeldPairs {
            kept: Kept::Mine(Held::Listed(list)),
        }
    }

    /// The pairs that a grid denotes, where its blocks have at most 2^36 ways together.
    pub fn of_grid(grid: Grid) -> Option<HeldPairs>
        ensures { IfSome result (λ h. h ≡ implied (gridded grid)) }
    {
        if !has_few_ways(&grid) {
            return None;
        }
        // proof: what is known of every grid
        let _blocks = grid.len();
        let pairs = HeldPairs {
            kept: Kept::Mine(Held::Placed(grid)),
        };
        Some(pairs)
    }

    /// The pairs that nodes in periods denote, where they have at most 2^36 ways together.
    pub fn of_nodes(nodes: Nodes) -> Option<HeldPairs>
        ensures { IfSome result (λ h. h ≡ implied (in_time (timed nodes))) }
    {
        if !has_few_ways(&nodes) {
            return None;
        }
        // proof: what is known of all nodes
        let _nodes = nodes.len();
        let pairs = HeldPairs {
            kept: Kept::InTime(nodes),
        };
        Some(pairs)
    }

    /// How many blocks there are.
    pub fn len(&self) -> u32
        ensures is { result ≡ self.now.blocks }
        ensures all { IsRests self.now }
    {
        match &self.kept {
            Kept::Mine(held) => held.len(),
            Kept::InTime(nodes) => nodes.len(),
        }
    }

    // The list that holds the pairs, or else what holds them.
    pub(crate) fn own_list(self) -> Result<Predecessors, HeldPairs>
        ensures { MatchResult result (λ list. list ≡ self) (λ pairs. pairs ≡ self) }
    {
        match self.kept {
            Kept::Mine(Held::Listed(list)) => Ok(list),
            kept => Err(HeldPairs { kept }),
        }
    }

    /// The holder, lent.
    pub fn as_ref(&self) -> HeldRef<'_>
        ensures { pairs_lent result ≡ self.now }
    {
        match &self.kept {
            Kept::Mine(held) => held.as_ref(),
            Kept::InTime(nodes) => HeldRef::Timed(nodes),
        }
    }
}
