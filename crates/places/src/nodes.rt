//! Blocks in periods: who precedes whom among their nodes, of which no list is made.

ghost use Rattle.std.specs.Prelude.{◌≡◌, ◌≤◌, ◌<◌, ◌+◌, ◌^◌, ◌%◌, IsTrue, IfSome, ℕ};
ghost use Rattle.prec_file.specs.declared.limits.TheConstants.{MOST_PAIRS};
ghost use Rattle.places.specs.Nodes as spec;
ghost use Rattle.places.specs.Timed.{timed};

use crate::{Held, Precedence};
use fixed_worth::MOST_BLOCKS;
use prec_file::{MOST_PAIRS, Predecessors};
use std::marker::Model;

/// The nodes of blocks in periods: node t * n + b says that block b of n is dug by the end of period t. It rests on the
/// nodes of that period of the blocks on which b rests, and on b's own in the next period. A block may wait for others,
/// so many periods: then its node rests on theirs of so many periods before.
#[derive(Drop)]
pub struct Nodes {
    // who precedes whom among the blocks
    base: Held,
    periods: u32,
    // which blocks wait for which
    waits: Predecessors,
    // how many periods they wait
    lag: u32,
}

impl Model for Nodes {
    ghost use Rattle.places.specs.Nodes.{AreNodes};
    ghost use Rattle.places.specs.Timed.{NodesView, timed};

    ghost Value = { NodesView };

    ghost view = { λ v. record {
      base = v.base;
      periods = v.periods;
      waits = v.waits;
      lag = v.lag;
    } };

    ghost invariant = { λ v. AreNodes (timed (record {
      base = v.base;
      periods = v.periods;
      waits = v.waits;
      lag = v.lag;
    })) };
}

// The node of a block, if there is one, where the first block's node of its period is this.
fn node_from(first: u32, block: Option<u32>) -> Option<u32>
    requires { IfSome block (λ p. first + p < 2 ^ 32) }
    ensures { result ≡ spec.node_from first block }
{
    match block {
        Some(p) => Some(first + p),
        None => None,
    }
}

// Whether no block has more ways than a list may have pairs.
fn has_few_ways<P: Precedence>(held: &P) -> bool
    ensures { IsTrue result → (b : ℕ) → b < (P.shown held.now).blocks
        → (P.shown held.now).ways b ≤ MOST_PAIRS }
{
    for b in 0..held.len() {
        if held.ways(b) as usize > MOST_PAIRS {
            return false;
        }
    }
    true
}

impl Nodes {
    /// The nodes of these blocks in so many periods, in which blocks wait for others by these pairs, so many periods.
    /// None where there are more than 2^24, the pairs are of another number of blocks, or a block has more ways than a
    /// list may have pairs.
    pub fn of(base: Held, periods: u32, waits: Predecessors, lag: u32) -> Option<Nodes>
        ensures { IfSome result
            (λ v. v ≡ record { base = base; periods = periods; waits = waits; lag = lag }) }
    {
        let blocks = Precedence::len(&base);
        if periods as u64 * blocks as u64 > MOST_BLOCKS as u64
            || Precedence::len(&waits) != blocks
            || !has_few_ways(&base)
            || !has_few_ways(&waits)
        {
            return None;
        }
        Some(Nodes {
            base,
            periods,
            waits,
            lag,
        })
    }

    // The node of a node's block in the next period, if there is one.
    fn next(&self, i: u32) -> Option<u32>
        requires { i < spec.node_count (timed self.now) }
        ensures { result ≡ spec.next_node (timed self.now) i }
    {
        let n = Precedence::len(&self.base);
        if i + n < self.periods * n {
            Some(i + n)
        } else {
            None
        }
    }

    // The node to which way k of those leads by which the block of a node waits for others.
    fn lagged(&self, i: u32, k: u32) -> Option<u32>
        requires known { i < spec.node_count (timed self.now) }
        requires inside { k < (timed self.now).waits.ways (i % (timed self.now).base.blocks) }
        ensures { result ≡ spec.lagged_node (timed self.now) i k }
    {
        let n = Precedence::len(&self.base);
        let period = i / n;
        if period < self.lag {
            return None;
        }
        let first = (period - self.lag) * n;
        node_from(first, self.waits.way(i % n, k))
    }

    // Whether a node rests on one of its own period, or of its own block.
    fn has_in_period(&self, i: u32, j: u32) -> bool
        requires { i < spec.node_count (timed self.now) }
        ensures { result ≡ spec.rests_in_period (timed self.now) i j }
    {
        let n = Precedence::len(&self.base);
        j < self.periods * n && ((i / n == j / n && self.base.has(i % n, j % n)) || j == i + n)
    }

    // Whether a node's block waits for that of another, of so many periods before.
    fn has_by_lag(&self, i: u32, j: u32) -> bool
        requires { i < spec.node_count (timed self.now) }
        ensures { result ≡ spec.rests_by_lag (timed self.now) i j }
    {
        let n = Precedence::len(&self.base);
        let period = i / n;
        period >= self.lag && period - self.lag == j / n && self.waits.has(i % n, j % n)
    }
}

impl Precedence for Nodes {
    ghost use Rattle.places.specs.Nodes.{in_time};
    ghost use Rattle.places.specs.Timed.{timed};

    ghost shown = { λ v. in_time (timed v) };

    fn len(&self) -> u32 {
        self.periods * Precedence::len(&self.base)
    }

    fn ways(&self, i: u32) -> u32 {
        let block = i % Precedence::len(&self.base);
        self.base.ways(block) + 1 + self.waits.ways(block)
    }

    fn way(&self, i: u32, k: u32) -> Option<u32> {
        let n = Precedence::len(&self.base);
        let block = i % n;
        let own = self.base.ways(block);
        if k < own {
            return node_from(i / n * n, self.base.way(block, k));
        }
        if k == own {
            return self.next(i);
        }
        self.lagged(i, k - (own + 1))
    }

    fn has(&self, i: u32, j: u32) -> bool {
        self.has_in_period(i, j) || self.has_by_lag(i, j)
    }
}
