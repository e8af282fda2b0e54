//! What the blocks of a search rest on, asked of their places.

ghost use Rattle.std.specs.Prelude.{◌≡◌, ◌<◌, length, IfSome};

use net_part::{Labels, Link, Look, WaysUp};
use places::Precedence;
use std::marker::Model;

/// Who precedes whom among the blocks of a search, by the numbers of the search.
#[derive(Drop)]
pub(crate) struct PlacedAbove<'a, P> {
    held: &'a P,
    blocks: Vec<Link>,
    numbers: Vec<Link>,
    count: u32,
}

impl<'a, P> Model for PlacedAbove<'a, P> {
    ghost use Rattle.std.specs.Prelude.{ℕ, ◌≡◌, length};

    ghost Value = { ℕ };

    ghost view = { λ a. a.count };

    ghost invariant = { λ a. a.count ≡ length a.blocks.items };
}

// The block of a number.
fn block_of<P: Precedence>(held: &P, blocks: &[Link], number: u32) -> Option<u32>
    ensures { IfSome result (λ b. b < (P.shown held.now).blocks) }
{
    let n = held.len() as usize;
    blocks.get(number as usize)?.block(n)
}

// The block of the search to which a way of a block of the mine leads, if one is there.
fn number_above<P: Precedence>(
    held: &P,
    numbers: &[Link],
    count: u32,
    b: u32,
    way: u32,
) -> Option<u32>
    requires block { b < (P.shown held.now).blocks }
    requires way { way < (P.shown held.now).ways b }
    ensures { IfSome result (λ p. p < count) }
{
    let p = held.way(b, way)?;
    numbers.get(p as usize)?.block(count as usize)
}

impl<'a, P: Precedence> PlacedAbove<'a, P> {
    /// The blocks of a search in the order of their numbers, so many of them, and for each block of the mine a link to
    /// its number.
    pub(crate) fn new(
        held: &'a P,
        blocks: Vec<Link>,
        numbers: Vec<Link>,
        count: u32,
    ) -> PlacedAbove<'a, P>
        requires { count ≡ length blocks.items }
        ensures { result ≡ count }
    {
        PlacedAbove {
            held,
            blocks,
            numbers,
            count,
        }
    }

    /// The least label of the blocks of the search on which one rests, or 0 where it rests on none.
    pub(crate) fn least_label(&self, labels: &Labels, number: u32) -> u32
        requires { labels.now ≡ self.now }
    {
        let Some(b) = block_of(self.held, &self.blocks, number) else {
            return 0;
        };
        let mut least: Option<u32> = None;
        for way in 0..self.held.ways(b) {
            if let Some(p) = number_above(self.held, &self.numbers, self.count, b, way) {
                let label = labels.at(p);
                least = match least {
                    Some(other) => Some(other.min(label)),
                    None => Some(label),
                };
            }
        }
        least.unwrap_or(0)
    }

    // How many ways lead up from a block of the search.
    fn ways(&self, number: u32) -> u32 {
        match block_of(self.held, &self.blocks, number) {
            Some(b) => self.held.ways(b),
            None => 0,
        }
    }
}

impl<'a, P: Precedence> WaysUp for PlacedAbove<'a, P> {
    ghost count = { λ a. a };

    fn len(&self) -> u32 {
        self.count
    }

    fn ends(&self, b: u32) -> (u32, u32) {
        (0, self.ways(b))
    }

    fn find(&self, labels: &Labels, b: u32, look: Look) -> (u32, Option<u32>) {
        let Some(block) = block_of(self.held, &self.blocks, b) else {
            return (look.to, None);
        };
        let end = self.held.ways(block).min(look.to);
        for way in look.from..end {
            if let Some(p) = number_above(self.held, &self.numbers, self.count, block, way)
                && labels.at(p) == look.label
            {
                return (way, Some(p));
            }
        }
        (look.to, None)
    }
}
