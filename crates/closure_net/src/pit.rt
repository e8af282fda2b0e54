//! A set of blocks as the ascending list of their numbers: made from such a list or refused, and asked whether it
//! holds a block.

ghost use Rattle.std.specs.Prelude.{◌≡◌, ◌↔◌, ℕ, ◌<◌, ◌≤◌, ◌+◌, ◌-◌, ◌^◌, false, IsTrue, List, length, slice_index, MatchBool, MatchOption};
ghost use Rattle.closure_net.specs.Network.{IsAscending, holds_of};
ghost use Rattle.closure_net.specs.Searches.{StandsFrom, StandsBelow};

use std::marker::Model;

/// A set of blocks, as the ascending list of their numbers.
#[derive(Drop)]
pub struct Pit {
    blocks: Vec<u32>,
}

impl Model for Pit {
    ghost Value = { List ℕ };

    ghost view = { λ p. p.blocks.items };

    ghost invariant = { λ p. IsAscending p.blocks.items };
}

// From which place on b can stand: after the place before it, where a block below b stands there.
fn lowest_place(blocks: &[u32], place: usize, b: u32) -> usize
    requires { IsAscending blocks.now }
    ensures inside { result ≤ length blocks.now }
    ensures lowest { StandsFrom blocks.now b result }
{
    if 0 < place && place <= blocks.len() && blocks[place - 1] < b {
        place
    } else {
        0
    }
}

// Up to which place b can stand, where it stands nowhere before another: each block is at least by one above the one
// before it, so that b stands no farther from there than it differs from the block there.
fn highest_place(blocks: &[u32], from: usize, b: u32) -> usize
    requires ascending { IsAscending blocks.now }
    requires inside { from ≤ length blocks.now }
    ensures inside { (from ≤ result) × (result ≤ length blocks.now) }
    ensures highest { StandsBelow blocks.now b from result }
{
    if from == blocks.len() || b < blocks[from] {
        return from;
    }
    let far = (b - blocks[from]) as usize;
    if far < blocks.len() - from {
        from + far + 1
    } else {
        blocks.len()
    }
}

// Whether each block is above the one before it.
fn is_ascending(blocks: &[u32]) -> bool
    ensures { IsTrue result ↔ IsAscending blocks.now }
{
    for i in 1..blocks.len() {
        if blocks[i] <= blocks[i - 1] {
            return false;
        }
    }
    true
}

impl Pit {
    /// The pit of these blocks: `None` exactly where they are not strictly ascending.
    pub fn new(blocks: Vec<u32>) -> Option<Pit>
        ensures { MatchOption result
            (¬ (IsAscending blocks.items))
            (λ pit. (pit ≡ blocks.items) × IsAscending blocks.items) }
    {
        if is_ascending(&blocks) {
            Some(Pit { blocks })
        } else {
            None
        }
    }

    // The pit of these blocks, which are strictly ascending.
    pub(crate) fn from_ascending(blocks: Vec<u32>) -> Pit
        requires { IsAscending blocks.items }
        ensures { result ≡ blocks.items }
    {
        Pit { blocks }
    }

    /// The blocks, ascending.
    pub fn blocks(&self) -> &[u32]
        ensures is { result.now ≡ self.now }
        ensures ascending { IsAscending self.now }
    {
        &self.blocks
    }

    /// The blocks, ascending, in the list of which the pit was made, with the space that it has for more.
    pub fn into_blocks(self) -> Vec<u32>
        ensures is { result.items ≡ self }
        ensures ascending { IsAscending self }
    {
        let Pit { blocks } = self;
        blocks
    }

    /// How many blocks there are.
    pub fn len(&self) -> usize
        ensures { result ≡ length self.now }
    {
        self.blocks.len()
    }

    /// Whether there is no block.
    pub fn is_empty(&self) -> bool
        ensures { IsTrue result ↔ (length self.now ≡ 0) }
    {
        self.blocks.is_empty()
    }

    /// The i-th block, from 0 on.
    pub fn at(&self, i: usize) -> u32
        requires { i < length self.now }
        ensures { result ≡ slice_index self.now i }
    {
        self.blocks[i]
    }

    /// Whether b is in the pit, by binary search.
    pub fn holds(&self, b: u32) -> bool
        ensures { result ≡ holds_of self.now b }
    {
        self.blocks.binary_search(&b).is_ok()
    }

    // The place of b, or `None` where b isn't in the pit, looked for around a place.
    fn place_near(&self, place: usize, b: u32) -> Option<usize>
        ensures { MatchOption result
            (holds_of self.now b ≡ false)
            (λ i. (i < length self.now) × (i < 2 ^ 64 - 1) × (slice_index self.now i ≡ b)) }
    {
        let from = lowest_place(&self.blocks, place, b);
        let to = highest_place(&self.blocks, from, b);
        match self.blocks[from..to].binary_search(&b) {
            Ok(i) => Some(from + i),
            Err(_) => None,
        }
    }

    /// Whether b is in the pit, searching outward from `*place`. If it is, `*place` becomes the position after b;
    /// otherwise it is unchanged.
    ///
    /// `*place` may be any number, and the nearer it is to b, the faster the answer: blocks that follow one another in
    /// the pit are found in constant time each.
    pub fn holds_near(&self, place: &mut usize, b: u32) -> bool
        ensures is { result ≡ holds_of self.now b }
        ensures place { MatchBool result
            ((i : ℕ) × (i < length self.now) × (slice_index self.now i ≡ b) × (place.new ≡ i + 1))
            (place.new ≡ place.old) }
    {
        match self.place_near(*place, b) {
            Some(i) => {
                *place = i + 1;
                true
            }
            None => false,
        }
    }
}
