//! Solves a part of a mine between two nested pits at one factor: gives the best pit there, and the two parts in
//! which those of lower and of higher factors lie.

ghost use Rattle.std.specs.Prelude.{◌≡◌, ℕ, ◌<◌, ◌≤◌, List, [], IfOk, IfSome, IfNone, length, slice_index};
ghost use Rattle.fixed_worth.specs.declared.limits.TheConstants.{MOST_BLOCKS};
ghost use Rattle.prec_file.specs.Rests.{numbers_passing};
ghost use Rattle.shells.specs.Prices.{PricesView};
ghost use Rattle.sub_mines.specs.Parts.{every_block};
ghost use Rattle.series_pits.specs.Parting.{ArePriced, IsPart, IsBestAmong, AreHalved, PartSumLeaves};

use crate::best_pits::BestPit;
use crate::lifted_pits::{at_others, at_places, best_with, merged};
use crate::part_pits::pit_among;
use crate::series_mine::SeriesMine;
use closure_net::Pit;
use std::alloc::{AllocError, Global};

/// Some of the factors, and where their best pits lie.
#[derive(Drop)]
pub struct Part {
    /// The place of its lowest factor.
    pub from: usize,
    /// The place after that of its highest factor.
    pub to: usize,
    /// The blocks that each of their best pits has, ascending.
    pub low: Vec<u32>,
    /// The other blocks that they may have, ascending.
    pub kept: Vec<u32>,
}

/// What a part gave: the best pit at one of its factors, if it was found, and the parts of the others.
#[derive(Drop)]
pub struct Halved {
    /// The pit.
    pub best: Option<BestPit>,
    /// The part of the lower factors.
    pub lower: Part,
    /// The part of the higher ones.
    pub higher: Part,
}

/// The part of all factors, whose best pits may have any block.
///
/// # Errors
/// Memory was refused.
pub fn whole(alloc: Global, blocks: u32, factors: usize) -> Result<Part, AllocError>
    ensures { IfOk result (λ part. (part.from ≡ 0) × (part.to ≡ factors) × (part.low.items ≡ [])
        × (part.kept.items ≡ numbers_passing every_block blocks)) }
{
    let mut kept = Vec::with_capacity(alloc, blocks as usize)?;
    for b in 0..blocks {
        kept.push(b)?;
    }
    Ok(Part {
        from: 0,
        to: factors,
        low: Vec::new(alloc),
        kept,
    })
}

// The best pit at a factor of the part, and the parts of the others: those of lower factors lie within it, and those of
// higher ones have it. None where it isn't found.
fn by_pit(
    alloc: Global,
    mine: &SeriesMine,
    part: &Part,
    place: usize,
    small: &Pit,
) -> Result<Option<Halved>, AllocError>
    requires inside { place < length mine.now.factors.items }
    requires first { part.now.from ≤ place }
    requires last { place < part.now.to }
    requires few { length part.now.kept.items ≤ MOST_BLOCKS }
    ensures { (pairs : List (ℕ × ℕ)) → ArePriced pairs mine.now.prices mine.now.factors.items
        → IsPart pairs mine.now.prices mine.now.factors.items part.now
        → IsBestAmong pairs mine.now.prices part.now.kept.items
        (slice_index mine.now.factors.items place) small.now
        → IfOk result (λ o. IfSome o (AreHalved pairs mine.now.prices mine.now.factors.items)) }
{
    let kept = part.kept.as_slice();
    let Some(inside) = at_places(alloc, kept, small.blocks())? else {
        return Ok(None);
    };
    let outside = at_others(alloc, kept, small)?;
    let blocks = merged(alloc, part.low.as_slice(), inside.as_slice())?;
    let above = Vec::from_slice(alloc, blocks.as_slice())?;
    let Some(best) = best_with(&mine.prices, blocks, mine.factors[place]) else {
        return Ok(None);
    };
    let lower = Part {
        from: part.from,
        to: place,
        low: Vec::from_slice(alloc, part.low.as_slice())?,
        kept: inside,
    };
    let higher = Part {
        from: place + 1,
        to: part.to,
        low: above,
        kept: outside,
    };
    Ok(Some(Halved {
        best: Some(best),
        lower,
        higher,
    }))
}

impl Part {
    // A part with the blocks of this one, for the factors at these places.
    fn narrowed(&self, alloc: Global, from: usize, to: usize) -> Result<Part, AllocError>
        ensures { IfOk result (λ part. (part.from ≡ from) × (part.to ≡ to)
            × (part.low.items ≡ self.now.low.items) × (part.kept.items ≡ self.now.kept.items)) }
    {
        Ok(Part {
            from,
            to,
            low: Vec::from_slice(alloc, self.low.as_slice())?,
            kept: Vec::from_slice(alloc, self.kept.as_slice())?,
        })
    }

    // What a part gives where nothing is found at a factor: its other factors are those below this place and from the
    // next on.
    fn unsolved(&self, alloc: Global, place: usize, next: usize) -> Result<Halved, AllocError>
        requires first { self.now.from ≤ next }
        requires last { place ≤ self.now.to }
        ensures { (pairs : List (ℕ × ℕ)) (prices : PricesView) (factors : List ℕ)
            → IsPart pairs prices factors self.now → IfOk result (AreHalved pairs prices factors) }
    {
        let lower = self.narrowed(alloc, self.from, place)?;
        let higher = self.narrowed(alloc, next, self.to)?;
        Ok(Halved {
            best: None,
            lower,
            higher,
        })
    }
}

// What a part without further blocks gives: its low blocks are the best pit at each of its factors.
fn without_blocks(
    alloc: Global,
    mine: &SeriesMine,
    part: &Part,
    place: usize,
) -> Result<Halved, AllocError>
    requires priced { ArePriced mine.now.predecessors.pairs mine.now.prices mine.now.factors.items }
    requires part { IsPart mine.now.predecessors.pairs mine.now.prices mine.now.factors.items
        part.now }
    requires first { part.now.from ≤ place }
    requires last { place < part.now.to }
    requires none { part.now.kept.items ≡ [] }
    ensures halved { IfOk result
        (AreHalved mine.now.predecessors.pairs mine.now.prices mine.now.factors.items) }
    ensures solved { IfOk result (λ halves. IfNone halves.best (PartSumLeaves mine.now.prices
        (slice_index mine.now.factors.items place) part.now.low.items)) }
{
    let blocks = Vec::from_slice(alloc, part.low.as_slice())?;
    let best = best_with(&mine.prices, blocks, mine.factors[place]);
    let lower = part.narrowed(alloc, part.from, place)?;
    let higher = part.narrowed(alloc, place + 1, part.to)?;
    Ok(Halved {
        best,
        lower,
        higher,
    })
}

/// Solves the part of a mine at the factor at this place. A part without further blocks is always solved, unless the
/// worths of its low blocks have no sum within 128 bits; another one where the amounts of its net fit, a search finds a
/// flow that a check accepts, and the worths of its pit have a sum.
///
/// # Errors
/// Memory was refused.
pub fn solved_part(
    alloc: Global,
    mine: &SeriesMine,
    part: &Part,
    place: usize,
    turns: u64,
) -> Result<Halved, AllocError>
    requires priced { ArePriced mine.now.predecessors.pairs mine.now.prices mine.now.factors.items }
    requires part { IsPart mine.now.predecessors.pairs mine.now.prices mine.now.factors.items
        part.now }
    requires first { part.now.from ≤ place }
    requires last { place < part.now.to }
    ensures halved { IfOk result
        (AreHalved mine.now.predecessors.pairs mine.now.prices mine.now.factors.items) }
    ensures empty { part.now.kept.items ≡ [] → IfOk result
        (λ halves. IfNone halves.best (PartSumLeaves mine.now.prices
        (slice_index mine.now.factors.items place) part.now.low.items)) }
{
    if part.kept.is_empty() {
        return without_blocks(alloc, mine, part, place);
    }
    let factor = mine.factors[place];
    let next = place + 1;
    let kept = part.kept.as_slice();
    let Some(small) = pit_among(alloc, mine, kept, factor, turns)? else {
        return part.unsolved(alloc, place, next);
    };
    let Some(found) = by_pit(alloc, mine, part, place, &small)? else {
        return part.unsolved(alloc, place, next);
    };
    Ok(found)
}
