//! Tells which block stands at each offset of a block's own region from it, and looks each up at most once.

ghost use Rattle.std.specs.Prelude.{◌≡◌, ◌<◌, ◌⊎◌, true, false, All, IsTrue, ◌↔◌, Contains, MatchOption, MatchResult, length};
ghost use Rattle.slope.specs.Slopes.{AreApartBelow, block_place};
ghost use Rattle.slope_offsets.specs.Offsets.{listed_at};
ghost use Rattle.slope.specs.Gathering.{ArePlacesOf, HaveRegions, IsIndex, LiesAtNone, LiesAtSome, StandsAtOffset, StandsNone, owns};
ghost use Rattle.slope_offsets.specs.Gathering.{offset_at, rest_after};

use crate::SlopeFault;
use crate::ground::Ground;
use crate::guesses::Guesses;
use crate::place_index::PlaceIndex;
use crate::place_search::block_at;
use crate::sight::{Sight, sight_of};
use blocks_file::{BlockModel, Place};
use slope_offsets::{Up, leads_on_at};
use std::alloc::Global;
use std::marker::Model;

// What stands around a place, each offset looked up once at most: most of the reduced pairs are told by few lookups.
#[derive(Drop)]
pub(crate) struct Surroundings<'a> {
    index: &'a PlaceIndex,
    model: &'a BlockModel,
    ground: &'a Ground,
    offsets: &'a [(i32, i32, i32)],
    up: Up,
    from: Place,
    seen: Vec<Sight>,
    guesses: Guesses,
}

impl<'a> Model for Surroundings<'a> {
    ghost use Rattle.slope.specs.Gathering.{SurroundingsView, AreSeen};

    ghost Value = { SurroundingsView };

    ghost view = { λ s.
        record {
          model = s.model.now;
          patterns = s.ground.now.patterns.items;
          by_column = s.ground.now.by_column;
          offsets = s.offsets.now;
          up = s.up;
          from = s.from;
        } };

    ghost invariant = { λ s. AreSeen
        (record {
          model = s.model.now;
          patterns = s.ground.now.patterns.items;
          by_column = s.ground.now.by_column;
          offsets = s.offsets.now;
          up = s.up;
          from = s.from;
        })
        s.index.now.keys.items s.index.now.blocks.items s.seen.items };
}

impl<'a> Surroundings<'a> {
    // No block is looked from yet.
    pub(crate) fn new(
        alloc: Global,
        index: &'a PlaceIndex,
        model: &'a BlockModel,
        ground: &'a Ground,
        up: Up,
    ) -> Result<Surroundings<'a>, SlopeFault>
        requires index { IsIndex model.now index.now.keys.items index.now.blocks.items }
        requires regions { HaveRegions
            ground.now.by_column ground.now.patterns.items model.now }
        ensures { MatchResult result
            (λ s. ArePlacesOf s model.now ground.now.by_column ground.now.patterns.items up)
            (λ e. e ≡ SlopeFault.NoMemory) }
    {
        let from = Place { x: 0, y: 0, z: 0 };
        let most = ground.widest();
        let Ok(seen) = vec![in alloc; Sight::Unasked; most] else {
            return Err(SlopeFault::NoMemory);
        };
        match Guesses::new(alloc, most) {
            Ok(guesses) => Ok(Surroundings {
                index,
                model,
                ground,
                offsets: &[],
                up,
                from,
                seen,
                guesses,
            }),
            Err(_) => Err(SlopeFault::NoMemory),
        }
    }

    // Looks from a block from now on, and tells its region.
    pub(crate) fn stand_on(&mut self, block: u32) -> usize
        requires { block < self.old.model.blocks }
        ensures same { ArePlacesOf self.new
            self.old.model self.old.by_column self.old.patterns self.old.up }
        ensures from { self.new.from ≡ block_place self.old.model block }
        ensures region { result < length self.old.patterns }
        ensures own { owns self.old block ≡ listed_at self.old.patterns result }
        ensures offsets { self.new.offsets ≡ listed_at self.old.patterns result }
    {
        let region = self.ground.region(self.model, block);
        self.offsets = self.ground.patterns[region].offsets();
        self.from = self.model.place(block);
        self.guesses
            .stand_on(self.index.rank_of(block), self.from.z);
        self.seen.fill(Sight::Unasked);
        region
    }

    // The block at offset i.
    pub(crate) fn at(&mut self, i: usize) -> Option<u32>
        requires { i < length self.old.offsets }
        ensures same { self.new ≡ self.old }
        ensures stands { MatchOption result (StandsNone self.old i) (StandsAtOffset self.old i) }
    {
        match self.seen[i] {
            Sight::Unasked => {
                let (found, to) = block_at(
                    self.index,
                    self.model,
                    self.from,
                    self.offsets[i],
                    self.up,
                    self.guesses.at(i),
                );
                self.guesses.note(i, to);
                self.seen[i] = sight_of(found);
                found
            }
            Sight::Nothing => None,
            Sight::Block(block) => Some(block),
        }
    }

    // Whether a block rests by its own offsets on what stands at offset i, where it stands at offset a.
    fn leads_on_from(&self, block: u32, a: usize, i: usize) -> bool
        requires known { block < self.now.model.blocks }
        requires step { a < length self.now.offsets }
        requires whole { i < length self.now.offsets }
        ensures { IsTrue result ↔ Contains (owns self.now block)
            (rest_after (offset_at self.now.offsets a) (offset_at self.now.offsets i)) }
    {
        let region = self.ground.region(self.model, block);
        let wide = self.ground.patterns[region].wide();
        leads_on_at(wide, self.offsets, a, i)
    }

    // Whether a block at one of these offsets lies between, so that a pair at offset i leads over it.
    fn any_between(&mut self, i: usize, steps: &[u32]) -> bool
        requires known { i < length self.old.offsets }
        requires steps { All (λ a. a < length self.old.offsets) steps.now }
        requires apart { AreApartBelow self.old.model self.old.model.blocks }
        ensures same { self.new ≡ self.old }
        ensures none { result ≡ false → LiesAtNone self.old i steps.now }
        ensures some { result ≡ true → LiesAtSome self.old i steps.now }
    {
        for step in steps {
            if let Some(block) = self.at(*step as usize) {
                if self.leads_on_from(block, *step as usize, i) {
                    return true;
                }
            }
        }
        false
    }

    // The block at offset i, where none lies between at one of these steps.
    pub(crate) fn direct(&mut self, i: usize, steps: &[u32]) -> Option<u32>
        requires known { i < length self.old.offsets }
        requires steps { All (λ a. a < length self.old.offsets) steps.now }
        requires apart { AreApartBelow self.old.model self.old.model.blocks }
        ensures same { self.new ≡ self.old }
        ensures stands { MatchOption result
            (LiesAtSome self.old i steps.now ⊎ StandsNone self.old i)
            (λ p. StandsAtOffset self.old i p × LiesAtNone self.old i steps.now) }
    {
        if self.any_between(i, steps) {
            None
        } else {
            self.at(i)
        }
    }
}
