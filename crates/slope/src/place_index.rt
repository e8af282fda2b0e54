//! Sorts the blocks of a model by their places, so that the block at a place can be looked up, and refuses two blocks
//! with one place.

ghost use Rattle.std.specs.Prelude.{◌≡◌, IfOk, MatchOption, MatchResult, map};
ghost use Rattle.blocks_file.specs.Denotes.{BlocksView};
ghost use Rattle.slope.specs.Gathering.{place_key, AreEntries, AreEntriesOf, AreEntriesInOrder, HaveNoRepeat, IsEarlierRepeat, IsEarliestRepeat, IsIndex, IndexFaultStands};

use crate::SlopeFault;
use blocks_file::{BlockModel, Place};
use std::alloc::{AllocError, Global};

// A place as it is compared: level by level, and row by row on a level.
pub(crate) type PlaceKey = (i32, i32, i32);

// The places of all blocks in order, and the block at each. It is a list and no tree: the block at an offset mostly
// stands as far from a block in it as the one at that offset stood from the block before.
#[derive(Drop)]
pub(crate) struct PlaceIndex {
    pub(crate) keys: Vec<PlaceKey>,
    pub(crate) blocks: Vec<u32>,
    // where each block stands, from which lookups are guessed, and which no contract reads
    ranks: Vec<u32>,
}

impl PlaceIndex {
    // Where a block stands in the order of places.
    pub(crate) fn rank_of(&self, block: u32) -> usize {
        match self.ranks.get(block as usize) {
            Some(rank) => *rank as usize,
            None => 0,
        }
    }
}

// The key of a place.
pub(crate) fn key_of(place: Place) -> PlaceKey
    ensures { result ≡ place_key place }
{
    (place.z, place.y, place.x)
}

// Each block after the key of its place, as the model lists them.
fn entries_of(alloc: Global, model: &BlockModel) -> Result<Vec<(PlaceKey, u32)>, AllocError>
    ensures { IfOk result (λ entries. AreEntries model.now model.now.blocks entries.items) }
{
    let mut entries = Vec::with_capacity(alloc, model.len() as usize)?;
    for block in 0..model.len() {
        entries.push((key_of(model.place(block)), block))?;
    }
    Ok(entries)
}

// The entries by their keys, and by their blocks where keys are equal.
fn in_order(mut entries: Vec<(PlaceKey, u32)>) -> Vec<(PlaceKey, u32)>
    ensures order { AreEntriesInOrder result.items }
    ensures same { (m : BlocksView) → AreEntries m m.blocks entries.items
        → AreEntriesOf m result.items }
{
    entries.sort_unstable();
    // proof: no entry comes twice
    entries.dedup();
    entries
}

// Of two repeats the one whose second block is less.
fn earlier(repeat: Option<(u32, u32)>, other: (u32, u32)) -> (u32, u32)
    ensures { IsEarlierRepeat repeat other result }
{
    match repeat {
        Some(repeat) if repeat.1 <= other.1 => repeat,
        _ => other,
    }
}

// The first block at the place of an earlier one, after that one.
fn first_repeat(entries: &[(PlaceKey, u32)]) -> Option<(u32, u32)>
    ensures { MatchOption result (HaveNoRepeat entries.now) (IsEarliestRepeat entries.now) }
{
    let mut repeat: Option<(u32, u32)> = None;
    for i in 1..entries.len() {
        let (key, block) = entries[i - 1];
        let (next_key, next) = entries[i];
        if key == next_key {
            repeat = Some(earlier(repeat, (block, next)));
        }
    }
    repeat
}

// The keys of entries.
fn keys_in(alloc: Global, entries: &[(PlaceKey, u32)]) -> Result<Vec<PlaceKey>, AllocError>
    ensures { IfOk result (λ v. v.items ≡ map (λ e. e.0) entries.now) }
{
    entries.iter().map(|e| e.0).collect(alloc)
}

// The blocks of entries.
fn blocks_in(alloc: Global, entries: &[(PlaceKey, u32)]) -> Result<Vec<u32>, AllocError>
    ensures { IfOk result (λ v. v.items ≡ map (λ e. e.1) entries.now) }
{
    entries.iter().map(|e| e.1).collect(alloc)
}

// Where each of these blocks stands among them.
fn ranks_of(alloc: Global, blocks: &[u32]) -> Result<Vec<u32>, AllocError> {
    let mut ranks: Vec<u32> = vec![in alloc; 0; blocks.len()]?;
    let mut next: u32 = 0;
    for block in blocks {
        if let Some(rank) = ranks.get_mut(*block as usize) {
            *rank = next;
        }
        next = next.wrapping_add(1);
    }
    Ok(ranks)
}

// The keys and the blocks of entries, apart.
fn parted(alloc: Global, entries: &[(PlaceKey, u32)]) -> Result<PlaceIndex, AllocError>
    ensures { IfOk result (λ index. (index.keys.items ≡ map (λ e. e.0) entries.now)
        × (index.blocks.items ≡ map (λ e. e.1) entries.now)) }
{
    let keys = keys_in(alloc, entries)?;
    let blocks = blocks_in(alloc, entries)?;
    let ranks = ranks_of(alloc, &blocks)?;
    Ok(PlaceIndex {
        keys,
        blocks,
        ranks,
    })
}

// The index of a model's places. Two blocks that have one place are a fault.
pub(crate) fn index_of(alloc: Global, model: &BlockModel) -> Result<PlaceIndex, SlopeFault>
    ensures { MatchResult result
        (λ index. IsIndex model.now index.keys.items index.blocks.items)
        (IndexFaultStands model.now) }
{
    let Ok(listed) = entries_of(alloc, model) else {
        return Err(SlopeFault::NoMemory);
    };
    let entries = in_order(listed);
    if let Some((first, again)) = first_repeat(&entries) {
        return Err(SlopeFault::SamePlace(first, again));
    }
    match parted(alloc, &entries) {
        Ok(index) => Ok(index),
        Err(_) => Err(SlopeFault::NoMemory),
    }
}
