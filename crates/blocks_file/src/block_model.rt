//! A model as a `.blocks` text gives it: how many blocks there are, where each is, and its values of the chosen
//! columns.

ghost use Rattle.std.specs.Prelude.{◌≡◌, ◌<◌, ◌≤◌, ℕ, [], pos, length, slice_index_or, IfOk, IfSome};
ghost use Rattle.blocks_file.specs.Denotes as spec;

use crate::Place;
use crate::limits::MOST_COLUMNS;
use fixed_worth::{MOST_BLOCKS, Micros};
use std::alloc::{AllocError, Global};
use std::marker::Model;

/// Blocks from 0 on, each with its place and its values of the columns that were chosen.
#[derive(Drop)]
pub struct BlockModel {
    blocks: u32,
    width: u32,
    places: Vec<Place>,
    // the values of a block stand together, since they are read together
    values: Vec<Micros>,
}

impl Model for BlockModel {
    ghost Value = { spec.BlocksView };

    ghost view = { λ m. record {
      blocks = m.blocks;
      places = m.places.items;
      columns = spec.columns_from m.width m.blocks m.values.items;
    } };

    ghost invariant = { λ m. spec.IsModel m.blocks m.width m.places.items m.values.items };
}

impl BlockModel {
    pub(crate) fn of(blocks: u32, width: u32, places: Vec<Place>, values: Vec<Micros>) -> BlockModel
        requires { spec.IsModel blocks width places.items values.items }
        ensures { result
            ≡ record {
              blocks = blocks;
              places = places.items;
              columns = spec.columns_from width blocks
                  values.items;
            } }
    {
        BlockModel {
            blocks,
            width,
            places,
            values,
        }
    }

    /// How many blocks there are.
    pub fn len(&self) -> u32
        ensures value { result ≡ self.now.blocks }
        ensures places { length self.now.places ≡ result }
        ensures bound { result ≤ MOST_BLOCKS }
    {
        self.blocks
    }

    /// Where a block is.
    pub fn place(&self, block: u32) -> Place
        requires { block < self.now.blocks }
        ensures { result ≡ slice_index_or self.now.places block spec.origin }
    {
        self.places[block as usize]
    }

    /// How many columns were chosen. None of their values is above 10^18 millionths either way.
    pub fn columns(&self) -> u32
        ensures value { result ≡ length self.now.columns }
        ensures bound { result ≤ MOST_COLUMNS }
        ensures small { (i : ℕ) → i < result → spec.IsSmallColumn self.now i }
    {
        self.width
    }

    /// A block's value of the column that was chosen as the i-th, from 0 on.
    pub fn column(&self, i: u32, block: u32) -> Micros
        requires column { i < length self.now.columns }
        requires known { block < self.now.blocks }
        ensures { result ≡ slice_index_or (slice_index_or self.now.columns i []) block (pos 0) }
    {
        self.values[block as usize * self.width as usize + i as usize]
    }

    // The values of a column, block by block.
    fn values_of(&self, alloc: Global, i: u32) -> Result<Vec<Micros>, AllocError>
        requires { i < length self.now.columns }
        ensures values { IfOk result (λ v. v.items ≡ slice_index_or self.now.columns i []) }
        ensures size { IfOk result (λ v. length v.items ≡ self.now.blocks) }
    {
        let mut values: Vec<Micros> = Vec::new(alloc);
        for block in 0..self.blocks {
            values.push(self.column(i, block))?;
        }
        Ok(values)
    }

    /// The same blocks with one of their columns alone, or with none: a copy.
    ///
    /// # Errors
    /// Memory was refused.
    pub fn narrowed(&self, alloc: Global, column: Option<u32>) -> Result<BlockModel, AllocError>
        requires { IfSome column (λ i. i < length self.now.columns) }
        ensures { IfOk result (λ m. m ≡ spec.narrowed column self.now) }
    {
        // proof: no value is above 10^18 millionths either way
        let _columns = self.columns();
        let places = Vec::from_slice(alloc, &self.places)?;
        match column {
            None => Ok(BlockModel::of(self.blocks, 0, places, Vec::new(alloc))),
            Some(i) => {
                let values = self.values_of(alloc, i)?;
                Ok(BlockModel::of(self.blocks, 1, places, values))
            }
        }
    }
}
