//! What a `.upit` text holds: a name, and the value of each block. It can be made of any name and values that such a
//! text can give.

ghost use Rattle.std.specs.Prelude.{◌≡◌, ◌==◌, ◌<◌, ◌≤◌, pos, length, slice_index_or, IsTrue, SomeIff};
ghost use Rattle.std.specs.List.{list_any};
ghost use Rattle.upit_file.specs.Records as spec;

use crate::limits::NAME_BYTES;
use fixed_worth::{MOST_BLOCKS, Micros, is_separator};
use std::marker::Model;

/// A name, and the value of each block: what a `.upit` file holds.
#[derive(Drop)]
pub struct Upit {
    pub(crate) name: Vec<u8>,
    pub(crate) values: Vec<Micros>,
}

impl Model for Upit {
    ghost Value = { spec.UpitView };

    ghost view = { λ u. record { name = u.name.items; values = u.values.items } };

    ghost invariant = { λ u. IsTrue (spec.is_upit u.name.items u.values.items) };
}

fn has_line_feed(name: &[u8]) -> bool
    ensures { result ≡ list_any (λ b. b == 10) name.now }
{
    name.iter().any(|b| *b == b'\n')
}

fn is_name(name: &[u8]) -> bool
    ensures { result ≡ spec.is_name name.now }
{
    if name.is_empty() {
        return true;
    }
    name.len() <= NAME_BYTES
        && !has_line_feed(name)
        && !is_separator(name[0])
        && !is_separator(name[name.len() - 1])
}

impl Upit {
    /// These values under this name, from block 0 on.
    ///
    /// `None` where there are more than 2^24 values, or where no text can give the name. A text can give the empty
    /// name, and each one of at most 60,000 bytes, none of them a line feed, of which the first and the last are no
    /// space, tab, colon or carriage return.
    pub fn new(name: Vec<u8>, values: Vec<Micros>) -> Option<Upit>
        ensures { SomeIff result (IsTrue (spec.is_upit name.items values.items))
            (record { name = name.items; values = values.items }) }
    {
        if is_name(name.as_slice()) && values.len() <= MOST_BLOCKS as usize {
            Some(Upit { name, values })
        } else {
            None
        }
    }

    /// The number of blocks.
    pub fn len(&self) -> u32
        ensures value { result ≡ length self.now.values }
        ensures bound { result ≤ MOST_BLOCKS }
    {
        self.values.len() as u32
    }

    /// The name, which is empty where there is none.
    pub fn name(&self) -> &[u8]
        ensures value { result.now ≡ self.now.name }
        ensures form { IsTrue (spec.is_name result.now) }
    {
        self.name.as_slice()
    }

    /// The value of a block.
    pub fn value(&self, block: u32) -> Micros
        requires { block < length self.now.values }
        ensures { result ≡ slice_index_or self.now.values block (pos 0) }
    {
        self.values[block as usize]
    }

    /// The values of the blocks from 0 on.
    pub fn values(&self) -> &[Micros]
        ensures { result.now ≡ self.now.values }
    {
        self.values.as_slice()
    }
}
