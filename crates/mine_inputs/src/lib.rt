//! The inputs of a mine: texts read to their ends, the mine that they denote, and what is wrong with them.
//!
//! Stands on the crates of files (`blocks_file`, `prec_file`, `upit_file`, `settings_file`) for what a text says, on
//! `shells` for prices, on `closure_net` for mines, and on `engine_faults` for what is wrong with an input. Promises
//! upward:
//!
//! - Each reader gives what its text says, or the first fault of the text, and says so of the bytes that the device
//!   told. An input has at most 2^32 bytes.
//! - [`held_mine`] gives the mine that its texts denote, of whichever kind, or a fault that stands in them, and none
//!   before it does; and so do [`listed_mine`] and [`indexed_mine`], by a list of its pairs. Where slopes say who
//!   rests on whom, [`held_mine`] makes no list of the pairs, if it is asked for places and a grid holds them.
//! - A failed read is answered as `Device`, and nothing else is: the devices have then counted one failure more
//!   together.
//!
//! An example: the text of values says that three blocks are worth 6, 5 and -10, and the precedence, `0 1 2` and
//! `1 1 2`, that the first two rest on the third. [`held_mine`] reads both as `MineInputs::Listed`: its `predecessors`
//! are a list of the two pairs, and `nanos_at` of its `worths` gives 6, 5 and -10 in billionths, whatever the factor.
//! [`indexed_mine`] reads prices at one factor: a block that earns 10 and costs 4 is worth 1 at 500 thousandths.
//! Beside a precedence, settings that list slopes are refused as `Unused(slopes)`. Tried in `tests/cases`:
//! `check/two_ore_blocks_share_one_waste_block_at_pairs`, `solve/prices_at_half` and
//! `settings/slopes_beside_a_precedence`.
#![tactic(auto)]

mod columns_of_prices;
mod held_mines;
mod inputs;
mod listed_mines;
mod mine_kinds;
mod mines;
mod priced_inputs;
mod sloped_inputs;
mod sloped_texts;
mod valued_texts;
mod way_list;
mod worths;

pub use columns_of_prices::{PriceColumns, missing, place_beside, price_columns};
pub use held_mines::{held_by_slopes, held_mine};
pub use inputs::{blocks_from, held_from, predecessors_from, unread};
pub use listed_mines::{indexed_mine, listed_mine};
pub use mine_kinds::{HeldMine, IndexedMine, ListedMine};
pub use mines::{MineInputs, WorthInputs};
pub use priced_inputs::{
    priced_blocks_from, priced_settings_from, prices_from, prices_of, settings_from,
};
pub use sloped_inputs::{sloped_blocks_from, up_of};
pub use sloped_texts::regional_blocks_from;
pub use way_list::WayList;
pub use worths::Worths;
