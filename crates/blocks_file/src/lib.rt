//! Reads `.blocks` files, which give the blocks of an open pit their places and their columns of numbers.
//!
//! Each record is a block's number, its place x, y and z, and further fields, the block's columns. A caller chooses up
//! to 19 columns, such as a tonnage or a grade; the others are passed over, whatever stands in them. The layout is
//! that of the files of MineLib (Espinoza and others 2013).
//!
//! It stands on `fixed_worth`, which cuts lines and fields and reads the numbers in them.
//!
//! Upward it promises that [`read_blocks`] gives exactly what `specs/Denotes` says that the text denotes: as many
//! blocks as there are records, numbered from 0 on without a gap, each with the place and the values of its own record.
//! Otherwise it gives the fault of the text that `specs/Records` says, with the number of its line. It takes time that
//! is linear in the text, and no memory per line.
//!
//! An example: three records, of which [`read_blocks`] takes the columns 0, 1 and 2, and then the columns 2, 0 and 2:
//! block 2 stands at x 1, y 0, z 1, and block 1 has 80.5 in column 2, which is 80,500,000 millionths. Tried in
//! `lower_tests/src/block_models.rt`.
//!
//! ```rust
//! const THREE: &[u8] =
//!     b"% block x y z tonnage rock grade\n0 0 0 0 10 4 100\n1 0 0 1 0 5 80.5\n2 1 0 1 4 1 60\n";
//!
//! let blocks = read_blocks(rt.alloc(), THREE, &[0, 1, 2])?;
//! equal(&rt, (blocks.len(), blocks.columns()), (3, 3));
//! for (block, x, y, z) in &[(0, 0, 0, 0), (1, 0, 0, 1), (2, 1, 0, 1)] {
//!     let (x, y, z) = (*x, *y, *z);
//!     equal(&rt, place(&blocks, *block), Some(Place { x, y, z }));
//! }
//!
//! let twice = read_blocks(rt.alloc(), THREE, &[2, 0, 2])?;
//! let wanted = [Some(80_500_000), Some(0), Some(80_500_000)];
//! equal(&rt, values(&twice, 1), wanted);
//! ```
#![tactic(auto)]

mod block_model;
mod blocks_fault;
mod counting;
mod kept;
mod limits;
mod place;
mod reading;
mod record;
mod row;

pub use block_model::BlockModel;
pub use blocks_fault::BlocksFault;
pub use limits::MOST_COLUMNS;
pub use place::Place;
pub use reading::read_blocks;
