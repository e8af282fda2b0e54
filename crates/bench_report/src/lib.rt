//! The bench table: how many blocks, how many tonnes and what worth lie on each bench in each shell.
//!
//! A bench is what lies at one height of an open pit, and a shell is a phase in which it is dug; a
//! planner's schedule begins with what each phase has on each bench. [`rows`] gives that table for a
//! model of blocks, a series of shells and a worth for each block, and [`write_report`] writes it as
//! comma-separated values, for spreadsheets; [`way_table`] puts the tonnes that go each way to treat a
//! block after its rows. [`block_shells_text`] and [`block_ways_text`] say the same block by block.
//!
//! Stands on `blocks_file` for heights and tonnes, `shells` for the shells, `ordered_group` for the
//! definitions of sums over sets of blocks, `fixed_worth` for numbers, `counted_devices`, and the kit's `csv`. Promises
//! upward that the rows are exactly the benches and shells with a block, each once and in ascending
//! order, with the exact number and sums of their blocks; that a sum which overflows 128 bits on the way
//! is refused; and that what is written is the one text of the rows. It takes time in proportion to
//! the blocks, and to the logarithm of the rows for each.
//!
//! An example: of three blocks the last is in the shell 500, the others are in 1000, and they are worth 6, -5 and 3.
//! Their tonnes are in column 2. [`rows`] gives three rows, and [`write_report`] writes them after the names of the
//! columns. Tried in `lower_tests/src/bench_tables.rt`.
//!
//! ```rust
//! rows(alloc, &model, series, 1, worths)
//!
//! let mut out = Counted::new(Vec::new(alloc));
//! write_report(alloc, rows, &mut out).expect(rt, "written");
//! out.into_inner()
//!
//! let blocks = b"0 0 0 0 10 4 100\n1 0 0 1 0 5 80.5\n2 1 0 1 4 1 60\n";
//! let tables: [(&[i128], &[u8]); 2] = [
//!     (
//!         &[6_000_000_000, -5_000_000_000, 3_000_000_000],
//!         b"z,shell,blocks,tonnes,worth\n0,1000,1,100,6\n1,500,1,60,3\n1,1000,1,80.5,-5\n",
//!     ),
//! ];
//! for (worths, text) in tables {
//!     writes(&rt, rt.alloc(), &series, blocks, worths, text);
//! }
//! ```
#![tactic(auto)]

mod bench_row;
mod bench_table;
mod block_shells;
mod block_ways;
pub mod laws;
mod report_fault;
mod row_map;
mod table_with_ways;
mod write_fault;
mod written_table;

pub use bench_row::BenchRow;
pub use bench_table::rows;
pub use block_shells::block_shells_text;
pub use block_ways::block_ways_text;
pub use report_fault::ReportFault;
pub use table_with_ways::way_table;
pub use write_fault::ReportWriteFault;
pub use written_table::{report_text, write_report};
