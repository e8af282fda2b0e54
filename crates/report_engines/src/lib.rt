//! The bench table of a mine's shells: how many blocks, how many tonnes and what worth lie on each bench in each shell.
//!
//! Stands on `series_pits`, which settles the best pits at rising prices, on `shell_engines`, which sends the answer,
//! on `bench_report`, which makes the table and writes it, and on `mine_inputs`, which reads the texts. Promises
//! upward, over the bytes of the texts: where `report_engine` answers `Done` it wrote the bench table of the blocks,
//! each in the first shell whose best pit holds it, with the tonnes of its record and its worth at the factor of the
//! report, and where asked for the tonnes that go each way at that factor. No sum of the table overflows.
//!
//! An example: the blocks are `0 0 0 0 10 4 100`, `1 0 0 1 0 5 80.5` and `2 1 0 1 4 1 60`, with revenue, cost and
//! tonnes in their columns. The first rests on the second, and settings name the factors 500 and 1000, of which the
//! last is that of the report, where they name no other. [`report_engine`] writes `z,shell,blocks,tonnes,worth`,
//! `0,1000,1,100,6`, `1,500,1,60,3` and `1,1000,1,80.5,-5`, and answers `Done`. Tried in
//! `tests/cases/report/two_prices`. The blocks, the precedence, the settings and what is written:
//!
//! ```text
//! 0 0 0 0 10 4 100
//! 1 0 0 1 0 5 80.5
//! 2 1 0 1 4 1 60
//!
//! 0 1 1
//! 1 0
//! 2 0
//!
//! revenue = 0
//! cost = 1
//! tonnes = 2
//! factors = [500, 1000]
//!
//! z,shell,blocks,tonnes,worth
//! 0,1000,1,100,6
//! 1,500,1,60,3
//! 1,1000,1,80.5,-5
//! ```
#![tactic(auto)]

mod bench_rows;
mod report_inputs;
mod reporting_engine;
mod way_rows;

pub use reporting_engine::report_engine;
