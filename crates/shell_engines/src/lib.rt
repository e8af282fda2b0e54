//! Shells of a mine at rising prices: its texts are read, the series of its pits is settled, and its rows are written.
//!
//! Stands on `mine_inputs`, which reads the texts of a mine with prices, on `series_pits`, which settles the best pits
//! at rising prices, on `shells`, whose series takes nothing but best pits, and on `bench_report` for the table of
//! blocks and their shells. Promises upward, over the bytes of the texts: where `shells_engine` answers `Done` it
//! wrote the row of the best pit at each factor of the settings, and the pits lie one within the next (Lerchs and
//! Grossmann, 1965, make the phases of a mine so); and where the table is asked for, the first factor whose best pit
//! holds each block, and which way it goes.
//!
//! An example: the blocks are `0 0 0 0 10 4 100`, `1 0 0 1 0 5 80.5` and `2 1 0 1 4 1 60`, with their revenue in column
//! 0 and their cost in column 1. The first rests on the second, and settings name the factors 500 and 1000.
//! [`shells_engine`] writes `SHELL 500 1 1` and `SHELL 1000 3 4`, and answers `Done`. Where the table is asked for, it
//! has `block,shell`, `0,1000`, `1,1000` and `2,500`. Tried in `tests/cases/shells/two_prices` and
//! `by_block_two_prices`. Of the first case, the blocks, the precedence, the settings and what is written:
//!
//! ```text
//! 0 0 0 0 10 4 100
//! 1 0 0 1 0 5 80.5
//! 2 1 0 1 4 1 60
//!
//! 0 1 1
//! 1 0
//! 2 0
//!
//! revenue = 0
//! cost = 1
//! tonnes = 2
//! factors = [500, 1000]
//!
//! SHELL 500 1 1
//! SHELL 1000 3 4
//! ```
#![tactic(auto)]

pub mod block_tables;
pub mod laws;
pub mod series_engine;
pub mod series_inputs;
pub mod series_outputs;

pub use series_engine::shells_engine;
pub use series_inputs::SeriesInputs;
pub use series_outputs::SeriesOutputs;
