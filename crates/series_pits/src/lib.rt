//! The best pits of a mine at rising prices: each factor's mine is solved, checked and added to a series.
//!
//! Stands on `solve_engines` and `lock_free_engine`, which solve one net, on `grid_flow`, which searches places, on
//! `sub_mines`, by whose laws each factor is solved over the blocks between two known pits, and on `shells`, whose
//! series takes nothing but best pits. Promises upward: a series that `settle` gives is of the mine's own pairs and
//! prices and has its factors in their order, with a row for the best pit at each; and where it gives none, the reason
//! is true of the mine's net at one of the factors.
//!
//! An example: three blocks earn 10, 0 and 4, and cost 4, 5 and 1, and the first rests on the second. Of a `SeriesMine`
//! of these, with the factors 500 and 1000, `settled_series::settle` gives a series in which the last block has the
//! shell 500 and the others 1000, and two rows: one block worth 1, and three worth 4. `table_of` these is
//! `SHELL 500 1 1` and `SHELL 1000 3 4`. Tried in `tests/cases/shells/two_prices`.
#![tactic(auto)]

mod best_pits;
mod lifted_pits;
mod mine_halves;
mod mine_parts;
pub mod no_series;
mod part_pits;
mod series_mine;
mod series_progress;
pub mod settled_series;
mod shell_rows;
mod solver_at;

pub use series_mine::SeriesMine;
pub use series_progress::SeriesProgress;
pub use shell_rows::{ShellRow, table_of};
