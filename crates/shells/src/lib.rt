//! Prices, and the shells of a mine: its best pits at rising prices, one within the next.
//!
//! A table of prices has each block's revenue and cost; or what each earns and costs by each of several
//! ways to treat it, and what mining it costs. At a factor, a number of thousandths, that share of the
//! revenue counts, so that a block is worth more, or as much, at a higher factor where no revenue is
//! negative. Then the best pit at a lower factor lies within that at a higher one, and
//! a block's shell is the lowest factor of a series whose best pit holds it (Lerchs and Grossmann,
//! 1965, make their phases so).
//!
//! Stands on `check_pit`, `closure_net`, `held_pairs`, `places`, `ordered_group`, `prec_file`, `fixed_worth` and the
//! kit's `rayon`. Promises upward:
//!
//! - `worth` and `worths_at` are exact, and `way_of` gives the first way that is worth most.
//! - A `Series` takes only pits that were checked over its own pairs and its own prices at that factor, or
//!   that its caller has proved to be the best. So at each of its factors the blocks with a shell of at
//!   most that factor are the best pit.
//! - `laws`: accepted pits at two factors are nested.
//!
//! An example: three blocks earn 10, 0 and 4, and cost 4, 5 and 1, and the first rests on the second. A series takes
//! the best pit at 500 thousandths, the last block, and that at 1000, all three; it refuses another at 1000. Then the
//! shell of the last block is 500, and that of the others 1000. Tried in `lower_tests/src/prices_and_series.rt`.
//!
//! ```rust
//! pub const REVENUE: [i64; 3] = [10_000_000, 0, 4_000_000];
//! pub const COST: [i64; 3] = [4_000_000, 5_000_000, 1_000_000];
//!
//! let mut series = Series::open(alloc, rests, prices).expect(rt, "series");
//! let pushes = [
//!     (LOW, 500, None),
//!     (HIGH, 1_000, None),
//!     (HIGH, 1_000, Some(SeriesFault::NotHigher)),
//! ];
//! for (proved, factor, fault) in pushes {
//!     let refusal = added(rt, alloc, &mut series, proved, factor);
//!     same(rt, refusal, fault);
//! }
//! same(rt, series.factors(), [500, 1_000].as_slice());
//! let shells = [Some(1_000), Some(1_000), Some(500)];
//! same(rt, has_shells(&series, &shells), true);
//! ```
#![tactic(auto)]

mod amounts;
mod factor;
pub mod laws;
mod marking;
mod matching;
mod most_ways;
mod price_tables;
mod prices_fault;
mod same_held;
mod series_fault;
mod shell_series;
mod tables;
mod ways;

pub use factor::Factor;
pub use most_ways::MOST_WAYS;
pub use price_tables::Prices;
pub use prices_fault::PricesFault;
pub use same_held::all_held;
pub use series_fault::SeriesFault;
pub use shell_series::Series;
pub use ways::Way;
