//! A series of nested pits at rising factors: takes the best pit of each factor, refuses one out of order or of
//! another mine, and tells the shell of each block.

ghost use Rattle.std.specs.Prelude.{◌≡◌, ◌<◌, ◌≤◌, ◌↔◌, length, IsTrue, OnOk, IfErr, MatchResult};
ghost use Rattle.closure_net.specs.Mine.{IsBest};
ghost use Rattle.closure_net.specs.Network.{holds_of};
ghost use Rattle.shells.specs.Prices.{priced_count};
ghost use Rattle.shells.specs.Series.{mine_at, rests_in, shell_at, opened_series, OpenFaultStands, IsAboveAll, IsOver, IsPushed, IsShell, IsSeries, PushFaultStands};

use crate::factor::Factor;
use crate::marking::{give_shells, is_above_all};
use crate::matching::is_over;
use crate::price_tables::Prices;
use crate::series_fault::SeriesFault;
use check_pit::Accepted;
use closure_net::{Pit, laws};
use fixed_worth::MOST_FACTORS;
use held_pairs::HeldPairs;
use ordered_group::{OrderedGroup, SizeGroup};
use std::alloc::Global;
use std::marker::Model;

/// The shells of a mine: at each of its rising factors the blocks with a shell of at most that factor
/// are the best pit, and so each pit lies within the next.
#[derive(Drop)]
pub struct Series {
    rests: HeldPairs,
    prices: Prices,
    // the thousandths of each push; memory for 64 is kept
    factors: Vec<u32>,
    // by block, the lowest of them whose best pit holds it
    shells: Vec<Option<u32>>,
}

impl Model for Series {
    ghost use Rattle.std.specs.Prelude.{vec_capacity};
    ghost use Rattle.shells.specs.Series.{SeriesView};
    ghost use Rattle.shells.specs.Series.{IsHeldSeries};

    ghost Value = { SeriesView };

    ghost view = { λ s. record {
      pairs = s.rests.pairs;
      prices = s.prices;
      factors = s.factors.items;
      shells = s.shells.items;
    } };

    ghost invariant = { λ s. IsHeldSeries
        (record {
          pairs = s.rests.pairs;
          prices = s.prices;
          factors = s.factors.items;
          shells = s.shells.items;
        })
        (vec_capacity s.factors) s.rests.blocks };
}

impl Series {
    /// The series of these pairs and prices with no factor yet: no block has a shell.
    ///
    /// # Errors
    /// `WrongModel` where there are more or fewer prices than blocks; then `NoMemory`.
    pub fn open(alloc: Global, rests: HeldPairs, prices: Prices) -> Result<Series, SeriesFault>
        ensures { MatchResult result
            (λ s. (s ≡ opened_series rests.pairs prices) × (rests.blocks ≡ priced_count prices))
            (λ e. OpenFaultStands rests.blocks prices e) }
    {
        let blocks = prices.len();
        if rests.len() != blocks {
            return Err(SeriesFault::WrongModel);
        }
        let factors = Vec::with_capacity(alloc, MOST_FACTORS)?;
        let shells = vec![in alloc; None; blocks as usize]?;
        Ok(Series {
            rests,
            prices,
            factors,
            shells,
        })
    }

    /// Adds a pit that was accepted at a factor above the others: each of its blocks that has no
    /// shell gets this one. Takes no memory.
    ///
    /// # Errors
    /// In this order, and then nothing is changed: `NotHigher` where the factor isn't above each that
    /// is held; `WrongModel` where the accepted net doesn't have the pairs of the series, or the
    /// worths of its blocks at the factor; `Full` where 64 are held.
    pub fn push<G: SizeGroup>(
        &mut self,
        factor: Factor,
        accepted: &Accepted<'_, G>,
    ) -> Result<(), SeriesFault>
        ensures pushed { OnOk result
            (IsPushed self.old self.new factor (holds_of accepted.now.pit)) }
        ensures best { OnOk result
            (IsBest (mine_at self.old.pairs self.old.prices factor) (holds_of accepted.now.pit)) }
        ensures refused { IfErr result (λ e. (self.new ≡ self.old)
            × PushFaultStands G.block_parts self.old factor accepted.now.net e) }
    {
        // proof: a greatest closed set is the best pit
        laws::greatest_set_is_best_pit::<G>();
        if !self.is_higher(factor) {
            return Err(SeriesFault::NotHigher);
        }
        if !self.is_model_of(factor, accepted) {
            return Err(SeriesFault::WrongModel);
        }
        if self.is_full() {
            return Err(SeriesFault::Full);
        }
        self.put(factor.get(), accepted.pit());
        Ok(())
    }

    /// Adds the best pit at a factor above the others, for one who knows that it is the best: each of its blocks that
    /// has no shell gets this one. Where `push` compares the net with the pairs and the prices, here the caller's proof
    /// stands for it. Takes no memory.
    pub fn push_best(&mut self, factor: Factor, pit: &Pit)
        requires above { IsAboveAll self.old.factors factor }
        requires best { IsBest (mine_at self.old.pairs self.old.prices factor) (holds_of pit.now) }
        requires room { length self.old.factors < MOST_FACTORS }
        ensures { IsPushed self.old self.new factor (holds_of pit.now) }
    {
        self.put(factor.get(), pit);
    }

    // Whether the factor is above each that is held.
    fn is_higher(&self, factor: Factor) -> bool
        ensures { IsTrue result ↔ IsAboveAll self.now.factors factor }
    {
        is_above_all(self.factors(), factor.get())
    }

    // Whether the pit was accepted over the pairs of the series, and its prices at the factor.
    fn is_model_of<G: OrderedGroup>(&self, factor: Factor, accepted: &Accepted<'_, G>) -> bool
        ensures { IsTrue result
            ↔ IsOver G.block_parts self.now.pairs self.now.prices factor accepted.now.net }
    {
        is_over(&self.rests, &self.prices, factor, accepted.net())
    }

    // Whether no further factor is taken.
    fn is_full(&self) -> bool
        ensures full { IsTrue result ↔ (length self.now.factors ≡ MOST_FACTORS) }
        ensures most { length self.now.factors ≤ MOST_FACTORS }
    {
        self.factors().len() == MOST_FACTORS
    }

    // Adds the best pit at a factor above the others.
    fn put(&mut self, k: u32, pit: &Pit)
        requires above { IsAboveAll self.old.factors k }
        requires best { IsBest (mine_at self.old.pairs self.old.prices k) (holds_of pit.now) }
        requires room { length self.old.factors < MOST_FACTORS }
        ensures { IsPushed self.old self.new k (holds_of pit.now) }
    {
        give_shells(self.shells.as_mut_slice(), pit, k);
        self.factors.push_reserved(k);
    }

    /// The shell of block b, in thousandths: the lowest factor whose best pit holds it, or `None`
    /// where none does.
    pub fn shell_of(&self, b: u32) -> Option<u32>
        requires { b < priced_count self.now.prices }
        ensures is { result ≡ shell_at self.now.shells b }
        ensures shell { IsShell self.now b result }
    {
        // proof: what every series is
        let _factors = self.factors();
        self.shell(b)
    }

    // What is kept as the block's shell.
    fn shell(&self, b: u32) -> Option<u32>
        requires { b < priced_count self.now.prices }
        ensures { result ≡ shell_at self.now.shells b }
    {
        self.shells[b as usize]
    }

    /// The factors in thousandths, ascending: at most 64.
    pub fn factors(&self) -> &[u32]
        ensures is { result.now ≡ self.now.factors }
        ensures series { IsSeries self.now }
    {
        self.factors.as_slice()
    }

    /// Who rests on whom.
    pub fn rests(&self) -> &HeldPairs
        ensures { result.now ≡ rests_in self.now }
    {
        &self.rests
    }

    /// The prices.
    pub fn prices(&self) -> &Prices
        ensures { result.now ≡ self.now.prices }
    {
        &self.prices
    }
}
