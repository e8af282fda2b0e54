//! The figures of a production: what blocks are worth and use, and what periods weigh and have.

ghost use Rattle.std.specs.Prelude.{◌≡◌, ◌↔◌, ◌<◌, ◌≤◌, length, slice_index, MatchOption, IsTrue};
ghost use Rattle.std.specs.List.{All};
ghost use Rattle.production_figures.specs.Figures.{AreComplete, AreFigures, IsWorth, capacity_by, figures_view, in_row, worth_by};

use fixed_worth::MOST_BLOCKS;
use std::marker::Model;

/// The most periods of a production.
pub const MOST_PERIODS: usize = 1_000;

/// The most resources of a production.
pub const MOST_RESOURCES: u32 = 8;

/// The most that a period weighs, in millionths: as much as money of today.
pub const MOST_WEIGHT: u64 = 1_000_000;

/// The most that a block is worth or costs, in billionths. What the values of files and the prices of a model come to,
/// at any factor, is below it.
pub const MOST_WORTH: i128 = 100_000_000_000_000_000_000_000;

/// What blocks are worth and use, and what periods weigh and have.
#[derive(Drop)]
pub struct Figures {
    worths: Vec<i128>,
    weights: Vec<u64>,
    resources: u32,
    uses: Vec<u64>,
    capacities: Vec<u64>,
}

impl Model for Figures {
    ghost use Rattle.production_figures.specs.Figures.{FiguresView, AreFigures, figures_view};

    ghost Value = { FiguresView };

    ghost view = { λ f. figures_view f.worths.items f.weights.items f.resources f.uses.items
        f.capacities.items };

    ghost invariant = { λ f. AreFigures (figures_view f.worths.items f.weights.items f.resources
        f.uses.items f.capacities.items) };
}

// Whether a block is worth or costs no more than the most.
fn is_worth(worth: i128) -> bool
    ensures { IsTrue result ↔ IsWorth worth }
{
    worth <= MOST_WORTH && worth >= -MOST_WORTH
}

// Whether that holds of all blocks.
fn are_worths(worths: &[i128]) -> bool
    ensures { IsTrue result ↔ All IsWorth worths.now }
{
    for b in 0..worths.len() {
        if !is_worth(worths[b]) {
            return false;
        }
    }
    true
}

// Whether no period weighs more than the most.
fn are_weights(weights: &[u64]) -> bool
    ensures { IsTrue result ↔ All (λ w. w ≤ 1000000) weights.now }
{
    for t in 0..weights.len() {
        if weights[t] > MOST_WEIGHT {
            return false;
        }
    }
    true
}

// Whether there are as many of each figure as there should be.
fn are_complete(
    worths: &[i128],
    weights: &[u64],
    resources: u32,
    uses: &[u64],
    capacities: &[u64],
) -> bool
    ensures { IsTrue result ↔ AreComplete
        (figures_view worths.now weights.now resources uses.now capacities.now) }
{
    if worths.len() > MOST_BLOCKS as usize
        || weights.len() > MOST_PERIODS
        || resources > MOST_RESOURCES
    {
        return false;
    }
    let rows = resources as usize;
    uses.len() == rows * worths.len() && capacities.len() == rows * weights.len()
}

impl Figures {
    /// The figures of so many resources, row by row for each: none where there are too many blocks, periods or
    /// resources, a row isn't of their number, a period weighs more than [`MOST_WEIGHT`], or a block is worth or costs
    /// more than [`MOST_WORTH`].
    pub fn new(
        worths: Vec<i128>,
        weights: Vec<u64>,
        resources: u32,
        uses: Vec<u64>,
        capacities: Vec<u64>,
    ) -> Option<Figures>
        ensures { let f = figures_view worths.items weights.items resources uses.items
            capacities.items in
            MatchOption result (¬ (AreFigures f)) (λ figures. (figures ≡ f) × AreFigures f) }
    {
        if !are_complete(&worths, &weights, resources, &uses, &capacities)
            || !are_worths(&worths)
            || !are_weights(&weights)
        {
            return None;
        }
        Some(Figures {
            worths,
            weights,
            resources,
            uses,
            capacities,
        })
    }

    /// How many blocks there are.
    pub fn blocks(&self) -> u32
        ensures is { result ≡ length self.now.worths }
        ensures all { AreFigures self.now }
    {
        self.worths.len() as u32
    }

    /// How many periods there are.
    pub fn periods(&self) -> u32
        ensures is { result ≡ length self.now.weights }
        ensures all { AreFigures self.now }
    {
        self.weights.len() as u32
    }

    /// How many resources there are.
    pub fn resources(&self) -> u32
        ensures is { result ≡ self.now.resources }
        ensures few { result ≤ 8 }
    {
        self.resources
    }

    /// What block b is worth, in billionths.
    pub fn worth(&self, b: u32) -> i128
        requires { b < length self.now.worths }
        ensures { result ≡ worth_by self.now b }
    {
        self.worths[b as usize]
    }

    /// What period t weighs, in millionths.
    pub fn weight(&self, t: u32) -> u64
        requires { t < length self.now.weights }
        ensures { result ≡ slice_index self.now.weights t }
    {
        self.weights[t as usize]
    }

    /// What block b uses of resource r, in millionths.
    pub fn used(&self, r: u32, b: u32) -> u64
        requires resource { r < self.now.resources }
        requires block { b < length self.now.worths }
        ensures { result ≡ in_row self.now.uses (length self.now.worths) r b }
    {
        self.uses[r as usize * self.worths.len() + b as usize]
    }

    /// What period t has of resource r, in millionths.
    pub fn capacity(&self, r: u32, t: u32) -> i128
        requires resource { r < self.now.resources }
        requires period { t < length self.now.weights }
        ensures { result ≡ capacity_by self.now r t }
    {
        self.capacities[r as usize * self.weights.len() + t as usize] as i128 * 1_000_000
    }
}
