//! What settings say: the columns of revenue, costs and tonnes, or of each way to treat blocks, the factors of the
//! shells and of the report, and the offsets of a slope or of the slope of each region, each where its key is there.

ghost use Rattle.std.specs.Prelude.{◌≡◌, ◌≤◌, IfSome, map, option_map};
ghost use Rattle.settings_file.specs.Values.{AreFactors, AreWays};
ghost use Rattle.settings_file.specs.Settings.{SettingsView, settings_view, IsSettings, is_said, names_mill};

use crate::keys::Key;
use crate::up_sign::UpSign;
use crate::ways::WayColumns;
use fixed_worth::MOST_FACTOR;
use std::marker::Model;

// The columns that settings name, each where its key is there.
#[derive(Clone, Copy)]
pub(crate) struct Columns {
    pub(crate) revenue: Option<u32>,
    pub(crate) cost: Option<u32>,
    pub(crate) tonnes: Option<u32>,
    pub(crate) processing: Option<u32>,
    pub(crate) mining: Option<u32>,
}

// What settings say of slopes, each where its key is there.
#[derive(Drop)]
pub(crate) struct SlopeKeys {
    pub(crate) offsets: Option<Vec<(i32, i32, i32)>>,
    pub(crate) regions: RegionKeys,
}

// What settings say of slopes that differ by region, each where its key is there.
#[derive(Drop)]
pub(crate) struct RegionKeys {
    pub(crate) slopes: Option<Vec<Vec<(i32, i32, i32)>>>,
    pub(crate) region: Option<u32>,
    pub(crate) up: Option<UpSign>,
}

/// What settings say: the value of each key, where the text has the key.
#[derive(Drop)]
pub struct Settings {
    revenue: Option<u32>,
    cost: Option<u32>,
    tonnes: Option<u32>,
    factors: Option<Vec<u32>>,
    report: Option<u32>,
    offsets: Option<Vec<(i32, i32, i32)>>,
    processing: Option<u32>,
    mining: Option<u32>,
    slopes: Option<Vec<Vec<(i32, i32, i32)>>>,
    region: Option<u32>,
    up: Option<UpSign>,
    ways: Option<Vec<WayColumns>>,
}

impl Model for Settings {
    ghost use Rattle.std.specs.Prelude.{map, option_map};
    ghost use Rattle.settings_file.specs.Settings.{SettingsView, settings_view, IsSettings};

    ghost Value = { SettingsView };

    ghost view = { λ s. settings_view s.revenue s.cost s.tonnes
        (option_map (λ v. v.items) s.factors) s.report
        (option_map (λ v. v.items) s.offsets) s.processing s.mining
        (option_map (λ v. map (λ w. w.items) v.items) s.slopes) s.region s.up
        (option_map (λ v. v.items) s.ways) };

    ghost invariant = { λ s. IsSettings
        (settings_view s.revenue s.cost s.tonnes (option_map (λ v. v.items) s.factors) s.report
        (option_map (λ v. v.items) s.offsets) s.processing s.mining
        (option_map (λ v. map (λ w. w.items) v.items) s.slopes) s.region s.up
        (option_map (λ v. v.items) s.ways)) };
}

impl Settings {
    pub(crate) fn of(
        columns: Columns,
        factors: Option<Vec<u32>>,
        report: Option<u32>,
        slopes: SlopeKeys,
        ways: Option<Vec<WayColumns>>,
    ) -> Settings
        requires revenue { IfSome columns.revenue (λ column. column ≤ 65535) }
        requires cost { IfSome columns.cost (λ column. column ≤ 65535) }
        requires tonnes { IfSome columns.tonnes (λ column. column ≤ 65535) }
        requires factors { IfSome factors (λ v. AreFactors v.items) }
        requires report { IfSome report (λ factor. factor ≤ MOST_FACTOR) }
        requires processing { IfSome columns.processing (λ column. column ≤ 65535) }
        requires mining { IfSome columns.mining (λ column. column ≤ 65535) }
        requires region { IfSome slopes.regions.region (λ column. column ≤ 65535) }
        requires ways { IfSome ways (λ v. AreWays v.items) }
        ensures { result ≡ settings_view columns.revenue columns.cost columns.tonnes
            (option_map (λ v. v.items) factors) report
            (option_map (λ v. v.items) slopes.offsets) columns.processing columns.mining
            (option_map (λ v. map (λ w. w.items) v.items) slopes.regions.slopes)
            slopes.regions.region slopes.regions.up (option_map (λ v. v.items) ways) }
    {
        let Columns {
            revenue,
            cost,
            tonnes,
            processing,
            mining,
        } = columns;
        let SlopeKeys { offsets, regions } = slopes;
        let RegionKeys { slopes, region, up } = regions;
        Settings {
            revenue,
            cost,
            tonnes,
            factors,
            report,
            offsets,
            processing,
            mining,
            slopes,
            region,
            up,
            ways,
        }
    }

    /// The number of the column of revenues.
    pub fn revenue(&self) -> Option<u32>
        ensures value { result ≡ self.now.revenue }
        ensures bound { IfSome result (λ column. column ≤ 65535) }
    {
        self.revenue
    }

    /// The number of the column of costs. Settings that were read name none beside a mill's charges.
    pub fn cost(&self) -> Option<u32>
        ensures value { result ≡ self.now.cost }
        ensures bound { IfSome result (λ column. column ≤ 65535) }
    {
        self.cost
    }

    /// The number of the column of tonnes.
    pub fn tonnes(&self) -> Option<u32>
        ensures value { result ≡ self.now.tonnes }
        ensures bound { IfSome result (λ column. column ≤ 65535) }
    {
        self.tonnes
    }

    /// The factors of the shells in thousandths: 1 to 64 of them, each from 0 to 10,000 and above the one before it.
    pub fn factors(&self) -> Option<&[u32]>
        ensures value { option_map (λ s. s.now) result ≡ self.now.factors }
        ensures form { IfSome result (λ s. AreFactors s.now) }
    {
        match &self.factors {
            Some(factors) => Some(factors.as_slice()),
            None => None,
        }
    }

    /// The factor of the report in thousandths, which need not be one of [`Settings::factors`].
    pub fn report(&self) -> Option<u32>
        ensures value { result ≡ self.now.report }
        ensures bound { IfSome result (λ factor. factor ≤ MOST_FACTOR) }
    {
        self.report
    }

    /// The offsets of a slope, (dx, dy, dz) each, from a block to a predecessor.
    pub fn offsets(&self) -> Option<&[(i32, i32, i32)]>
        ensures { option_map (λ s. s.now) result ≡ self.now.offsets }
    {
        match &self.offsets {
            Some(offsets) => Some(offsets.as_slice()),
            None => None,
        }
    }

    /// The number of the column of what it costs to process blocks in the mill.
    pub fn processing(&self) -> Option<u32>
        ensures value { result ≡ self.now.processing }
        ensures bound { IfSome result (λ column. column ≤ 65535) }
    {
        self.processing
    }

    /// The number of the column of what it costs to mine blocks, wherever they go.
    pub fn mining(&self) -> Option<u32>
        ensures value { result ≡ self.now.mining }
        ensures bound { IfSome result (λ column. column ≤ 65535) }
    {
        self.mining
    }

    /// The offsets of each region's slope, as [`Settings::offsets`] are: item r has those of region r.
    pub fn slopes(&self) -> Option<&[Vec<(i32, i32, i32)>]>
        ensures { option_map (λ s. map (λ w. w.items) s.now) result ≡ self.now.slopes }
    {
        match &self.slopes {
            Some(slopes) => Some(slopes.as_slice()),
            None => None,
        }
    }

    /// The number of the column that says in which region a block is.
    pub fn region(&self) -> Option<u32>
        ensures value { result ≡ self.now.region }
        ensures bound { IfSome result (λ column. column ≤ 65535) }
    {
        self.region
    }

    /// Which way is up.
    pub fn up(&self) -> Option<UpSign>
        ensures { result ≡ self.now.up }
    {
        self.up
    }

    /// The columns of each way to treat blocks: 1 to 8 of them.
    pub fn ways(&self) -> Option<&[WayColumns]>
        ensures value { option_map (λ s. s.now) result ≡ self.now.ways }
        ensures form { IfSome result (λ s. AreWays s.now) }
    {
        match &self.ways {
            Some(ways) => Some(ways.as_slice()),
            None => None,
        }
    }

    /// Whether a charge of a mill is named: processing or mining.
    pub fn names_mill(&self) -> bool
        ensures { result ≡ names_mill self.now }
    {
        self.says(Key::Processing) || self.says(Key::Mining)
    }

    /// Whether something is said at a key.
    pub fn says(&self, key: Key) -> bool
        ensures { result ≡ is_said self.now key }
    {
        match key {
            Key::Revenue => self.revenue.is_some(),
            Key::Cost => self.cost.is_some(),
            Key::Tonnes => self.tonnes.is_some(),
            Key::Factors => self.factors.is_some(),
            Key::Report => self.report.is_some(),
            Key::Offsets => self.offsets.is_some(),
            Key::Processing => self.processing.is_some(),
            Key::Mining => self.mining.is_some(),
            Key::Slopes => self.slopes.is_some(),
            Key::Region => self.region.is_some(),
            Key::Up => self.up.is_some(),
            Key::Ways => self.ways.is_some(),
        }
    }
}
