//! Tries what blocks are worth at several factors, with ways to treat them and without, and series of
//! shells: which pits they take, and the shell of each block.

use crate::pits_and_flows::same;
use blocks_file::read_blocks;
use check_pit::{Accepted, check};
use closure_net::{Carried, Flow, Net, Pit};
use fixed_worth::Micros;
use held_pairs::{HeldPairs, held_by_region};
use ordered_group::WorthSize;
use prec_file::{Rests, read_predecessors};
use shells::{Factor, Prices, PricesFault, Series, SeriesFault, Way};
use slope_offsets::Up;
use std::alloc::Global;
use std::fmt::Display;
use std::process::Abort;
use std::thread::Threads;

fn column(rt: &impl Abort, alloc: Global, millionths: &[i64]) -> Vec<Micros> {
    let mut amounts = Vec::new(alloc);
    for amount in millionths {
        let micros = Micros::new(*amount).expect(rt, "amount");
        amounts.push(micros).expect(rt, "memory");
    }
    amounts
}

fn table(
    rt: &impl Abort,
    alloc: Global,
    revenue: &[i64],
    cost: &[i64],
) -> Result<Prices, PricesFault> {
    Prices::new(column(rt, alloc, revenue), column(rt, alloc, cost))
}

fn prices(rt: &impl Abort, alloc: Global, revenue: &[i64], cost: &[i64]) -> Prices {
    table(rt, alloc, revenue, cost).expect(rt, "prices")
}

// The table of ways with these revenues and these costs of processing.
fn ways_table(
    rt: &impl Abort,
    alloc: Global,
    ways: &[(&[i64], &[i64])],
    mining: &[i64],
) -> Result<Prices, PricesFault> {
    let mut made = Vec::new(alloc);
    for (revenue, processing) in ways {
        let way = Way::new(column(rt, alloc, revenue), column(rt, alloc, processing));
        assert!(rt; made.push(way).is_ok());
    }
    Prices::ways(made, column(rt, alloc, mining))
}

fn mill_table(
    rt: &impl Abort,
    alloc: Global,
    revenue: &[i64],
    processing: &[i64],
    mining: &[i64],
) -> Result<Prices, PricesFault> {
    ways_table(rt, alloc, &[(revenue, processing)], mining)
}

// The first of three blocks rests on the second.
fn rests(rt: &impl Abort, alloc: Global) -> Rests {
    Rests::from_pairs(alloc, 3, &[(0, 1)])
        .ok()
        .expect(rt, "pairs")
}

// The same pairs, held by a list.
pub fn listed(rt: &(impl Threads + Sync + Abort), alloc: Global) -> HeldPairs {
    let text = Vec::from_slice(alloc, b"0 1 1\n").expect(rt, "memory");
    let list = read_predecessors(rt, alloc, text, 3, None)
        .ok()
        .expect(rt, "pairs");
    HeldPairs::of_list(list)
}

// The same pairs, by places: the second block lies above the first.
fn placed(rt: &impl Abort, alloc: Global) -> HeldPairs {
    let model = read_blocks(alloc, b"0 0 0 0\n1 0 0 1\n2 5 0 0\n", &[])
        .ok()
        .expect(rt, "blocks");
    let mut slopes: Vec<Vec<(i32, i32, i32)>> = Vec::new(alloc);
    let above = Vec::from_slice(alloc, &[(0, 0, 1)]).expect(rt, "memory");
    slopes.push(above).expect(rt, "memory");
    held_by_region(alloc, &model, &slopes, Up::PlusZ)
        .ok()
        .expect(rt, "slopes")
}

fn opened(rt: &(impl Threads + Sync + Abort), alloc: Global, prices: Prices) -> Series {
    Series::open(alloc, listed(rt, alloc), prices).expect(rt, "series")
}

fn factor_of(rt: &impl Abort, thousandths: u32) -> Factor {
    Factor::new(thousandths).expect(rt, "factor")
}

fn net_at(
    rt: &(impl Threads + Sync + Abort),
    alloc: Global,
    prices: &Prices,
    thousandths: u32,
) -> Net<WorthSize> {
    let worths = prices
        .worths_at(rt, alloc, factor_of(rt, thousandths))
        .expect(rt, "memory");
    Net::of_worths(alloc, rests(rt, alloc), &worths)
        .ok()
        .expect(rt, "net")
}

fn carried(rt: &impl Abort, alloc: Global, amounts: &[WorthSize]) -> Carried<WorthSize> {
    Carried::from_list(Vec::from_slice(alloc, amounts).expect(rt, "memory"))
}

// So much goes from the source to the first block, from there to the second, and to the sink.
fn through(rt: &impl Abort, alloc: Global, some: WorthSize) -> Flow<WorthSize> {
    let none = WorthSize { nanos: 0, size: 0 };
    Flow::new(
        carried(rt, alloc, &[some, none, none]),
        carried(rt, alloc, &[some]),
        carried(rt, alloc, &[none, some, none]),
    )
}

fn pit_of(rt: &impl Abort, alloc: Global, blocks: &[u32]) -> Pit {
    let blocks = Vec::from_slice(alloc, blocks).expect(rt, "memory");
    Pit::new(blocks).expect(rt, "pit")
}

// Why a series doesn't take the pit at a factor.
fn refusal(
    series: &mut Series,
    thousandths: u32,
    pit: &Accepted<'_, WorthSize>,
) -> Option<SeriesFault> {
    match Factor::new(thousandths) {
        Some(factor) => series.push(factor, pit).err(),
        None => Some(SeriesFault::NoMemory),
    }
}

// A pit with the flow that proves it at a factor.
#[derive(Clone, Copy)]
struct Proved<'a> {
    at: u32,
    pit: &'a [u32],
    carried: WorthSize,
}

/// Revenues of three blocks.
pub const REVENUE: [i64; 3] = [10_000_000, 0, 4_000_000];

/// Their costs.
pub const COST: [i64; 3] = [4_000_000, 5_000_000, 1_000_000];

/// Of these blocks the last one is dug at half the price.
const LOW: Proved<'static> = Proved {
    at: 500,
    pit: &[2],
    carried: WorthSize {
        nanos: 1_000_000_000,
        size: -1,
    },
};

/// And all of them are at the whole price.
const HIGH: Proved<'static> = Proved {
    at: 1_000,
    pit: &[0, 1, 2],
    carried: WorthSize {
        nanos: 5_000_000_000,
        size: 1,
    },
};

// Checks a pit of this net, and adds it at a factor.
fn added_of(
    rt: &impl Abort,
    alloc: Global,
    series: &mut Series,
    net: &Net<WorthSize>,
    proved: Proved<'_>,
    thousandths: u32,
) -> Option<SeriesFault> {
    let pit = pit_of(rt, alloc, proved.pit);
    let flow = through(rt, alloc, proved.carried);
    match check(net, &pit, &flow) {
        Ok(accepted) => refusal(series, thousandths, &accepted),
        Err(_) => panic!(rt; "refused"),
    }
}

// Checks a pit at its factor, and adds it at another.
fn added(
    rt: &(impl Threads + Sync + Abort),
    alloc: Global,
    series: &mut Series,
    proved: Proved<'_>,
    thousandths: u32,
) -> Option<SeriesFault> {
    let net = net_at(rt, alloc, series.prices(), proved.at);
    added_of(rt, alloc, series, &net, proved, thousandths)
}

// Whether these are the shells of all blocks.
fn has_shells(series: &Series, shells: &[Option<u32>]) -> bool {
    for b in 0..series.prices().len() {
        if shells.get(b as usize) != Some(&series.shell_of(b)) {
            return false;
        }
    }
    true
}

// A series of these pairs: it takes the pits of two factors, and no others.
pub fn with_two_pits(
    rt: &(impl Threads + Sync + Abort),
    alloc: Global,
    rests: HeldPairs,
) -> Series {
    let prices = prices(rt, alloc, &REVENUE, &COST);
    let mut series = Series::open(alloc, rests, prices).expect(rt, "series");
    let pushes = [
        (LOW, 500, None),
        (HIGH, 1_000, None),
        (HIGH, 1_000, Some(SeriesFault::NotHigher)),
        (HIGH, 1_200, Some(SeriesFault::WrongModel)),
    ];
    for (proved, factor, fault) in pushes {
        let refusal = added(rt, alloc, &mut series, proved, factor);
        same(rt, refusal, fault);
    }
    series
}

// Fails the test where a series doesn't have their factors and shells.
fn has_two_pits(rt: &impl Abort, series: Series) {
    same(rt, series.factors(), [500, 1_000].as_slice());
    let shells = [Some(1_000), Some(1_000), Some(500)];
    same(rt, has_shells(&series, &shells), true);
}

#[test]
fn each_block_has_the_lowest_factor_that_digs_it(rt: HostRuntime) {
    let alloc = rt.alloc();
    has_two_pits(&rt, with_two_pits(&rt, alloc, listed(&rt, alloc)));
    has_two_pits(&rt, with_two_pits(&rt, alloc, placed(&rt, alloc)));
}

// Where nothing is earned, the net is the same at each factor.
#[test]
fn a_series_holds_sixty_four_factors(rt: HostRuntime) {
    let alloc = rt.alloc();
    let prices = prices(&rt, alloc, &[0, 0, 0], &[1, 1, 1]);
    let mut series = opened(&rt, alloc, prices);
    let nothing = Proved {
        at: 0,
        pit: &[],
        carried: WorthSize { nanos: 0, size: 0 },
    };
    for k in 0..65 {
        let fault = if k < 64 {
            None
        } else {
            Some(SeriesFault::Full)
        };
        let refusal = added(&rt, alloc, &mut series, nothing, k);
        same(&rt, refusal, fault);
    }
    same(&rt, has_shells(&series, &[None, None, None]), true);
}

// Fails the test where the fault has another text.
fn tells(rt: &impl Abort, alloc: Global, fault: Option<impl Display + Drop>, text: &str) {
    let told = fault
        .expect(rt, "a fault")
        .to_string(alloc)
        .expect(rt, "memory");
    assert_eq!(rt; told.as_str(), text);
}

#[test]
fn faults_are_told_in_order(rt: HostRuntime) {
    let alloc = rt.alloc();
    let tables: [(&[i64], &[i64], &str); 2] = [
        (&[-1], &[], "WrongLength"),
        (&[10, -1, -2], &[4, 5, 1], "NegativeRevenue(1)"),
    ];
    for (revenue, cost, text) in tables {
        tells(&rt, alloc, table(&rt, alloc, revenue, cost).err(), text);
    }
    assert!(rt; Factor::new(10_001).is_none());
}

// Fails the test where a block isn't worth so much.
fn all_worth(rt: &impl Abort, prices: &Prices, thousandths: u32, worth: i128) {
    let factor = factor_of(rt, thousandths);
    assert!(rt; prices.len() > 0);
    for b in 0..prices.len() {
        assert_eq!(rt; prices.worth(b, factor), worth);
    }
}

#[test]
fn a_block_goes_to_the_mill_or_to_waste(rt: HostRuntime) {
    let alloc = rt.alloc();
    let mill = mill_table(&rt, alloc, &[10_000_000], &[3_000_000], &[2_000_000]);
    let prices = mill.expect(&rt, "prices");
    all_worth(&rt, &prices, 200, -2_000_000_000);
    all_worth(&rt, &prices, 1_000, 5_000_000_000);
    let short = mill_table(&rt, alloc, &[1], &[1], &[]);
    same(&rt, short.err(), Some(PricesFault::WrongLength));
}

#[test]
fn ways_are_few_and_of_one_length(rt: HostRuntime) {
    let alloc = rt.alloc();
    let way: (&[i64], &[i64]) = (&[1, 1], &[1, 1]);
    let tables: [(&[(&[i64], &[i64])], &str); 5] = [
        (&[], "WrongLength"),
        (&[way; 9], "WrongLength"),
        (&[way, (&[1], &[1, 1])], "WrongLength"),
        (&[way, (&[1, 1], &[1])], "WrongLength"),
        (
            &[(&[1, -1], &[1, 1]), (&[-1, 1], &[1, 1])],
            "NegativeRevenue(0)",
        ),
    ];
    for (ways, text) in tables {
        tells(
            &rt,
            alloc,
            ways_table(&rt, alloc, ways, &[1, 1]).err(),
            text,
        );
    }
}

// Mined for what each block of the other table costs, and never worth milling.
fn waste(rt: &impl Abort, alloc: Global) -> Prices {
    mill_table(rt, alloc, &[0, 0, 0], &[1, 1, 1], &[1, 1, 1]).expect(rt, "prices")
}

// Equal worths are the same model, whatever table they come from.
#[test]
fn a_pit_over_a_table_of_another_kind_is_added(rt: HostRuntime) {
    let alloc = rt.alloc();
    let mut series = opened(&rt, alloc, prices(&rt, alloc, &[0, 0, 0], &[1, 1, 1]));
    let net = net_at(&rt, alloc, &waste(&rt, alloc), 300);
    let nothing = Proved {
        at: 300,
        pit: &[],
        carried: WorthSize { nanos: 0, size: 0 },
    };
    let refusal = added_of(&rt, alloc, &mut series, &net, nothing, 700);
    same(&rt, refusal, None);
    same(&rt, series.factors(), [700].as_slice());
}

#[test]
fn a_series_has_a_price_for_each_block(rt: HostRuntime) {
    let alloc = rt.alloc();
    let two = prices(&rt, alloc, &[1, 1], &[1, 1]);
    let series = Series::open(alloc, listed(&rt, alloc), two);
    tells(&rt, alloc, series.err(), "WrongModel");
}

fn many_prices(rt: &impl Abort, alloc: Global) -> Prices {
    let mut revenue = Vec::new(alloc);
    let mut cost = Vec::new(alloc);
    for b in 0..5_000i64 {
        let earned = Micros::new(b % 977).expect(rt, "revenue");
        revenue.push(earned).expect(rt, "memory");
        let paid = Micros::new(b % 13).expect(rt, "cost");
        cost.push(paid).expect(rt, "memory");
    }
    Prices::new(revenue, cost).expect(rt, "prices")
}

// Fails the test where a block is worth something else.
fn have_worths(rt: &impl Abort, prices: &Prices, factor: Factor, worths: &[i128]) {
    assert!(rt; prices.len() as usize == worths.len());
    for b in 0..prices.len() {
        assert!(rt; worths.get(b as usize) == Some(&prices.worth(b, factor)));
    }
}

#[test]
fn worths_by_threads_are_those_of_the_blocks(rt: HostRuntime) {
    let prices = many_prices(&rt, rt.alloc());
    let factor = factor_of(&rt, 730);
    let worths = prices
        .worths_at(&rt, rt.alloc(), factor)
        .expect(&rt, "memory");
    same(&rt, worths.len(), 5_000);
    have_worths(&rt, &prices, factor, &worths);
}
