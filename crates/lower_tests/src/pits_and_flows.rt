//! Tries checks of pits and flows of small nets: a maximum closure is accepted, and each kind of
//! mistake is refused by its name.

ghost use Rattle.std.specs.Prelude.{◌≤◌, length};

use check_pit::laws::tight_closed_set_is_greatest;
use check_pit::{PitFault, check, check_in_memory};
use closure_net::{Carried, Flow, Net, Pit};
use fixed_worth::MOST_BLOCKS;
use ordered_group::WorthSize;
use prec_file::Rests;
use std::alloc::Global;
use std::fmt::Debug;
use std::process::Abort;
use std::test::Fail;

// Fails the test where they differ.
pub fn same<T: PartialEq + Debug + Drop>(rt: &impl Abort, got: T, wanted: T) {
    assert_eq!(rt; got, wanted);
}

pub fn rests_of(alloc: Global, n: u32, pairs: &[(u32, u32)]) -> Result<Rests, Fail>
    requires { n ≤ MOST_BLOCKS }
{
    let Ok(rests) = Rests::from_pairs(alloc, n, pairs) else {
        return Err(Fail::from("rests"));
    };
    Ok(rests)
}

fn net_with(rests: Rests, worths: Vec<WorthSize>) -> Result<Net<WorthSize>, Fail> {
    let Ok(net) = Net::build(rests, worths) else {
        return Err(Fail::from("net"));
    };
    Ok(net)
}

fn net_of(alloc: Global, pairs: &[(u32, u32)], worths: &[WorthSize]) -> Result<Net<WorthSize>, Fail>
    requires { length worths.now ≤ MOST_BLOCKS }
{
    let rests = rests_of(alloc, worths.len() as u32, pairs)?;
    let worths = Vec::from_slice(alloc, worths)?;
    net_with(rests, worths)
}

fn carried(alloc: Global, amounts: &[WorthSize]) -> Result<Carried<WorthSize>, Fail> {
    Ok(Carried::from_list(Vec::from_slice(alloc, amounts)?))
}

fn flow_of(
    alloc: Global,
    source: &[WorthSize],
    rest: &[WorthSize],
    sink: &[WorthSize],
) -> Result<Flow<WorthSize>, Fail> {
    Ok(Flow::new(
        carried(alloc, source)?,
        carried(alloc, rest)?,
        carried(alloc, sink)?,
    ))
}

fn pit_of(alloc: Global, blocks: &[u32]) -> Result<Pit, Fail> {
    Ok(Pit::new(Vec::from_slice(alloc, blocks)?).ok_or("pit")?)
}

fn size(nanos: i128, size: i128) -> WorthSize {
    WorthSize { nanos, size }
}

// Blocks of 6 and 5 that rest on one of -10.
pub fn three_blocks(alloc: Global) -> Result<Net<WorthSize>, Fail> {
    net_of(
        alloc,
        &[(0, 2), (1, 2)],
        &[size(6, -1), size(5, -1), size(-10, -1)],
    )
}

// The first gives all that it has, and the second the rest of what the third needs.
fn full_flow(alloc: Global) -> Result<Flow<WorthSize>, Fail> {
    flow_of(
        alloc,
        &[size(6, -1), size(4, 2), size(0, 0)],
        &[size(6, -1), size(4, 2)],
        &[size(0, 0), size(0, 0), size(10, 1)],
    )
}

// Fails the test where the check with memory doesn't accept the pit of the three blocks, with its worth.
fn is_accepted_in_memory(
    rt: &(impl Abort + AllocGlobal),
    net: &Net<WorthSize>,
    pit: &Pit,
    flow: &Flow<WorthSize>,
) -> Result<(), Fail> {
    let accepted = check_in_memory(rt.alloc(), net, pit, flow);
    same(rt, accepted.ok().ok_or("refused")?.worth(), size(1, -3));
    Ok(())
}

// Fails the test where the check without memory doesn't.
fn is_accepted(
    rt: &impl Abort,
    net: &Net<WorthSize>,
    pit: &Pit,
    flow: &Flow<WorthSize>,
) -> Result<(), Fail> {
    let accepted = check(net, pit, flow).ok().ok_or("refused")?;
    same(rt, accepted.worth(), size(1, -3));
    same(rt, accepted.pit().blocks(), [0, 1, 2].as_slice());
    same(rt, accepted.net().rests().len(), 3);
    Ok(())
}

#[test]
fn greatest_pit_is_accepted(rt: HostRuntime) -> Result<(), Fail> {
    let alloc = rt.alloc();
    let net = three_blocks(alloc)?;
    let pit = pit_of(alloc, &[0, 1, 2])?;
    let flow = full_flow(alloc)?;
    is_accepted_in_memory(&rt, &net, &pit, &flow)?;
    is_accepted(&rt, &net, &pit, &flow)
}

const SIX: WorthSize = WorthSize { nanos: 6, size: -1 };

const FIVE: WorthSize = WorthSize { nanos: 5, size: -1 };

const WASTE: WorthSize = WorthSize {
    nanos: -10,
    size: -1,
};

const FOUR: WorthSize = WorthSize { nanos: 4, size: 2 };

const TEN: WorthSize = WorthSize { nanos: 10, size: 1 };

const ELEVEN: WorthSize = WorthSize {
    nanos: 11,
    size: -2,
};

const MOST: WorthSize = WorthSize {
    nanos: i128::MAX,
    size: 0,
};

const NONE: WorthSize = WorthSize { nanos: 0, size: 0 };

// What each block gets from the source, each pair carries, and each block gives to the sink.
type Amounts = (
    &'static [WorthSize],
    &'static [WorthSize],
    &'static [WorthSize],
);

const NOTHING: &[WorthSize] = &[NONE, NONE, NONE];

const SOURCE: &[WorthSize] = &[SIX, FOUR, NONE];

const REST: &[WorthSize] = &[SIX, FOUR];

const SINK: &[WorthSize] = &[NONE, NONE, TEN];

// Pairs, a pit, a flow, and what is wrong with them.
type Row = (&'static [(u32, u32)], &'static [u32], Amounts, PitFault);

// The fault of a flow over this net, for this pit: a check with memory finds the same.
fn fault_over(
    alloc: Global,
    net: &Net<WorthSize>,
    pit: &Pit,
    amounts: Amounts,
) -> Result<Option<PitFault>, Fail> {
    let (source, rest, sink) = amounts;
    let flow = flow_of(alloc, source, rest, sink)?;
    let fault = check(net, pit, &flow).err();
    if check_in_memory(alloc, net, pit, &flow).err() != fault {
        return Err(Fail::from("another fault with memory"));
    }
    Ok(fault)
}

// The fault of a pit and a flow of the three blocks with these pairs.
fn fault_of(
    alloc: Global,
    pairs: &[(u32, u32)],
    pit: &[u32],
    amounts: Amounts,
) -> Result<Option<PitFault>, Fail> {
    let net = net_of(alloc, pairs, &[SIX, FIVE, WASTE])?;
    let pit = pit_of(alloc, pit)?;
    fault_over(alloc, &net, &pit, amounts)
}

#[test]
fn faults_are_named(rt: HostRuntime) -> Result<(), Fail> {
    let pairs: &[(u32, u32)] = &[(0, 2), (1, 2)];
    let rows: [Row; 8] = [
        (
            pairs,
            &[0, 1, 2],
            (SOURCE, &[SIX], SINK),
            PitFault::WrongSize,
        ),
        (
            pairs,
            &[0, 1, 2, 3],
            (SOURCE, REST, SINK),
            PitFault::WrongSize,
        ),
        (
            pairs,
            &[0, 1],
            (SOURCE, REST, SINK),
            PitFault::NotClosed(0, 2),
        ),
        (
            pairs,
            &[],
            (NOTHING, &[WASTE, NONE], NOTHING),
            PitFault::Negative,
        ),
        (
            pairs,
            &[0, 1, 2],
            (&[SIX, FIVE, NONE], &[SIX, FIVE], &[NONE, NONE, ELEVEN]),
            PitFault::OverCapacity(2),
        ),
        (
            pairs,
            &[],
            (SOURCE, &[NONE, FOUR], SINK),
            PitFault::Unbalanced(0),
        ),
        (
            &[(0, 1), (0, 2)],
            &[],
            (NOTHING, &[MOST, MOST], NOTHING),
            PitFault::TooLarge,
        ),
        (pairs, &[], (SOURCE, REST, SINK), PitFault::NotTight),
    ];
    for (pairs, pit, amounts, fault) in rows {
        same(&rt, fault_of(rt.alloc(), pairs, pit, amounts)?, Some(fault));
    }
    Ok(())
}

#[test]
fn law_can_be_called() {
    tight_closed_set_is_greatest();
}
