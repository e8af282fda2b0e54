//! Tries small nets: which blocks the source reaches by a flow, which blocks a pit holds, which arcs a
//! block has, and which nets are refused.

ghost use Rattle.std.specs.Prelude.{◌≤◌};

use crate::prec_reading::has_pairs;
use closure_net::{Carried, Flow, Net, NetFault, Pit, Port, PortKind, pit_of};
use fixed_worth::MOST_BLOCKS;
use ordered_group::{Scaled, Worth, WorthSize};
use prec_file::Rests;
use std::alloc::Global;
use std::process::Abort;
use std::test::Fail;

fn amount(nanos: i128, size: i128) -> WorthSize {
    WorthSize { nanos, size }
}

fn rests(alloc: Global, n: u32, pairs: &[(u32, u32)]) -> Result<Rests, Fail>
    requires { n ≤ MOST_BLOCKS }
{
    Ok(Rests::from_pairs(alloc, n, pairs).ok().ok_or("pairs")?)
}

// Two blocks of worth that rest on a block of waste.
fn two_on_waste(alloc: Global, nanos: &[i128]) -> Result<Net<WorthSize>, Fail> {
    let rests = rests(alloc, 3, &[(0, 2), (1, 2)])?;
    Ok(Net::of_worths(alloc, rests, nanos).ok().ok_or("worths")?)
}

fn flow_of(
    alloc: Global,
    source: &[WorthSize],
    rest: &[WorthSize],
    sink: &[WorthSize],
) -> Result<Flow<WorthSize>, Fail> {
    let source = Carried::from_list(Vec::from_slice(alloc, source)?);
    let rest = Carried::from_list(Vec::from_slice(alloc, rest)?);
    let sink = Carried::from_list(Vec::from_slice(alloc, sink)?);
    Ok(Flow::new(source, rest, sink))
}

// The source reaches these blocks in the net by this flow.
fn reaches(
    rt: &impl Abort,
    alloc: Global,
    net: &Net<WorthSize>,
    flow: &Flow<WorthSize>,
    blocks: &[u32],
) -> Result<(), Fail> {
    assert!(rt; flow.fits(net));
    let pit = pit_of(alloc, net, flow)?;
    assert!(rt; pit.blocks() == blocks && pit.is_empty() == blocks.is_empty());
    Ok(())
}

// The source reaches these blocks by the flow of these parts: what leaves the source, what the pairs carry, and what
// the sink takes.
fn reaches_by(
    rt: &impl Abort,
    alloc: Global,
    net: &Net<WorthSize>,
    parts: (&[WorthSize], &[WorthSize], &[WorthSize]),
    blocks: &[u32],
) -> Result<(), Fail> {
    let flow = flow_of(alloc, parts.0, parts.1, parts.2)?;
    reaches(rt, alloc, net, &flow, blocks)
}

fn refusal(alloc: Global, worths: &[WorthSize]) -> Result<Option<NetFault>, Fail> {
    let rests = rests(alloc, 2, &[(0, 1)])?;
    let worths = Vec::from_slice(alloc, worths)?;
    Ok(Net::build(rests, worths).err())
}

fn refused_as(
    rt: &impl Abort,
    alloc: Global,
    worths: &[WorthSize],
    fault: Option<NetFault>,
) -> Result<(), Fail> {
    assert_eq!(rt; refusal(alloc, worths)?, fault);
    Ok(())
}

fn is_pit(alloc: Global, blocks: &[u32]) -> Result<bool, Fail> {
    Ok(Pit::new(Vec::from_slice(alloc, blocks)?).is_some())
}

fn pit(alloc: Global, blocks: &[u32]) -> Result<Pit, Fail> {
    Ok(Pit::new(Vec::from_slice(alloc, blocks)?).ok_or("pit")?)
}

#[test]
fn all_blocks_are_reached(rt: HostRuntime) -> Result<(), Fail> {
    let alloc = rt.alloc();
    let net = two_on_waste(alloc, &[6, 5, -10])?;
    let source = [amount(6, -1), amount(4, 2), amount(0, 0)];
    let rest = [amount(6, -1), amount(4, 2)];
    let sink = [amount(0, 0), amount(0, 0), amount(10, 1)];
    reaches_by(&rt, alloc, &net, (&source, &rest, &sink), &[0, 1, 2])
}

#[test]
fn no_block_is_reached(rt: HostRuntime) -> Result<(), Fail> {
    let alloc = rt.alloc();
    let rests = rests(alloc, 2, &[(0, 1)])?;
    let net = Net::of_worths(alloc, rests, &[10, -10])
        .ok()
        .ok_or("worths")?;
    let source = [amount(10, -1), amount(0, 0)];
    let rest = [amount(10, -1)];
    let sink = [amount(0, 0), amount(10, -1)];
    reaches_by(&rt, alloc, &net, (&source, &rest, &sink), &[])
}

// Whether a search from this place on finds each block of the pit, and no other.
fn found_from(pit: &Pit, start: usize) -> bool {
    for b in 0..12 {
        let mut place = start;
        if pit.holds_near(&mut place, b) != (b == 1 || b == 2 || b == 5 || b == 9) {
            return false;
        }
    }
    true
}

// Any place gives the same answer, and the one after a block that is found is left.
#[test]
fn blocks_are_found_from_any_place(rt: HostRuntime) -> Result<(), Fail> {
    let pit = pit(rt.alloc(), &[1, 2, 5, 9])?;
    for start in 0..7 {
        assert!(rt; found_from(&pit, start));
    }
    let mut place = 0;
    assert!(rt; pit.holds_near(&mut place, 5) && place == 3);
    Ok(())
}

fn is_its_copy(alloc: Global, net: &Net<WorthSize>) -> Result<bool, Fail> {
    let copy = net.copy(alloc)?;
    Ok(net.same_as(&copy))
}

fn is_that_of(alloc: Global, net: &Net<WorthSize>, nanos: &[i128]) -> Result<bool, Fail> {
    let other = two_on_waste(alloc, nanos)?;
    Ok(net.same_as(&other))
}

// Whether a net is the same as its copy, and another than that of other worths.
fn is_its_copy_alone(alloc: Global, net: &Net<WorthSize>) -> Result<bool, Fail> {
    let copied = is_its_copy(alloc, net)?;
    Ok(copied && !is_that_of(alloc, net, &[6, 5, -9])?)
}

#[test]
fn a_copy_is_the_same(rt: HostRuntime) -> Result<(), Fail> {
    let net = two_on_waste(rt.alloc(), &[6, 5, -10])?;
    assert!(rt; is_its_copy_alone(rt.alloc(), &net)?);
    Ok(())
}

#[test]
fn a_net_gives_its_pairs_back(rt: HostRuntime) -> Result<(), Fail> {
    let rests = two_on_waste(rt.alloc(), &[6, 5, -10])?.into_rests();
    assert!(rt; has_pairs(&rests, 3, &[(0, 2), (1, 2)]));
    Ok(())
}

#[test]
fn refused(rt: HostRuntime) -> Result<(), Fail> {
    let alloc = rt.alloc();
    let large = Some(NetFault::TooLarge);
    refused_as(&rt, alloc, &[amount(1, -1)], Some(NetFault::WrongLength))?;
    refused_as(&rt, alloc, &[amount(i128::MIN, -1), amount(0, -1)], large)?;
    refused_as(&rt, alloc, &[amount(i128::MAX, -1), amount(1, -1)], large)?;
    refused_as(&rt, alloc, &[amount(i128::MAX, -1), amount(0, -1)], None)
}

// The fault of one block of so much worth in units, if any.
fn refusal_in_units(alloc: Global, nanos: i128) -> Result<Option<NetFault>, Fail> {
    let rests = rests(alloc, 1, &[])?;
    let net: Result<Net<Scaled>, NetFault> = Net::of_worths(alloc, rests, &[nanos]);
    Ok(net.err())
}

#[test]
fn worths_whose_units_do_not_fit(rt: HostRuntime) -> Result<(), Fail> {
    let most = refusal_in_units(rt.alloc(), 1 << 126)?;
    let more = refusal_in_units(rt.alloc(), (1 << 126) + 1)?;
    assert_eq!(rt; (most, more), (None, Some(NetFault::TooLarge)));
    Ok(())
}

#[test]
fn a_pit_goes_up(rt: HostRuntime) -> Result<(), Fail> {
    assert!(rt; !is_pit(rt.alloc(), &[0, 2, 2])?);
    assert!(rt; !is_pit(rt.alloc(), &[1, 0])?);
    assert!(rt; is_pit(rt.alloc(), &[0, 2, 5])?);
    Ok(())
}

fn port(kind: PortKind, other: u32, slot: u32) -> Port {
    Port { kind, other, slot }
}

// Whether a block has these ports, in this order.
fn has_ports(net: &Net<Worth>, block: u32, wanted: &[Port]) -> bool {
    if block >= net.len() || net.ports(block) as usize != wanted.len() {
        return false;
    }
    for i in 0..net.ports(block) {
        if wanted.get(i as usize) != Some(&net.port(block, i)) {
            return false;
        }
    }
    true
}

// Whether a net has the ports of two blocks, 0 and 2, that both rest on the waste of block 1.
fn tells_its_ports(net: &Net<Worth>) -> bool {
    let left = [port(PortKind::Forward, 1, 0), port(PortKind::Source, 0, 0)];
    let waste = [
        port(PortKind::Sink, 1, 0),
        port(PortKind::Backward, 0, 0),
        port(PortKind::Backward, 2, 1),
    ];
    let right = [port(PortKind::Forward, 1, 1), port(PortKind::Source, 2, 0)];
    has_ports(net, 0, &left) && has_ports(net, 1, &waste) && has_ports(net, 2, &right)
}

#[test]
fn a_net_tells_its_ports(rt: HostRuntime) -> Result<(), Fail> {
    let rests = rests(rt.alloc(), 3, &[(0, 1), (2, 1)])?;
    let net: Net<Worth> = Net::of_worths(rt.alloc(), rests, &[4, -1, 4])
        .ok()
        .ok_or("worths")?;
    assert!(rt; tells_its_ports(&net));
    Ok(())
}
