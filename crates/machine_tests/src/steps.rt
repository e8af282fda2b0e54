//! Tries single steps of the push-relabel machine against a run that is known from elsewhere, step
//! by step and state by state, and which steps are refused.

ghost use Rattle.async_step.specs.Answers.{IsStateOf};

use crate::board_turns::{carry, holds, same};
use crate::small_nets::{sizes_too_large, two_on_waste};
use async_step::{ReplayFault, Saw, State, StepRefusal, replay};
use closure_net::{Flow, Net};
use machine_law::{Event, Kind};
use ordered_group::{OrderedGroup, Worth, WorthSize};
use std::alloc::Global;
use std::process::Abort;

const RE: Kind = Kind::ReadExcess;

const RC: Kind = Kind::ReadCapacity;

const RL: Kind = Kind::ReadLabel;

const TC: Kind = Kind::TakeCapacity;

const GC: Kind = Kind::GiveCapacity;

const TE: Kind = Kind::TakeExcess;

const GE: Kind = Kind::GiveExcess;

const RA: Kind = Kind::RaiseLabel;

// A state in whole values: the labels and the excess of the blocks, the flows of the pairs, what the blocks have of the
// source, and what block 1 gave the sink.
type After = ([u64; 3], [i128; 3], [i128; 2], [i128; 3], i128);

// A block, and the kinds of steps that it makes one after another.
const STEPS: [(u32, &'static [Kind]); 23] = [
    (0, &[RE, RL, RC, RL, RA]),
    (0, &[RE, RL, RC, RL]),
    (2, &[RE, RL, RC, RL, RA]),
    (2, &[RE, RL, RC, RL, GC, TE, GE]),
    (1, &[RE, RC, RL, RC, RC, RL, RA]),
    (1, &[RE, RC, RL, RC, RC, RL, TC, TE, GE]),
    (1, &[RE, RC, RC, RC, RL, RA]),
    (1, &[RE, RC, RC, RC, RL, TC, TE, GE]),
    (2, &[RE, RL, RC, RL, RA]),
    (2, &[RE, RL, RC, RL, GC, TE, GE]),
    (1, &[RE, RC, RC, RC, RL, RA]),
    (0, &[GC]),
    (0, &[TE, GE]),
    (1, &[RE, RC, RC, RL, RC, RL, TC, TE, GE]),
    (0, &[RE, RL, RC, RL, RA]),
    (0, &[RE, RL, RC, RL, GC, TE, GE]),
    (1, &[RE, RC, RC, RL, RC, RL, TC, TE, GE]),
    (1, &[RE, RC, RC, RL, RC, RA]),
    (1, &[RE, RC, RC, RL, RC, TC, TE, GE]),
    (0, &[RE, RL, RC, RL, RA]),
    (0, &[RE, RL, RC, RL, TC, TE, GE]),
    (2, &[RE, RL, RC, RL, RA]),
    (2, &[RE, RL, RC, RL, TC, TE, GE]),
];

// The state after each of these.
const AFTER: [After; 23] = [
    ([1, 0, 0], [4, 0, 4], [0, 0], [4, 0, 4], 0),
    ([1, 0, 0], [4, 0, 4], [0, 0], [4, 0, 4], 0),
    ([1, 0, 1], [4, 0, 4], [0, 0], [4, 0, 4], 0),
    ([1, 0, 1], [4, 4, 0], [0, 4], [4, 0, 4], 0),
    ([1, 1, 1], [4, 4, 0], [0, 4], [4, 0, 4], 0),
    ([1, 1, 1], [4, 3, 0], [0, 4], [4, 0, 4], 1),
    ([1, 2, 1], [4, 3, 0], [0, 4], [4, 0, 4], 1),
    ([1, 2, 1], [4, 0, 3], [0, 1], [4, 0, 4], 1),
    ([1, 2, 3], [4, 0, 3], [0, 1], [4, 0, 4], 1),
    ([1, 2, 3], [4, 3, 0], [0, 4], [4, 0, 4], 1),
    ([1, 4, 3], [4, 3, 0], [0, 4], [4, 0, 4], 1),
    ([1, 4, 3], [4, 3, 0], [4, 4], [4, 0, 4], 1),
    ([1, 4, 3], [0, 7, 0], [4, 4], [4, 0, 4], 1),
    ([1, 4, 3], [4, 3, 0], [0, 4], [4, 0, 4], 1),
    ([5, 4, 3], [4, 3, 0], [0, 4], [4, 0, 4], 1),
    ([5, 4, 3], [0, 7, 0], [4, 4], [4, 0, 4], 1),
    ([5, 4, 3], [0, 3, 4], [4, 0], [4, 0, 4], 1),
    ([5, 6, 3], [0, 3, 4], [4, 0], [4, 0, 4], 1),
    ([5, 6, 3], [3, 0, 4], [1, 0], [4, 0, 4], 1),
    ([6, 6, 3], [3, 0, 4], [1, 0], [4, 0, 4], 1),
    ([6, 6, 3], [0, 0, 4], [1, 0], [1, 0, 4], 1),
    ([6, 6, 6], [0, 0, 4], [1, 0], [1, 0, 4], 1),
    ([6, 6, 6], [0, 0, 0], [1, 0], [1, 0, 0], 1),
];

fn worth(value: i128) -> Worth {
    Worth {
        nanos: value.wrapping_mul(1_000_000_000),
    }
}

fn push_steps(rt: &impl Abort, events: &mut Vec<Event>, block: u32, kinds: &[Kind]) {
    for kind in kinds {
        let event = Event { block, kind: *kind };
        events.push(event).expect(rt, "memory");
    }
}

fn push_rows(rt: &impl Abort, events: &mut Vec<Event>) {
    for row in &STEPS {
        let (block, kinds) = *row;
        push_steps(rt, events, block, kinds);
    }
}

// The state after a row, in whole values.
fn is_state(rt: &impl Abort, state: &State<Worth>, after: After) {
    let (labels, excess, _, source, _) = after;
    assert!(rt; state.len() == 3);
    for b in 0..3u32 {
        let i = b as usize;
        same(rt, state.label(b), labels[i]);
        same(rt, state.excess(b), worth(excess[i]));
        same(rt, state.source(b), worth(source[i]));
    }
}

// What pairs carry after it, and what block 1 gave the sink.
fn is_flow(rt: &impl Abort, state: &State<Worth>, net: &Net<Worth>, after: After)
    requires { IsStateOf net.now state.now }
{
    let (_, _, flow, _, sink) = after;
    assert!(rt; net.rests().pairs() == 2);
    same(rt, state.flow(0), worth(flow[0]));
    same(rt, state.flow(1), worth(flow[1]));
    assert!(rt; state.len() == 3);
    same(rt, state.sink(1), worth(sink));
}

// What two of the steps saw.
fn is_known(rt: &impl Abort, steps: u64, saw: Saw<Worth>) {
    if steps == 69 {
        same(rt, saw, Saw::Raised(4));
    }
    if steps == 70 {
        same(rt, saw, Saw::Moved(worth(4)));
    }
}

// Makes a step that is next for its block.
fn make(rt: &impl Abort, state: &mut State<Worth>, net: &Net<Worth>, event: Event)
    requires { IsStateOf net.now state.old }
    ensures { IsStateOf net.now state.new }
{
    assert!(rt; event.block < net.len());
    same(rt, state.next_kind(net, event.block), event.kind);
    holds(rt, !state.quiet());
    let saw = state.step(net, event).expect(rt, "a step");
    is_known(rt, state.count(), saw);
}

fn make_row(rt: &impl Abort, state: &mut State<Worth>, net: &Net<Worth>, block: u32, kinds: &[Kind])
    requires { IsStateOf net.now state.old }
    ensures { IsStateOf net.now state.new }
{
    for kind in kinds {
        make(rt, state, net, Event { block, kind: *kind });
    }
}

fn make_rows(rt: &impl Abort, state: &mut State<Worth>, net: &Net<Worth>)
    requires { IsStateOf net.now state.old }
    ensures { IsStateOf net.now state.new }
{
    for row in 0..23usize {
        let (block, kinds) = STEPS[row];
        make_row(rt, state, net, block, kinds);
        is_state(rt, state, AFTER[row]);
        is_flow(rt, state, net, AFTER[row]);
    }
}

fn is_quiet_after(rt: &impl Abort, state: &State<Worth>, steps: u64) {
    same(rt, state.count(), steps);
    holds(rt, state.quiet());
}

#[test]
fn every_row_of_the_run(rt: HostRuntime) {
    let alloc = rt.alloc();
    let net: Net<Worth> = two_on_waste(&rt, alloc);
    let mut state = State::open(alloc, &net).expect(&rt, "memory");
    make_rows(&rt, &mut state, &net);
    is_quiet_after(&rt, &state, 140);
}

// One unit goes from the source over the first pair into the sink.
fn is_flow_of_one(rt: &impl Abort, flow: &Flow<Worth>) {
    assert!(rt; carry(flow.source(), &[worth(1), worth(0), worth(0)]));
    assert!(rt; carry(flow.rest(), &[worth(1), worth(0)]));
    assert!(rt; carry(flow.sink(), &[worth(0), worth(1), worth(0)]));
}

// All steps of the run.
fn run_of_rows(rt: &impl Abort, alloc: Global) -> Vec<Event> {
    let mut events = Vec::new(alloc);
    push_rows(rt, &mut events);
    same(rt, events.len(), 140);
    events
}

// The flow in which these steps end.
fn flow_after(rt: &impl Abort, alloc: Global, net: &Net<Worth>, events: &[Event]) -> Flow<Worth> {
    let state = replay(alloc, net, events).expect(rt, "steps");
    match state.into_flow(net) {
        Ok(flow) => flow,
        Err(_) => panic!(rt; "a state that isn't quiet"),
    }
}

#[test]
fn the_run_ends_in_a_flow(rt: HostRuntime) {
    let alloc = rt.alloc();
    let net: Net<Worth> = two_on_waste(&rt, alloc);
    let events = run_of_rows(&rt, alloc);
    let flow = flow_after(&rt, alloc, &net, &events);
    is_flow_of_one(&rt, &flow);
}

// A replay ends at this step, which is refused.
fn is_refused<G: OrderedGroup>(
    rt: &impl Abort,
    alloc: Global,
    net: &Net<G>,
    events: &[Event],
    place: usize,
    refusal: StepRefusal,
) {
    let fault = replay(alloc, net, events).err();
    assert_eq!(rt; fault, Some(ReplayFault::Refused(place, refusal)));
}

#[test]
fn a_step_out_of_turn(rt: HostRuntime) {
    let alloc = rt.alloc();
    let mut events = Vec::new(alloc);
    push_steps(
        &rt,
        &mut events,
        0,
        &[RE, RL, RC, RL, RA, RE, RL, RC, RL, GC, GE],
    );
    let net: Net<Worth> = two_on_waste(&rt, alloc);
    is_refused(&rt, alloc, &net, &events, 11, StepRefusal::OutOfTurn(TE));
}

// The steps up to the one that doesn't fit.
fn steps_that_fit(rt: &impl Abort, alloc: Global) -> Vec<Event> {
    let mut events = Vec::new(alloc);
    push_steps_that_fit(rt, &mut events);
    events
}

fn push_steps_that_fit(rt: &impl Abort, events: &mut Vec<Event>) {
    push_steps(
        rt,
        events,
        0,
        &[RE, RL, RC, RL, RA, RE, RL, RC, RL, GC, TE, GE],
    );
    push_steps(
        rt,
        events,
        1,
        &[RE, RC, RL, RC, RL, RA, RE, RC, RL, RC, RL, TC],
    );
}

// The step is refused, and no step is counted.
fn is_too_large(rt: &impl Abort, state: &mut State<WorthSize>, net: &Net<WorthSize>)
    requires { IsStateOf net.now state.old }
    ensures { IsStateOf net.now state.new }
{
    let event = Event { block: 1, kind: TE };
    same(
        rt,
        state.step(net, event).err(),
        Some(StepRefusal::TooLarge),
    );
    same(rt, state.count(), 24);
}

// However often it is tried.
fn stays_too_large(rt: &impl Abort, state: &mut State<WorthSize>, net: &Net<WorthSize>)
    requires { IsStateOf net.now state.old }
{
    is_too_large(rt, state, net);
    is_too_large(rt, state, net);
}

#[test]
fn a_sum_too_large(rt: HostRuntime) {
    let alloc = rt.alloc();
    let net = sizes_too_large(&rt, alloc);
    let mut events = steps_that_fit(&rt, alloc);
    let mut state = replay(alloc, &net, &events).expect(&rt, "steps");
    stays_too_large(&rt, &mut state, &net);
    push_steps(&rt, &mut events, 1, &[TE]);
    is_refused(&rt, alloc, &net, &events, 25, StepRefusal::TooLarge);
}

fn has_no_block_3(rt: &impl Abort, state: &mut State<Worth>, net: &Net<Worth>)
    requires { IsStateOf net.now state.old }
    ensures { IsStateOf net.now state.new }
{
    let event = Event { block: 3, kind: RE };
    same(rt, state.step(net, event), Err(StepRefusal::NoSuchBlock));
    same(rt, state.count(), 0);
}

// A block with four units reads its excess.
fn reads_four(rt: &impl Abort, state: &mut State<Worth>, net: &Net<Worth>, block: u32)
    requires { IsStateOf net.now state.old }
    ensures { IsStateOf net.now state.new }
{
    let event = Event { block, kind: RE };
    let saw = state.step(net, event).ok();
    same(rt, saw, Some(Saw::Excess(worth(4))));
}

// The first that waits from block 0, and from block 1.
fn wait(rt: &impl Abort, state: &State<Worth>, from_0: Option<u32>, from_1: Option<u32>) {
    assert_eq!(rt; (state.waiting(0), state.waiting(1)), (from_0, from_1));
}

// None waits where all that have excess are at work.
fn wait_in_turn(rt: &impl Abort, state: &mut State<Worth>, net: &Net<Worth>)
    requires { IsStateOf net.now state.old }
    ensures { IsStateOf net.now state.new }
{
    wait(rt, state, Some(0), Some(2));
    reads_four(rt, state, net, 2);
    wait(rt, state, Some(0), Some(0));
    reads_four(rt, state, net, 0);
    wait(rt, state, None, None);
}

// It stays as it was after the first steps of blocks 2 and 0.
fn is_not_quiet(rt: &impl Abort, state: State<Worth>, net: &Net<Worth>)
    requires { IsStateOf net.now state }
{
    assert!(rt; net.len() == 3);
    match state.into_flow(net) {
        Ok(_) => panic!(rt; "a flow of a state that isn't quiet"),
        Err(state) => {
            same(rt, state.count(), 2);
            same(rt, state.next_kind(net, 0), RL);
        }
    }
}

#[test]
fn who_waits_in_a_state_that_is_not_quiet(rt: HostRuntime) {
    let alloc = rt.alloc();
    let net: Net<Worth> = two_on_waste(&rt, alloc);
    let mut state = State::open(alloc, &net).expect(&rt, "memory");
    has_no_block_3(&rt, &mut state, &net);
    wait_in_turn(&rt, &mut state, &net);
    is_not_quiet(&rt, state, &net);
}
