//! Tries which block a turn takes next, that there is none at the limit of steps, and that turns of several
//! workers make a board quiet.

use crate::small_nets::{two_on_dear_waste, two_on_waste};
use boards::{Board, End, Turn};
use closure_net::{Carried, Flow, Net, pit_of};
use ordered_group::{OrderedGroup, Worth, WorthSize};
use std::alloc::Global;
use std::fmt::Debug;
use std::process::Abort;

// Fails the test where they differ.
pub fn same<T: PartialEq + Debug + Drop>(rt: &impl Abort, got: T, wanted: T) {
    assert_eq!(rt; got, wanted);
}

// Fails the test where it is false.
pub fn holds(rt: &impl Abort, fact: bool) {
    assert!(rt; fact);
}

// A first step of a block: the operation that it begins goes on.
fn begins(block: u32) -> Turn {
    Turn::Stepped { block, more: true }
}

// A worker's turn: its own block, from which block it looks, up to how many steps, and what it answers.
type Asked = (Option<u32>, u32, u64, Turn);

fn takes(rt: &impl Abort, board: &mut Board<WorthSize>, rows: &[Asked]) {
    for (own, from, steps, answer) in rows {
        takes_one(rt, board, *own, *from, *steps, *answer);
    }
}

fn takes_one(
    rt: &impl Abort,
    board: &mut Board<WorthSize>,
    own: Option<u32>,
    from: u32,
    steps: u64,
    answer: Turn,
) {
    assert_eq!(rt;
        board.turn(own, from, steps),
        answer,
        "{own:?} {from} {steps}"
    );
}

// Blocks worth 6 and 5 rest on one worth -10.
fn board_of_dear_waste(rt: &impl Abort, alloc: Global) -> Board<WorthSize> {
    let net: Net<WorthSize> = two_on_dear_waste(rt, alloc);
    Board::open(alloc, &net).expect(rt, "memory")
}

// A block that has no operation, and one that there isn't, count as none. One after the last from which is looked counts
// as the first.
#[test]
fn which_block_a_turn_takes(rt: HostRuntime) {
    let limit = Turn::Ended(End::Limit);
    let rows = [
        (Some(3), 1, 100, begins(1)),
        (Some(1), 0, 100, begins(1)),
        // at its limit there is no turn, whoever waits
        (None, 0, 2, limit),
        (Some(1), 0, 2, limit),
        (Some(2), u32::MAX, 3, begins(0)),
        (Some(0), 0, 3, limit),
        // all with excess are at work
        (None, 0, 100, Turn::Idle),
        (Some(2), 0, 100, Turn::Idle),
        (Some(u32::MAX), 3, 100, Turn::Idle),
    ];
    let mut board = board_of_dear_waste(&rt, rt.alloc());
    takes(&rt, &mut board, &rows);
}

// How many turns of a block come one after the other, and whether its operation ends with them: two
// blocks rest on waste, and a push of the first one is cut in three by turns of the others.
const STRETCHES: [(u32, u64, bool); 23] = [
    (0, 5, true),
    (0, 4, false),
    (2, 5, true),
    (2, 7, true),
    (1, 7, true),
    (1, 9, true),
    (1, 6, true),
    (1, 8, true),
    (2, 5, true),
    (2, 7, true),
    (1, 6, true),
    (0, 1, false),
    (0, 2, true),
    (1, 9, true),
    (0, 5, true),
    (0, 7, true),
    (1, 9, true),
    (1, 6, true),
    (1, 8, true),
    (0, 5, true),
    (0, 7, true),
    (2, 5, true),
    (2, 7, true),
];

// Takes turns as a worker that has this block, or finds it waiting.
fn takes_turns(rt: &impl Abort, board: &mut Board<Worth>, block: u32, turns: u64, ends: bool) {
    for turn in 0..turns {
        let more = !ends || turn + 1 < turns;
        assert_eq!(rt;
            board.turn(Some(block), block, 140),
            Turn::Stepped { block, more }
        );
    }
}

fn takes_stretches(rt: &impl Abort, board: &mut Board<Worth>) {
    for (block, turns, ends) in STRETCHES {
        takes_turns(rt, board, block, turns, ends);
    }
}

// A board at which all of these turns were taken.
fn board_after_the_turns(rt: &impl Abort, alloc: Global) -> Board<Worth> {
    let net: Net<Worth> = two_on_waste(rt, alloc);
    let mut board = Board::open(alloc, &net).expect(rt, "memory");
    takes_stretches(rt, &mut board);
    board
}

#[test]
fn turns_of_several_workers_make_a_board_quiet(rt: HostRuntime) {
    let mut board = board_after_the_turns(&rt, rt.alloc());
    same(&rt, board.count(), 140);
    // that it is quiet is told before the limit
    same(&rt, board.turn(None, 0, 140), Turn::Ended(End::Quiet));
}

/// Whether these arcs, three at most, carry these amounts.
pub fn carry<G: OrderedGroup>(arcs: &Carried<G>, amounts: &[G]) -> bool {
    if arcs.len() != amounts.len() || arcs.len() > 3 {
        return false;
    }
    for k in 0..arcs.len() {
        if arcs.at(k as u32) != amounts[k] {
            return false;
        }
    }
    true
}

// The net and the flow of a board that is quiet.
pub fn settled<G: OrderedGroup>(rt: &impl Abort, board: Board<G>) -> (Net<G>, Flow<G>) {
    match board.settle() {
        Ok(settled) => settled,
        Err(_) => panic!(rt; "a board that isn't quiet"),
    }
}

// The pit that a flow leaves.
pub fn leaves<G: OrderedGroup>(
    rt: &impl Abort,
    alloc: Global,
    net: &Net<G>,
    flow: &Flow<G>,
    pit: &[u32],
) {
    assert!(rt; flow.fits(net));
    let left = pit_of(alloc, net, flow).expect(rt, "memory");
    assert!(rt; left.blocks() == pit);
}
