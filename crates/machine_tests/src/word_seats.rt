//! Tries the calls by which a run without a lock is opened, stepped and ended, on one thread that serves all
//! seats.

ghost use Rattle.std.specs.Prelude.{◌≡◌, ◌<◌, IfOk, IfSome};
ghost use Rattle.word_runner.specs.Seats.{IsServing, IsServed};
ghost use Rattle.word_runner.specs.Openings.{IsFirst, AreFirst};
ghost use Rattle.word_runner.specs.Runs.{AreSeats};

use crate::word_runs::{net_of, two_on_dear_waste};
use closure_net::{Flow, Net, pit_of};
use ordered_group::Scaled;
use std::alloc::{AllocError, Global};
use std::test::Fail;
use word_runner::{SettleFault, WordSeat, WordTurn, Words, WordsFault};

// A seat, and the block at which it is in a round of its blocks.
#[derive(Drop)]
struct Turning {
    seat: WordSeat,
    at: u32,
}

// One turn of a seat of two, which is at a block of its round. None where it is too large.
fn turned(words: &Words, turning: Turning, number: u32) -> Option<Turning>
    requires few { number < 2 }
    requires serving { IsServing words.now.shared number 2 turning.seat turning.at }
    ensures { IfSome result (λ t. IsServing words.now.shared number 2 t.seat t.at) }
{
    let Turning { seat, at } = turning;
    let mut seat = seat;
    if at >= words.len() {
        return Some(Turning { seat, at: number });
    }
    match seat.turn(words, at) {
        WordTurn::Stepped {
            event: _,
            more: true,
        } => Some(Turning { seat, at }),
        WordTurn::Stepped {
            event: _,
            more: false,
        } => Some(Turning { seat, at: at + 2 }),
        WordTurn::TooLarge => None,
    }
}

// So many turns of both seats, one after the other.
fn turned_in_turns(
    words: &Words,
    left: WordSeat,
    right: WordSeat,
    turns: u64,
) -> Option<(WordSeat, WordSeat)>
    requires left { IsFirst words.now 0 2 left }
    requires right { IsFirst words.now 1 2 right }
    ensures { IfSome result (λ s. IsServed words.now.shared 0 2 s.0
        × IsServed words.now.shared 1 2 s.1) }
{
    let mut left = Turning { seat: left, at: 0 };
    let mut right = Turning { seat: right, at: 1 };
    for _turn in 0..turns {
        left = turned(words, left, 0)?;
        right = turned(words, right, 1)?;
    }
    Some((left.seat, right.seat))
}

// The two seats of a list.
fn apart(_words: &Words, seats: Vec<WordSeat>) -> Option<(WordSeat, WordSeat)>
    requires { AreFirst _words.now 2 seats.items }
    ensures { IfSome result (λ s. IsFirst _words.now 0 2 s.0 × IsFirst _words.now 1 2 s.1) }
{
    let mut seats = seats;
    let Some(right) = seats.pop() else {
        return None;
    };
    let Some(left) = seats.pop() else {
        return None;
    };
    Some((left, right))
}

// Whether all has arrived by what a seat of these words sees.
fn sees_all(words: &Words, seat: WordSeat, _number: u32) -> (WordSeat, bool)
    requires { IsServed words.now.shared _number 2 seat }
    ensures { IsServed words.now.shared _number 2 result.0 }
{
    let mut seat = seat;
    let all = seat.arrived(words);
    (seat, all)
}

// The list of two seats.
fn together(
    alloc: Global,
    _words: &Words,
    left: WordSeat,
    right: WordSeat,
) -> Result<Vec<WordSeat>, AllocError>
    requires two { _words.now.workers ≡ 2 }
    requires seats { IsServed _words.now.shared 0 2 left × IsServed _words.now.shared 1 2 right }
    ensures { IfOk result (λ v. AreSeats _words.now v.items) }
{
    let mut seats = Vec::new(alloc);
    seats.push(left)?;
    seats.push(right)?;
    Ok(seats)
}

// The flow of a net's words after so many turns of two seats by one thread, and whether a seat saw all arrive.
fn settled_by_one_thread(
    alloc: Global,
    net: &Net<Scaled>,
    turns: u64,
) -> Result<(Result<Flow<Scaled>, SettleFault>, bool), Fail> {
    let (words, seats) = Words::open(alloc, net, 2).ok().ok_or("words")?;
    let (left, right) = apart(&words, seats).ok_or("seats")?;
    let (left, right) = turned_in_turns(&words, left, right, turns).ok_or("turns")?;
    let (left, all) = sees_all(&words, left, 0);
    let seats = together(alloc, &words, left, right)?;
    Ok((words.settle(alloc, seats), all))
}

// Two on dear waste: before all has arrived no flow is answered, and then the flow of the pit of all three.
#[test]
fn public_calls_settle_two_seats_of_one_thread(rt: HostRuntime) -> Result<(), Fail> {
    let alloc = rt.alloc();
    let net = two_on_dear_waste(alloc)?;
    let (early, all) = settled_by_one_thread(alloc, &net, 20)?;
    assert!(rt; !all && early.err() == Some(SettleFault::Unsettled));
    let (late, all) = settled_by_one_thread(alloc, &net, 1_000)?;
    let flow = late.ok().ok_or("settled")?;
    assert!(rt; all && flow.fits(&net));
    assert!(rt; pit_of(alloc, &net, &flow)?.blocks() == [0, 1, 2].as_slice());
    Ok(())
}

// How words that are opened and closed at once end.
fn opened_and_settled(
    alloc: Global,
    net: &Net<Scaled>,
    workers: u32,
) -> Result<SettleFault, WordsFault> {
    let (words, seats) = Words::open(alloc, net, workers)?;
    match words.settle(alloc, seats) {
        Ok(_) => Err(WordsFault::NoMemory),
        Err(fault) => Ok(fault),
    }
}

#[test]
fn words_before_the_first_step(rt: HostRuntime) -> Result<(), Fail> {
    let cases: [(i128, u32, Result<SettleFault, WordsFault>); 4] = [
        (5, 1, Ok(SettleFault::Unsettled)),
        (5, 2, Ok(SettleFault::Unsettled)),
        (5, 3, Err(WordsFault::BadWorkers)),
        (9_223_372_036_854_775_808, 1, Err(WordsFault::TooLarge)),
    ];
    for (units, workers, end) in cases {
        let net = net_of(rt.alloc(), &[], &[units])?;
        assert_eq!(rt; opened_and_settled(rt.alloc(), &net, workers), end);
    }
    Ok(())
}
