//! Ends a run without a lock: takes the shared words and all seats, and gives a maximum flow where nothing is left to
//! do, or why there is none.

ghost use Rattle.std.specs.Prelude.{◌≡◌, ◌+◌, ◌≤◌, ◌⊎◌, slice_index, ◌++◌, IsTrue, ◌↔◌, MatchOption, MatchResult};
ghost use Rattle.std.specs.Mem.Slots.{slots_items, slots_len, IsFull};
ghost use Rattle.machine_law.specs.declared.operations.Operation.TheVariants.{Idle};
ghost use Rattle.word_steps.specs.SeatSteps.{IsSeat};
ghost use Rattle.word_runner.specs.Seats.{IsWorker, IsServed};
ghost use Rattle.word_runner.specs.Runs.{AreSeats, IsRunSettled, SettleFaultStands};
ghost use Rattle.word_runner.specs.Ends.{IsQuietEnd, CloseFaultStands, EndFaultStands};

use crate::flows::flow_of;
use crate::net_words::Words;
use crate::seats::WordSeat;
use crate::settle_fault::SettleFault;
use atomic_table::Closed;
use closure_net::Flow;
use ordered_group::Scaled;
use std::alloc::Global;
use word_steps::{TableSeat, Whole};

// Whether what has arrived at the source and at the sink is the total.
fn has_arrived(closed: &Closed<(), Global>, total: u64) -> bool
    requires { IsFull closed.now.words × (2 ≤ slots_len closed.now.words) }
    ensures { IsTrue result ↔ (slice_index (slots_items closed.now.words) 0 + slice_index
        (slots_items closed.now.words) 1 ≡ total) }
{
    match closed.word(0).checked_add(closed.word(1)) {
        Some(sum) => sum == total,
        None => false,
    }
}

// The flow, where all has arrived. The seat is the last of the words, and serves all blocks.
fn close(alloc: Global, words: Words, place: TableSeat) -> Result<Flow<Scaled>, SettleFault>
    requires seat { IsSeat words.shared place }
    requires all { IsWorker 0 1 place.me.0 }
    ensures { MatchResult result
        (λ flow. IsQuietEnd words.cut place.me.0.made flow)
        (λ fault. CloseFaultStands words.cut place.me.0.made fault) }
{
    let Words {
        table,
        net,
        total,
        workers: _,
    } = words;
    let closed = table.close_with(place);
    if !has_arrived(&closed, total) {
        closed.free();
        return Err(SettleFault::Unsettled);
    }
    let flow = flow_of(alloc, &net, &closed);
    closed.free();
    match flow {
        Ok(flow) => Ok(flow),
        Err(_) => Err(SettleFault::NoMemory),
    }
}

/// The flow, where the words' one seat has no operation and all has arrived.
pub fn settle_one(alloc: Global, words: Words, seat: WordSeat) -> Result<Flow<Scaled>, SettleFault>
    requires { IsServed words.shared 0 1 seat }
    ensures { MatchResult result
        (λ flow. IsQuietEnd words.cut seat.place.me.0.made flow)
        (λ fault. EndFaultStands words.cut seat.place.me.0.made (¬ (seat.operation ≡ Idle)) fault) }
{
    if !seat.is_free() {
        return Err(SettleFault::Unsettled);
    }
    let WordSeat {
        place,
        labels: _,
        block: _,
        operation: _,
        stopped: _,
    } = seat;
    close(alloc, words, place)
}

// One seat of two, where neither has an operation.
fn join(words: &Words, left: WordSeat, right: WordSeat) -> Option<TableSeat>
    requires { IsServed words.now.shared 0 2 left × IsServed words.now.shared 1 2 right }
    ensures { MatchOption result
        (¬ (left.operation ≡ Idle) ⊎ ¬ (right.operation ≡ Idle))
        (λ p. IsSeat words.now.shared p × IsWorker 0 1 p.me.0
        × (p.me.0.made ≡ left.place.me.0.made ++ right.place.me.0.made)) }
{
    if !left.is_free() || !right.is_free() {
        return None;
    }
    let WordSeat {
        mut place,
        labels: _,
        block: _,
        operation: _,
        stopped: _,
    } = left;
    let WordSeat {
        place: other,
        labels: _,
        block: _,
        operation: _,
        stopped: _,
    } = right;
    words.table.shared.join_seat::<Whole>(&mut place, other);
    Some(place)
}

/// The flow, where neither of the words' two seats has an operation and all has arrived.
pub fn settle_two(
    alloc: Global,
    words: Words,
    left: WordSeat,
    right: WordSeat,
) -> Result<Flow<Scaled>, SettleFault>
    requires { IsServed words.shared 0 2 left × IsServed words.shared 1 2 right }
    ensures { MatchResult result
        (λ flow. IsQuietEnd words.cut (left.place.me.0.made ++ right.place.me.0.made) flow)
        (λ fault. EndFaultStands words.cut (left.place.me.0.made ++ right.place.me.0.made)
        (¬ (left.operation ≡ Idle) ⊎ ¬ (right.operation ≡ Idle)) fault) }
{
    match join(&words, left, right) {
        Some(place) => close(alloc, words, place),
        None => Err(SettleFault::Unsettled),
    }
}

impl Words {
    /// The flow, where no seat has an operation and all that the source gave has arrived: a greatest flow of the net
    /// that was handed in. These are all seats of the words.
    ///
    /// # Errors
    /// `Unsettled` where a seat has an operation, or not all has arrived, so that some block has excess. `NoMemory`
    /// where memory was refused.
    pub fn settle(self, alloc: Global, seats: Vec<WordSeat>) -> Result<Flow<Scaled>, SettleFault>
        requires { AreSeats self seats.items }
        ensures { MatchResult result
            (λ flow. IsRunSettled self seats.items flow)
            (λ fault. SettleFaultStands self seats.items fault) }
    {
        // proof: there are one or two workers, so one or two seats
        let _few = self.workers;
        let mut seats = seats;
        let Some(last) = seats.pop() else {
            unreachable!("there are one or two seats");
        };
        match seats.pop() {
            None => settle_one(alloc, self, last),
            Some(first) => settle_two(alloc, self, first, last),
        }
    }
}
