//! A worker's private data and its next step: the operation of its block and the labels of its blocks. A step is one
//! atomic operation on one shared word.

ghost use Rattle.std.specs.Prelude.{◌≡◌, ◌<◌, ◌⊎◌, ◌^◌, length};
ghost use Rattle.machine_law.specs.declared.operations.Operation.TheVariants.{Idle};
ghost use Rattle.machine_law.specs.Operations.{is_idle as is_free};
ghost use Rattle.word_steps.specs.Views.{IsSeatsOwn};
ghost use Rattle.word_steps.specs.Turns.{labels_after, RaisesTooFar};
ghost use Rattle.word_steps.specs.SeatSteps.{IsSeat, IsNextAt, HasTurned, IsSame};
ghost use Rattle.word_runner.specs.Seats.{HasLoaded, HasArrived, IsTold, IsWordTurn};

use crate::net_words::Words;
use crate::turns::WordTurn;
use closure_net::PortKind;
use machine_law::{Event, Operation};
use std::marker::Model;
use word_steps::{
    LookedUp, SharedWords, TableSeat, add_next, after, is_idle, is_overfull, load_next, next_kind,
    next_word, push_units, raises_too_far, store_next, subtract_next,
};

/// A worker's seat at the words of a net. It serves the blocks b with b mod workers = its number, one operation at a
/// time.
#[derive(Drop)]
pub struct WordSeat {
    pub(crate) place: TableSeat,
    // the label of each of its blocks: it alone stores them
    pub(crate) labels: Vec<u64>,
    pub(crate) block: u32,
    pub(crate) operation: Operation<u64>,
    // whether a number came to 2^63
    pub(crate) stopped: bool,
}

impl Model for WordSeat {
    ghost use Rattle.word_runner.specs.Seats.{Own, IsTold};

    ghost Value = { Own };

    ghost view = { λ s. record {
      place = s.place;
      labels = s.labels.items;
      block = s.block;
      operation = s.operation;
      stopped = s.stopped;
    } };

    ghost invariant = { λ s. IsTold s.place s.labels.items s.block s.operation s.stopped };
}

// Makes the step of block b that is next, where it has this operation: what its word was.
fn make_next(
    words: &SharedWords,
    place: &mut TableSeat,
    b: u32,
    at: usize,
    operation: &Operation<u64>,
) -> u64
    requires seat { IsSeat words.now place.old }
    requires next { IsNextAt place.old.me.0 b at }
    requires operation { (place.old.me.0.operation ≡ operation.now)
        × ¬ (RaisesTooFar operation.now) }
    ensures same { IsSame place.old place.new }
    ensures view { HasTurned b place.old.me.0 result place.new.me.0 }
{
    match *operation {
        Operation::Idle => load_next(words, place, b, at),
        Operation::Scan {
            have: _,
            place: _,
            read: _,
            best: _,
        } => load_next(words, place, b, at),
        Operation::PushDue { have, best } => {
            let units = push_units(have, best.port.kind, best.capacity);
            if matches!(best.port.kind, PortKind::Forward) {
                add_next(words, place, b, at, have)
            } else {
                subtract_next(words, place, b, at, units)
            }
        }
        Operation::TakeDue { amount, port: _ } => subtract_next(words, place, b, at, amount),
        Operation::GiveDue { amount, port: _ } => add_next(words, place, b, at, amount),
        Operation::RaiseDue { have: _, best } => {
            let label = best.label + 1;
            store_next(words, place, b, at, label);
            label
        }
    }
}

// Notes the label that a raise has given block b.
fn note_label(labels: &mut Vec<u64>, b: u32, operation: &Operation<u64>)
    requires { (b < length labels.old.items) × ¬ (RaisesTooFar operation.now) }
    ensures { labels.new.items ≡ labels_after labels.old.items b operation.now }
{
    match *operation {
        Operation::RaiseDue { have: _, best } => labels[b as usize] = best.label + 1,
        _ => {}
    }
}

// A load of an arrival, which is no step.
fn look_up(words: &SharedWords, place: &mut TableSeat, at: usize) -> u64
    requires { IsSeat words.now place.old × (at < 2) }
    ensures same { IsSame place.old place.new }
    ensures loaded { HasLoaded at place.old.me.0 result place.new.me.0 }
    ensures small { result < 2 ^ 63 }
{
    words.load::<LookedUp>(place, at)
}

impl WordSeat {
    /// Makes the step that is next for block b, by one operation on one word. The seat is one of these words, block b
    /// is one of its blocks, and it has no operation of another one.
    ///
    /// `TooLarge` where the flow of a pair came to 2^63 units by the step, or a label would come to 2^63 by it; then
    /// the step isn't made. From then on the seat makes no steps and answers the same.
    pub fn turn(&mut self, words: &Words, b: u32) -> WordTurn
        requires words { IsSeat words.now.shared self.old.place }
        requires block { (b < length words.now.cut.worths) × IsSeatsOwn self.old.place.me.0 b
            × ((self.old.operation ≡ Idle) ⊎ (self.old.block ≡ b)) }
        ensures seat { IsSeat words.now.shared self.new.place }
        ensures same { IsSame self.old.place self.new.place }
        ensures told { IsTold self.new.place self.new.labels self.new.block
            self.new.operation self.new.stopped }
        ensures answer { IsWordTurn b self.old.place.me.0 self.old.operation self.old.stopped
            self.new.place.me.0 self.new.stopped result }
    {
        if self.stopped {
            return WordTurn::TooLarge;
        }
        let operation = self.operation;
        if raises_too_far(&operation) {
            self.stopped = true;
            return WordTurn::TooLarge;
        }
        let net = &words.net;
        let kind = next_kind(net, b, &operation);
        let at = next_word(net, b, &operation);
        let label = self.labels[b as usize];
        let x = make_next(&words.table.shared, &mut self.place, b, at, &operation);
        let next = after(net, b, label, &operation, x);
        note_label(&mut self.labels, b, &operation);
        self.operation = next;
        self.block = b;
        self.stopped = is_overfull(&operation, x);
        if self.stopped {
            return WordTurn::TooLarge;
        }
        let event = Event { block: b, kind };
        let more = !is_idle(&next);
        WordTurn::Stepped { event, more }
    }

    // What has arrived at the source, word 0, or at the sink, word 1. It is below 2^63.
    pub(crate) fn load(&mut self, words: &Words, at: usize) -> u64
        requires { IsSeat words.now.shared self.old.place × (at < 2) }
        ensures seat { IsSeat words.now.shared self.new.place }
        ensures told { IsTold self.new.place self.new.labels self.new.block
            self.new.operation self.new.stopped }
        ensures loaded { HasLoaded at self.old.place.me.0 result self.new.place.me.0 }
        ensures same { (self.new.operation ≡ self.old.operation) × (self.new.block ≡ self.old.block)
            × (self.new.stopped ≡ self.old.stopped) }
        ensures small { result < 2 ^ 63 }
    {
        look_up(&words.table.shared, &mut self.place, at)
    }

    /// Loads what has arrived at the source, and then what has arrived at the sink: do they sum to the total? The seat
    /// is one of these words. No step is made.
    pub fn arrived(&mut self, words: &Words) -> bool
        requires words { IsSeat words.now.shared self.old.place }
        ensures seat { IsSeat words.now.shared self.new.place }
        ensures told { IsTold self.new.place self.new.labels self.new.block
            self.new.operation self.new.stopped }
        ensures answer { HasArrived self.old.place.me.0 self.new.place.me.0 words.now.total result }
        ensures same { (self.new.operation ≡ self.old.operation) × (self.new.block ≡ self.old.block)
            × (self.new.stopped ≡ self.old.stopped) }
    {
        let source = self.load(words, 0);
        let sink = self.load(words, 1);
        source + sink == words.total
    }

    // Whether it has no operation.
    pub(crate) fn is_free(&self) -> bool
        ensures free { result ≡ is_free self.now.operation }
        ensures told { IsTold self.now.place self.now.labels self.now.block
            self.now.operation self.now.stopped }
    {
        is_idle(&self.operation)
    }
}
