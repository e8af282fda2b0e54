//! A board whose steps are picked by turns alone, and written down where that is asked for: what a run with a history
//! and one without have in common.

ghost use Rattle.std.specs.Prelude.{◌≡◌, ◌↔◌, ◌<◌, ◌≤◌, true, IsTrue, IfOk, vec_len, vec_capacity};
ghost use Rattle.machine_law.specs.declared.operations.Operation.TheVariants.{Idle};
ghost use Rattle.machine_law.specs.States.{IsQuiet};
ghost use Rattle.boards.specs.Boards.{shown_state, blocks_of_board, IsTurnBoard};
ghost use Rattle.boards.specs.Turns.{IsTurn};
ghost use Rattle.boards.specs.Runs.{AreTurnsTo};
ghost use Rattle.boards.specs.Records.{IsRecordOpened, written_by, Writes};

use crate::board::Board;
use crate::turn::Turn;
use async_step::Event;
use closure_net::Net;
use ordered_group::OrderedGroup;
use std::alloc::{AllocError, Global};
use std::marker::Model;

// A board whose steps are made by turns alone, and written down where that is asked for.
#[derive(Drop)]
pub(crate) struct Recorded<G: OrderedGroup> {
    board: Board<G>,
    // memory for `room` of them is kept
    events: Vec<Event>,
    records: bool,
    room: u32,
}

impl<G: OrderedGroup> Model for Recorded<G> {
    ghost use Rattle.std.specs.Prelude.{vec_capacity};
    ghost use Rattle.boards.specs.Records.{RecordView, record_view, RecordsTurns};

    ghost Value = { RecordView };

    ghost view = { λ r. record_view r.board r.events.items r.records r.room };

    ghost invariant = { λ r. RecordsTurns
        (record_view r.board r.events.items r.records r.room) (vec_capacity r.events) };
}

impl<G: OrderedGroup> Recorded<G> {
    // A board over a copy of a net, in the state in which the machine opens, with memory for so many
    // events.
    pub(crate) fn open(
        alloc: Global,
        net: &Net<G>,
        records: bool,
        room: u32,
    ) -> Result<Recorded<G>, AllocError>
        ensures { IfOk result (λ r. IsRecordOpened net.now records room r) }
    {
        let board = Board::open(alloc, net)?;
        // proof: a `Board`'s state is one of a run over its net
        let _blocks = board.len();
        let events = Vec::with_capacity(alloc, room as usize)?;
        Ok(Recorded {
            board,
            events,
            records,
            room,
        })
    }

    // How many blocks its net has.
    pub(crate) fn len(&self) -> u32
        ensures is { result ≡ blocks_of_board self.now.board }
        ensures made { IsTurnBoard self.now.board }
        ensures events { self.now.records ≡ true
            → AreTurnsTo self.now.board.net self.now.events (shown_state self.now.board) }
    {
        self.board.len()
    }

    pub(crate) fn is_over(&self, net: &Net<G>) -> bool
        ensures { IsTrue result ↔ (self.now.board.net ≡ net.now) }
    {
        self.board.is_over(net)
    }

    pub(crate) fn count(&self) -> u64
        ensures { result ≡ (shown_state self.now.board).steps }
    {
        self.board.count()
    }

    pub(crate) fn quiet(&self) -> bool
        ensures { IsTrue result ↔ IsQuiet self.now.board.net (shown_state self.now.board) }
    {
        self.board.quiet()
    }

    pub(crate) fn has_operation(&self, b: u32) -> bool
        requires { b < blocks_of_board self.now.board }
        ensures { IsTrue result ↔ ¬ ((shown_state self.now.board).operation b ≡ Idle) }
    {
        self.board.has_operation(b)
    }

    // For how many events there is memory.
    pub(crate) fn room(&self) -> u32
        ensures { result ≡ self.now.room }
    {
        self.room
    }

    // The events that were written down.
    pub(crate) fn events(&self) -> &[Event]
        ensures { result.now ≡ self.now.events }
    {
        &self.events
    }

    // A turn, as `Board::turn`.
    pub(crate) fn turn(&mut self, own: Option<u32>, from: u32, steps: u64) -> Turn
        requires room { self.old.records ≡ true → steps ≤ self.old.room }
        ensures turn { IsTurn self.old.board own from steps self.new.board result }
        ensures writes { Writes self.old result self.new }
        ensures made { IsTurnBoard self.new.board }
        ensures events { self.new.records ≡ true
            → AreTurnsTo self.new.board.net self.new.events (shown_state self.new.board) }
    {
        let block = match self.board.due(own, from, steps) {
            Ok(block) => block,
            Err(turn) => return turn,
        };
        let event = self.board.next_event(block);
        let turn = self.board.serve(block);
        write_down(&mut self.events, self.records, event, turn);
        turn
    }

    // The board and the events.
    pub(crate) fn into_parts(self) -> (Board<G>, Vec<Event>)
        ensures board { result.0 ≡ self.board }
        ensures events { result.1.items ≡ self.events }
        ensures made { IsTurnBoard self.board }
    {
        let Recorded {
            board,
            events,
            records: _,
            room: _,
        } = self;
        (board, events)
    }
}

// Writes down the step of a turn, where it made one and where that is asked for.
fn write_down(events: &mut Vec<Event>, records: bool, event: Event, turn: Turn)
    requires { records ≡ true → vec_len events.old < vec_capacity events.old }
    ensures events { events.new.items ≡ written_by records events.old.items event turn }
    ensures room { vec_capacity events.new ≡ vec_capacity events.old }
{
    match turn {
        Turn::Stepped { block: _, more: _ } => {
            if records {
                events.push_reserved(event);
            }
        }
        Turn::Idle => {}
        Turn::Ended(_) => {}
    }
}
