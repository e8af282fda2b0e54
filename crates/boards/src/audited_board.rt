//! A push-relabel run over a net of its own that writes down each step. Once no block has excess or an operation it
//! gives a maximum flow and the history that leads to it.

ghost use Rattle.std.specs.Prelude.{◌≡◌, ◌↔◌, ◌<◌, ◌≤◌, min, IsTrue, IfOk, MatchResult};
ghost use Rattle.machine_law.specs.declared.events.TheConstants.{MOST_EVENTS};
ghost use Rattle.machine_law.specs.declared.operations.Operation.TheVariants.{Idle};
ghost use Rattle.machine_law.specs.States.{IsQuiet};
ghost use Rattle.async_step.specs.declared.limits.TheConstants.{MOST_STEPS};
ghost use Rattle.boards.specs.Boards.{shown_state, blocks_of_board};
ghost use Rattle.boards.specs.Audits.{IsAudited, IsAuditOpened, IsAuditTurn, IsToldAs, HasAuditEnded, AuditGoesOn, HasAuditSettled};

use crate::common_board::Recorded;
use crate::finishing::finish_recorded;
use crate::turn::{End, Turn};
use async_step::Event;
use closure_net::{Flow, Net};
use ordered_group::OrderedGroup;
use std::alloc::{AllocError, Global};
use std::marker::Model;

/// A board on which nothing but turns makes steps, beside the history of them all: a list of events
/// whose replay from the opening state of the board's net leads to the board's state. No ReadExcess of
/// it sees zero, and after each step all numbers fit; where the board is stuck a number of the state
/// after its next step of some block would overflow its type.
#[derive(Drop)]
pub struct Audited<G: OrderedGroup> {
    board: Recorded<G>,
}

impl<G: OrderedGroup> Model for Audited<G> {
    ghost use Rattle.std.specs.Prelude.{◌≡◌, true};
    ghost use Rattle.boards.specs.Audits.{AuditView, audit_of, IsAudited};

    ghost Value = { AuditView };

    ghost view = { λ a. audit_of a.board };

    ghost invariant = { λ a. (a.board.records ≡ true) × IsAudited (audit_of a.board) };
}

impl<G: OrderedGroup> Audited<G> {
    /// A board over a copy of a net, in the state in which the machine opens, with memory for so many
    /// events: 8 bytes each.
    ///
    /// # Errors
    /// Want of memory.
    pub fn open(alloc: Global, net: &Net<G>, room: u32) -> Result<Audited<G>, AllocError>
        requires { room ≤ MOST_EVENTS }
        ensures { IfOk result (λ audit. IsAuditOpened net.now room audit) }
    {
        let board = Recorded::open(alloc, net, true, room)?;
        // proof: a `Recorded` is made by turns alone
        let _blocks = board.len();
        Ok(Audited { board })
    }

    /// How many blocks its net has.
    pub fn len(&self) -> u32
        ensures is { result ≡ blocks_of_board self.now.board }
        ensures audited { IsAudited self.now }
    {
        self.board.len()
    }

    /// Whether its net has the same pairs and the same worths as another. Linear in their sizes.
    pub fn is_over(&self, net: &Net<G>) -> bool
        ensures { IsTrue result ↔ (self.now.board.net ≡ net.now) }
    {
        self.board.is_over(net)
    }

    /// How many steps were made.
    pub fn count(&self) -> u64
        ensures { result ≡ (shown_state self.now.board).steps }
    {
        self.board.count()
    }

    /// Whether block b has an operation.
    pub fn has_operation(&self, b: u32) -> bool
        requires { b < blocks_of_board self.now.board }
        ensures { IsTrue result ↔ ¬ ((shown_state self.now.board).operation b ≡ Idle) }
    {
        self.board.has_operation(b)
    }

    /// For how many events there is room.
    pub fn room(&self) -> u32
        ensures { result ≡ self.now.room }
    {
        self.board.room()
    }

    /// The events of all steps that were made, in their order.
    pub fn history(&self) -> &[Event]
        ensures { result.now ≡ self.now.history }
    {
        self.board.events()
    }

    /// A turn, as `Board::turn`, which adds the event of the step that it made to the history. `Full`
    /// is answered, after the limit and before a block is picked, where there is no room for another
    /// event. Takes no memory.
    pub fn turn(&mut self, own: Option<u32>, from: u32, steps: u64) -> Turn
        ensures turn { IsAuditTurn self.old own from steps self.new result }
        ensures audited { IsAudited self.new }
    {
        let most = self.most(steps);
        match self.board.turn(own, from, most) {
            Turn::Stepped { block, more } => Turn::Stepped { block, more },
            Turn::Idle => Turn::Idle,
            Turn::Ended(end) => Turn::Ended(told_as(end, self.board.count(), steps)),
        }
    }

    // How many steps may be made in all: as many as the limit and the room both allow.
    fn most(&self, limit: u64) -> u64
        ensures is { result ≡ min limit self.now.room }
        ensures audited { IsAudited self.now }
    {
        limit.min(self.board.room() as u64)
    }

    /// Makes the turns that are left, on this thread, until the run ends, and answers why it does: as
    /// `finish`, and `Full` where there is no room for another event. The events of these turns are added
    /// to the history.
    pub fn finish(&mut self, steps: u64) -> End
        requires counted { steps ≤ MOST_STEPS }
        requires within { (shown_state self.old.board).steps ≤ steps }
        ensures goes_on { AuditGoesOn self.old self.new steps }
        ensures end { HasAuditEnded self.new steps result }
        ensures audited { IsAudited self.new }
    {
        let most = self.most(steps);
        let end = finish_recorded(&mut self.board, most);
        told_as(end, self.board.count(), steps)
    }

    /// The net, the flow and the history of a quiet board. A replay of the history leads to a quiet
    /// state whose flow this is: a greatest flow of the net, in which what the source reaches is
    /// closed, tight and a greatest closed set.
    ///
    /// # Errors
    /// The board itself where it isn't quiet.
    pub fn settle(self) -> Result<(Net<G>, Flow<G>, Vec<Event>), Audited<G>>
        ensures { MatchResult result
            (λ settled. HasAuditSettled self settled.0 settled.1 settled.2.items)
            (λ audit. (audit ≡ self) × ¬ (IsQuiet self.board.net (shown_state self.board))) }
    {
        if !self.board.quiet() {
            return Err(self);
        }
        let Audited { board } = self;
        let (board, events) = board.into_parts();
        match board.settle() {
            Ok((net, flow)) => Ok((net, flow, events)),
            Err(_) => unreachable!("a quiet board gives its flow"),
        }
    }

    /// The history of a board of which nothing else is wanted.
    pub fn into_history(self) -> Vec<Event>
        ensures { result.items ≡ self.history }
    {
        let Audited { board } = self;
        let (_, events) = board.into_parts();
        events
    }
}

// How the end of a run is told that might make as many steps as the limit and the room both allow.
fn told_as(end: End, made: u64, limit: u64) -> End
    ensures { IsToldAs made limit end result }
{
    match end {
        End::Quiet => End::Quiet,
        End::Stuck => End::Stuck,
        End::Limit => { if made >= limit { End::Limit } else { End::Full } }
        End::Full => End::Full,
    }
}
