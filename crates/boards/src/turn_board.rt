//! A push-relabel run in which a block begins an operation only where it has excess. Where the run
//! can't go on, a number of the state after the next step would overflow.

ghost use Rattle.std.specs.Prelude.{◌≡◌, ◌↔◌, ◌<◌, ◌≤◌, IsTrue, IfOk};
ghost use Rattle.machine_law.specs.declared.operations.Operation.TheVariants.{Idle};
ghost use Rattle.async_step.specs.declared.limits.TheConstants.{MOST_STEPS};
ghost use Rattle.boards.specs.Boards.{shown_state, blocks_of_board, IsTurnBoard, IsOpened};
ghost use Rattle.boards.specs.Turns.{IsTurn};
ghost use Rattle.boards.specs.Ends.{HasEnded, GoesOn};

use crate::board::Board;
use crate::common_board::Recorded;
use crate::finishing::finish_recorded;
use crate::turn::{End, Turn};
use closure_net::Net;
use ordered_group::OrderedGroup;
use std::alloc::{AllocError, Global};
use std::marker::Model;

/// A board whose steps are made by turns alone, so its type keeps what is true of such runs: no step
/// read an excess of zero, after each step all numbers fit, and where the board is stuck a number of
/// the state after its next step of some block would overflow its type.
#[derive(Drop)]
pub struct TurnBoard<G: OrderedGroup> {
    board: Recorded<G>,
}

impl<G: OrderedGroup> Model for TurnBoard<G> {
    ghost use Rattle.std.specs.Prelude.{◌≡◌, false};
    ghost use Rattle.boards.specs.Boards.{BoardView, IsTurnBoard};

    ghost Value = { BoardView };

    ghost view = { λ b. b.board.board };

    ghost invariant = { λ b. (b.board.records ≡ false) × IsTurnBoard b.board.board };
}

impl<G: OrderedGroup> TurnBoard<G> {
    /// A board over a copy of a net, in the state in which the machine opens.
    ///
    /// # Errors
    /// Want of memory.
    pub fn open(alloc: Global, net: &Net<G>) -> Result<TurnBoard<G>, AllocError>
        ensures { IfOk result (λ board. IsOpened net.now board) }
    {
        let board = Recorded::open(alloc, net, false, 0)?;
        // proof: a `Recorded` is made by turns alone
        let _blocks = board.len();
        Ok(TurnBoard { board })
    }

    /// How many blocks its net has.
    pub fn len(&self) -> u32
        ensures is { result ≡ blocks_of_board self.now }
        ensures made { IsTurnBoard self.now }
    {
        self.board.len()
    }

    /// Whether its net has the same pairs and the same worths as another. Linear in their sizes.
    pub fn is_over(&self, net: &Net<G>) -> bool
        ensures { IsTrue result ↔ (self.now.net ≡ net.now) }
    {
        self.board.is_over(net)
    }

    /// How many steps were made.
    pub fn count(&self) -> u64
        ensures { result ≡ (shown_state self.now).steps }
    {
        self.board.count()
    }

    /// Whether block b has an operation.
    pub fn has_operation(&self, b: u32) -> bool
        requires { b < blocks_of_board self.now }
        ensures { IsTrue result ↔ ¬ ((shown_state self.now).operation b ≡ Idle) }
    {
        self.board.has_operation(b)
    }

    /// A turn, as `Board::turn`.
    pub fn turn(&mut self, own: Option<u32>, from: u32, steps: u64) -> Turn
        ensures turn { IsTurn self.old own from steps self.new result }
        ensures made { IsTurnBoard self.new }
    {
        self.board.turn(own, from, steps)
    }

    // The turns that are left, as `finish`.
    pub(crate) fn finish(&mut self, steps: u64) -> End
        requires counted { steps ≤ MOST_STEPS }
        requires within { (shown_state self.old).steps ≤ steps }
        ensures goes_on { GoesOn self.old self.new steps }
        ensures end { HasEnded self.new steps result }
        ensures made { IsTurnBoard self.new }
    {
        finish_recorded(&mut self.board, steps)
    }

    /// The board, for steps of any block.
    pub fn into_board(self) -> Board<G>
        ensures is { result ≡ self }
        ensures made { IsTurnBoard result }
    {
        let TurnBoard { board } = self;
        let (board, _) = board.into_parts();
        board
    }
}
