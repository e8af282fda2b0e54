//! Makes all steps that are left of a run, on the caller's thread, and tells why the run ends.

ghost use Rattle.std.specs.Prelude.{◌≡◌, ◌+◌, ◌<◌, ◌≤◌, true, MatchOption};
ghost use Rattle.boards.specs.Boards.{shown_state, blocks_of_board, IsTurnBoard};
ghost use Rattle.boards.specs.Runs.{AreTurnsTo};
ghost use Rattle.boards.specs.Records.{RecordGoesOn};
ghost use Rattle.boards.specs.Ends.{AreIdleBelow, HasEnded, GoesOn};

use crate::common_board::Recorded;
use crate::turn::{End, Turn};
use crate::turn_board::TurnBoard;
use async_step::MOST_STEPS;
use ordered_group::OrderedGroup;

// Ends the operation of a block, if it has one. Answers why the run ends, where it ends before.
fn end_operation<G: OrderedGroup>(board: &mut Recorded<G>, block: u32, steps: u64) -> Option<End>
    requires inside { block < blocks_of_board board.old.board }
    requires counted { steps ≤ MOST_STEPS }
    requires room { board.old.records ≡ true → steps ≤ board.old.room }
    requires within { (shown_state board.old.board).steps ≤ steps }
    requires idle { AreIdleBelow board.old.board block }
    ensures goes_on { RecordGoesOn board.old board.new steps }
    ensures end { MatchOption result
        (AreIdleBelow board.new.board (block + 1))
        (λ end. HasEnded board.new.board steps end) }
{
    // proof: a `Recorded` is made by turns alone
    let _blocks = board.len();
    while board.has_operation(block) {
        match board.turn(Some(block), block, steps) {
            Turn::Stepped { block: _, more: _ } => {}
            Turn::Idle => unreachable!("a block at work is served"),
            Turn::Ended(end) => return Some(end),
        }
    }
    None
}

// Ends the operations that there are. Answers why the run ends, where it ends before.
fn end_operations<G: OrderedGroup>(board: &mut Recorded<G>, steps: u64) -> Option<End>
    requires counted { steps ≤ MOST_STEPS }
    requires room { board.old.records ≡ true → steps ≤ board.old.room }
    requires within { (shown_state board.old.board).steps ≤ steps }
    ensures goes_on { RecordGoesOn board.old board.new steps }
    ensures end { MatchOption result
        (AreIdleBelow board.new.board (blocks_of_board board.new.board))
        (λ end. HasEnded board.new.board steps end) }
{
    for block in 0..board.len() {
        if let Some(end) = end_operation(board, block, steps) {
            return Some(end);
        }
    }
    None
}

// Makes one operation after the other until the run ends, and answers why.
fn take_turns<G: OrderedGroup>(board: &mut Recorded<G>, steps: u64) -> End
    requires counted { steps ≤ MOST_STEPS }
    requires room { board.old.records ≡ true → steps ≤ board.old.room }
    requires within { (shown_state board.old.board).steps ≤ steps }
    requires idle { AreIdleBelow board.old.board (blocks_of_board board.old.board) }
    ensures goes_on { RecordGoesOn board.old board.new steps }
    ensures end { HasEnded board.new.board steps result }
{
    // proof: a `Recorded` is made by turns alone
    let _blocks = board.len();
    let mut own = None;
    let mut from = 0;
    for _made in board.count()..steps + 1 {
        match board.turn(own, from, steps) {
            Turn::Stepped { block, more } => {
                own = if more { Some(block) } else { None };
                from = block + 1;
            }
            Turn::Idle => unreachable!("where none is at work one waits"),
            Turn::Ended(end) => return end,
        }
    }
    unreachable!("a turn at the limit ends the run")
}

// Makes the turns that are left, as `finish`. Where steps are written down there has to be room for all.
pub(crate) fn finish_recorded<G: OrderedGroup>(board: &mut Recorded<G>, steps: u64) -> End
    requires counted { steps ≤ MOST_STEPS }
    requires room { board.old.records ≡ true → steps ≤ board.old.room }
    requires within { (shown_state board.old.board).steps ≤ steps }
    ensures goes_on { RecordGoesOn board.old board.new steps }
    ensures end { HasEnded board.new.board steps result }
    ensures made { IsTurnBoard board.new.board }
    ensures events { board.new.records ≡ true
        → AreTurnsTo board.new.board.net board.new.events (shown_state board.new.board) }
{
    let end = match end_operations(board, steps) {
        Some(end) => end,
        None => take_turns(board, steps),
    };
    // proof: a `Recorded` is made by turns alone
    let _blocks = board.len();
    end
}

/// Makes the turns that are left, on this thread, until the run ends, and answers why it does: from the
/// state that the board shows, these turns lead to the state that it leaves. Each is a turn of the
/// first block that has an operation, or where none has of the next one that waits.
pub fn finish<G: OrderedGroup>(board: &mut TurnBoard<G>, steps: u64) -> End
    requires counted { steps ≤ MOST_STEPS }
    requires within { (shown_state board.old).steps ≤ steps }
    ensures goes_on { GoesOn board.old board.new steps }
    ensures end { HasEnded board.new steps result }
    ensures board { IsTurnBoard board.new }
{
    board.finish(steps)
}
