//! The atomic operations by which steps are made: to load, add to, subtract from or store the next word of a
//! block.

ghost use Rattle.word_steps.specs.SeatSteps.{IsSeat, IsNextAt, HasTurned, IsSame, StepReads, StepAdds, Subtracts, Stores};

use crate::plays::Turned;
use crate::table::{SharedWords, TableSeat};

/// Makes the next step of block b, which reads the word `at`. Returns what it read.
pub fn load_next(words: &SharedWords, place: &mut TableSeat, _b: u32, at: usize) -> u64
    requires seat { IsSeat words.now place.old }
    requires next { IsNextAt place.old.me.0 _b at × StepReads place.old.me.0.operation }
    ensures same { IsSame place.old place.new }
    ensures view { HasTurned _b place.old.me.0 result place.new.me.0 }
{
    words.load::<Turned>(place, at)
}

/// Makes the next step of block b, which adds k to the word `at`. Returns what the word was before.
pub fn add_next(words: &SharedWords, place: &mut TableSeat, _b: u32, at: usize, k: u64) -> u64
    requires seat { IsSeat words.now place.old }
    requires next { IsNextAt place.old.me.0 _b at × StepAdds place.old.me.0.operation k }
    ensures same { IsSame place.old place.new }
    ensures view { HasTurned _b place.old.me.0 result place.new.me.0 }
{
    words.fetch_add::<Turned>(place, at, k)
}

/// Makes the next step of block b, which subtracts k from the word `at`. Returns what the word was before.
pub fn subtract_next(words: &SharedWords, place: &mut TableSeat, _b: u32, at: usize, k: u64) -> u64
    requires seat { IsSeat words.now place.old }
    requires next { IsNextAt place.old.me.0 _b at × Subtracts place.old.me.0.operation k }
    ensures same { IsSame place.old place.new }
    ensures view { HasTurned _b place.old.me.0 result place.new.me.0 }
{
    words.fetch_sub::<Turned>(place, at, k)
}

/// Makes the next step of block b, which stores k in the word `at`.
pub fn store_next(words: &SharedWords, place: &mut TableSeat, _b: u32, at: usize, k: u64)
    requires seat { IsSeat words.now place.old }
    requires next { IsNextAt place.old.me.0 _b at × Stores place.old.me.0.operation k }
    ensures same { IsSame place.old place.new }
    ensures view { HasTurned _b place.old.me.0 k place.new.me.0 }
{
    words.store::<Turned>(place, at, k);
}
