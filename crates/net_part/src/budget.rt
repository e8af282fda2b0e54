//! How many turns are left to a search for the richest pit by pseudoflow.

ghost use Rattle.std.specs.Prelude.{◌≡◌, ◌+◌, ◌<◌, ◌≤◌, IfOk, IfErr};

use crate::fault::PseudoflowFault;

/// The turns that are left to a search. One turn is one look: at a label, at a block, at a pair of a block, or at the
/// parent or a child of one.
#[derive(Drop)]
pub struct Budget {
    pub left: u64,
}

impl Budget {
    /// So many turns.
    pub fn of_turns(turns: u64) -> Budget {
        Budget { left: turns }
    }

    /// Takes so many turns.
    ///
    /// # Errors
    /// `Unsettled`, exactly where fewer are left. None is left then.
    pub fn spend(&mut self, turns: u64) -> Result<(), PseudoflowFault>
        ensures taken { IfOk result (λ _. self.new.left + turns ≡ self.old.left) }
        ensures short { IfErr result (λ e. (e ≡ PseudoflowFault.Unsettled) × (self.old.left < turns)
            × (self.new.left ≡ 0)) }
        ensures less { self.new.left ≤ self.old.left }
    {
        if self.left < turns {
            self.left = 0;
            return Err(PseudoflowFault::Unsettled);
        }
        self.left -= turns;
        Ok(())
    }
}
