//! The type of the shared words, with the rule that holds between any two operations on them: some run of the
//! machine leads to the state that they show.

use crate::view::View;
use atomic_table::{Seat, Shared, Table, TableRule};
use closure_net::Net;
use ordered_group::Scaled;
use std::alloc::Global;

/// What the words and the seats keep at every interleaving: a run of the machine leads to the state that they show.
pub struct Rule;

impl TableRule<(), View, Net<Scaled>> for Rule {
    ghost use Rattle.word_steps.specs.Views.{IsRuled, first_view};

    ghost holds = { λ net. IsRuled net };

    ghost first = { first_view };
}

/// The table, with its memory.
pub type WordTable = Table<(), View, Net<Scaled>, Rule, Global>;

/// The table as seats see it.
pub type SharedWords = Shared<(), View, Net<Scaled>, Rule>;

/// A seat of the table.
pub type TableSeat = Seat<(), View>;
