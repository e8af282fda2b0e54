//! What may happen at the shared words, as the proof names it: a step of the machine, a reading of an
//! arrival, one seat that becomes two, and two that become one.

ghost use Rattle.word_steps.specs.Turns.{TurnsSeat};
ghost use Rattle.word_steps.specs.Halves.{LooksUp, left_half, right_half, joined_view, spent_view};

use crate::view::View;
use atomic_table::{Join, Play, Split};

/// A step of the machine.
pub struct Turned;

impl Play<(), View> for Turned {
    ghost then = { TurnsSeat };
}

/// A load of an arrival, which is no step.
pub struct LookedUp;

impl Play<(), View> for LookedUp {
    ghost then = { LooksUp };
}

/// One seat becomes two.
pub struct Halves;

impl Split<View> for Halves {
    ghost left = { left_half };

    ghost right = { right_half };
}

/// Two seats become one.
pub struct Whole;

impl Join<View> for Whole {
    ghost both = { joined_view };

    ghost spent = { spent_view };
}
