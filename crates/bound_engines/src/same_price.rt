//! Whether blocks are worth the same at two factors.

ghost use Rattle.std.specs.Prelude.{IsTrue};
ghost use Rattle.bound_engines.specs.Parts.{IsToldAt};

use mine_inputs::Worths;
use shells::Factor;

/// Whether blocks are worth the same at two factors: values are at any two.
pub fn is_same_price(worths: &Worths, first: Factor, second: Factor) -> bool
    ensures { IsTrue result → IsToldAt worths.now first second }
{
    match worths {
        Worths::Values(_) => true,
        Worths::Prices(_) => first.get() == second.get(),
    }
}
