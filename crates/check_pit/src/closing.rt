//! Decides whether a pit is closed: gives the first pair whose block is in the pit and whose
//! predecessor isn't.

ghost use Rattle.std.specs.Prelude.{◌<◌, MatchOption};
ghost use Rattle.closure_net.specs.Network.{holds_of};
ghost use Rattle.closure_net.specs.Closure.{IsClosed};
ghost use Rattle.check_pit.specs.Closing.{HoldsAbove, IsLacking, IsFirstOpen};

use closure_net::{Net, Pit};
use ordered_group::OrderedGroup;
use prec_file::Rests;

// The first block that b rests on and that the pit lacks.
fn first_lacking(rests: &Rests, pit: &Pit, b: u32) -> Option<u32>
    requires { b < rests.now.blocks }
    ensures { MatchOption result
        (HoldsAbove rests.now.pairs (holds_of pit.now) b)
        (λ p. IsLacking rests.now.pairs (holds_of pit.now) b p) }
{
    let above = rests.above(b);
    let mut place = 0;
    for p in above {
        if !pit.holds_near(&mut place, *p) {
            return Some(*p);
        }
    }
    None
}

// The first pair whose block is in the pit while its predecessor isn't.
pub(crate) fn first_open<G: OrderedGroup>(net: &Net<G>, pit: &Pit) -> Option<(u32, u32)>
    ensures { MatchOption result
        (IsClosed net.now.pairs (holds_of pit.now))
        (λ pair. IsFirstOpen net.now.pairs (holds_of pit.now) pair) }
{
    let rests = net.rests();
    let mut place = 0;
    for b in 0..rests.len() {
        if pit.holds_near(&mut place, b) {
            if let Some(p) = first_lacking(rests, pit, b) {
                return Some((b, p));
            }
        }
    }
    None
}
