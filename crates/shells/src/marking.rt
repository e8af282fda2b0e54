//! Gives a factor as their shell to the blocks of a pit that have none yet, and decides whether a factor is above all
//! earlier ones.

ghost use Rattle.std.specs.Prelude.{◌≡◌, ◌<◌, ◌≤◌, ℕ, length, ◌↔◌, IsTrue};
ghost use Rattle.closure_net.specs.Network.{IsAscending, holds_of};
ghost use Rattle.shells.specs.Series.{shell_at, with_shell, IsAboveAll};

use closure_net::Pit;
use fixed_worth::MOST_BLOCKS;

// The shell of a block after a push at k.
fn shell_with(shell: Option<u32>, held: bool, k: u32) -> Option<u32>
    ensures { result ≡ with_shell shell held k }
{
    match shell {
        Some(first) => Some(first),
        None => { if held { Some(k) } else { None } }
    }
}

// Whether k is above each of these.
pub(crate) fn is_above_all(factors: &[u32], k: u32) -> bool
    requires { IsAscending factors.now }
    ensures { IsTrue result ↔ IsAboveAll factors.now k }
{
    let count = factors.len();
    count == 0 || factors[count - 1] < k
}

// Gives each block of the pit that has no shell the shell k.
pub(crate) fn give_shells(shells: &mut [Option<u32>], pit: &Pit, k: u32)
    requires { length shells.old ≤ MOST_BLOCKS }
    ensures size { length shells.new ≡ length shells.old }
    ensures each { (b : ℕ) → b < length shells.old
        → shell_at shells.new b ≡ with_shell (shell_at shells.old b) (holds_of pit.now b) k }
{
    let mut place = 0;
    for b in 0..shells.len() {
        shells[b] = shell_with(shells[b], pit.holds_near(&mut place, b as u32), k);
    }
}
