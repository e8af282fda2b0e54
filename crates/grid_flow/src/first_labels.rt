//! The labels that blocks have before a search by pseudoflow over places and offsets.

ghost use Rattle.std.specs.Prelude.{◌≡◌, ◌<◌, ◌-◌, ◌^◌, length, IfOk};

use crate::placed_above::PlacedAbove;
use net_part::{Labels, PseudoflowFault, WaysUp};
use places::Precedence;
use std::alloc::Global;

/// The labels before the search: at most how many steps up lead from a block, at the fewest, to one of no positive
/// worth.
///
/// The blocks are looked at from the last number down, so that most of those above one have their labels by then; of
/// the others the label is 0 as yet. So no label is too high, which would lead the search astray, and some are lower
/// than they could be, which costs it time.
///
/// # Errors
/// `NoMemory` where memory was refused; `Broken` never.
pub(crate) fn first_labels<P: Precedence>(
    alloc: Global,
    above: &PlacedAbove<'_, P>,
    worths: &[i128],
) -> Result<Labels, PseudoflowFault>
    requires worths { length worths.now ≡ above.now }
    requires few { above.now < 2 ^ 32 - 2 }
    ensures { IfOk result (λ labels. labels ≡ above.now) }
{
    let count = above.len();
    let mut labels = Labels::new(alloc, count)?;
    for number in (0..count).rev() {
        if worths[number as usize] > 0 {
            let least = above.least_label(&labels, number);
            labels.relabel(number, least.saturating_add(1))?;
        }
    }
    Ok(labels)
}
