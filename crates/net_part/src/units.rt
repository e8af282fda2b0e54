//! Units: worths as single numbers, in the order of the net's amounts.

ghost use Rattle.std.specs.Prelude.{◌≡◌, length, IfOk, IfSome};

use crate::fault::PseudoflowFault;
use crate::links::Link;
use closure_net::Net;
use ordered_group::OrderedGroup;
use std::alloc::Global;

// The greatest common divisor.
fn greatest_common_divisor(a: u128, b: u128) -> u128 {
    let mut divisor = a;
    let mut rest = b;
    while rest != 0 {
        let next = divisor % rest;
        divisor = rest;
        rest = next;
    }
    divisor
}

// What a block is worth in billionths, where that fits 64 bits.
fn small_worth<G: OrderedGroup>(net: &Net<G>, block: Link) -> Option<i128> {
    let n = net.len();
    let b = block.block(n as usize)?;
    let nanos = net.worth(b).nanos_of_set(n, 1)?;
    match i64::try_from(nanos) {
        Ok(_) => Some(nanos),
        Err(_) => None,
    }
}

/// What each of these blocks of the net is worth in billionths, where all of that fits 64 bits; then its units fit 128.
///
/// # Errors
/// `NoMemory` where memory was refused.
pub fn small_worths<G: OrderedGroup>(
    alloc: Global,
    net: &Net<G>,
    blocks: &[Link],
) -> Result<Option<Vec<i128>>, PseudoflowFault>
    ensures { IfOk result (λ found. IfSome found (λ v. length v.items ≡ length blocks.now)) }
{
    let mut worths = Vec::with_capacity(alloc, blocks.len())?;
    for block in blocks {
        let Some(worth) = small_worth(net, *block) else {
            return Ok(None);
        };
        worths.push_reserved(worth);
    }
    Ok(Some(worths))
}

/// How worths become units. With d the greatest common divisor of all worths and n the number of blocks, a worth w
/// becomes (w / d) x (n + 1) - 1.
///
/// So of two sets of blocks the one that is worth less has the lower sum of units, and of two that are worth the same
/// the one with more blocks.
#[derive(Clone, Copy)]
pub struct Scale {
    divisor: i128,
    factor: i64,
}

impl Scale {
    /// The scale of these worths, of so many blocks.
    pub fn of(worths: &[i128], blocks: u32) -> Scale {
        let mut divisor = 0;
        for worth in worths {
            divisor = greatest_common_divisor(worth.unsigned_abs(), divisor);
        }
        Scale {
            divisor: i128::try_from(divisor.max(1)).unwrap_or(1),
            factor: blocks as i64 + 1,
        }
    }

    // A worth in units, where these fit 64 bits.
    fn small_unit(self, worth: i128) -> Option<i64> {
        let parts = i64::try_from(worth.checked_div(self.divisor)?).ok()?;
        parts.checked_mul(self.factor)?.checked_sub(1)
    }

    // A worth in units, where these fit 128 bits.
    fn large_unit(self, worth: i128) -> Option<i128> {
        let parts = worth.checked_div(self.divisor)?;
        parts.checked_mul(self.factor as i128)?.checked_sub(1)
    }

    /// The worths in units, where each of these fits 64 bits, and the sum of the positive ones too.
    ///
    /// No excess and no flow of a search is more than that sum, and no deficit grows, so that no number of it
    /// overflows.
    ///
    /// # Errors
    /// `NoMemory` where memory was refused.
    pub fn small_units(
        self,
        alloc: Global,
        worths: &[i128],
    ) -> Result<Option<Vec<i64>>, PseudoflowFault>
        ensures { IfOk result (λ found. IfSome found (λ v. length v.items ≡ length worths.now)) }
    {
        let mut units = Vec::with_capacity(alloc, worths.len())?;
        let mut total: i64 = 0;
        for worth in worths {
            let Some(unit) = self.small_unit(*worth) else {
                return Ok(None);
            };
            let Some(sum) = total.checked_add(unit.max(0)) else {
                return Ok(None);
            };
            total = sum;
            units.push_reserved(unit);
        }
        Ok(Some(units))
    }

    /// The worths in units.
    ///
    /// # Errors
    /// `NoMemory` where memory was refused; `TooLarge` where 128 bits are too few, which no worths of 64 bits bring
    /// about.
    pub fn large_units(self, alloc: Global, worths: &[i128]) -> Result<Vec<i128>, PseudoflowFault>
        ensures { IfOk result (λ v. length v.items ≡ length worths.now) }
    {
        let mut units = Vec::with_capacity(alloc, worths.len())?;
        for worth in worths {
            let unit = self.large_unit(*worth).ok_or(PseudoflowFault::TooLarge)?;
            units.push_reserved(unit);
        }
        Ok(units)
    }
}
