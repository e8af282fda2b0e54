//! Gives the worths of a net as whole units that fit a word, the positive ones with their sum, or refuses a net whose
//! positive worths sum to too much.

ghost use Rattle.std.specs.Prelude.{◌≡◌, ◌<◌, ◌⊎◌, ◌<ℤ◌, ◌≤ℤ◌, ◌^◌, MatchOption, MatchResult, IfOk, pos};
ghost use Rattle.word_steps.specs.Layout.{units};
ghost use Rattle.word_runner.specs.CutNets.{AreGains, AreLosses, AreWithin};
ghost use Rattle.word_runner.specs.Openings.{OpeningFaultStands};

use crate::words_fault::WordsFault;
use closure_net::Net;
use ordered_group::Scaled;
use std::alloc::{AllocError, Global};

// The units of an amount, where there are fewer than 2^63 and not fewer than none.
fn units_of(amount: Scaled) -> Option<u64>
    ensures { MatchOption result
        ((amount.units <ℤ pos 0) ⊎ (pos 9223372036854775808 ≤ℤ amount.units))
        (λ k. (amount.units ≡ pos k) × (k < 2 ^ 63)) }
{
    if amount.units >= 0 && amount.units <= 9_223_372_036_854_775_807 {
        Some(amount.units as u64)
    } else {
        None
    }
}

/// The positive worths in units, and their sum.
///
/// # Errors
/// `TooLarge` where the sum is 2^63 or more, `NoMemory` where memory was refused.
pub fn gains(alloc: Global, net: &Net<Scaled>) -> Result<(Vec<u64>, u64), WordsFault>
    ensures { MatchResult result
        (λ r. AreGains net.now r.0.items r.1)
        (λ e. OpeningFaultStands net.now e) }
{
    let blocks = net.len();
    let mut gain = Vec::new(alloc);
    let mut sum: u64 = 0;
    let mut b = 0;
    while b < blocks {
        let Some(units) = units_of(net.positive(b)) else {
            return Err(WordsFault::TooLarge);
        };
        if units > 9_223_372_036_854_775_807 - sum {
            return Err(WordsFault::TooLarge);
        }
        sum += units;
        gain.push(units).map_err(|_| WordsFault::NoMemory)?;
        b += 1;
    }
    Ok((gain, sum))
}

/// What each block may give the sink, in units: at most `most`.
pub fn losses(alloc: Global, net: &Net<Scaled>, most: u64) -> Result<Vec<u64>, AllocError>
    requires { AreWithin net.now most × (most < 2 ^ 63) }
    ensures { IfOk result (λ r. AreLosses net.now r.items) }
{
    let blocks = net.len();
    let mut loss = Vec::new(alloc);
    let mut b = 0;
    while b < blocks {
        let Some(units) = units_of(net.negative(b)) else {
            unreachable!("no block gives the sink more than the total");
        };
        loss.push(units)?;
        b += 1;
    }
    Ok(loss)
}
