//! Whether a net is that of pairs and prices at a factor.

ghost use Rattle.std.specs.Prelude.{◌≡◌, ◌↔◌, length, IsTrue};
ghost use Rattle.shells.specs.Prices.{priced_count};
ghost use Rattle.shells.specs.Series.{HasWorths, IsOver};

use crate::factor::Factor;
use crate::price_tables::Prices;
use crate::same_held::are_same;
use closure_net::Net;
use held_pairs::HeldPairs;
use ordered_group::{OrderedGroup, same};

// Whether an amount is that of one block, of so many, which is worth so many billionths. That its two numbers fit is
// known by asking for them.
fn is_block<G: OrderedGroup>(nanos: i128, blocks: u32, amount: G) -> bool
    ensures { IsTrue result ↔ (G.parts_of amount ≡ G.block_parts nanos blocks) }
{
    let (_worth, _count) = amount.parts();
    match G::of_block(nanos, blocks) {
        Some(block) => same(amount, block),
        None => false,
    }
}

// Whether each block of the net is worth what it is by the prices.
fn has_worths<G: OrderedGroup>(prices: &Prices, factor: Factor, net: &Net<G>) -> bool
    requires { length net.now.worths ≡ priced_count prices.now }
    ensures { IsTrue result ↔ HasWorths G.block_parts prices.now factor net.now }
{
    let blocks = net.len();
    for b in 0..blocks {
        if !is_block(prices.worth(b, factor), blocks, net.worth(b)) {
            return false;
        }
    }
    true
}

// Whether the net has the pairs, and the worths by the prices. No net is made for it, so that it takes no memory.
pub(crate) fn is_over<G: OrderedGroup>(
    rests: &HeldPairs,
    prices: &Prices,
    factor: Factor,
    net: &Net<G>,
) -> bool
    ensures { IsTrue result ↔ IsOver G.block_parts rests.now.pairs prices.now factor net.now }
{
    net.len() == prices.len() && are_same(net.rests(), rests) && has_worths(prices, factor, net)
}
