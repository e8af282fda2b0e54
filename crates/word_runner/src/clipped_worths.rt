//! The net that the words show: the one handed in, except that no block may give the sink more than the source gives in
//! all. A worth below that needn't fit a word, and a maximum flow of the cut net is one of the net handed in.

ghost use Rattle.std.specs.Prelude.{◌≡◌, ◌-ℤ◌, ◌<◌, ◌^◌, pos, map, IfOk};
ghost use Rattle.machine_law.specs.Conservation.{all_given};
ghost use Rattle.word_steps.specs.Layout.{units};
ghost use Rattle.word_runner.specs.CutNets.{scaled_parts, IsCutWorth, AreCut, IsCutNet, AreWithin};

use closure_net::Net;
use ordered_group::Scaled;
use std::alloc::{AllocError, Global};

fn opposite_of(most: u64) -> i128
    ensures { result ≡ pos 0 -ℤ pos most }
{
    -(most as i128)
}

// A worth, clipped to minus so much.
fn cut_worth(worth: Scaled, most: u64) -> Scaled
    ensures { IsCutWorth (scaled_parts worth) most (scaled_parts result) }
{
    let least = opposite_of(most);
    if worth.units < least {
        return Scaled { units: least };
    }
    worth
}

// The worths of a net, each clipped.
fn cut_worths(alloc: Global, net: &Net<Scaled>, most: u64) -> Result<Vec<Scaled>, AllocError>
    ensures { IfOk result (λ v. AreCut net.now most (map scaled_parts v.items)) }
{
    let blocks = net.len();
    let mut worths = Vec::new(alloc);
    let mut b = 0;
    while b < blocks {
        let worth = cut_worth(net.worth(b), most);
        worths.push(worth)?;
        b += 1;
    }
    Ok(worths)
}

/// The net with its negative worths cut at what the source gives in all.
pub fn cut_net(alloc: Global, net: &Net<Scaled>, most: u64) -> Result<Net<Scaled>, AllocError>
    requires { (all_given net.now ≡ units most) × (most < 2 ^ 63) }
    ensures { IfOk result (λ n. IsCutNet net.now n × AreWithin n most
        × (all_given n ≡ units most)) }
{
    // proof: what is known of every net, that its pairs are of its blocks and in order
    let _net = net.worths();
    let worths = cut_worths(alloc, net, most)?;
    let rests = net.rests().copy(alloc)?;
    match Net::build(rests, worths) {
        Ok(cut) => Ok(cut),
        Err(_) => unreachable!("worths nearer to zero than those of a net fit"),
    }
}
