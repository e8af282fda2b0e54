//! Reads the flow out of the words of a run that has ended.

ghost use Rattle.std.specs.Prelude.{pos, ◌≡◌, ◌+◌, ◌-ℤ◌, ◌≤ℤ◌, ◌≤◌, map, IfOk};
ghost use Rattle.std.specs.Mem.Slots.{slots_items, slots_len, IsFull};
ghost use Rattle.word_steps.specs.Layout.{width, room_at};
ghost use Rattle.word_runner.specs.Seats.{IsFlowOfWords};
ghost use Rattle.word_runner.specs.CutNets.{scaled_parts, AreUnits, AreRooms, AreSinks};

use atomic_table::Closed;
use closure_net::{Carried, Flow, Net};
use ordered_group::Scaled;
use std::alloc::{AllocError, Global};

// A word as an amount.
fn amount_of(word: u64) -> Scaled
    ensures { result.units ≡ pos word }
{
    Scaled {
        units: word as i128,
    }
}

// So many words from this one on, as amounts.
fn amounts_of(
    alloc: Global,
    closed: &Closed<(), Global>,
    from: usize,
    size: u32,
) -> Result<Vec<Scaled>, AllocError>
    requires { IsFull closed.now.words × (from + size ≤ slots_len closed.now.words) }
    ensures { IfOk result
        (λ v. AreUnits (slots_items closed.now.words) from size (map scaled_parts v.items)) }
{
    let mut amounts = Vec::new(alloc);
    let mut k = 0;
    while k < size {
        let word = closed.word(from + k as usize);
        let amount = amount_of(word);
        amounts.push(amount)?;
        k += 1;
    }
    Ok(amounts)
}

// What a block gave the sink, where it may give so much and has this room left.
fn given(most: Scaled, room: u64) -> Scaled
    requires { pos room ≤ℤ most.units }
    ensures { result.units ≡ most.units -ℤ pos room }
{
    Scaled {
        units: most.units - room as i128,
    }
}

// What each block gave the sink.
fn sinks_of(
    alloc: Global,
    net: &Net<Scaled>,
    closed: &Closed<(), Global>,
    from: usize,
) -> Result<Vec<Scaled>, AllocError>
    requires full { IsFull closed.now.words × (width net.now ≤ slots_len closed.now.words) }
    requires from { from ≡ room_at net.now 0 }
    requires rooms { AreRooms net.now (slots_items closed.now.words) }
    ensures { IfOk result
        (λ v. AreSinks net.now (slots_items closed.now.words) (map scaled_parts v.items)) }
{
    let blocks = net.len();
    let mut amounts = Vec::new(alloc);
    let mut b = 0;
    while b < blocks {
        let word = closed.word(from + b as usize);
        let sink = given(net.negative(b), word);
        amounts.push(sink)?;
        b += 1;
    }
    Ok(amounts)
}

/// The flow that the words have.
pub fn flow_of(
    alloc: Global,
    net: &Net<Scaled>,
    closed: &Closed<(), Global>,
) -> Result<Flow<Scaled>, AllocError>
    requires words { IsFull closed.now.words × (slots_len closed.now.words ≡ width net.now) }
    requires rooms { AreRooms net.now (slots_items closed.now.words) }
    ensures { IfOk result (λ flow. IsFlowOfWords net.now (slots_items closed.now.words) flow) }
{
    let blocks = net.rests().len();
    let pairs = net.rests().pairs();
    let n = blocks as usize;
    let source = amounts_of(alloc, closed, 2 + n + n, blocks)?;
    let rest = amounts_of(alloc, closed, 2 + n + n + n + n, pairs)?;
    let sink = sinks_of(alloc, net, closed, 2 + n + n + n)?;
    Ok(Flow::new(
        Carried::from_list(source),
        Carried::from_list(rest),
        Carried::from_list(sink),
    ))
}
