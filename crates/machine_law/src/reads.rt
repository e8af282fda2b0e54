//! Decides what a block does next where no amounts are compared: which of two residual arcs is
//! better, and whether it goes on looking, pushes or raises its label.

ghost use Rattle.std.specs.Prelude.{◌≡◌, Some};
ghost use Rattle.machine_law.specs.Reads.{better_of, after_last_port, after_port_by, LooksAtPort};

use crate::operations::{Best, Operation};

/// The best port with one more: the lower of the two, and of two as low the earlier.
pub fn better<N: Copy>(best: &mut Option<Best<N>>, new: Best<N>)
    ensures { best.new ≡ Some (better_of best.old new) }
{
    let lower = match best {
        Some(old) => new.label < old.label,
        None => true,
    };
    if lower {
        *best = Some(new);
    }
}

/// The operation of a block of this label once all its ports are passed.
pub fn after_last_port<N: Copy>(label: u64, have: N, best: Option<Best<N>>) -> Operation<N>
    ensures { result ≡ after_last_port label have best }
{
    match best {
        Some(best) => {
            if best.label < label {
                Operation::PushDue { have, best }
            } else {
                Operation::RaiseDue { have, best }
            }
        }
        None => Operation::Idle,
    }
}

/// A block of so many ports and this label passes the port that it looks at.
pub fn pass<N: Copy>(operation: &mut Operation<N>, ports: u32, label: u64)
    requires { LooksAtPort ports operation.old }
    ensures { operation.new ≡ after_port_by ports label operation.old }
{
    let next = match operation {
        Operation::Scan {
            have,
            place,
            read,
            best,
        } => {
            if *place + 1 < ports {
                *place += 1;
                *read = None;
                return;
            }
            after_last_port(label, *have, *best)
        }
        _ => return,
    };
    *operation = next;
}
