//! What to try where no pit is proved, by the arguments and the answer.

use command_line::{SeriesArgs, SolveArgs};

/// What to try where a command answers that no pit is proved.
#[derive(Clone, Copy)]
pub struct Advice {
    unsettled: &'static str,
}

const STEPS_CHOOSE_THE_MACHINE: &str = "leave --steps out, or try --method pseudoflow beside it";

const MORE_STEPS: &str = "try more --steps, at most 1099511627776";

const OTHER_METHOD: &str = "try --method pseudoflow, or --steps over 1000000000";

const OTHER_AMOUNTS: &str =
    "up to 1000 blocks try --method pseudoflow; beyond that --group scaled, or --method push-relabel with --steps 1099511627776";

const MACHINE: &str = "try --method push-relabel with --steps 1099511627776";

// What to try where the method and the steps are these, if they are given; or else the last text.
fn advice_by(method: Option<&str>, steps: Option<&str>, otherwise: &'static str) -> Advice {
    let method = method.unwrap_or("auto");
    let unsettled = match (method == "auto", steps.is_some()) {
        (true, true) => STEPS_CHOOSE_THE_MACHINE,
        (false, true) => MORE_STEPS,
        (true, false) => otherwise,
        (false, false) if method == "pseudoflow" => otherwise,
        (false, false) => OTHER_METHOD,
    };
    Advice { unsettled }
}

/// What to try where `solve` proves no pit. A trace is of push-relabel alone, and the amounts of blocks and periods are
/// of one group.
pub fn advice_to_solve(args: SolveArgs<'_>) -> Advice {
    match (args.trace, args.periods) {
        (Some(_), _) => Advice {
            unsettled: MORE_STEPS,
        },
        (None, Some(_)) => advice_by(args.method, args.steps, MACHINE),
        (None, None) => advice_by(args.method, args.steps, OTHER_AMOUNTS),
    }
}

/// What to try where `shells` or `report` proves no pit at some factor: all their amounts are of one group.
pub fn advice_for_series(args: SeriesArgs<'_>) -> Advice {
    advice_by(args.method, args.steps, MACHINE)
}

impl Advice {
    /// What to try where this was written, if it is the line `UNSETTLED`.
    pub fn after(self, written: &[u8]) -> Option<&'static str> {
        if written.starts_with(b"UNSETTLED") {
            Some(self.unsettled)
        } else {
            None
        }
    }
}
