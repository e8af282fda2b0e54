//! What arguments and an answer leave open, told on standard error where that is asked for.

use engine_faults::{EngineFault, SlopeProblem};
use option_words::Method;
use pit_commands::SolveWay;
use slope::{RegionFault, SlopeFault};
use slope_offsets::PatternFault;

/// Tells that steps have chosen push-relabel, where no method is given beside them.
pub fn tell_choice<R: Eprint>(rt: &R, is_asked: bool, method: Option<&str>, steps: Option<&str>) {
    if is_asked && steps.is_some() && method.unwrap_or("auto") == "auto" {
        let _ = rt.eprintln(
            "note: --steps without --method chooses push-relabel, which is slow above a few thousand blocks",
        );
    }
}

/// Tells that further workers have no effect where pseudoflow alone is to solve.
pub fn advise_on_workers<R: Eprint>(rt: &R, is_asked: bool, way: SolveWay<'_>) {
    if let SolveWay::ByMethod { effort, .. } = way {
        if is_asked && effort.workers > 1 && effort.method == Method::Pseudoflow {
            let _ = rt.eprintln(
                "advice: --workers has no effect with --method pseudoflow, which has one thread",
            );
        }
    }
}

/// Tells of what there is too much, where the line of a fault of `slopes` doesn't say it.
pub fn tell_slope_reason<R: Eprint>(rt: &R, is_asked: bool, fault: EngineFault) {
    let reason = match fault {
        EngineFault::Slope(SlopeProblem::Pattern(PatternFault::TooMany)) => {
            "more than 4096 offsets"
        }
        EngineFault::Slope(
            SlopeProblem::Pairs(SlopeFault::TooMany) | SlopeProblem::Regions(RegionFault::TooMany),
        ) => "the offsets give more than 134217728 pairs",
        EngineFault::Slope(SlopeProblem::Regions(fault)) => return tell_region(rt, is_asked, fault),
        _ => return,
    };
    if is_asked {
        let _ = rt.eprintln(format_args!("reason: {reason}"));
    }
}

// Tells what is wrong with slopes by region, where the line of the fault doesn't say it.
fn tell_region<R: Eprint>(rt: &R, is_asked: bool, fault: RegionFault) {
    if !is_asked {
        return;
    }
    let _ = match fault {
        RegionFault::UnknownRegion(block) => rt.eprintln(format_args!(
            "reason: the region of block {block} is no whole number, or slopes has no offsets for it: its first list is that of region 0"
        )),
        RegionFault::NotUpward(region, place) => rt.eprintln(format_args!(
            "reason: offset {place} of region {region}, both counted from 0, doesn't lead up: its third number has to be at least 1"
        )),
        RegionFault::TooManyOffsets(region) => {
            rt.eprintln(format_args!("reason: region {region} has more than 4096 offsets"))
        }
        RegionFault::TooManyRegions => rt.eprintln("reason: slopes has more than 64 regions"),
        _ => Ok(()),
    };
}
