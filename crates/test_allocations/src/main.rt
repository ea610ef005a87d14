//! Calls of the libraries, one a run, whose allocations `checks/allocations` refuses in turn.
//!
//! - `call NAME` makes a call and prints what it returned, `Ok` and a number that the value comes
//!   to or the refusal, and behind it what the call left of what it was lent.
//! - `before NAME` ends right before the call, and prints the latter as it is then.
//! - `after NAME` ends right after it, where what follows allocates.
//! - `all` makes all calls, a line for each. Any other arguments print their names.
//!
//! Printing allocates nothing. `open` is told of with what is opened of the same matrices once more.
//! The names that begin with `without_` make the calls of a subject that allocate nothing.
#![tactic(auto)]

mod airs;
mod calls;
mod json;
mod plane;
mod scheme;
mod stark;
mod told;
mod transcript;
mod trees;
mod without;
mod words;

use anyhow::Result;
use calls::{NAMES, told_of};
use std::env;
use told::Stage;

// The stage that a word names.
fn stage(word: &str) -> Option<Stage> {
    match word {
        "before" => Some(Stage::Before),
        "after" => Some(Stage::After),
        "call" => Some(Stage::Whole),
        _ => None,
    }
}

// Prints the line of a call, and says whether there is such a call.
fn report(rt: &HostRuntime, stage: Stage, name: &str) -> Result<bool> {
    let Some(answer) = told_of(rt.alloc(), stage, name) else {
        return Ok(false);
    };
    match answer {
        Ok(told) => println!(rt; "{name}: {}", told.as_str())?,
        Err(refusal) => println!(rt; "{name}: {refusal}")?,
    }
    Ok(true)
}

// Prints the lines of all calls, or their names alone.
fn report_all(rt: &HostRuntime, are_made: bool) -> Result<()> {
    for name in NAMES {
        if are_made {
            report(rt, Stage::Whole, name)?;
        } else {
            println!(rt; "{name}")?;
        }
    }
    Ok(())
}

// Prints what the arguments ask for.
fn report_asked(rt: &HostRuntime, word: &str, name: Option<&str>) -> Result<()> {
    if let (Some(stage), Some(name)) = (stage(word), name) {
        if report(rt, stage, name)? {
            return Ok(());
        }
    }
    report_all(rt, word == "all" && name.is_none())
}

fn main(rt: HostRuntime) -> Result<()> {
    let mut args = env::args(&rt)?.skip(1);
    let (Some(word), name) = (args.next(), args.next()) else {
        return report_all(&rt, false);
    };
    report_asked(&rt, word.as_str(), name.as_deref())
}
