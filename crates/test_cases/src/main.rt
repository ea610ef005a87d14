//! Cases of calls, read from files of JSON that the arguments name: what each call is given, and
//! what is due. For each case a line says whether the result is what is due; the last line counts.
//! `calls.rt` makes the calls of the libraries, `commands.rt` those of the programs.
#![tactic(auto)]

mod calls;
mod case;
mod commands;
mod patch;
mod report;

use anyhow::Result;
use report::{Tally, report_file};
use std::env;
use std::process::ExitCode;

fn main(rt: HostRuntime) -> Result<ExitCode> {
    let mut tally = Tally::default();
    for name in env::args(&rt)?.skip(1) {
        report_file(&rt, name.as_str(), &mut tally)?;
    }
    println!(rt; "{} agree, {} differ", tally.agree, tally.differ)?;
    Ok(ExitCode::from(u8::from(tally.differ != 0)))
}
