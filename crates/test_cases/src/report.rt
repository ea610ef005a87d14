//! The lines of a file's cases.
use crate::case::{Case, part, text};
use crate::{calls, commands, patch};
use anyhow::{Result, bail};
use serde_json::Value;
use std::fs;
use std::path::Path;

/// How many cases agree and how many differ.
#[derive(Clone, Copy, Default)]
pub struct Tally {
    /// The cases whose result is what is due.
    pub agree: u64,
    /// The others.
    pub differ: u64,
}

/// The bytes of the file with this name, where the program is run beside it or in the crate's
/// folder.
pub fn bytes_of_file(rt: &HostRuntime, name: &str) -> Result<Vec<u8>> {
    let of_crate = format!(in rt.alloc(); "data/{name}")?;
    match fs::read(rt, name) {
        Ok(bytes) => Ok(bytes),
        Err(_) => Ok(fs::read(rt, of_crate.as_str())?),
    }
}

/// The JSON value of the file with this name.
pub fn value_of_file(rt: &HostRuntime, name: &str) -> Result<Value> {
    Ok(Value::from_slice(rt.alloc(), &bytes_of_file(rt, name)?)?)
}

/// Prints a line for each case of a file.
pub fn report_file(rt: &HostRuntime, name: &str, tally: &mut Tally) -> Result<()> {
    let file = value_of_file(rt, name)?;
    let Some(cases) = part(&file, "cases")?.as_array() else {
        bail!("the cases of {name} are no list");
    };
    for value in cases {
        report_value(rt, value, tally)?;
    }
    Ok(())
}

// Prints the line of the case that a value is, after its own patch where it has one.
fn report_value(rt: &HostRuntime, value: &Value, tally: &mut Tally) -> Result<()> {
    let Some(changes) = value.get("patch") else {
        return report_case(rt, &Case::of(value)?, tally);
    };
    let mut changed = value.clone()?;
    patch::apply(rt.alloc(), &mut changed, changes)?;
    report_case(rt, &Case::of(&changed)?, tally)
}

// The result of a case where it isn't what is due.
fn difference(rt: &HostRuntime, case: &Case) -> Result<Option<String>> {
    if commands::are_named(case.call) {
        return commands::difference(rt, case);
    }
    let answer = match case.given.get("file") {
        Some(_) => {
            let given = value_of_file(rt, text(case.given, "file")?)?;
            calls::answer(rt.alloc(), case.call, &given)?
        }
        None => calls::answer(rt.alloc(), case.call, case.given)?,
    };
    let line = answer.to_string(rt.alloc())?;
    let is_due = match case.due.get("file") {
        Some(_) => commands::is_in_file(rt, line.as_str(), text(case.due, "file")?)?,
        None => answer == *case.due,
    };
    Ok(if is_due { None } else { Some(line) })
}

// Prints a case's line.
fn report_case(rt: &HostRuntime, case: &Case, tally: &mut Tally) -> Result<()> {
    match difference(rt, case) {
        Ok(None) => {
            println!(rt; "agrees {}", case.name)?;
            tally.agree = tally.agree.saturating_add(1);
        }
        Ok(Some(answer)) => {
            println!(rt; "differs {}: answered {answer}", case.name)?;
            tally.differ = tally.differ.saturating_add(1);
        }
        Err(error) => {
            println!(rt; "differs {}: {error}", case.name)?;
            tally.differ = tally.differ.saturating_add(1);
        }
    }
    Ok(())
}
