//! Cases of the program's commands.
use crate::case::{Case, part, text};
use crate::patch;
use crate::report::{bytes_of_file, value_of_file};
use anyhow::{Result, bail};
use circle_commands::run::run;
use serde_json::Value;
use stark_commands::run::run as run_stark;
use std::alloc::{AllocError, Global};

/// What a command wrote, and its status.
#[derive(Drop)]
struct Answer {
    line: String,
    status: u8,
}

/// Whether a call's name is that of a command: of `circle_tool`, of `stark_tool` with `stark ` before
/// it, or of one that reads what another wrote.
pub fn are_named(call: &str) -> bool {
    matches!(
        call,
        "values"
            | "shape"
            | "prove"
            | "verify"
            | "prove | verify"
            | "stark check"
            | "stark prove"
            | "stark prove | stark verify"
            | "stark verify"
    )
}

/// The result of a case's command where it isn't what is due.
pub fn difference(rt: &HostRuntime, case: &Case) -> Result<Option<String>> {
    let answer = run_commands(rt.alloc(), case.call, &input(rt, case.given)?)?;
    if is_due(rt, &answer, case.due)? {
        return Ok(None);
    }
    Ok(Some(format!(in rt.alloc(); "{} with status {}", answer.line, answer.status)?))
}

// The text that a command is given: a text, the text of a value, or that of a file whose value is
// changed.
fn input(rt: &HostRuntime, given: &Value) -> Result<String> {
    if let Some(value) = given.get("json") {
        return Ok(value.to_string(rt.alloc())?);
    }
    if given.get("file").is_some() {
        return Ok(changed_file(rt, given)?);
    }
    Ok(String::from_str(rt.alloc(), text(given, "text")?)?)
}

// The text of a file whose value is changed.
fn changed_file(rt: &HostRuntime, given: &Value) -> Result<String> {
    let mut value = value_of_file(rt, text(given, "file")?)?;
    if let Some(patch) = given.get("patch") {
        patch::apply(rt.alloc(), &mut value, patch)?;
    }
    Ok(value.to_string(rt.alloc())?)
}

// What the command returns; of two commands, the second is given what the first returns.
fn run_commands(alloc: Global, commands: &str, input: &str) -> Result<Answer> {
    let Some((first, second)) = commands.split_once(" | ") else {
        return Ok(run_command(alloc, commands, input)?);
    };
    let between = run_command(alloc, first, input)?;
    Ok(run_command(alloc, second, &between.line)?)
}

// What one command returns, without the line's end.
fn run_command(alloc: Global, command: &str, input: &str) -> Result<Answer, AllocError> {
    let (written, status) = written_by(alloc, command, input)?;
    let text = std::str::from_utf8(&written).unwrap_or("not UTF-8");
    let line = String::from_str(alloc, text.strip_suffix("\n").unwrap_or("no line"))?;
    Ok(Answer { line, status })
}

// What one command writes, and its status.
fn written_by(alloc: Global, command: &str, input: &str) -> Result<(Vec<u8>, u8), AllocError> {
    let name = command.strip_prefix("stark ");
    let args = vec![in alloc; String::from_str(alloc, name.unwrap_or(command))?]?;
    let mut written = Vec::new(alloc);
    let status = match name {
        Some(_) => run_stark(alloc, &args, &mut input.as_bytes(), &mut written),
        None => run(alloc, &args, &mut input.as_bytes(), &mut written),
    };
    Ok((written, status))
}

// Whether the result has the status and the line that are due.
fn is_due(rt: &HostRuntime, answer: &Answer, due: &Value) -> Result<bool> {
    if part(due, "status")?.as_u64() != Some(u64::from(answer.status)) {
        return Ok(false);
    }
    is_line_due(rt, answer, due)
}

// Whether the result's line is what is due of it: a value, one of some refusals, some members, or
// what a file has.
fn is_line_due(rt: &HostRuntime, answer: &Answer, due: &Value) -> Result<bool> {
    let line = answer.line.as_str();
    if let Some(value) = due.get("line") {
        return Ok(is_text_of(rt.alloc(), line, value)?);
    }
    if let Some(names) = due.get("one_of") {
        return is_one_of(rt.alloc(), line, names);
    }
    if let Some(members) = due.get("members") {
        return has_members(rt.alloc(), line, members);
    }
    match due.get("file") {
        Some(_) => is_in_file(rt, line, text(due, "file")?),
        None => Ok(true),
    }
}

// Whether a line is the text of a value.
fn is_text_of(alloc: Global, line: &str, value: &Value) -> Result<bool, AllocError> {
    Ok(value.to_string(alloc)?.as_str() == line)
}

/// Whether a line is what a file has.
pub fn is_in_file(rt: &HostRuntime, line: &str, name: &str) -> Result<bool> {
    let bytes = bytes_of_file(rt, name)?;
    Ok(bytes.as_slice().trim_ascii_end() == line.as_bytes())
}

// Whether the result is a refusal with one of these names.
fn is_one_of(alloc: Global, line: &str, names: &Value) -> Result<bool> {
    let Some(names) = names.as_array() else {
        bail!("the names of a case are no list");
    };
    for name in names {
        let name = name.as_str().unwrap_or("no name");
        let refused = format!(in alloc; "{{\"refused\":\"{name}\"}}")?;
        if refused.as_str() == line {
            return Ok(true);
        }
    }
    Ok(false)
}

// Whether the result is an object that has these members.
fn has_members(alloc: Global, line: &str, members: &Value) -> Result<bool> {
    let Some(members) = members.as_object() else {
        bail!("the members of a case are no object");
    };
    let answer = Value::from_str(alloc, line)?;
    for (key, member) in members {
        if answer.get(key.as_str()) != Some(member) {
            return Ok(false);
        }
    }
    Ok(true)
}
