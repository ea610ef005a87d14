//! Changes of a JSON value, as JSON Patch names them: each adds, replaces or removes the value at a
//! JSON pointer. A further one, `repeat`, has the items of the list there come `times` times.
use crate::case::{part, text};
use anyhow::{Result, bail};
use serde_json::{Value, put};
use std::alloc::{AllocError, AllocFailed, Global};

/// Makes all changes of a list, one after another.
pub fn apply(alloc: Global, value: &mut Value, patch: &Value) -> Result<()> {
    let Some(changes) = patch.as_array() else {
        bail!("a patch is no list");
    };
    for change in changes {
        apply_one(alloc, value, change)?;
    }
    Ok(())
}

// Makes one change.
fn apply_one(alloc: Global, value: &mut Value, change: &Value) -> Result<()> {
    let path = text(change, "path")?;
    match text(change, "op")? {
        "replace" => replace(value, path, change),
        "add" => add(alloc, value, path, change),
        "remove" => remove(value, path),
        "repeat" => repeat(value, path, change),
        other => bail!("a patch has the operation {other}"),
    }
}

// The value that a change puts.
fn new_value(change: &Value) -> Result<Value> {
    Ok(part(change, "value")?.clone()?)
}

// Puts another value at the pointer.
fn replace(value: &mut Value, path: &str, change: &Value) -> Result<()> {
    match value.pointer_mut(path) {
        Some(place) => *place = new_value(change)?,
        None => bail!("there is no {path}"),
    }
    Ok(())
}

// The pointer to what holds the value at a pointer, and the last part of that pointer.
fn split(path: &str) -> Result<(&str, &str)> {
    match path.rsplit_once('/') {
        Some(parts) => Ok(parts),
        None => bail!("{path} has no last part"),
    }
}

// Adds a member to an object, or an item to an array: before one, or with the last part `-` behind
// all.
fn add(alloc: Global, value: &mut Value, path: &str, change: &Value) -> Result<()> {
    let (holder, last) = split(path)?;
    match value.pointer_mut(holder) {
        Some(holder) => add_to(alloc, holder, last, new_value(change)?),
        None => bail!("nothing holds {path}"),
    }
}

fn add_to(alloc: Global, holder: &mut Value, last: &str, new: Value) -> Result<()> {
    match holder {
        Value::Object(members) => put(members, alloc, last, new)?,
        Value::Array(items) => insert(items, last, new)?,
        _ => bail!("a value that holds nothing has no {last}"),
    }
    Ok(())
}

// Puts an item before the one at a place, or behind all.
fn insert(items: &mut Vec<Value>, place: &str, new: Value) -> Result<(), AllocFailed<Value>> {
    let place = place.parse().unwrap_or(usize::MAX);
    items.insert(place.min(items.len()), new)
}

// Has the items of a list come `times` times, all of them and then all again.
fn repeat(value: &mut Value, path: &str, change: &Value) -> Result<()> {
    let times = part(change, "times")?.as_u64().unwrap_or(0);
    match value.pointer_mut(path) {
        Some(Value::Array(items)) => Ok(repeat_items(items, times)?),
        _ => bail!("there is no list {path}"),
    }
}

fn repeat_items(items: &mut Vec<Value>, times: u64) -> Result<(), AllocError> {
    let once = items.clone()?;
    for _ in 1..times {
        items.extend_with_clones(&once)?;
    }
    Ok(())
}

// Removes a member of an object or an item of an array.
fn remove(value: &mut Value, path: &str) -> Result<()> {
    let (holder, last) = split(path)?;
    let removed = match value.pointer_mut(holder) {
        Some(Value::Object(members)) => members.remove(last).is_some(),
        Some(Value::Array(items)) => remove_item(items, last),
        _ => false,
    };
    if !removed {
        bail!("there is no {path}");
    }
    Ok(())
}

// Removes the item at a place, and says whether there is one.
fn remove_item(items: &mut Vec<Value>, place: &str) -> bool {
    match place.parse::<usize>() {
        Ok(place) if place < items.len() => {
            let _ = items.remove(place);
            true
        }
        _ => false,
    }
}
