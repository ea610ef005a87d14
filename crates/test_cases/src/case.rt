//! A case of a file.
use anyhow::{Result, bail};
use serde_json::Value;

/// A call, what it is given, and what is due.
#[derive(Clone, Copy)]
pub struct Case<'a> {
    /// What the case shows.
    pub name: &'a str,
    /// The name of the call.
    pub call: &'a str,
    /// What the call is given.
    pub given: &'a Value,
    /// What is due.
    pub due: &'a Value,
}

impl<'a> Case<'a> {
    /// The case that an object is.
    pub fn of(value: &'a Value) -> Result<Case<'a>> {
        Ok(Case {
            name: text(value, "name")?,
            call: text(value, "call")?,
            given: part(value, "given")?,
            due: part(value, "due")?,
        })
    }
}

/// The member of an object with this key.
pub fn part<'a>(object: &'a Value, key: &str) -> Result<&'a Value> {
    match object.get(key) {
        Some(value) => Ok(value),
        None => bail!("a case has no member {key}"),
    }
}

/// The text that is the member of an object with this key.
pub fn text<'a>(object: &'a Value, key: &str) -> Result<&'a str> {
    match part(object, key)?.as_str() {
        Some(text) => Ok(text),
        None => bail!("a case's member {key} is no text"),
    }
}
