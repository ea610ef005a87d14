//! What calls of the libraries return, by their names, over `Mersenne31` and its cubic extension:
//! what they are given and what they return is JSON. A call whose conditions what is given doesn't
//! meet isn't made.
mod airs;
mod domains;
mod fields;
mod folds;
mod given;
mod points;
mod transforms;

use anyhow::{Result, bail};
use serde_json::Value;
use std::alloc::Global;

/// What the call with this name returns, or why it isn't made: there is no such call, what is given
/// can't be read or doesn't meet its conditions, or memory is refused.
pub fn answer(alloc: Global, call: &str, given: &Value) -> Result<Value> {
    if let Some(answer) = fields::answer(alloc, call, given)? {
        return Ok(answer);
    }
    if let Some(answer) = points::answer(alloc, call, given)? {
        return Ok(answer);
    }
    if let Some(answer) = domains::answer(alloc, call, given)? {
        return Ok(answer);
    }
    if let Some(answer) = transforms::answer(alloc, call, given)? {
        return Ok(answer);
    }
    if let Some(answer) = folds::answer(alloc, call, given)? {
        return Ok(answer);
    }
    match airs::answer(alloc, call, given)? {
        Some(answer) => Ok(answer),
        None => bail!("there is no call {call}"),
    }
}
