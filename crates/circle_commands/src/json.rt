//! Reading parts of JSON, and writing it as a line.
ghost use Rattle.std.specs.Prelude.{IfErr, IfOk, MatchResult, string_bytes};
ghost use Rattle.serde_json.specs.View.{view, items_view};
ghost use Rattle.circle_commands.specs.Json.{HasItems, IsMissing, IsNoArray, IsPart, pair_form};
ghost use Rattle.circle_commands.specs.Text.{IsJsonLine, IsPlain};

use circle_field::Mersenne31;
use circle_json::{JsonError, JsonForm};
use serde_json::Value;
use std::alloc::{AllocError, Global};

/// The compact text of a value, as a line.
///
/// Fails where memory is refused.
pub fn line(alloc: Global, value: &Value) -> Result<String, AllocError>
    ensures { IfOk result (λ line. IsPlain 127 (view value.now)
        → IsJsonLine (view value.now) (string_bytes line)) }
{
    let mut text = value.to_string(alloc)?;
    text.push('\n')?;
    Ok(text)
}

/// The member of an object with the key `key`.
///
/// Fails as `MissingKey` where there is none.
pub fn part<'a>(object: &'a Value, key: &str) -> Result<&'a Value, JsonError>
    ensures { MatchResult result (λ part. IsPart key.now (view object.now) (view part.now))
        (IsMissing key.now (view object.now)) }
{
    object.get(key).ok_or(JsonError::MissingKey)
}

// The items of an array.
fn items(value: &Value) -> Result<&[Value], JsonError>
    ensures { MatchResult result (λ items. HasItems (view value.now) (items_view items.now))
        (IsNoArray (view value.now)) }
{
    Ok(value.as_array().ok_or(JsonError::WrongKind)?.as_slice())
}

/// A pair of elements.
///
/// Fails as `WrongKind` where the value is no array of two, and as an element does.
pub fn pair(alloc: Global, value: &Value) -> Result<(Mersenne31, Mersenne31), JsonError>
    ensures reads { IfOk result (pair_form.reads (view value.now)) }
    ensures refuses { IfErr result (pair_form.refuses (view value.now)) }
{
    let [first, second] = items(value)? else {
        return Err(JsonError::WrongKind);
    };
    let first = Mersenne31::from_json(alloc, first)?;
    let second = Mersenne31::from_json(alloc, second)?;
    Ok((first, second))
}
