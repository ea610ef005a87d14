//! Objects whose members are the parts of a value.
ghost use Rattle.std.specs.Prelude.{◌≡◌, ◌↔◌, map, All, IsTrue, IsSome, Some, IfOk, IfErr};
ghost use Rattle.std.specs.Prelude.{MatchResult};
ghost use Rattle.serde_json.specs.Data.{put as with_member};
ghost use Rattle.serde_json.specs.Find.{as_object, get};
ghost use Rattle.serde_json.specs.View.{view, members_view};
ghost use Rattle.circle_json.specs.declared.error.JsonError.{JsonError};
ghost use Rattle.circle_json.specs.Values.{IsOtherKind};
ghost use Rattle.circle_json.specs.Objects.{HasKeys, HasMember, RefusesKeys, RefusesMember};

use crate::error::JsonError;
use crate::form::JsonForm;
use serde_json::{Map, Value};
use std::alloc::{AllocError, Global};

/// Tests that a JSON value is an object with exactly these keys.
///
/// Fails as `WrongKind` where it is no object, as `MissingKey` where it lacks one of them, and then
/// as `UnknownKey` where it has others.
pub fn has_keys(value: &Value, keys: &[&str]) -> Result<(), JsonError>
    ensures keys { IfOk result (λ _. HasKeys (map (λ key. key.now) keys.now) (view value.now)) }
    ensures refuses { IfErr result (λ error.
        RefusesKeys (map (λ key. key.now) keys.now) (view value.now) error) }
{
    let members = members(value)?;
    if !has_each(value, keys) {
        return Err(JsonError::MissingKey);
    }
    if members.len() > keys.len() {
        return Err(JsonError::UnknownKey);
    }
    Ok(())
}

// The members of an object.
pub(crate) fn members(value: &Value) -> Result<&Map<String, Value>, JsonError>
    ensures { let found = as_object (view value.now) in MatchResult result
        (λ members. found ≡ Some (members_view members.now.entries)) (IsOtherKind found) }
{
    value.as_object().ok_or(JsonError::WrongKind)
}

// Whether the JSON value is an object that has each of these keys.
fn has_each(value: &Value, keys: &[&str]) -> bool
    ensures { IsTrue result ↔ All (λ key. IsSome (get key.now (view value.now))) keys.now }
{
    keys.iter().all(|key| value.get(*key).is_some())
}

/// The value that the member of an object with this key stands for.
///
/// Fails as `MissingKey` where there is none, and as the member does.
pub fn member<T: JsonForm>(alloc: Global, object: &Value, key: &str) -> Result<T, JsonError>
    ensures reads { IfOk result (λ part.
        HasMember key.now (view object.now) (λ value. T.form.reads value part)) }
    ensures refuses { IfErr result (λ error.
        RefusesMember key.now T.form.refuses (view object.now) error) }
{
    let value = object.get(key).ok_or(JsonError::MissingKey)?;
    T::from_json(alloc, value)
}

/// Gives an object the member with this key that is the value's form.
///
/// Fails where memory is refused, and the object stays as it was.
pub fn put_member<T: JsonForm>(
    alloc: Global,
    object: &mut Map<String, Value>,
    key: &str,
    value: &T,
) -> Result<(), AllocError>
    ensures member { IfOk result (λ _. members_view object.new.entries
        ≡ with_member key.now (T.form.written value.now) (members_view object.old.entries)) }
    ensures reads { IfOk result (λ _. T.form.reads (T.form.written value.now) value.now) }
    ensures kept { IfErr result (λ _. object.new.entries ≡ object.old.entries) }
{
    serde_json::put(object, alloc, key, value.to_json(alloc)?)
}
