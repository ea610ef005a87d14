//! Values read from JSON and written as JSON.
ghost use Rattle.std.specs.Prelude.{◌≡◌, map, IfOk, IfErr, MatchResult, Ok, Err, Some};
ghost use Rattle.serde_json.specs.Data.{array};
ghost use Rattle.serde_json.specs.Find.{as_array};
ghost use Rattle.serde_json.specs.View.{view, items_of, items_view};
ghost use Rattle.circle_field.specs.Mersenne31.{residue};
ghost use Rattle.circle_json.specs.Form.{Form, told_form, list_form};
ghost use Rattle.circle_json.specs.Values.{count_of, residue_of, residues_of, digest_of};
ghost use Rattle.circle_json.specs.Values.{count_written, residues_written, digest_written};
ghost use Rattle.circle_json.specs.Values.{IsOtherKind, ReadsArray};

use crate::error::JsonError;
use circle_field::{Cubic, ExtensionField, Mersenne31};
use hex::FromHex;
use serde_json::Value;
use std::alloc::{AllocError, Global};

/// A type whose values have a form in JSON.
///
/// What is written is read back as the value that it was written of, where memory isn't refused,
/// and no JSON value stands for two values.
pub trait JsonForm: Sized {
    // What values are written as, what they are read of, and why there is none.
    ghost form: { Form Self };

    /// The JSON value that the value is written as. Fails where memory is refused.
    fn to_json(&self, alloc: Global) -> Result<Value, AllocError>
        ensures written { IfOk result (λ value. view value ≡ form.written self.now) }
        ensures reads { IfOk result (λ value. form.reads (view value) self.now) };

    /// The value that a JSON value stands for.
    ///
    /// Fails by the [`JsonError`] that says why it stands for none.
    fn from_json(alloc: Global, value: &Value) -> Result<Self, JsonError>
        ensures reads { IfOk result (λ read. form.reads (view value.now) read) }
        ensures refuses { IfErr result (λ error. form.refuses (view value.now) error) };
}

// A whole number below 2^64.
pub(crate) fn count(value: &Value) -> Result<u64, JsonError>
    ensures { result ≡ count_of (view value.now) }
{
    let number = value.as_number().ok_or(JsonError::WrongKind)?;
    if number.is_f64() {
        return Err(JsonError::WrongKind);
    }
    number.as_u64().ok_or(JsonError::OutOfRange)
}

// The items of an array.
pub(crate) fn items(value: &Value) -> Result<&[Value], JsonError>
    ensures { let found = as_array (view value.now) in MatchResult result
        (λ items. found ≡ Some (items_view items.now)) (IsOtherKind found) }
{
    Ok(value.as_array().ok_or(JsonError::WrongKind)?.as_slice())
}

// The array of the forms of values.
pub(crate) fn array_of<T: JsonForm>(alloc: Global, values: &[T]) -> Result<Value, AllocError>
    ensures written { IfOk result (λ value. view value
        ≡ array (items_of (map T.form.written values.now))) }
    ensures reads { IfOk result (λ value. ReadsArray T.form.reads (view value) values.now) }
{
    let mut items = Vec::with_capacity(alloc, values.len())?;
    for value in values {
        items.push(value.to_json(alloc)?)?;
    }
    Ok(Value::from(items))
}

/// A whole number below `2^64`.
///
/// Fails as `WrongKind` where the value is no number, or one with a point or an exponent, and as
/// `OutOfRange` where it is negative.
impl JsonForm for u64 {
    ghost form = { told_form count_of (λ n. n) count_written (λ m n same. same) };

    fn to_json(&self, _alloc: Global) -> Result<Value, AllocError> {
        Ok(Value::from(*self))
    }

    fn from_json(_alloc: Global, value: &Value) -> Result<Self, JsonError> {
        count(value)
    }
}

/// A whole number below `2^64`.
///
/// Fails as `WrongKind` where the value is no number, or one with a point or an exponent, and as
/// `OutOfRange` where it is negative.
impl JsonForm for usize {
    ghost form = { told_form count_of (λ n. n) count_written (λ m n same. same) };

    fn to_json(&self, _alloc: Global) -> Result<Value, AllocError> {
        Ok(Value::from(*self))
    }

    fn from_json(_alloc: Global, value: &Value) -> Result<Self, JsonError> {
        Ok(count(value)? as usize)
    }
}

/// A whole number below the field's order.
///
/// Fails as `WrongKind` where the value is no number, or one with a point or an exponent, and as
/// `OutOfRange` where it is negative or not below the order.
impl JsonForm for Mersenne31 {
    ghost use Rattle.circle_field.specs.Mersenne31Laws.{same_residue};

    ghost form = { told_form residue_of residue count_written same_residue };

    fn to_json(&self, _alloc: Global) -> Result<Value, AllocError> {
        Ok(Value::from(self.value()))
    }

    fn from_json(_alloc: Global, value: &Value) -> Result<Self, JsonError> {
        let residue = u32::try_from(count(value)?).map_err(|_| JsonError::OutOfRange)?;
        Mersenne31::try_new(residue).ok_or(JsonError::OutOfRange)
    }
}

/// An array of the three coefficients of `1`, `X` and `X^2`.
///
/// Fails as `WrongKind` where the value is no array of three, and as for the base field's elements.
impl JsonForm for Cubic {
    ghost use Rattle.circle_json.specs.Values.{coefficient_residues};
    ghost use Rattle.circle_json.specs.FormFacts.{same_coefficients};

    ghost form = { told_form residues_of coefficient_residues residues_written same_coefficients };

    fn to_json(&self, alloc: Global) -> Result<Value, AllocError> {
        let coefficients: [Mersenne31; 3] = [
            self.coefficient(0),
            self.coefficient(1),
            self.coefficient(2),
        ];
        array_of(alloc, &coefficients)
    }

    fn from_json(alloc: Global, value: &Value) -> Result<Self, JsonError> {
        let [c0, c1, c2] = items(value)? else {
            return Err(JsonError::WrongKind);
        };
        let c0 = Mersenne31::from_json(alloc, c0)?;
        let c1 = Mersenne31::from_json(alloc, c1)?;
        let c2 = Mersenne31::from_json(alloc, c2)?;
        Ok(Cubic::from_coefficients(&[c0, c1, c2]))
    }
}

/// A text of 64 hexadecimal digits, written in lower case and read in either.
///
/// Fails as `WrongKind` where the value is no text, and as `BadHex` where it isn't 64 digits.
impl JsonForm for [u8; 32] {
    ghost form = { told_form digest_of (λ digest. digest) digest_written (λ x y same. same) };

    fn to_json(&self, alloc: Global) -> Result<Value, AllocError> {
        Ok(Value::from(hex::encode(alloc, self.as_slice())?))
    }

    fn from_json(_alloc: Global, value: &Value) -> Result<Self, JsonError> {
        let text = value.as_str().ok_or(JsonError::WrongKind)?;
        <[u8; 32] as FromHex>::from_hex(text).map_err(|_| JsonError::BadHex)
    }
}

/// An array of the forms of the elements.
///
/// Fails as `WrongKind` where the value is no array, as `Memory`, and as an element does.
impl<T: JsonForm + Drop> JsonForm for Vec<T> {
    ghost form = { list_form T.form };

    fn to_json(&self, alloc: Global) -> Result<Value, AllocError> {
        array_of(alloc, self)
    }

    fn from_json(alloc: Global, value: &Value) -> Result<Self, JsonError> {
        let items = items(value)?;
        let mut list = Vec::with_capacity(alloc, items.len())?;
        for item in items {
            list.push(T::from_json(alloc, item)?)
                .map_err(AllocError::from)?;
        }
        Ok(list)
    }
}
