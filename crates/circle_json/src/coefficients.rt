//! Lists of coefficients, of which one stands for itself.
ghost use Rattle.std.specs.Prelude.{◌≡◌, IfOk, IfErr};
ghost use Rattle.serde_json.specs.Data.{Data};
ghost use Rattle.serde_json.specs.View.{view};
ghost use Rattle.circle_json.specs.Coefficients.{IsFlat, coefficients_form, is_list};
ghost use Rattle.circle_json.specs.Objects.{HasMember, RefusesMember};

use crate::error::JsonError;
use crate::form::{JsonForm, array_of};
use circle_field::Cubic;
use serde_json::Value;
use std::alloc::{AllocError, Global};

/// A type whose values are arrays that begin with no array, so that a value is told from a list of
/// values.
pub trait FlatForm: JsonForm {
    ghost flat: { (value : Data) (x : Self) → Self.form.reads value x → IsFlat value };
}

impl FlatForm for Cubic {
    ghost use Rattle.circle_json.specs.Coefficients.{residues_flat};

    ghost flat = { residues_flat };
}

// Whether the value is an array that is empty or begins with an array.
fn is_list(value: &Value) -> bool
    ensures { result ≡ is_list (view value.now) }
{
    match value.as_array() {
        None => false,
        Some(items) => match items.as_slice() {
            [] => true,
            [first, ..] => first.is_array(),
        },
    }
}

/// The JSON value of a list of coefficients: one by itself, else their array.
///
/// Fails where memory is refused.
pub fn coefficients_to_json<T: FlatForm>(
    alloc: Global,
    coefficients: &Vec<T>,
) -> Result<Value, AllocError>
    ensures written { IfOk result (λ value.
        view value ≡ (coefficients_form T.form).written coefficients.now) }
    ensures reads { IfOk result (λ value.
        (coefficients_form T.form).reads (view value) coefficients.now) }
{
    if let [one] = coefficients.as_slice() {
        return one.to_json(alloc);
    }
    array_of(alloc, coefficients)
}

/// The list of coefficients that a JSON value stands for: an array that is empty or begins with an
/// array is one of coefficients, and what is anything else is the one coefficient of its list.
///
/// Fails as a list of coefficients does, or as one does.
pub fn coefficients_from_json<T: FlatForm + Drop>(
    alloc: Global,
    value: &Value,
) -> Result<Vec<T>, JsonError>
    ensures reads { IfOk result (λ read. (coefficients_form T.form).reads (view value.now) read) }
    ensures refuses { IfErr result (λ error.
        (coefficients_form T.form).refuses (view value.now) error) }
{
    if is_list(value) {
        return Vec::from_json(alloc, value);
    }
    let mut list = Vec::with_capacity(alloc, 1)?;
    list.push(T::from_json(alloc, value)?)
        .map_err(AllocError::from)?;
    Ok(list)
}
