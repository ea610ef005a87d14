//! Cases of operations of a field: the type's name, a space, and the operation's.
ghost use Rattle.std.specs.Prelude.{◌≢◌, All, IsTrue};

use crate::calls::given::{maybe, read, told};
use anyhow::{Result, bail};
use circle_field::{Cubic, Field, Mersenne31, batch_multiplicative_inverse};
use circle_json::JsonForm;
use serde_json::Value;
use std::alloc::Global;

/// What a call of this kind returns, or none where the call is of another kind.
pub fn answer(alloc: Global, call: &str, given: &Value) -> Result<Option<Value>> {
    let answer = match call.split_once(' ') {
        Some(("Mersenne31", operation)) => of_field::<Mersenne31>(alloc, operation, given),
        Some(("Cubic", operation)) => of_field::<Cubic>(alloc, operation, given),
        _ => return Ok(None),
    };
    Ok(Some(answer?))
}

// What an operation returns.
fn of_field<F: Field + JsonForm>(alloc: Global, operation: &str, given: &Value) -> Result<Value> {
    match operation {
        "powers" => powers::<F>(alloc, given),
        "batch_multiplicative_inverse" => inverses::<F>(alloc, given),
        _ => maybe(alloc, element::<F>(alloc, operation, given)?),
    }
}

// The element that an operation returns, or none where there is none.
fn element<F: Field + JsonForm>(
    alloc: Global,
    operation: &str,
    given: &Value,
) -> Result<Option<F>> {
    let a: F = read(alloc, given, "a")?;
    match operation {
        "+" | "-" | "*" => Ok(Some(of_two(operation, a, read(alloc, given, "b")?))),
        "exp_u64" | "mul_2exp_u64" | "div_2exp_u64" => {
            Ok(Some(with_number(operation, a, read(alloc, given, "n")?)))
        }
        _ => of_one(operation, a),
    }
}

// What an operation of one element returns.
fn of_one<F: Field>(operation: &str, a: F) -> Result<Option<F>> {
    match operation {
        "negated" => Ok(Some(-a)),
        "double" => Ok(Some(a.double())),
        "square" => Ok(Some(a.square())),
        "halve" => Ok(Some(a.halve())),
        "try_inverse" => Ok(a.try_inverse()),
        _ => bail!("a field has no operation {operation}"),
    }
}

// What an operation of two elements returns.
fn of_two<F: Field>(operation: &str, a: F, b: F) -> F {
    match operation {
        "+" => a + b,
        "-" => a - b,
        _ => a * b,
    }
}

// What an operation of an element and a number returns.
fn with_number<F: Field>(operation: &str, a: F, n: u64) -> F {
    match operation {
        "exp_u64" => a.exp_u64(n),
        "mul_2exp_u64" => a.mul_2exp_u64(n),
        _ => a.div_2exp_u64(n),
    }
}

// The first powers of an element.
fn powers<F: Field + JsonForm>(alloc: Global, given: &Value) -> Result<Value> {
    let a: F = read(alloc, given, "a")?;
    let count: usize = read(alloc, given, "n")?;
    told(alloc, &F::powers(alloc, a, count)?)
}

// The inverses of elements.
fn inverses<F: Field + JsonForm>(alloc: Global, given: &Value) -> Result<Value> {
    let elements: Vec<F> = read(alloc, given, "elements")?;
    told(alloc, &inverses_of(alloc, &elements)?)
}

fn inverses_of<F: Field>(alloc: Global, elements: &[F]) -> Result<Vec<F>> {
    if !have_inverses(elements) {
        bail!("an element is 0");
    }
    Ok(batch_multiplicative_inverse(alloc, elements)?)
}

// Whether no element is 0.
fn have_inverses<F: Field>(elements: &[F]) -> bool
    ensures { IsTrue result → All (λ a. a ≢ F.ops.zero) elements.now }
{
    elements.iter().all(|a| !a.is_zero())
}
