//! Cases of AIRs: their digests, what is found on traces, and those of `circle_airs` with a trace,
//! as inputs of `check`.
ghost use Rattle.std.specs.Prelude.{◌≤◌};

use crate::calls::given::{Rows, matrix, read, rows_of, told};
use anyhow::{Result, bail};
use circle_air::{Air, AirParts, Violation, check_constraints};
use circle_airs::permutation::{STATE_LEN, State};
use circle_airs::{Trace, fibonacci_air, fibonacci_trace, permutation_air, permutation_trace};
use circle_commit::Matrix;
use circle_field::Mersenne31;
use circle_json::{JsonForm, put_member};
use serde_json::{Map, Value, json, put};
use std::alloc::{AllocError, Global};

/// What a call of this kind answers, or none where the call is of another kind.
pub fn answer(alloc: Global, call: &str, given: &Value) -> Result<Option<Value>> {
    let answer = match call {
        "Air::digest" => digest(alloc, given),
        "Air degrees" => degrees(alloc, given),
        "AirParts" => written(alloc, given),
        "check_constraints" => checked(alloc, given),
        "fibonacci" => fibonacci(alloc, given),
        "permutation" => permutation(alloc, given),
        _ => return Ok(None),
    };
    Ok(Some(answer?))
}

// The AIR of the parts with the key `air`.
fn air(alloc: Global, given: &Value) -> Result<Air<Mersenne31>> {
    let parts: AirParts<Mersenne31> = read(alloc, given, "air")?;
    Ok(Air::try_new(alloc, parts)?)
}

fn digest(alloc: Global, given: &Value) -> Result<Value> {
    told(alloc, &air(alloc, given)?.digest())
}

// The greatest degree of a constraint, and the logarithm of the number of chunks.
fn degrees(alloc: Global, given: &Value) -> Result<Value> {
    let air = air(alloc, given)?;
    let degree = air.max_constraint_degree();
    let chunks = air.log_num_quotient_chunks();
    Ok(json!(in alloc; [degree, chunks])?)
}

// The first violation on the rows, or the text of the reason to refuse the parts.
fn checked(alloc: Global, given: &Value) -> Result<Value> {
    let parts: AirParts<Mersenne31> = read(alloc, given, "air")?;
    match Air::try_new(alloc, parts) {
        Ok(air) => violation(alloc, &air, given),
        Err(error) => Ok(Value::from(format!(in alloc; "{error}")?)),
    }
}

// The row and the constraint of the first violation, or null where there is none.
fn violation(alloc: Global, air: &Air<Mersenne31>, given: &Value) -> Result<Value> {
    let rows: Rows = matrix(alloc, given, "rows")?;
    let public_values: Vec<Mersenne31> = read(alloc, given, "public_values")?;
    if rows.width() != air.width() || public_values.len() != air.num_public_values() {
        bail!("there are more or fewer columns or public values than the AIR has");
    }
    match check_constraints(alloc, air, &rows, &public_values)? {
        Some(Violation { row, constraint }) => Ok(json!(in alloc; [row, constraint])?),
        None => Ok(Value::Null),
    }
}

// The input of `check`, read and written.
fn written(alloc: Global, given: &Value) -> Result<Value> {
    let mut members = Map::new(alloc);
    copy_member::<AirParts<Mersenne31>>(alloc, &mut members, given, "air")?;
    copy_member::<Vec<Mersenne31>>(alloc, &mut members, given, "public_values")?;
    copy_member::<Vec<Vec<Mersenne31>>>(alloc, &mut members, given, "rows")?;
    Ok(Value::Object(members))
}

// Reads the member with this key, and writes it.
fn copy_member<T: JsonForm + Drop>(
    alloc: Global,
    members: &mut Map<String, Value>,
    given: &Value,
    key: &str,
) -> Result<()> {
    let value: T = read(alloc, given, key)?;
    put_member(alloc, members, key, &value)?;
    Ok(())
}

fn fibonacci(alloc: Global, given: &Value) -> Result<Value> {
    let first: Mersenne31 = read(alloc, given, "first")?;
    let second: Mersenne31 = read(alloc, given, "second")?;
    let height: usize = read(alloc, given, "height")?;
    if height == 0 {
        bail!("there are no rows");
    }
    let trace = fibonacci_trace(alloc, first, second, height)?;
    of_fibonacci(alloc, &trace)
}

// The input of `check` that has this trace.
fn of_fibonacci(alloc: Global, trace: &Trace<Mersenne31>) -> Result<Value> {
    let air = fibonacci_air(alloc)?;
    input(alloc, &air, trace)
}

fn permutation(alloc: Global, given: &Value) -> Result<Value> {
    let first: Vec<Mersenne31> = read(alloc, given, "first")?;
    let height: usize = read(alloc, given, "height")?;
    match first.first_chunk::<STATE_LEN>() {
        Some(state) if height != 0 => of_permutation(alloc, state, height),
        _ => bail!("there is no state, or there are no rows"),
    }
}

// The input of `check` that has the trace of this state.
fn of_permutation(alloc: Global, state: &State, height: usize) -> Result<Value>
    requires { 1 ≤ height }
{
    let trace = permutation_trace(alloc, state, height)?;
    let air = permutation_air(alloc)?;
    input(alloc, &air, &trace)
}

// The input of `check` that has this AIR and this trace.
fn input(alloc: Global, air: &Air<Mersenne31>, trace: &Trace<Mersenne31>) -> Result<Value> {
    let mut members = Map::new(alloc);
    put_air(alloc, &mut members, air)?;
    put_member(alloc, &mut members, "public_values", &trace.public_values)?;
    put(&mut members, alloc, "rows", rows_of(alloc, &trace.rows)?)?;
    Ok(Value::Object(members))
}

// Writes what an AIR is made of.
fn put_air(
    alloc: Global,
    members: &mut Map<String, Value>,
    air: &Air<Mersenne31>,
) -> Result<(), AllocError> {
    let parts = AirParts {
        width: air.width(),
        num_public_values: air.num_public_values(),
        periodic_columns: copies(alloc, air.periodic_columns())?,
        nodes: Vec::from_slice(alloc, air.nodes())?,
        constraints: Vec::from_slice(alloc, air.constraints())?,
    };
    put_member(alloc, members, "air", &parts)
}

// Copies of the columns.
fn copies(alloc: Global, columns: &[Vec<Mersenne31>]) -> Result<Vec<Vec<Mersenne31>>, AllocError> {
    let mut copies = Vec::new(alloc);
    for column in columns {
        copies.push(Vec::from_slice(alloc, column)?)?;
    }
    Ok(copies)
}
