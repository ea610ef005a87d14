//! Cases of quotients, lambdas, folds and final polynomials over the cubic extension.
ghost use Rattle.std.specs.Prelude.{◌≡◌, ◌≤◌, ◌^◌, IfOk};

use crate::calls::given::{matrix, maybe, object_of_two, pair, point, point_off, read, told};
use anyhow::{Result, bail};
use circle_commit::{Matrix, RowMajorMatrix, is_power_of_two};
use circle_field::{Cubic, Field, Mersenne31};
use circle_folding::{
    deep_quotient_reduce_row, extract_lambda, fold_x, fold_x_row, fold_y, x_interpolate, x_value,
};
use circle_plane::Point;
use serde_json::Value;
use std::alloc::Global;

/// What a call of this kind returns, or none where the call is of another kind.
pub fn answer(alloc: Global, call: &str, given: &Value) -> Result<Option<Value>> {
    let answer = match call {
        "deep_quotient_reduce_row" => quotient(alloc, given),
        "extract_lambda" => lambda(alloc, given),
        "fold_y" | "fold_x" => folded(alloc, call, given),
        "fold_x_row" => row_by_x(alloc, given),
        "x_value" => value(alloc, given),
        "x_interpolate" => coefficients(alloc, given),
        _ => return Ok(None),
    };
    Ok(Some(answer?))
}

fn quotient(alloc: Global, given: &Value) -> Result<Value> {
    let alpha: Cubic = read(alloc, given, "alpha")?;
    let x = point(alloc, given, "x")?;
    let zeta = point_off(alloc, given)?;
    let row: Vec<Mersenne31> = read(alloc, given, "row")?;
    let values: Vec<Cubic> = read(alloc, given, "values")?;
    maybe(alloc, reduced(alloc, alpha, x, zeta, &row, &values)?)
}

fn reduced(
    alloc: Global,
    alpha: Cubic,
    x: Point<Mersenne31>,
    zeta: Point<Cubic>,
    row: &[Mersenne31],
    values: &[Cubic],
) -> Result<Option<Cubic>> {
    if row.len() != values.len() || row.len() > 4096 {
        bail!("there is not one value for each entry");
    }
    let powers = Cubic::powers(alloc, alpha, row.len() + 1)?;
    if powers.len() <= row.len() {
        bail!("there are too few powers");
    }
    let top = powers[row.len()];
    Ok(deep_quotient_reduce_row(top, &powers, x, zeta, row, values))
}

// The binary logarithm of a length that is a power of two up to 2^20.
fn log_of(length: usize) -> Result<usize>
    ensures power { IfOk result (λ log. length ≡ 2 ^ log) }
    ensures small { IfOk result (λ log. log ≤ 20) }
{
    if length == 0 {
        bail!("there is nothing");
    }
    let log = length.ilog2() as usize;
    if log > 20 || length != 1 << log {
        bail!("the length is no power of two up to 2^20");
    }
    Ok(log)
}

// Lambda, and what is left of the codeword.
fn lambda(alloc: Global, given: &Value) -> Result<Value> {
    let log_blowup: usize = read(alloc, given, "log_blowup")?;
    let mut word: Vec<Cubic> = read(alloc, given, "word")?;
    let lambda = extracted(alloc, &mut word, log_blowup)?;
    let lambda = told(alloc, &lambda)?;
    object_of_two(alloc, ("lambda", lambda), ("word", told(alloc, &word)?))
}

fn extracted(alloc: Global, word: &mut [Cubic], log_blowup: usize) -> Result<Cubic> {
    let log_size = log_of(word.len())?;
    if log_blowup == 0 || log_blowup >= log_size {
        bail!("the blowup is none of the word's");
    }
    Ok(extract_lambda::<Mersenne31, Cubic>(alloc, word, log_blowup)?)
}

// What a fold returns for all rows.
fn folded(alloc: Global, call: &str, given: &Value) -> Result<Value> {
    let beta: Cubic = read(alloc, given, "beta")?;
    let rows = matrix(alloc, given, "rows")?;
    told(alloc, &fold(alloc, call, beta, &rows)?)
}

fn fold(
    alloc: Global,
    call: &str,
    beta: Cubic,
    rows: &RowMajorMatrix<Cubic>,
) -> Result<Vec<Cubic>> {
    let _log_height = log_of(rows.height())?;
    if rows.width() != 2 {
        bail!("the rows are no pairs");
    }
    let folded = match call {
        "fold_y" => fold_y::<Mersenne31, Cubic, _>(alloc, beta, rows),
        _ => fold_x::<Mersenne31, Cubic, _>(alloc, beta, 1, rows),
    };
    Ok(folded?)
}

fn row_by_x(alloc: Global, given: &Value) -> Result<Value> {
    let index: usize = read(alloc, given, "index")?;
    let log_height: usize = read(alloc, given, "log_folded_height")?;
    if log_height > 8 || index >= 1 << log_height {
        bail!("there is no such row");
    }
    let beta: Cubic = read(alloc, given, "beta")?;
    let row = pair(alloc, given, "row")?;
    let folded = fold_x_row::<Mersenne31, Cubic>(index, log_height, 1, beta, row);
    told(alloc, &folded)
}

fn value(alloc: Global, given: &Value) -> Result<Value> {
    let x: Mersenne31 = read(alloc, given, "x")?;
    let coefficients: Vec<Cubic> = read(alloc, given, "coefficients")?;
    if !is_power_of_two(coefficients.len()) {
        bail!("the number of coefficients is no power of two");
    }
    told(alloc, &x_value(&coefficients, x))
}

fn coefficients(alloc: Global, given: &Value) -> Result<Value> {
    let log_len: usize = read(alloc, given, "log_len")?;
    let word: Vec<Cubic> = read(alloc, given, "word")?;
    maybe(alloc, interpolated(alloc, &word, log_len)?)
}

fn interpolated(alloc: Global, word: &[Cubic], log_len: usize) -> Result<Option<Vec<Cubic>>> {
    let log_points = log_of(word.len())?;
    if log_len > log_points {
        bail!("the word is shorter than the polynomial");
    }
    Ok(x_interpolate::<Mersenne31, Cubic>(alloc, word, log_len)?)
}
