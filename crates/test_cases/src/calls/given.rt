//! What direct calls are given and return, as JSON.
ghost use Rattle.std.specs.Prelude.{◌≡◌, ◌≤◌, ◌^◌, IfOk};
ghost use Rattle.circle_commit.specs.RowMajorMatrix.{height_of};
ghost use Rattle.circle_domain.specs.Domain.{log_size};

use anyhow::{Context, Result, bail};
use circle_commit::{Matrix, PolynomialSpace, RowMajorMatrix};
use circle_field::{Cubic, Field, Mersenne31};
use circle_json::{JsonForm, member};
use circle_plane::{CircleDomain, Point};
use serde_json::{Map, Value, put};
use std::alloc::Global;

pub type Domain = CircleDomain<Mersenne31>;

pub type Rows = RowMajorMatrix<Mersenne31>;

/// What the member with this key stands for.
pub fn read<T: JsonForm>(alloc: Global, given: &Value, key: &str) -> Result<T> {
    Ok(member(alloc, given, key)?)
}

/// The form of a value.
pub fn told<T: JsonForm>(alloc: Global, value: &T) -> Result<Value> {
    Ok(value.to_json(alloc)?)
}

/// The pair with this key.
pub fn pair<F: Field + JsonForm>(alloc: Global, given: &Value, key: &str) -> Result<[F; 2]> {
    let elements: Vec<F> = read(alloc, given, key)?;
    match elements.as_slice() {
        [first, second] => Ok([*first, *second]),
        _ => bail!("{key} is no pair"),
    }
}

/// The point of the circle whose coordinates are the pair with this key.
pub fn point(alloc: Global, given: &Value, key: &str) -> Result<Point<Mersenne31>> {
    let [x, y] = pair(alloc, given, key)?;
    if !Point::is_on_circle(x, y) {
        bail!("{key} is not on the circle");
    }
    Ok(Point::new(x, y))
}

/// The point over the cubic extension of the coordinate `t` of the projective line.
pub fn point_off(alloc: Global, given: &Value) -> Result<Point<Cubic>> {
    let t: Cubic = read(alloc, given, "t")?;
    Point::from_projective_line(t).context("the square of t is -1")
}

/// The domain of an object: of `log_n` and a `shift`, or the standard one of `log_n`.
fn domain_of(alloc: Global, value: &Value) -> Result<Domain> {
    let log_n: usize = read(alloc, value, "log_n")?;
    if value.get("shift").is_some() {
        return Ok(CircleDomain::new(log_n, point(alloc, value, "shift")?));
    }
    CircleDomain::try_standard(log_n).context("the group has no standard domain of this size")
}

/// Refuses a domain that has not 2 to 2^31 points.
pub fn check_size(domain: Domain) -> Result<()>
    ensures { IfOk result (λ _. (1 ≤ log_size domain) × (log_size domain ≤ 31)) }
{
    if domain.log_n() == 0 || domain.log_n() > 31 {
        bail!("the domain has not 2 to 2^31 points");
    }
    Ok(())
}

/// The domain with this key.
pub fn domain(alloc: Global, given: &Value, key: &str) -> Result<Domain> {
    match given.get(key) {
        Some(value) => domain_of(alloc, value),
        None => bail!("there is no {key}"),
    }
}

/// The matrix whose rows have this key.
pub fn matrix<F: Field + JsonForm>(
    alloc: Global,
    given: &Value,
    key: &str,
) -> Result<RowMajorMatrix<F>> {
    let rows: Vec<Vec<F>> = read(alloc, given, key)?;
    let width = rows.first().map_or(0, Vec::len);
    let matrix = RowMajorMatrix::try_new(rows.concat(alloc)?, width);
    matrix.context("there are no rows, or rows of other lengths")
}

/// The rows with the key `rows`, one for each point of a domain.
pub fn rows_on(alloc: Global, domain: Domain, given: &Value) -> Result<Rows>
    ensures { IfOk result (λ rows. height_of rows ≡ 2 ^ log_size domain) }
{
    let rows: Rows = matrix(alloc, given, "rows")?;
    if domain.log_n() > 31 || rows.height() != domain.size() {
        bail!("there is not one row for each point");
    }
    Ok(rows)
}

/// The rows of a matrix.
pub fn rows_of<F: Field + JsonForm, M: Matrix<F>>(alloc: Global, matrix: &M) -> Result<Value> {
    let mut rows = Vec::new(alloc);
    for r in 0..matrix.height() {
        rows.push(list_of(alloc, matrix.row(r))?)?;
    }
    Ok(Value::from(rows))
}

/// The list of some elements.
pub fn list_of<F: Field + JsonForm>(alloc: Global, elements: &[F]) -> Result<Value> {
    told(alloc, &Vec::from_slice(alloc, elements)?)
}

/// The coordinates of a point.
pub fn coordinates<F: Field + JsonForm>(alloc: Global, point: Point<F>) -> Result<Value> {
    let mut coordinates = Vec::with_capacity(alloc, 2)?;
    coordinates.push(point.x())?;
    coordinates.push(point.y())?;
    told(alloc, &coordinates)
}

/// The coordinates of a point, or null where there is none.
pub fn maybe_coordinates<F: Field + JsonForm>(
    alloc: Global,
    point: Option<Point<F>>,
) -> Result<Value> {
    match point {
        Some(point) => coordinates(alloc, point),
        None => Ok(Value::Null),
    }
}

/// The object of two members.
pub fn object_of_two(alloc: Global, first: (&str, Value), second: (&str, Value)) -> Result<Value> {
    let mut members = Map::new(alloc);
    put(&mut members, alloc, first.0, first.1)?;
    put(&mut members, alloc, second.0, second.1)?;
    Ok(Value::Object(members))
}

/// A value, or null where there is none.
pub fn maybe<T: JsonForm + Drop>(alloc: Global, value: Option<T>) -> Result<Value> {
    match value {
        Some(value) => told(alloc, &value),
        None => Ok(Value::Null),
    }
}
