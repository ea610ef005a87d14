//! Cases of the basis, the transform, values off a domain and periodic columns.
ghost use Rattle.std.specs.Prelude.{◌≤◌, ◌^◌, IfOk};
ghost use Rattle.circle_commit.specs.Matrix.{IsPowerOfTwo};
ghost use Rattle.circle_commit.specs.RowMajorMatrix.{height_of};
ghost use Rattle.circle_domain.specs.Domain.{log_size};

use crate::calls::given::{
    Domain, Rows, check_size, domain, list_of, matrix, object_of_two, point, point_off, read,
    rows_of, rows_on, told,
};
use anyhow::{Result, bail};
use circle_commit::{Matrix, PeriodicLdeTable, PolynomialSpace, is_power_of_two};
use circle_field::{ExtensionField, Mersenne31};
use circle_json::JsonForm;
use circle_plane::{
    Butterflies, CircleDomain, CircleEvaluations, PeriodicError, Point,
    build_periodic_lde_table_circle, circle_basis,
};
use serde_json::{Map, Value, json, put};
use std::alloc::Global;

type Evaluations = CircleEvaluations<Mersenne31, Rows>;

/// What a call of this kind returns, or none where the call is of another kind.
pub fn answer(alloc: Global, call: &str, given: &Value) -> Result<Option<Value>> {
    let answer = match call {
        "circle_basis" => basis(alloc, given),
        "evaluate" => evaluate(alloc, given),
        "interpolate" => interpolate(alloc, given),
        "evaluate_grouped" | "interpolate_grouped" => by_groups(alloc, call, given),
        "extrapolate" => extrapolate(alloc, given),
        "evaluate_at_point" => evaluate_at_point(alloc, given),
        "build_periodic_lde_table_circle" => table(alloc, given),
        _ => return Ok(None),
    };
    Ok(Some(answer?))
}

fn basis(alloc: Global, given: &Value) -> Result<Value> {
    let at = point(alloc, given, "p")?;
    let log_n: usize = read(alloc, given, "log_n")?;
    if log_n == 0 || log_n > 62 {
        bail!("log_n is not among 1 to 62");
    }
    told(alloc, &circle_basis(alloc, at, log_n)?)
}

// The coefficients, for which a domain has enough points.
fn coefficients(alloc: Global, domain: Domain, given: &Value) -> Result<Rows>
    ensures domain { IfOk result (λ _. (1 ≤ log_size domain) × (log_size domain ≤ 31)) }
    ensures power { IfOk result (λ rows. IsPowerOfTwo (height_of rows)) }
    ensures at_most_size { IfOk result (λ rows. height_of rows ≤ 2 ^ log_size domain) }
{
    check_size(domain)?;
    let rows: Rows = matrix(alloc, given, "coefficients")?;
    if !is_power_of_two(rows.height()) || rows.height() > domain.size() {
        bail!("the height is no power of two, or there are more coefficients than points");
    }
    Ok(rows)
}

// The values in both orders.
fn evaluate(alloc: Global, given: &Value) -> Result<Value> {
    let domain = domain(alloc, given, "domain")?;
    let coefficients = coefficients(alloc, domain, given)?;
    let values = CircleEvaluations::evaluate(alloc, domain, coefficients)?;
    in_both_orders(alloc, values)
}

fn in_both_orders(alloc: Global, values: Evaluations) -> Result<Value> {
    let natural = values.try_clone(alloc)?.to_natural_order();
    let natural = rows_of::<Mersenne31, _>(alloc, &natural)?;
    let cfft = rows_of(alloc, &values.to_cfft_order())?;
    object_of_two(alloc, ("natural", natural), ("cfft", cfft))
}

// The coefficients of the polynomials with these rows in natural order.
fn interpolate(alloc: Global, given: &Value) -> Result<Value> {
    let domain = domain(alloc, given, "domain")?;
    check_size(domain)?;
    if !domain.is_genuine() {
        bail!("the domain is not genuine");
    }
    let rows = rows_on(alloc, domain, given)?;
    let coefficients = CircleEvaluations::from_natural_order(domain, rows).interpolate(alloc)?;
    rows_of(alloc, &coefficients)
}

// What a transform returns for each of some groups.
fn by_groups(alloc: Global, call: &str, given: &Value) -> Result<Value> {
    let domain = domain(alloc, given, "domain")?;
    let groups: Vec<usize> = read(alloc, given, "groups")?;
    let mut common = Value::Null;
    for group in &groups {
        common = same(common, by_group(alloc, call, domain, given, *group)?)?;
    }
    Ok(common)
}

// The second result, which the first has to be where there is one.
fn same(first: Value, second: Value) -> Result<Value> {
    if first.is_null() || first == second {
        return Ok(second);
    }
    bail!("one group answers otherwise than another")
}

fn by_group(
    alloc: Global,
    call: &str,
    domain: Domain,
    given: &Value,
    group: usize,
) -> Result<Value> {
    if group == 0 {
        bail!("a group takes no layer");
    }
    match call {
        "evaluate_grouped" => evaluate_by_group(alloc, domain, given, group),
        _ => interpolate_by_group(alloc, domain, given, group),
    }
}

// The values in natural order and the number of butterflies.
fn evaluate_by_group(alloc: Global, domain: Domain, given: &Value, group: usize) -> Result<Value>
    requires { 1 ≤ group }
{
    let coefficients = coefficients(alloc, domain, given)?;
    let (values, butterflies) = CircleEvaluations::evaluate_grouped(
        alloc,
        domain,
        coefficients,
        group,
    )?;
    let rows = rows_of::<Mersenne31, _>(alloc, &values.to_natural_order())?;
    with_count(alloc, "rows", rows, &butterflies)
}

// The coefficients and the number of butterflies.
fn interpolate_by_group(alloc: Global, domain: Domain, given: &Value, group: usize) -> Result<Value>
    requires { 1 ≤ group }
{
    check_size(domain)?;
    if !domain.is_genuine() {
        bail!("the domain is not genuine");
    }
    let values = CircleEvaluations::from_natural_order(domain, rows_on(alloc, domain, given)?);
    let (coefficients, butterflies) = values.interpolate_grouped(alloc, group)?;
    let rows = rows_of(alloc, &coefficients)?;
    with_count(alloc, "coefficients", rows, &butterflies)
}

// Rows, and the number of butterflies, or the greatest number where there are more.
fn with_count(alloc: Global, key: &str, rows: Value, butterflies: &Butterflies) -> Result<Value> {
    let count = u64::try_from(butterflies.count()).unwrap_or(u64::MAX);
    object_of_two(alloc, (key, rows), ("butterflies", Value::from(count)))
}

// The rows in natural order on another domain.
fn extrapolate(alloc: Global, given: &Value) -> Result<Value> {
    let target = domain(alloc, given, "target")?;
    let domain = domain(alloc, given, "domain")?;
    if target.log_n() > 31 || domain.log_n() > target.log_n() || !domain.is_genuine() {
        bail!("the domain is not genuine, or the target smaller, or past the group");
    }
    let values = CircleEvaluations::from_natural_order(domain, rows_on(alloc, domain, given)?);
    let extended = values.extrapolate(alloc, target)?;
    rows_of::<Mersenne31, _>(alloc, &extended.to_natural_order())
}

fn evaluate_at_point(alloc: Global, given: &Value) -> Result<Value> {
    let domain = domain(alloc, given, "domain")?;
    match given.get("p") {
        Some(_) => values_at(alloc, domain, given, point(alloc, given, "p")?),
        None => values_at(alloc, domain, given, point_off(alloc, given)?),
    }
}

fn values_at<EF: ExtensionField<Mersenne31> + JsonForm>(
    alloc: Global,
    domain: Domain,
    given: &Value,
    at: Point<EF>,
) -> Result<Value> {
    check_size(domain)?;
    if !domain.is_genuine() || !domain.is_clear_of(at) {
        bail!("the domain is not genuine, or not clear of the point");
    }
    let values = CircleEvaluations::from_natural_order(domain, rows_on(alloc, domain, given)?);
    told(alloc, &values.evaluate_at_point(alloc, at)?)
}

// The table's rows, or its size and some of its entries, or the text of its refusal.
fn table(alloc: Global, given: &Value) -> Result<Value> {
    let trace = domain(alloc, given, "trace")?;
    let extension = domain(alloc, given, "extension")?;
    if trace.log_n() > extension.log_n() || trace.log_n() >= 31 {
        bail!("the extension is smaller, or the trace past the group");
    }
    let columns: Vec<Vec<Mersenne31>> = read(alloc, given, "columns")?;
    match build_periodic_lde_table_circle(alloc, &columns, &trace, &extension) {
        Ok(table) => told_table(alloc, &table, given),
        Err(refusal) => refused(alloc, &refusal),
    }
}

fn refused(alloc: Global, refusal: &PeriodicError) -> Result<Value> {
    Ok(json!(in alloc; {"refused": refusal.to_string(alloc)?})?)
}

fn told_table(alloc: Global, table: &PeriodicLdeTable<Mersenne31>, given: &Value) -> Result<Value> {
    match given.get("at") {
        Some(_) => entries_at(alloc, table, given),
        None => table_rows(alloc, table),
    }
}

fn table_rows(alloc: Global, table: &PeriodicLdeTable<Mersenne31>) -> Result<Value> {
    let mut rows = Vec::new(alloc);
    for r in 0..table.height() {
        rows.push(table_row(alloc, table, r)?)?;
    }
    Ok(Value::from(rows))
}

fn table_row(alloc: Global, table: &PeriodicLdeTable<Mersenne31>, r: usize) -> Result<Value> {
    let mut row = Vec::new(alloc);
    if table.height() != 0 {
        for c in 0..table.width() {
            row.push(table.get(r, c))?;
        }
    }
    told(alloc, &row)
}

// The table's width and height, and its entries, each at a point and of a column.
fn entries_at(alloc: Global, table: &PeriodicLdeTable<Mersenne31>, given: &Value) -> Result<Value> {
    let places: Vec<Vec<usize>> = read(alloc, given, "at")?;
    let entries = entries(alloc, table, &places)?;
    with_size(alloc, table, &entries)
}

fn entries(
    alloc: Global,
    table: &PeriodicLdeTable<Mersenne31>,
    places: &[Vec<usize>],
) -> Result<Vec<Mersenne31>> {
    let mut entries = Vec::new(alloc);
    for place in places {
        entries.push(entry_at(table, place)?)?;
    }
    Ok(entries)
}

fn with_size(
    alloc: Global,
    table: &PeriodicLdeTable<Mersenne31>,
    entries: &[Mersenne31],
) -> Result<Value> {
    let mut members = Map::new(alloc);
    put(&mut members, alloc, "width", Value::from(table.width()))?;
    put(&mut members, alloc, "height", Value::from(table.height()))?;
    put(&mut members, alloc, "entries", list_of(alloc, entries)?)?;
    Ok(Value::Object(members))
}

fn entry_at(table: &PeriodicLdeTable<Mersenne31>, place: &[usize]) -> Result<Mersenne31> {
    let [i, c] = place else {
        bail!("a place is no pair");
    };
    if table.height() == 0 || *c >= table.width() {
        bail!("the table has no such column");
    }
    Ok(table.get(*i, *c))
}
