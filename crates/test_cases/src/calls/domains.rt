//! Cases of domains.
use crate::calls::given::{
    Domain, Rows, check_size, coordinates, domain, maybe, maybe_coordinates, object_of_two,
    point_off, read, rows_of, rows_on, told,
};
use anyhow::{Context, Result, bail};
use circle_commit::{LagrangeSelectors, PolynomialSpace, is_power_of_two};
use circle_field::{Cubic, Mersenne31};
use circle_plane::Point;
use serde_json::{Map, Value, put};
use std::alloc::Global;

/// What a call of this kind returns, or none where the call is of another kind.
pub fn answer(alloc: Global, call: &str, given: &Value) -> Result<Option<Value>> {
    let Some(("CircleDomain", call)) = call.split_once("::") else {
        return Ok(None);
    };
    let domain = domain(alloc, given, "domain")?;
    let answer = match call {
        "is_genuine" => Ok(Value::Bool(domain.is_genuine())),
        "is_standard" => is_standard(domain),
        "is_clear_of" => is_clear_of(alloc, domain, given),
        "points" => points(alloc, domain),
        "try_nth_point" => nth_point(alloc, domain, given),
        "next_point" => next_point(alloc, domain, given),
        "try_create_disjoint_domain" => disjoint(alloc, domain, given),
        "split_domains" => split_domains(alloc, domain, given),
        "split_evals" => split_evals(alloc, domain, given),
        "vanishing_poly_at_point" => vanishing(alloc, domain, given),
        "selectors_at_point" => selectors(alloc, domain, given),
        "evaluate_polynomial_at" => value_at(alloc, domain, given),
        "evaluate_periodic_column_at" => short_column_at(alloc, domain, given),
        _ => bail!("a domain has no call {call}"),
    };
    Ok(Some(answer?))
}

fn is_standard(domain: Domain) -> Result<Value> {
    check_size(domain)?;
    Ok(Value::Bool(domain.is_standard()))
}

fn is_clear_of(alloc: Global, domain: Domain, given: &Value) -> Result<Value> {
    let at = point_off(alloc, given)?;
    check_size(domain)?;
    Ok(Value::Bool(domain.is_clear_of(at)))
}

// The coordinates of the points in natural order.
fn points(alloc: Global, domain: Domain) -> Result<Value> {
    check_size(domain)?;
    let mut points = Vec::new(alloc);
    for point in domain.points() {
        points.push(coordinates(alloc, point)?)?;
    }
    Ok(Value::from(points))
}

// The coordinates of the point at a place, or null where there is none.
fn nth_point(alloc: Global, domain: Domain, given: &Value) -> Result<Value> {
    let index: usize = read(alloc, given, "index")?;
    maybe_coordinates(alloc, domain.try_nth_point(index))
}

fn next_point(alloc: Global, domain: Domain, given: &Value) -> Result<Value> {
    let t: Mersenne31 = read(alloc, given, "t")?;
    check_size(domain)?;
    maybe(alloc, domain.next_point(t))
}

// The binary logarithm of the other domain's size.
fn disjoint(alloc: Global, domain: Domain, given: &Value) -> Result<Value> {
    let min_size: usize = read(alloc, given, "min_size")?;
    check_size(domain)?;
    match domain.try_create_disjoint_domain(min_size) {
        Some(other) => told(alloc, &other.log_n()),
        None => Ok(Value::Null),
    }
}

// The sizes' logarithms and the first points of the parts.
fn split_domains(alloc: Global, domain: Domain, given: &Value) -> Result<Value> {
    let count: usize = read(alloc, given, "count")?;
    let mut all = Vec::new(alloc);
    for part in &parts(alloc, domain, count)? {
        all.push(part_of(alloc, *part)?)?;
    }
    Ok(Value::from(all))
}

fn part_of(alloc: Global, part: Domain) -> Result<Value> {
    let shift = coordinates(alloc, part.shift())?;
    object_of_two(
        alloc,
        ("log_n", Value::from(part.log_n())),
        ("shift", shift),
    )
}

fn parts(alloc: Global, domain: Domain, count: usize) -> Result<Vec<Domain>> {
    check_size(domain)?;
    if !domain.is_standard() {
        bail!("the domain is not standard");
    }
    if !is_power_of_two(count) || count > domain.size() / 2 {
        bail!("there are no such parts");
    }
    Ok(domain.split_domains(alloc, count)?)
}

// The rows of the parts.
fn split_evals(alloc: Global, domain: Domain, given: &Value) -> Result<Value> {
    let count: usize = read(alloc, given, "count")?;
    if domain.log_n() > 31 || !is_power_of_two(count) || count > domain.size() / 2 {
        bail!("there are no such parts");
    }
    let rows = rows_on(alloc, domain, given)?;
    rows_of_each(alloc, &domain.split_evals(alloc, count, rows)?)
}

fn rows_of_each(alloc: Global, parts: &[Rows]) -> Result<Value> {
    let mut all = Vec::new(alloc);
    for part in parts {
        all.push(rows_of(alloc, part)?)?;
    }
    Ok(Value::from(all))
}

fn vanishing(alloc: Global, domain: Domain, given: &Value) -> Result<Value> {
    let t: Mersenne31 = read(alloc, given, "t")?;
    if domain.log_n() == 0 || Point::from_projective_line(t).is_none() {
        bail!("the point is at infinity, or the domain has one point");
    }
    told(alloc, &domain.vanishing_poly_at_point(t))
}

// The selectors at a coordinate in the field.
fn selectors(alloc: Global, domain: Domain, given: &Value) -> Result<Value> {
    if domain.log_n() > 31 || !domain.is_genuine() {
        bail!("the domain is not genuine");
    }
    let t: Mersenne31 = read(alloc, given, "t")?;
    let at = Point::from_projective_line(t).context("the point is at infinity")?;
    if !domain.is_clear_of(at) {
        bail!("the domain is not clear of the point");
    }
    selectors_of(alloc, &domain.selectors_at_point(t))
}

fn selectors_of(alloc: Global, row: &LagrangeSelectors<Mersenne31>) -> Result<Value> {
    let named = [
        ("is_first_row", row.is_first_row),
        ("is_last_row", row.is_last_row),
        ("is_transition", row.is_transition),
        ("inv_vanishing", row.inv_vanishing),
    ];
    let mut members = Map::new(alloc);
    for (key, selector) in &named {
        put(&mut members, alloc, *key, told(alloc, selector)?)?;
    }
    Ok(Value::Object(members))
}

// The value of the only polynomial with these values on a standard domain.
fn value_at(alloc: Global, domain: Domain, given: &Value) -> Result<Value> {
    let t: Cubic = read(alloc, given, "t")?;
    let evals: Vec<Mersenne31> = read(alloc, given, "evals")?;
    told(alloc, &value_of(alloc, domain, &evals, t)?)
}

fn value_of(alloc: Global, domain: Domain, evals: &[Mersenne31], t: Cubic) -> Result<Cubic> {
    check_size(domain)?;
    if !domain.is_standard() {
        bail!("the domain is not standard");
    }
    let at = Point::from_projective_line(t).context("the point is at infinity")?;
    if !domain.is_clear_of(at) || evals.len() != domain.size() {
        bail!("the domain is not clear of the point, or there is not one value for each point");
    }
    Ok(domain.evaluate_polynomial_at(alloc, evals, t)?)
}

// The value of a periodic column of at most one entry.
fn short_column_at(alloc: Global, domain: Domain, given: &Value) -> Result<Value> {
    let t: Cubic = read(alloc, given, "t")?;
    let column: Vec<Mersenne31> = read(alloc, given, "column")?;
    if column.len() > 1 {
        bail!("the column has more than one entry");
    }
    told(
        alloc,
        &domain.evaluate_periodic_column_at(alloc, &column, t)?,
    )
}
