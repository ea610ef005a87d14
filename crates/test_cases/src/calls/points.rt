//! Cases of points and of the transform's order.
use crate::calls::given::{
    coordinates, list_of, maybe, maybe_coordinates, point, point_off, read, told,
};
use anyhow::{Result, bail};
use circle_field::{Cubic, Field, Mersenne31};
use circle_json::JsonForm;
use circle_plane::{Neutral, Point, cfft_permute_index};
use serde_json::Value;
use std::alloc::Global;

type Circle = Point<Mersenne31>;

/// What a call of this kind returns, or none where the call is of another kind.
pub fn answer(alloc: Global, call: &str, given: &Value) -> Result<Option<Value>> {
    let answer = match call {
        "Point +" | "Point -" | "Point *" | "Point double" | "Point negated" => {
            operator(alloc, call, given)
        }
        "Point::repeated_double" => repeated_double(alloc, given),
        "Point::generator" => generator(alloc, given),
        "Point::is_on_circle" => is_on_circle(alloc, given),
        "Point::from_projective_line" => from_line(alloc, given),
        "Point::to_projective_line" => to_line(alloc, given),
        "Point::v_n" | "Point::v_n_prod" | "Point::s_p_at_p" => vanishing(alloc, call, given),
        "Point::v_p" => vanishing_parts(alloc, given),
        "cfft_permute_index" => permuted(alloc, given),
        _ => return Ok(None),
    };
    Ok(Some(answer?))
}

// The coordinates of what an operator returns.
fn operator(alloc: Global, call: &str, given: &Value) -> Result<Value> {
    coordinates(alloc, sum(alloc, call, given)?)
}

// What an operator returns.
fn sum(alloc: Global, call: &str, given: &Value) -> Result<Circle> {
    let p = point(alloc, given, "p")?;
    Ok(match call {
        "Point +" => p + point(alloc, given, "q")?,
        "Point -" => p - point(alloc, given, "q")?,
        "Point *" => p * read::<usize>(alloc, given, "n")?,
        "Point double" => p.double(),
        _ => -p,
    })
}

fn repeated_double(alloc: Global, given: &Value) -> Result<Value> {
    let n: usize = read(alloc, given, "n")?;
    coordinates(alloc, point(alloc, given, "p")?.repeated_double(n))
}

fn generator(alloc: Global, given: &Value) -> Result<Value> {
    let n: usize = read(alloc, given, "n")?;
    if n > 31 {
        bail!("the group has no generator of this order");
    }
    coordinates(alloc, Circle::generator(n))
}

fn is_on_circle(alloc: Global, given: &Value) -> Result<Value> {
    let x: Mersenne31 = read(alloc, given, "x")?;
    let y: Mersenne31 = read(alloc, given, "y")?;
    Ok(Value::Bool(Circle::is_on_circle(x, y)))
}

// The point of a coordinate in the field or in its cubic extension.
fn from_line(alloc: Global, given: &Value) -> Result<Value> {
    if given.get("t").is_some_and(Value::is_array) {
        return of_coordinate::<Cubic>(alloc, given);
    }
    of_coordinate::<Mersenne31>(alloc, given)
}

fn of_coordinate<F: Field + JsonForm>(alloc: Global, given: &Value) -> Result<Value> {
    let t: F = read(alloc, given, "t")?;
    maybe_coordinates(alloc, Point::from_projective_line(t))
}

fn to_line(alloc: Global, given: &Value) -> Result<Value> {
    maybe(alloc, point(alloc, given, "p")?.to_projective_line())
}

// The value at a point of what vanishes on subgroups of these sizes.
fn vanishing(alloc: Global, call: &str, given: &Value) -> Result<Value> {
    let p = point(alloc, given, "p")?;
    let n: usize = read(alloc, given, "n")?;
    if n == 0 || n > 31 {
        bail!("n is not among 1 to 31");
    }
    let value = match call {
        "Point::v_n" => p.v_n(n),
        "Point::v_n_prod" => p.v_n_prod(n),
        _ => p.s_p_at_p(n),
    };
    told(alloc, &value)
}

// The parts of the vanishing function of a point, at a point over the extension or at one of the
// circle itself.
fn vanishing_parts(alloc: Global, given: &Value) -> Result<Value> {
    let p = point(alloc, given, "p")?;
    if given.get("at").is_some() {
        let (re, im) = p.v_p(point(alloc, given, "at")?);
        return list_of(alloc, &[re, im]);
    }
    let (re, im) = p.v_p(point_off(alloc, given)?);
    list_of(alloc, &[re, im])
}

fn permuted(alloc: Global, given: &Value) -> Result<Value> {
    let index: usize = read(alloc, given, "index")?;
    let log_n: usize = read(alloc, given, "log_n")?;
    if log_n > 62 {
        bail!("log_n is above 62");
    }
    if index >= 1 << log_n {
        bail!("the index is none of the domain's");
    }
    told(alloc, &cfft_permute_index(index, log_n))
}
