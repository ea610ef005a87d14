//! The selectors of a domain's rows at many points, by one inversion for each kind of them.
ghost use Rattle.std.specs.Prelude.{◌≡◌, ◌≢◌, ◌≤◌, length, map, All, IfOk};
ghost use Rattle.circle_field.specs.Circle.{plus, opposite};
ghost use Rattle.circle_field.specs.Field.{sub};
ghost use Rattle.circle_point.specs.Point.{coordinates};
ghost use Rattle.circle_domain.specs.Domain.{log_size, points_of};
ghost use Rattle.circle_domain.specs.Space.{vanishing_of};
ghost use Rattle.circle_commit.specs.DotProduct.{pairwise};
ghost use Rattle.circle_domain.specs.Selectors.{over_zero_at};

use crate::domain::CircleDomain;
use circle_field::{ComplexExtendable, Field, batch_multiplicative_inverse};
use circle_point::Point;
use std::alloc::{AllocError, Global};

/// The points of a domain in natural order.
///
/// Requires `1 <= log_n <= CIRCLE_TWO_ADICITY`. Fails where memory is refused.
pub(crate) fn natural_points<F: ComplexExtendable>(
    alloc: Global,
    domain: CircleDomain<F>,
) -> Result<Vec<Point<F>>, AllocError>
    requires positive { 1 ≤ log_size domain }
    requires in_group { log_size domain ≤ F.CIRCLE_TWO_ADICITY }
    ensures { IfOk result (λ points. map coordinates points.items
        ≡ points_of F.ops F.generators domain) }
{
    let mut points = Vec::with_capacity(alloc, domain.size())?;
    for point in domain.points() {
        points.push(point)?;
    }
    Ok(points)
}

/// The vanishing polynomial of a domain at each point.
///
/// Requires `log_n >= 1`. Fails where memory is refused.
pub(crate) fn vanishing_values<F: ComplexExtendable>(
    alloc: Global,
    domain: CircleDomain<F>,
    points: &[Point<F>],
) -> Result<Vec<F>, AllocError>
    requires { 1 ≤ log_size domain }
    ensures { IfOk result (λ values. values.items
        ≡ map (λ p. vanishing_of F.ops (λ x. x) domain (coordinates p)) points.now) }
{
    let log_n = domain.log_n();
    let at_shift = domain.shift().v_n(log_n);
    let mut values = Vec::with_capacity(alloc, points.len())?;
    for point in points {
        values.push(point.v_n(log_n) - at_shift)?;
    }
    Ok(values)
}

/// For each point the value of the vanishing polynomial over the coordinate of the point less that
/// of the row: the selector of the row.
///
/// Requires a value for each point, and points that differ from the row's by no y coordinate of 0.
/// Fails where memory is refused.
pub(crate) fn row_selector<F: Field>(
    alloc: Global,
    row: Point<F>,
    points: &[Point<F>],
    vanishing: &[F],
) -> Result<Vec<F>, AllocError>
    requires count { length vanishing.now ≡ length points.now }
    requires apart { All (λ y. y ≢ F.ops.zero)
        (map (λ p. (plus F.ops (coordinates p) (opposite F.ops (coordinates row))).y) points.now) }
    ensures { IfOk result (λ values. values.items ≡ pairwise
        (λ z p. over_zero_at F.ops (coordinates row) z (coordinates p)) vanishing.now points.now) }
{
    let differences = differences_in_y(alloc, row, points)?;
    let inverses = batch_multiplicative_inverse(alloc, &differences)?;
    let mut values = Vec::with_capacity(alloc, points.len())?;
    for (i, point) in points.iter().enumerate() {
        let numerator = (*point - row).x() + F::ONE;
        values.push(vanishing[i] * (numerator * inverses[i]))?;
    }
    Ok(values)
}

// The y coordinates of the points less the row's.
fn differences_in_y<F: Field>(
    alloc: Global,
    row: Point<F>,
    points: &[Point<F>],
) -> Result<Vec<F>, AllocError>
    ensures { IfOk result (λ made. made.items
        ≡ map (λ p. (plus F.ops (coordinates p) (opposite F.ops (coordinates row))).y) points.now) }
{
    let mut differences = Vec::with_capacity(alloc, points.len())?;
    for point in points {
        differences.push((*point - row).y())?;
    }
    Ok(differences)
}

/// 1 less each of the values, multiplied by `scale`. Fails where memory is refused.
pub(crate) fn one_less_scaled<F: Field>(
    alloc: Global,
    values: &[F],
    scale: F,
) -> Result<Vec<F>, AllocError>
    ensures { IfOk result (λ made. made.items
        ≡ map (λ v. sub F.ops F.ops.one (F.ops.mul v scale)) values.now) }
{
    let mut made = Vec::with_capacity(alloc, values.len())?;
    for value in values {
        made.push(F::ONE - *value * scale)?;
    }
    Ok(made)
}
