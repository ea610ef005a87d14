//! The factors of the circle transform's layers, and those that folds divide by.
ghost use Rattle.std.specs.Prelude.{◌≡◌, ◌≢◌, ◌≤◌, ◌-◌, ◌%◌, length, map, IfOk};
ghost use Rattle.circle_point.specs.Basis.{doubled_x};
ghost use Rattle.circle_point.specs.Point.{coordinates};
ghost use Rattle.circle_domain.specs.Domain.{factors_by_layer, log_size, shift_of};
ghost use Rattle.circle_domain.specs.Layers.{every_second};
ghost use Rattle.circle_domain.specs.Order.{coset};

use crate::domain::CircleDomain;
use crate::ordering::first_points;
use circle_field::{ComplexExtendable, Field};
use circle_point::Point;
use std::alloc::{AllocError, Global};

/// The factors of the blocks of each layer, beginning with the smallest blocks: entry `m` has
/// those of the layer whose blocks have `2^(m + 1)` points.
///
/// Requires `1 <= log_n <= CIRCLE_TWO_ADICITY`. Fails where memory is refused.
pub fn layer_twiddles<F: ComplexExtendable>(
    alloc: Global,
    domain: CircleDomain<F>,
) -> Result<Vec<Vec<F>>, AllocError>
    requires positive { 1 ≤ log_size domain }
    requires in_group { log_size domain ≤ F.CIRCLE_TWO_ADICITY }
    ensures { IfOk result (λ twiddles. map (λ factors. factors.items) twiddles.items
        ≡ factors_by_layer F.ops F.generators domain) }
{
    let points = first_points(alloc, domain)?;
    let mut twiddles = Vec::with_capacity(alloc, domain.log_n())?;
    twiddles.push(ordinates(alloc, &points)?)?;
    for layer in 1..domain.log_n() {
        let factors = layer_after(alloc, layer, &points, &twiddles[layer - 1])?;
        twiddles.push(factors)?;
    }
    Ok(twiddles)
}

/// The y coordinate of the first point of each pair of opposite points, in the order of the
/// transform.
///
/// Requires `1 <= log_n <= CIRCLE_TWO_ADICITY`. Fails where memory is refused.
pub fn y_twiddles<F: ComplexExtendable>(
    alloc: Global,
    domain: CircleDomain<F>,
) -> Result<Vec<F>, AllocError>
    requires positive { 1 ≤ log_size domain }
    requires in_group { log_size domain ≤ F.CIRCLE_TWO_ADICITY }
    ensures { IfOk result (λ ys. ys.items
        ≡ map (λ p. p.y) (coset F.ops F.generators (log_size domain - 1) (shift_of domain))) }
{
    ordinates(alloc, &first_points(alloc, domain)?)
}

/// The x coordinate of the first point of every second pair of opposite points, in the order of the
/// transform; the pair after it has the opposite x coordinate.
///
/// Requires `2 <= log_n <= CIRCLE_TWO_ADICITY`. Fails where memory is refused.
pub fn x_twiddles<F: ComplexExtendable>(
    alloc: Global,
    domain: CircleDomain<F>,
) -> Result<Vec<F>, AllocError>
    requires two_pairs { 2 ≤ log_size domain }
    requires in_group { log_size domain ≤ F.CIRCLE_TWO_ADICITY }
    ensures { IfOk result (λ xs. xs.items ≡ map (λ p. p.x)
        (every_second (coset F.ops F.generators (log_size domain - 1) (shift_of domain)))) }
{
    every_second_abscissa(alloc, &first_points(alloc, domain)?)
}

// The factors of a layer, from the first points of the pairs or from the factors of the layer
// before.
fn layer_after<F: Field>(
    alloc: Global,
    layer: usize,
    points: &[Point<F>],
    before: &[F],
) -> Result<Vec<F>, AllocError>
    requires points { length points.now % 2 ≡ 0 }
    requires before { length before.now % 2 ≡ 0 }
    ensures second { layer ≡ 1 → IfOk result (λ xs.
        xs.items ≡ map (λ p. p.x) (every_second (map coordinates points.now))) }
    ensures later { layer ≢ 1 → IfOk result (λ xs.
        xs.items ≡ map (doubled_x F.ops) (every_second before.now)) }
{
    if layer == 1 {
        every_second_abscissa(alloc, points)
    } else {
        every_second_doubled(alloc, before)
    }
}

// The y coordinates of the points.
fn ordinates<F: Field>(alloc: Global, points: &[Point<F>]) -> Result<Vec<F>, AllocError>
    ensures { IfOk result (λ ys. ys.items ≡ map (λ p. (coordinates p).y) points.now) }
{
    let mut ordinates = Vec::with_capacity(alloc, points.len())?;
    for point in points {
        ordinates.push(point.y())?;
    }
    Ok(ordinates)
}

// The x coordinates of every second point.
fn every_second_abscissa<F: Field>(alloc: Global, points: &[Point<F>]) -> Result<Vec<F>, AllocError>
    requires { length points.now % 2 ≡ 0 }
    ensures { IfOk result (λ xs.
        xs.items ≡ map (λ p. p.x) (every_second (map coordinates points.now))) }
{
    let half = points.len() / 2;
    let mut abscissas = Vec::with_capacity(alloc, half)?;
    for i in 0..half {
        abscissas.push(points[2 * i].x())?;
    }
    Ok(abscissas)
}

// The x coordinates of the doubles of points with every second of these x coordinates.
fn every_second_doubled<F: Field>(alloc: Global, abscissas: &[F]) -> Result<Vec<F>, AllocError>
    requires { length abscissas.now % 2 ≡ 0 }
    ensures { IfOk result (λ xs. xs.items ≡ map (doubled_x F.ops) (every_second abscissas.now)) }
{
    let half = abscissas.len() / 2;
    let mut doubled = Vec::with_capacity(alloc, half)?;
    for i in 0..half {
        doubled.push(abscissas[2 * i].square().double() - F::ONE)?;
    }
    Ok(doubled)
}
