//! What all claims at one point share, at the points of a domain.
//!
//! With the real and the imaginary part `re` and `im` of the vanishing function of a claimed point,
//! the quotient `(re - top * im) / (2 re)` is `(1 - top * im / re) / 2`. So of each point of the
//! domain one ratio serves every claim at the point, and one inversion serves all ratios.
ghost use Rattle.std.specs.Prelude.{◌≡◌, ◌<◌, ◌≤◌, map, All, IfOk};
ghost use Rattle.std.specs.Prelude.{length, [], ◌∷◌, ◌++◌, OnOk};
ghost use Rattle.circle_point.specs.Point.{coordinates};
ghost use Rattle.circle_commit.specs.DotProduct.{pairwise};
ghost use Rattle.circle_domain.specs.Order.{with_opposites};
ghost use Rattle.circle_folding.specs.Quotient.{real_part, imaginary_part};
ghost use Rattle.circle_folding.specs.Queries.{IsApart};
ghost use Rattle.circle_codewords.specs.Ratios.{points_of_height, vanishing_ratio};

use circle_domain::{CircleDomain, first_points};
use circle_field::{ComplexExtendable, ExtensionField, Field, batch_multiplicative_inverse};
use circle_point::Point;
use std::alloc::{AllocError, Global};

/// The ratios of one claimed point at the points of a domain.
#[derive(Drop)]
pub struct PointRatios<EF> {
    /// The coordinate of the claimed point on the projective line.
    pub point: EF,
    /// For each point of the domain, in the order of the transform, the ratio there.
    pub ratios: Vec<EF>,
}

/// The points of the standard domain of `2^log_height` points, in the order of the transform.
///
/// Requires `1 <= log_height < CIRCLE_TWO_ADICITY`. Fails where memory is refused.
pub fn standard_points<F: ComplexExtendable>(
    alloc: Global,
    log_height: usize,
) -> Result<Vec<Point<F>>, AllocError>
    requires positive { 1 ≤ log_height }
    requires in_group { log_height < F.CIRCLE_TWO_ADICITY }
    ensures { IfOk result (λ points. map coordinates points.items
        ≡ points_of_height F.ops F.generators log_height) }
{
    let first = first_points(alloc, CircleDomain::<F>::standard(log_height))?;
    with_opposites(alloc, &first)
}

// Each point followed by its opposite.
fn with_opposites<F: Field>(alloc: Global, first: &[Point<F>]) -> Result<Vec<Point<F>>, AllocError>
    ensures { IfOk result (λ points. map coordinates points.items
        ≡ with_opposites F.ops (map coordinates first.now)) }
{
    let mut points = Vec::new(alloc);
    for point in first {
        points.push(*point)?;
        points.push(-*point)?;
    }
    Ok(points)
}

/// At each of the points the imaginary part of the vanishing function of `zeta` over its real part
/// (section 3.3, equation 11).
///
/// Requires that `zeta` is none of the points. Fails where memory is refused.
pub fn vanishing_ratios<F: Field, EF: ExtensionField<F>>(
    alloc: Global,
    points: &[Point<F>],
    zeta: Point<EF>,
) -> Result<Vec<EF>, AllocError>
    requires apart { IsApart EF.embed (map coordinates points.now) (coordinates zeta) }
    ensures { IfOk result (λ ratios. ratios.items ≡ map (vanishing_ratio EF.ops EF.embed
        (coordinates zeta)) (map coordinates points.now)) }
{
    let (real, mut ratios) = vanishing_parts(alloc, points, zeta)?;
    let inverses = batch_multiplicative_inverse(alloc, &real)?;
    multiply_each(&mut ratios, &inverses);
    Ok(ratios)
}

// The real and the imaginary parts of the vanishing function of `zeta` at each of the points.
fn vanishing_parts<F: Field, EF: ExtensionField<F>>(
    alloc: Global,
    points: &[Point<F>],
    zeta: Point<EF>,
) -> Result<(Vec<EF>, Vec<EF>), AllocError>
    ensures real { IfOk result (λ r. r.0.items ≡ map (λ x. real_part EF.ops EF.embed x
        (coordinates zeta)) (map coordinates points.now)) }
    ensures imaginary { IfOk result (λ r. r.1.items ≡ map (λ x. imaginary_part EF.ops EF.embed x
        (coordinates zeta)) (map coordinates points.now)) }
{
    let mut real = Vec::with_capacity(alloc, points.len())?;
    let mut imaginary = Vec::with_capacity(alloc, points.len())?;
    for point in points {
        push_parts(&mut real, &mut imaginary, *point, zeta)?;
    }
    Ok((real, imaginary))
}

// Adds the real and the imaginary part of the vanishing function of `zeta` at a point.
fn push_parts<F: Field, EF: ExtensionField<F>>(
    real: &mut Vec<EF>,
    imaginary: &mut Vec<EF>,
    point: Point<F>,
    zeta: Point<EF>,
) -> Result<(), AllocError>
    ensures real { OnOk result (real.new.items ≡ real.old.items
        ++ real_part EF.ops EF.embed (coordinates point) (coordinates zeta) ∷ []) }
    ensures imaginary { OnOk result (imaginary.new.items ≡ imaginary.old.items
        ++ imaginary_part EF.ops EF.embed (coordinates point) (coordinates zeta) ∷ []) }
{
    let (re, im) = point.v_p(zeta);
    real.push(re)?;
    imaginary.push(im)?;
    Ok(())
}

// Multiplies each entry by the factor at its place.
fn multiply_each<F: Field>(entries: &mut [F], factors: &[F])
    requires { length entries.old ≡ length factors.now }
    ensures { entries.new ≡ pairwise F.ops.mul entries.old factors.now }
{
    for (i, factor) in factors.iter().enumerate() {
        entries[i] = entries[i] * *factor;
    }
}
