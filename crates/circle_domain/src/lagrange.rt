//! Values off a domain from those on it, by the Lagrange polynomials of the domain's points
//! (Circle STARKs, IACR ePrint 2024/278, section 4.3).
//!
//! At `at` the Lagrange polynomial of a point `p` is `(y_p + y_at) / (x_p - x_at)` times a factor
//! that, but for its sign, all points of the domain share. The signs of `p` and of its opposite
//! differ, so that one division serves both.
ghost use Rattle.std.specs.Prelude.{◌≡◌, ◌≢◌, ◌≤◌, ◌^◌, ◌-◌, length, map, All, IfOk};
ghost use Rattle.circle_field.specs.Circle.{lifted};
ghost use Rattle.circle_point.specs.Point.{coordinates};
ghost use Rattle.circle_domain.specs.Clear.{IsClearOf};
ghost use Rattle.circle_domain.specs.Domain.{log_size, shift_of};
ghost use Rattle.circle_domain.specs.Domain.{points_of, IsGenuineDomain};
ghost use Rattle.circle_commit.specs.DotProduct.{dot};
ghost use Rattle.circle_domain.specs.Lagrange.{shares, x_difference, AreWeightsAt};
ghost use Rattle.circle_domain.specs.Ordering.{reordered};
ghost use Rattle.circle_domain.specs.Values.{IsValueOfOne, IsValueOfEach};

use crate::domain::CircleDomain;
use crate::ordering::{cfft_permute_index, first_points};
use circle_field::{ComplexExtendable, ExtensionField, Field, batch_multiplicative_inverse};
use circle_point::Point;
use std::alloc::{AllocError, Global};

/// The Lagrange polynomials of a domain's points at one other point.
#[derive(Drop)]
pub struct LagrangeWeights<EF> {
    /// The share of each point in the order of the transform.
    pub shares: Vec<EF>,
    /// What all shares are to be multiplied by.
    pub scale: EF,
}

/// The Lagrange polynomials of the domain's points at `at`: the values of a polynomial with a
/// coefficient for each point, each times its point's share, add up to its value at `at` once they
/// are multiplied by the scale.
///
/// Requires a genuine domain, as [`CircleDomain::is_genuine`] tests, with `log_n <=
/// CIRCLE_TWO_ADICITY`, that `at` is clear of, as [`CircleDomain::is_clear_of`] tests. Fails where
/// memory is refused.
pub fn lagrange_weights<F: ComplexExtendable, EF: ExtensionField<F>>(
    alloc: Global,
    domain: CircleDomain<F>,
    at: Point<EF>,
) -> Result<LagrangeWeights<EF>, AllocError>
    requires genuine { IsGenuineDomain F.ops domain }
    requires in_group { log_size domain ≤ F.CIRCLE_TWO_ADICITY }
    requires clear { IsClearOf EF.ops EF.embed
        (points_of F.ops F.generators domain) (coordinates at) }
    ensures count { IfOk result (λ weights. length weights.shares.items ≡ 2 ^ log_size domain) }
    ensures sum { IfOk result (λ weights.
        AreWeightsAt F.ops F.generators EF.ops EF.embed domain (coordinates at) weights) }
{
    let points = first_points(alloc, domain)?;
    let shares = shares_of(alloc, &points, at)?;
    let shift = domain.shift();
    let normalisation = shift.s_p_at_p(domain.log_n()).try_inverse().unwrap();
    let vanishing = at.v_n(domain.log_n()) - EF::from_base(shift.v_n(domain.log_n()));
    Ok(LagrangeWeights {
        shares,
        scale: vanishing * EF::from_base(normalisation),
    })
}

/// The value at `at` of the only polynomial with a coefficient for each point of the domain that
/// has these values there, in natural order.
///
/// Requires a genuine domain, as [`CircleDomain::is_genuine`] tests, with `log_n <=
/// CIRCLE_TWO_ADICITY`, that `at` is clear of, as [`CircleDomain::is_clear_of`] tests, and a value
/// for each point. Fails where memory is refused.
pub fn value_off_domain<F: ComplexExtendable, EF: ExtensionField<F>>(
    alloc: Global,
    domain: CircleDomain<F>,
    evals: &[F],
    at: Point<EF>,
) -> Result<EF, AllocError>
    requires genuine { IsGenuineDomain F.ops domain }
    requires in_group { log_size domain ≤ F.CIRCLE_TWO_ADICITY }
    requires size { length evals.now ≡ 2 ^ log_size domain }
    requires clear { IsClearOf EF.ops EF.embed
        (points_of F.ops F.generators domain) (coordinates at) }
    ensures value { IfOk result (IsValueOfOne F.ops F.generators EF.ops EF.embed
        (log_size domain) (shift_of domain) evals.now (coordinates at)) }
    ensures only { IfOk result (IsValueOfEach F.ops F.generators EF.ops EF.embed
        (log_size domain) (shift_of domain) evals.now (coordinates at)) }
{
    let weights = lagrange_weights(alloc, domain, at)?;
    Ok(reordered_dot_product(&weights.shares, evals, domain.log_n()) * weights.scale)
}

// The sum of the shares in the transform's order times the values in natural order.
fn reordered_dot_product<F: Field, EF: ExtensionField<F>>(
    shares: &[EF],
    evals: &[F],
    log_n: usize,
) -> EF
    requires small { log_n ≤ 62 }
    requires shares { length shares.now ≡ 2 ^ log_n }
    requires size { length evals.now ≡ 2 ^ log_n }
    ensures { result ≡ dot EF.ops shares.now (map EF.embed (reordered F.ops.zero log_n evals.now)) }
{
    let mut sum = EF::ZERO;
    for (i, share) in shares.iter().enumerate() {
        sum = sum + share.times_base(evals[cfft_permute_index(i, log_n)]);
    }
    sum
}

// For each point its share and that of its opposite.
fn shares_of<F: Field, EF: ExtensionField<F>>(
    alloc: Global,
    points: &[Point<F>],
    at: Point<EF>,
) -> Result<Vec<EF>, AllocError>
    requires { All (λ d. d ≢ EF.ops.zero)
        (map (λ p. x_difference EF.ops EF.embed (coordinates at) (coordinates p)) points.now) }
    ensures { IfOk result (λ made. made.items ≡ shares EF.ops (coordinates at)
        (map (λ p. lifted EF.embed (coordinates p)) points.now)) }
{
    let differences = differences(alloc, points, at)?;
    let inverses = batch_multiplicative_inverse(alloc, &differences)?;
    let mut shares = Vec::with_capacity(alloc, inverses.len())?;
    for (i, point) in points.iter().enumerate() {
        let inverse = inverses[i];
        let (own, other) = (inverse.times_base(point.y()), inverse * at.y());
        shares.push(own + other)?;
        shares.push(own - other)?;
    }
    Ok(shares)
}

// How far the points' x coordinates are from that of `at`.
fn differences<F: Field, EF: ExtensionField<F>>(
    alloc: Global,
    points: &[Point<F>],
    at: Point<EF>,
) -> Result<Vec<EF>, AllocError>
    ensures { IfOk result (λ made. made.items
        ≡ map (λ p. x_difference EF.ops EF.embed (coordinates at) (coordinates p)) points.now) }
{
    let mut differences = Vec::with_capacity(alloc, points.len())?;
    for point in points {
        differences.push(EF::from_base(point.x()) - at.x())?;
    }
    Ok(differences)
}
