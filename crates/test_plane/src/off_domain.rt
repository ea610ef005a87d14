//! The weights of values off a domain over Mersenne31 and its cubic extension, beside quotients.
use crate::transform::{MEMORY, Rows, is_genuine, is_in_group};
use circle_commit::Matrix;
use circle_domain::{LagrangeWeights, lagrange_weights};
use circle_field::{Cubic, ExtensionField, Field, Mersenne31};
use circle_plane::{CircleDomain, CircleEvaluations, Point, cfft_permute_index};
use std::alloc::Global;
use std::process::Abort;
use test_schemes::expect;

pub(crate) fn element(value: u64) -> Mersenne31 {
    Mersenne31::from_u64(value)
}

// The polynomial with these coefficients.
pub(crate) fn cubic(c0: u64, c1: u64, c2: u64) -> Cubic {
    Cubic::from_coefficients(&[element(c0), element(c1), element(c2)])
}

// The point of a coordinate of the projective line.
pub(crate) fn on_line(rt: &impl Abort, t: Cubic) -> Point<Cubic> {
    Point::from_projective_line(t).expect(rt, "the square of the coordinate is -1")
}

// `evaluate_at_point` of rows in natural order, after a test of what it requires.
pub(crate) fn evaluate_at_point(
    rt: &impl Abort,
    alloc: Global,
    domain: CircleDomain<Mersenne31>,
    rows: Rows,
    at: Point<Cubic>,
) -> Vec<Cubic> {
    assert!(rt; is_genuine(domain) && rows.height() == domain.size());
    assert!(rt; domain.is_clear_of(at));
    CircleEvaluations::from_natural_order(domain, rows)
        .evaluate_at_point(alloc, at)
        .expect(rt, MEMORY)
}

// The point at a place of the transform's order.
fn point_at(rt: &impl Abort, domain: CircleDomain<Mersenne31>, place: usize) -> Point<Mersenne31> {
    assert!(rt; is_in_group(domain) && place < domain.size());
    domain.nth_point(cfft_permute_index(place, domain.log_n()))
}

// `lagrange_weights`, after a test of what it requires.
fn weights(
    rt: &impl Abort,
    alloc: Global,
    domain: CircleDomain<Mersenne31>,
    at: Point<Cubic>,
) -> LagrangeWeights<Cubic> {
    assert!(rt; is_genuine(domain) && domain.is_clear_of(at));
    lagrange_weights(alloc, domain, at).expect(rt, MEMORY)
}

// Asserts that each weight is the vanishing polynomial at `at` over the product of the selector of
// the weight's point and what normalises it.
fn assert_weights(
    rt: &impl Abort,
    domain: CircleDomain<Mersenne31>,
    at: Point<Cubic>,
    weights: &LagrangeWeights<Cubic>,
) {
    let log_n = domain.log_n();
    assert!(rt; is_in_group(domain) && weights.shares.len() == domain.size());
    let vanishing = at.v_n(log_n) - Cubic::from_base(domain.shift().v_n(log_n));
    for (i, share) in weights.shares.iter().enumerate() {
        let point = point_at(rt, domain, i);
        let difference = at - point;
        let denominator = difference.y() * Cubic::from_base(point.s_p_at_p(log_n));
        let numerator = vanishing * (difference.x() + Cubic::ONE);
        expect!(rt; *share * weights.scale * denominator == numerator);
    }
}

#[test]
fn lagrange_polynomials_are_quotients(rt: HostRuntime) {
    let at = on_line(&rt, cubic(9, 0, 1));
    for log_n in 1..10 {
        let shift = Point::<Mersenne31>::generator(log_n + 2);
        for domain in [
            CircleDomain::standard(log_n),
            CircleDomain::new(log_n, shift),
        ] {
            assert_weights(&rt, domain, at, &weights(&rt, rt.alloc(), domain, at));
        }
    }
}
