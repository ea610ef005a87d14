//! A point at infinity, over the quadratic extension, has no next one.
use circle_commit::PolynomialSpace;
use circle_field::{ExtensionField, Field, Mersenne31};
use circle_plane::CircleDomain;
use test_schemes::expect;
use test_schemes::quadratic::Quadratic;

type Domain = CircleDomain<Mersenne31>;

// The square of X is -1.
#[test]
fn no_point_after_one_at_infinity(rt: HostRuntime) {
    let infinity = Quadratic::from_coefficients(&[Mersenne31::ZERO, Mersenne31::ONE]);
    expect!(&rt; Domain::standard(4).next_point(infinity).is_none());
}
