//! The projective line over the quadratic extension, and selectors over the cubic one.
use circle_field::{Cubic, ExtensionField, Field, Mersenne31};
use circle_plane::{Neutral, Point};
use std::process::Abort;
use test_schemes::expect;
use test_schemes::quadratic::Quadratic;

type Circle = Point<Mersenne31>;

fn element(value: u64) -> Mersenne31 {
    Mersenne31::from_u64(value)
}

// The polynomial with these coefficients.
fn cubic(c0: u64, c1: u64, c2: u64) -> Cubic {
    Cubic::from_coefficients(&[element(c0), element(c1), element(c2)])
}

// The polynomial with these coefficients.
fn quadratic(c0: u64, c1: u64) -> Quadratic {
    Quadratic::from_coefficients(&[element(c0), element(c1)])
}

// The point of this coordinate of the projective line, whose square must not be -1.
fn on_line<F: Field>(rt: &impl Abort, t: F) -> Point<F> {
    Point::from_projective_line(t).expect(rt, "the square of the coordinate is -1")
}

// Asserts that the point of this coordinate has these coordinates and leads back.
fn assert_on_line<F: Field>(rt: &impl Abort, t: F, x: F, y: F) {
    let point = on_line(rt, t);
    expect!(rt; point.x() == x);
    expect!(rt; point.y() == y);
    expect!(rt; point.to_projective_line() == Some(t));
}

#[test]
fn the_projective_line_over_the_quadratic_extension(rt: HostRuntime) {
    assert_on_line(
        &rt,
        quadratic(1, 2),
        quadratic(1288490187, 429496729),
        quadratic(429496730, 858993458),
    );
    // The square of X is -1.
    for t in [quadratic(0, 1), quadratic(0, 2147483646)] {
        expect!(rt; Point::from_projective_line(t).is_none());
    }
}

// The selector of `point` at `at`, which must not have the x coordinate of the pole.
fn selector(rt: &impl Abort, point: Circle, at: Point<Cubic>) -> Cubic {
    let (x, y) = (-Cubic::ONE, Cubic::ZERO);
    assert!(rt; Point::is_on_circle(x, y));
    let pole = Point::new(x, y) + point;
    assert!(rt; at.x() != pole.x());
    point.v_tilde_p(at)
}

// Asserts that the selector of `point` at the point of this coordinate is the coordinate of their
// difference, and is this.
fn assert_selector(rt: &impl Abort, point: Circle, t: Cubic, expected: Cubic) {
    let at = on_line(rt, t);
    expect!(rt; selector(rt, point, at) == expected);
    expect!(rt; (at - point).to_projective_line() == Some(expected));
}

#[test]
fn selectors(rt: HostRuntime) {
    let point = Circle::generator(8);
    let expected = cubic(507045393, 1643447792, 784713059);
    assert_selector(&rt, point, cubic(3, 5, 8), expected);
    assert_selector(&rt, point, cubic(7, 0, 0), cubic(2017150203, 0, 0));
    // It vanishes at the point.
    let lifted = Point::<Cubic>::ZERO + point;
    expect!(rt; selector(&rt, point, lifted) == Cubic::ZERO);
}
