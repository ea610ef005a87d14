//! The calls of points.
use crate::plane::cubic;
use crate::told::{Stage, Told, digest, told_numbers, unfit};
use anyhow::Result;
use circle_field::{Cubic, ExtensionField, Field, Mersenne31};
use p3_circle::laws::equal_points_hash_equally;
use p3_circle::{Neutral, Point};

// The number that the coordinates of points come to.
fn digest_of<F: ExtensionField<Mersenne31>>(points: &[Point<F>]) -> u32 {
    let mut sum = 0;
    for point in points {
        sum = sum ^ digest(&[point.x(), point.y()]);
        sum = sum.wrapping_mul(5);
    }
    sum
}

// What the operators return at these points, and what the calls do that return points.
fn of_sums(point: Point<Mersenne31>, at: Point<Cubic>) -> [u32; 2] {
    let mut sum = point;
    sum += point.double();
    equal_points_hash_equally(point, sum);
    [
        digest_of(&[
            sum,
            -point,
            point + sum,
            point - sum,
            point * 5,
            point.repeated_double(2),
            Point::<Mersenne31>::ZERO,
        ]),
        digest_of(&[at + point, at - point, -at, at * 3, at.double()]),
    ]
}

// What the calls that return values return at these points.
fn of_values(point: Point<Mersenne31>, at: Point<Cubic>) -> [u32; 2] {
    let (real, imaginary) = point.v_p(at);
    [
        digest(&[point.v_n(3), point.v_n_prod(3), point.s_p_at_p(3)]),
        digest(&[at.v_n(3), at.v_n_prod(3), real, imaginary]),
    ]
}

// The selector of a point at another, which does not have the x coordinate of the pole.
fn of_selector(point: Point<Mersenne31>, at: Point<Cubic>) -> Option<Cubic> {
    let half_turn = (-Cubic::ONE, Cubic::ZERO);
    if !Point::is_on_circle(half_turn.0, half_turn.1) {
        return None;
    }
    let pole = Point::new(half_turn.0, half_turn.1) + point;
    if at.x() == pole.x() {
        return None;
    }
    Some(point.v_tilde_p(at))
}

// The point of these coordinates, where the circle has it.
fn of_coordinates(x: Mersenne31, y: Mersenne31) -> Option<Point<Mersenne31>> {
    if !Point::is_on_circle(x, y) {
        return None;
    }
    Some(Point::new(x, y))
}

/// Those calls.
pub fn points(stage: Stage) -> Result<Told> {
    stage.begin()?;
    let generator = Point::<Mersenne31>::generator(5);
    let (Some(point), Some(at)) = (
        of_coordinates(generator.x(), generator.y()),
        Point::from_projective_line(cubic([0, 1, 0])),
    ) else {
        return unfit("there is no such point");
    };
    let (Some(line), Some(lifted)) = (point.to_projective_line(), at.to_projective_line()) else {
        return unfit("the point is (-1, 0)");
    };
    let Some(selector) = of_selector(point, at) else {
        return unfit("the point is the pole");
    };
    let [base, extended] = of_sums(point, at);
    let [values, others] = of_values(point, at);
    Ok(told_numbers(&[
        base,
        extended,
        values,
        others,
        digest(&[line]),
        digest(&[lifted]),
        digest(&[selector]),
        u32::from(point == generator),
    ]))
}
