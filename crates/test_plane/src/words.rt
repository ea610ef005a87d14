//! What a committed column is opened to, over Mersenne31 and its cubic extension.
use crate::off_domain::{cubic, on_line};
use crate::transform::{MEMORY, Rows, column};
use circle_codewords::{MatrixAtPoints, OpeningPoint};
use circle_field::{Cubic, Field, Mersenne31};
use circle_plane::Point;
use std::alloc::Global;
use std::process::Abort;
use test_schemes::expect;

// The values of 1 + 2y + 3x + 4xy at the eight points of the standard domain in the transform's
// order.
const EIGHT_BY_PAIRS: [u64; 8] = [
    1581940626, 1962669500, 565411951, 184945221, 1754305948, 1969764645, 393308773, 177587932,
];

// The opened values twice, after a test of what they require. The second time no weights are added.
fn opened(
    rt: &impl Abort,
    alloc: Global,
    log_blowup: usize,
    log_height: usize,
    rows: &Rows,
    points: &[OpeningPoint<Cubic>],
) -> Vec<Vec<Cubic>> {
    assert!(rt; log_blowup < log_height);
    let matrix = MatrixAtPoints::<Mersenne31, Cubic>::new(log_height, rows, points).expect(
        rt,
        "the matrix can be opened at the points",
    );
    let mut all = Vec::new(alloc);
    let values = matrix
        .opened_values(alloc, &mut all, log_blowup)
        .expect(rt, MEMORY);
    let added = all.len();
    let again = matrix
        .opened_values(alloc, &mut all, log_blowup)
        .expect(rt, MEMORY);
    expect!(rt; added == points.len());
    expect!(rt; all.len() == added);
    expect!(rt; values.as_slice() == again.as_slice());
    values
}

// The value of 1 + 2y + 3x + 4xy at a point.
fn polynomial_at(at: Point<Cubic>) -> Cubic {
    let [one, two, three, four] = [1, 2, 3, 4].map(|n| Cubic::from_u64(n));
    one + two * at.y() + three * at.x() + four * at.x() * at.y()
}

#[test]
fn the_weights_of_a_point_are_made_once(rt: HostRuntime) {
    let alloc = rt.alloc();
    let t = cubic(0, 1, 0);
    let expected = polynomial_at(on_line(&rt, t));
    let column = column(&rt, alloc, &EIGHT_BY_PAIRS);
    let point = OpeningPoint::new(t).expect(&rt, "the square of the coordinate is -1");
    let values = opened(&rt, alloc, 1, 3, &column, &[point]);
    assert!(&rt; values.len() == 1);
    expect!(&rt; values[0].as_slice() == [expected].as_slice());
}
