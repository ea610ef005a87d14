//! Periodic columns over Mersenne31 at points off the domain.
ghost use Rattle.std.specs.Prelude.{◌≡◌, All, IsTrue, length};

use crate::off_domain::{element, evaluate_at_point, on_line};
use crate::transform::{MEMORY, column};
use circle_commit::PeriodicEvaluator;
use circle_field::{ComplexExtendable, Cubic, ExtensionField, Field, Mersenne31};
use circle_plane::{CircleDomain, CirclePeriodicEvaluator, Point};
use std::alloc::{AllocError, Global};
use std::process::Abort;
use test_schemes::expect;

type Column = Vec<Mersenne31>;

// The value at a point of the only polynomial with these values on the standard domain of four
// points.
fn value_of_four(rt: &impl Abort, alloc: Global, values: &[u64], at: Point<Cubic>) -> Vec<Cubic> {
    let rows = column(rt, alloc, values);
    evaluate_at_point(rt, alloc, CircleDomain::standard(2), rows, at)
}

// Whether all columns have four entries.
fn have_four_entries<F: Field>(columns: &[Vec<F>]) -> bool
    ensures { IsTrue result → All (λ column. length column.items ≡ 4) columns.now }
{
    columns.iter().all(|column| column.len() == 4)
}

// `eval_at_point` of columns of four entries over a trace of 16 rows, after a test of what it
// requires.
fn four_at_point<F: ComplexExtendable, EF: ExtensionField<F>>(
    rt: &impl Abort,
    alloc: Global,
    columns: &[Vec<F>],
    t: EF,
) -> Result<Vec<EF>, AllocError> {
    assert!(rt; F::CIRCLE_TWO_ADICITY >= 5);
    let at = Point::from_projective_line(t).expect(rt, "the square of the coordinate is -1");
    assert!(rt; CircleDomain::<F>::standard(2).is_clear_of(at.repeated_double(2)));
    assert!(rt; have_four_entries(columns));
    CirclePeriodicEvaluator::eval_at_point(alloc, columns, &CircleDomain::standard(4), t)
}

// So many columns of 10, 20, 30, 40.
fn columns(rt: &impl Abort, alloc: Global, count: usize) -> Vec<Column> {
    let mut columns = Vec::new(alloc);
    for _ in 0..count {
        let column = column(rt, alloc, &[10, 20, 30, 40]).into_values();
        columns.push(column).expect(rt, MEMORY);
    }
    columns
}

// Asserts that each of several columns of 10, 20, 30, 40 has the value at a point of the only
// polynomial with these values.
fn assert_at_point(rt: &impl Abort, alloc: Global, count: usize, t: Cubic) {
    let columns = columns(rt, alloc, count);
    let by_point = four_at_point(rt, alloc, &columns, t).expect(rt, MEMORY);
    let at = on_line(rt, t).repeated_double(2);
    let plain = value_of_four(rt, alloc, &[10, 20, 30, 40], at);
    expect!(rt; by_point.len() == count);
    expect!(rt; plain.len() == 1);
    for value in &by_point {
        expect!(rt; plain.contains(value));
    }
}

#[test]
fn periodic_columns_at_points(rt: HostRuntime) {
    for (count, k) in [(1, 0), (1, 1), (1, 2), (1, 3), (1, 4), (2000, 5)] {
        let t = Cubic::from_coefficients(&[element(k), element(7), element(k * k + 1)]);
        assert_at_point(&rt, rt.alloc(), count, t);
    }
}
