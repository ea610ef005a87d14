//! The vanishing polynomial and the selectors of a domain's rows over Mersenne31:
//! those on a coset beside those at its points, and as polynomials.
use crate::transform::{Domain, MEMORY, Rows, evaluate, interpolate, is_genuine};
use circle_commit::{LagrangeSelectors, Matrix, PolynomialSpace, RowMajorMatrix};
use circle_field::{ComplexExtendable, Field, Mersenne31};
use circle_plane::{CircleDomain, Point};
use std::alloc::{AllocError, Global};
use std::process::Abort;
use test_schemes::expect;

// `vanishing_poly_at_point`, after a test of what it requires.
pub(crate) fn vanishing(rt: &impl Abort, domain: Domain, point: Mersenne31) -> Mersenne31 {
    assert!(rt; domain.log_n() >= 1 && Point::from_projective_line(point).is_some());
    domain.vanishing_poly_at_point(point)
}

// `selectors_at_point`, after a test of what it requires.
fn selectors(rt: &impl Abort, domain: Domain, point: Mersenne31) -> LagrangeSelectors<Mersenne31> {
    let at = Point::from_projective_line(point).expect(rt, "the point is at infinity");
    assert!(rt; is_genuine(domain) && domain.is_clear_of(at));
    domain.selectors_at_point(point)
}

// `selectors_on_coset`, after a test of what it requires.
fn selectors_on_coset<F: ComplexExtendable>(
    rt: &impl Abort,
    alloc: Global,
    domain: CircleDomain<F>,
    coset: CircleDomain<F>,
) -> Result<LagrangeSelectors<Vec<F>>, AllocError> {
    assert!(rt; domain.log_n() <= F::CIRCLE_TWO_ADICITY && domain.is_genuine());
    assert!(rt; coset.log_n() >= 1 && coset.log_n() <= F::CIRCLE_TWO_ADICITY);
    for i in 0..coset.size() {
        assert!(rt; domain.is_clear_of(coset.nth_point(i)));
    }
    domain.selectors_on_coset(alloc, coset)
}

// The coordinate of a point on the projective line.
pub(crate) fn coordinate(rt: &impl Abort, at: Point<Mersenne31>) -> Mersenne31 {
    at.to_projective_line().expect(rt, "the point is (-1, 0)")
}

// The coefficients of the polynomial with these values on the standard domain of 2^9 points.
fn coefficients(rt: &impl Abort, alloc: Global, values: Vec<Mersenne31>) -> Rows {
    interpolate(
        rt,
        alloc,
        Domain::standard(9),
        RowMajorMatrix::new_col(values),
    )
}

// The first 2^8 of 2^9 coefficients, of which the others must be zero.
fn lower_half(rt: &impl Abort, alloc: Global, coeffs: &Rows) -> Rows {
    assert!(rt; coeffs.values().len() == 512);
    let (low, high) = coeffs.values().split_at(256);
    for entry in high {
        expect!(rt; entry.is_zero());
    }
    RowMajorMatrix::new_col(Vec::from_slice(alloc, low).expect(rt, MEMORY))
}

// The values on the standard domain of 2^8 points of the polynomial with these values on that of
// 2^9, which must have no more than 2^8 coefficients.
fn on_the_smaller_domain(rt: &impl Abort, alloc: Global, values: Vec<Mersenne31>) -> Rows {
    let low = lower_half(rt, alloc, &coefficients(rt, alloc, values));
    evaluate(rt, alloc, Domain::standard(8), low)
        .to_natural_order()
        .to_row_major_matrix(alloc)
        .expect(rt, MEMORY)
}

// Asserts that of the values on the smaller domain this one alone is zero, or all others are.
fn assert_zeros(
    rt: &impl Abort,
    alloc: Global,
    values: Vec<Mersenne31>,
    place: usize,
    alone: bool,
) {
    let rows = on_the_smaller_domain(rt, alloc, values);
    expect!(rt; rows.values().len() == 256);
    for (i, value) in rows.values().iter().enumerate() {
        expect!(rt; value.is_zero() == ((i == place) == alone));
    }
}

// Asserts that these are the selectors of a row.
fn assert_row(
    rt: &impl Abort,
    rows: &LagrangeSelectors<Vec<Mersenne31>>,
    i: usize,
    row: LagrangeSelectors<Mersenne31>,
) {
    expect!(rt; rows.is_first_row.get(i).copied() == Some(row.is_first_row));
    expect!(rt; rows.is_last_row.get(i).copied() == Some(row.is_last_row));
    expect!(rt; rows.is_transition.get(i).copied() == Some(row.is_transition));
    expect!(rt; rows.inv_vanishing.get(i).copied() == Some(row.inv_vanishing));
}

#[test]
fn a_coset_has_the_selectors_of_its_points(rt: HostRuntime) {
    let generator = Point::<Mersenne31>::generator(31);
    let domain = Domain::new(8, generator * 3);
    let coset = Domain::new(18, generator * 5);
    let rows = selectors_on_coset(&rt, rt.alloc(), domain, coset).expect(&rt, MEMORY);
    expect!(&rt; rows.is_first_row.len() == 1 << 18);
    for (i, at) in coset.points().enumerate() {
        assert_row(&rt, &rows, i, selectors(&rt, domain, coordinate(&rt, at)));
    }
}

#[test]
fn selectors_are_polynomials(rt: HostRuntime) {
    let (alloc, domain) = (rt.alloc(), Domain::standard(8));
    let rows = selectors_on_coset(&rt, alloc, domain, Domain::standard(9)).expect(&rt, MEMORY);
    assert_zeros(&rt, alloc, rows.is_first_row, 0, false);
    assert_zeros(&rt, alloc, rows.is_last_row, 255, false);
    assert_zeros(&rt, alloc, rows.is_transition, 255, true);
}

// The values of a domain's vanishing polynomial on the standard domain of 2^9 points.
fn vanishing_values(rt: &impl Abort, alloc: Global, domain: Domain) -> Vec<Mersenne31> {
    let mut values = Vec::new(alloc);
    for at in Domain::standard(9).points() {
        let value = vanishing(rt, domain, coordinate(rt, at));
        values.push(value).expect(rt, MEMORY);
    }
    values
}

// Asserts that of 2^9 coefficients that at 2^8 is one, and all others are zero.
fn assert_of_basis(rt: &impl Abort, coeffs: &[Mersenne31]) {
    expect!(rt; coeffs.len() == 512);
    for (i, coeff) in coeffs.iter().enumerate() {
        expect!(rt; coeff.value() == u32::from(i == 256));
    }
}

#[test]
fn the_vanishing_polynomial_is_one_of_the_basis(rt: HostRuntime) {
    let (alloc, domain) = (rt.alloc(), Domain::standard(8));
    let coeffs = coefficients(&rt, alloc, vanishing_values(&rt, alloc, domain));
    assert_of_basis(&rt, coeffs.values());
    for at in domain.points() {
        expect!(&rt; vanishing(&rt, domain, coordinate(&rt, at)).is_zero());
    }
}
