//! The calls that return nothing and carry a law, which requirements that are tested allow.
use crate::plane::{Domain, cubic};
use crate::scheme::params;
use crate::told::{Stage, Told, unfit};
use crate::transcript::shape;
use anyhow::Result;
use circle_completeness::laws::{height_words_are_low, last_word_is_low};
use circle_domain::laws::{coefficients_are_only, halves_add, multiples_add};
use circle_field::{ComplexExtendable, Cubic, ExtensionField, Field, Mersenne31};
use p3_circle::laws::{claim_binds, constant_seeds, quotient_binds};
use p3_circle::{CircleDomain, Matrix, Point, RowMajorMatrix};
use std::alloc::Global;

// Those of the values of a polynomial at a point.
fn of_values(lower: &[Mersenne31], upper: &[Mersenne31], log_half: usize) -> Result<()> {
    if log_half > 31 || lower.len() != 1 << log_half || upper.len() > 1 << log_half {
        return unfit("the lengths are none of halves");
    }
    let point = Point::<Mersenne31>::generator(5);
    multiples_add(point, 2, 3);
    halves_add(lower, upper, point, log_half);
    Ok(())
}

// That of the coefficients of a polynomial on a domain.
fn of_coefficients(domain: Domain, one: &[Mersenne31], other: &[Mersenne31]) -> Result<()> {
    if domain.log_n() > 31 || !domain.is_genuine() {
        return unfit("the domain is not genuine");
    }
    if one.len() != domain.size() || other.len() != domain.size() {
        return unfit("there is not one coefficient for each point");
    }
    coefficients_are_only(&domain, one, other);
    Ok(())
}

// Those of the codewords of true claims.
fn of_codewords(alpha: Cubic, beta: Cubic) {
    height_words_are_low::<Mersenne31, Cubic>(alpha, 1);
    last_word_is_low::<Mersenne31, Cubic>(alpha, beta, &[beta], 1, 0);
}

// Those of claims on a codeword of this length at a point, under two challenges.
fn of_claims<F: ComplexExtendable, EF: ExtensionField<F>>(
    column: &RowMajorMatrix<EF>,
    log_height: usize,
    zeta: Point<EF>,
    alphas: &[EF],
) -> Result<()> {
    let Some(domain) = CircleDomain::<F>::try_standard(log_height) else {
        return unfit("the group is too small");
    };
    if log_height < 3 || column.height() != domain.size() || column.width() != 1 {
        return unfit("there are too few entries");
    }
    if alphas.len() != 2 {
        return unfit("there are not two challenges");
    }
    let one = alphas[0];
    let other = alphas[1];
    if one.is_zero() || one == other || !domain.is_clear_of(zeta) {
        return unfit("a challenge or the point binds nothing");
    }
    quotient_binds::<F, EF>(one, zeta, column.values(), EF::ONE, 1);
    claim_binds::<F, EF>(alphas, zeta, column, &[EF::ONE], 1);
    Ok(())
}

// Those of such claims at the point with this coordinate.
fn of_claims_at(column: &RowMajorMatrix<Cubic>, t: Cubic) -> Result<()> {
    let Some(zeta) = Point::from_projective_line(t) else {
        return unfit("the point is at infinity");
    };
    of_claims::<Mersenne31, Cubic>(column, 3, zeta, &[cubic([1, 5, 9]), cubic([3, 1, 4])])
}

/// Those calls.
pub fn laws(alloc: Global, stage: Stage) -> Result<Told> {
    let shape = shape(alloc)?;
    let column = RowMajorMatrix::new_col(Vec::from_slice(alloc, &[cubic([2, 7, 1]); 8])?);
    stage.begin()?;
    let (one, other) = ([Mersenne31::ONE; 4], [Mersenne31::TWO; 4]);
    of_values(&one, &other, 2)?;
    of_coefficients(Domain::standard(2), &one, &other)?;
    of_codewords(cubic([1, 5, 9]), cubic([3, 1, 4]));
    of_claims_at(&column, cubic([0, 1, 0]))?;
    constant_seeds(3, &params(), &shape);
    Ok(Told::of("Ok"))
}
