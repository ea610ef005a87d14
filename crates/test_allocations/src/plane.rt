//! Calls on elements, on domains and on values there.
ghost use Rattle.std.specs.Prelude.{◌≡◌, ◌≤◌, ◌^◌, IsTrue, IfOk, All};
ghost use Rattle.circle_commit.specs.RowMajorMatrix.{height_of};
ghost use Rattle.circle_field.specs.Mersenne31.{operations};
ghost use Rattle.circle_domain.specs.Clear.{IsClearOf};
ghost use Rattle.circle_domain.specs.Domain.{IsGenuineDomain, log_size, points_of};

use crate::told::{Stage, Told, digest, told, unfit, with_number};
use anyhow::Result;
use circle_commit::{
    Matrix, PeriodicEvaluator, PeriodicLdeTable, PolynomialSpace, RowMajorMatrix, is_power_of_two,
};
use circle_field::{
    ComplexExtendable, Cubic, ExtensionField, Field, Mersenne31, batch_multiplicative_inverse,
};
use p3_circle::{
    Butterflies, CircleDomain, CircleEvaluations, CirclePeriodicEvaluator, Point, circle_basis,
};
use std::alloc::{AllocError, Global};

/// Domains of the circle over [`Mersenne31`].
pub type Domain = CircleDomain<Mersenne31>;

/// Matrices of [`Mersenne31`].
pub type Rows = RowMajorMatrix<Mersenne31>;

/// The elements of the numbers below `count`.
pub fn elements(alloc: Global, count: u64) -> Result<Vec<Mersenne31>, AllocError> {
    let mut elements = Vec::new(alloc);
    for n in 0..count {
        elements.push(Mersenne31::from_u64(n))?;
    }
    Ok(elements)
}

/// The matrix whose row `i` is `[i]`.
pub fn column(alloc: Global, height: u64) -> Result<Rows, AllocError> {
    Ok(RowMajorMatrix::new_col(elements(alloc, height)?))
}

// The elements of these numbers.
fn of_numbers(numbers: [u64; 3]) -> [Mersenne31; 3] {
    numbers.map(|n| Mersenne31::from_u64(n))
}

/// The element with these coefficients.
pub fn cubic(coefficients: [u64; 3]) -> Cubic {
    Cubic::from_coefficients(&of_numbers(coefficients))
}

/// `Field::powers`.
pub fn powers(alloc: Global, stage: Stage) -> Result<Told> {
    stage.begin()?;
    let base = Mersenne31::from_u64(3);
    Ok(told(digest(&Mersenne31::powers(alloc, base, 8)?)))
}

/// `batch_multiplicative_inverse`.
pub fn inverses(alloc: Global, stage: Stage) -> Result<Told> {
    let [one, two, five] = of_numbers([1, 2, 5]);
    if one.is_zero() || two.is_zero() || five.is_zero() {
        return unfit("an element is 0");
    }
    stage.begin()?;
    let inverses = batch_multiplicative_inverse(alloc, &[one, two, five])?;
    Ok(told(digest(&inverses)))
}

/// `circle_basis`.
pub fn basis(alloc: Global, stage: Stage) -> Result<Told> {
    let point = Point::<Mersenne31>::generator(5);
    stage.begin()?;
    Ok(told(digest(&circle_basis(alloc, point, 3)?)))
}

// Whether a domain is genuine, and in the group.
fn is_genuine<F: ComplexExtendable>(domain: CircleDomain<F>) -> bool
    ensures positive { IsTrue result → 1 ≤ log_size domain }
    ensures in_group { IsTrue result → log_size domain ≤ F.CIRCLE_TWO_ADICITY }
    ensures genuine { IsTrue result → IsGenuineDomain F.ops domain }
{
    domain.log_n() != 0 && domain.log_n() <= F::CIRCLE_TWO_ADICITY && domain.is_genuine()
}

// The column of this height, with a row for each point of a domain that is genuine.
fn column_on(alloc: Global, domain: Domain, height: u64) -> Result<Rows>
    ensures height { IfOk result (λ rows. height_of rows ≡ 2 ^ log_size domain) }
    ensures positive { IfOk result (λ _. 1 ≤ log_size domain) }
    ensures in_group { IfOk result (λ _. log_size domain ≤ 31) }
    ensures genuine { IfOk result (λ _. IsGenuineDomain operations domain) }
{
    let rows = column(alloc, height)?;
    if !is_genuine(domain) {
        return unfit("the domain is not genuine");
    }
    if rows.height() != domain.size() {
        return unfit("there is not one row for each point");
    }
    Ok(rows)
}

/// `CircleEvaluations::interpolate` of a column on this domain.
pub fn interpolate(alloc: Global, stage: Stage, domain: Domain) -> Result<Told> {
    let rows = column_on(alloc, domain, 8)?;
    stage.begin()?;
    let coefficients = CircleEvaluations::from_natural_order(domain, rows).interpolate(alloc)?;
    Ok(told(digest(coefficients.values())))
}

/// The count of the butterflies by which two rows become coefficients.
pub fn butterflies(alloc: Global) -> Result<Butterflies> {
    let domain = Domain::standard(1);
    let rows = column_on(alloc, domain, 2)?;
    let values = CircleEvaluations::from_natural_order(domain, rows);
    let (_, butterflies) = values.interpolate_grouped(alloc, 1)?;
    Ok(butterflies)
}

/// `CircleEvaluations::evaluate` on this domain.
pub fn evaluate(alloc: Global, stage: Stage, domain: Domain) -> Result<Told> {
    let coefficients = column(alloc, 4)?;
    let height = coefficients.height();
    if domain.log_n() == 0 || domain.log_n() > 31 || !is_power_of_two(height) {
        return unfit("the height is no power of two");
    }
    if height > domain.size() {
        return unfit("there are more coefficients than points");
    }
    stage.begin()?;
    let values = CircleEvaluations::evaluate(alloc, domain, coefficients)?;
    Ok(told(digest(values.to_cfft_order().values())))
}

/// `CircleEvaluations::extrapolate` of a column on this domain to another.
pub fn extrapolate(alloc: Global, stage: Stage, domain: Domain, target: Domain) -> Result<Told> {
    let rows = column_on(alloc, domain, 4)?;
    if domain.log_n() > target.log_n() || target.log_n() > 31 {
        return unfit("the target is smaller, or past the group");
    }
    stage.begin()?;
    let values = CircleEvaluations::from_natural_order(domain, rows).extrapolate(alloc, target)?;
    Ok(told(digest(values.to_cfft_order().values())))
}

/// `CircleEvaluations::evaluate_at_point`.
pub fn evaluate_at_point(alloc: Global, stage: Stage) -> Result<Told> {
    match Point::from_projective_line(cubic([0, 1, 0])) {
        Some(at) => value_at(alloc, stage, Domain::standard(3), at),
        None => unfit("the point is at infinity"),
    }
}

// That call for a column on this domain, at this point.
fn value_at<EF: ExtensionField<Mersenne31>>(
    alloc: Global,
    stage: Stage,
    domain: Domain,
    at: Point<EF>,
) -> Result<Told> {
    let rows = column_on(alloc, domain, 8)?;
    if !domain.is_clear_of(at) {
        return unfit("the domain is not clear of the point");
    }
    stage.begin()?;
    let values = CircleEvaluations::from_natural_order(domain, rows);
    Ok(told(digest(&values.evaluate_at_point(alloc, at)?)))
}

// Whether each point of a coset is clear of a domain.
fn is_clear_of_each<F: ComplexExtendable>(domain: CircleDomain<F>, coset: CircleDomain<F>) -> bool
    requires in_group { log_size domain ≤ F.CIRCLE_TWO_ADICITY }
    requires positive { 1 ≤ log_size domain }
    requires coset_in_group { log_size coset ≤ F.CIRCLE_TWO_ADICITY }
    requires coset_positive { 1 ≤ log_size coset }
    ensures { IsTrue result → All (IsClearOf F.ops (λ x. x) (points_of F.ops F.generators domain))
        (points_of F.ops F.generators coset) }
{
    for i in 0..coset.size() {
        if !domain.is_clear_of(coset.nth_point(i)) {
            return false;
        }
    }
    true
}

/// `PolynomialSpace::selectors_on_coset` of these domains.
pub fn selectors(alloc: Global, stage: Stage, domain: Domain, coset: Domain) -> Result<Told> {
    if !is_genuine(domain) {
        return unfit("the domain is not genuine");
    }
    if coset.log_n() == 0 || coset.log_n() > 31 || !is_clear_of_each(domain, coset) {
        return unfit("the domain is not clear of the coset");
    }
    stage.begin()?;
    let selectors = domain.selectors_on_coset(alloc, coset)?;
    Ok(told(digest(&selectors.is_transition)))
}

/// `PolynomialSpace::split_evals`.
pub fn split_evals(alloc: Global, stage: Stage) -> Result<Told> {
    let domain = Domain::standard(3);
    let rows = column(alloc, 8)?;
    let count = 2;
    if rows.height() != domain.size() || !is_power_of_two(count) {
        return unfit("there is not one row for each point");
    }
    stage.begin()?;
    let parts = domain.split_evals(alloc, count, rows)?;
    Ok(told(digest_of_parts(&parts)))
}

// A number that the entries of the parts come to.
fn digest_of_parts(parts: &[Rows]) -> u32 {
    let mut sum = 0;
    for part in parts {
        sum = with_number(sum, digest(part.values()));
    }
    sum
}

/// `PeriodicEvaluator::eval_on_lde`.
pub fn eval_on_lde(alloc: Global, stage: Stage) -> Result<Told> {
    let columns = vec![in alloc; elements(alloc, 2)?, elements(alloc, 4)?]?;
    let (trace, extension) = (Domain::standard(2), Domain::standard(3));
    stage.begin()?;
    let table = CirclePeriodicEvaluator::eval_on_lde(alloc, &columns, &trace, &extension)?;
    Ok(told(digest_of_table(&table)))
}

// A number that the entries of a table's last column come to.
fn digest_of_table(table: &PeriodicLdeTable<Mersenne31>) -> u32 {
    if table.width() == 0 || table.height() == 0 {
        return 0;
    }
    let mut sum = 0;
    for i in 0..table.height() {
        sum = with_number(sum, table.get(i, table.width() - 1).value());
    }
    sum
}
