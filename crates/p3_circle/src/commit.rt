//! Committing to matrices: what is refused, and what is committed to.
ghost use Rattle.std.specs.Prelude.{◌≡◌, ◌↔◌, ℕ, ◌-◌, ◌<◌, ◌≤◌, ◌^◌, All, IfOk, IsTrue, take};
ghost use Rattle.circle_commit.specs.Matrix.{IsPowerOfTwo};
ghost use Rattle.circle_commit.specs.RowMajorMatrix.{rows, width_of, height_of};
ghost use Rattle.circle_commit.specs.RowMajorMatrixView.{rows as view_rows};
ghost use Rattle.circle_domain.specs.Domain.{log_size, shift_of, IsStandardOf};
ghost use Rattle.circle_domain.specs.Ordering.{other_order};
ghost use Rattle.circle_plane.specs.CircleEvaluations.{cfft_values, domain_of};
ghost use Rattle.p3_circle.specs.Committing.{BeginsOrder, RefusesInOrder, domain_tests};
ghost use Rattle.p3_circle.specs.Committing.{evaluation_tests, target_tests, HaveRowsForPoints};
ghost use Rattle.p3_circle.specs.Committing.{IsExtendable, IsExtension, AreExtensions};
ghost use Rattle.p3_circle.specs.Committing.{ContinuesFirst, AreCommittedValues};
ghost use Rattle.circle_relation.specs.TestsInOrder.{answer};

use circle_commit::{FriParameters, Matrix, RowMajorMatrix, RowMajorMatrixView, log2_strict};
use circle_field::ComplexExtendable;
use circle_plane::{CfftPermutable, CircleDomain, CircleEvaluations, Point};
use circle_prover::{log_min_trace_height, validate_height};
use circle_relation::ProverError;
use std::alloc::{AllocError, Global};

/// Whether each matrix has a row for each point of its domain, as a commitment requires.
pub fn heights_match_domains<F: ComplexExtendable>(
    evaluations: &[(CircleDomain<F>, RowMajorMatrix<F>)],
) -> bool
    // Of the list by the name that a caller has for it, as that of a `Vec` that lends the slice.
    ensures yes { IsTrue result → (list : _) → evaluations.now ≡ list → HaveRowsForPoints list }
    ensures no { HaveRowsForPoints evaluations.now → IsTrue result }
{
    for (domain, matrix) in evaluations {
        if !height_matches(domain, matrix) {
            return false;
        }
    }
    true
}

// Whether a matrix has a row for each point of a domain.
fn height_matches<F: ComplexExtendable>(
    domain: &CircleDomain<F>,
    matrix: &RowMajorMatrix<F>,
) -> bool
    ensures { IsTrue result ↔ (height_of matrix.now ≡ 2 ^ log_size domain.now) }
{
    domain.log_n() <= 63 && matrix.height() == domain.size()
}

// Refuses the domain of rows that are to be extended, by the first reason.
#[tactic(auto, unfolding(circle_relation::specs::TestsInOrder::answer))]
fn validate_domain<F: ComplexExtendable, M>(
    params: &FriParameters<M>,
    domain: &CircleDomain<F>,
) -> Result<(), ProverError>
    requires { log_size domain.now ≤ 63 }
    ensures { result
        ≡ answer (domain_tests F.CIRCLE_TWO_ADICITY params.now F.eq F.ops domain.now) tt }
{
    let log_n = domain.log_n();
    if log_n < log_min_trace_height(params) {
        return Err(ProverError::HeightTooSmall);
    }
    if log_n.saturating_add(params.log_blowup) >= F::CIRCLE_TWO_ADICITY {
        return Err(ProverError::HeightTooLarge);
    }
    if !domain.is_genuine() {
        return Err(ProverError::NotGenuine);
    }
    Ok(())
}

/// Refuses rows on domains that are to be extended, by the first of these, matrix after matrix:
/// `HeightTooSmall`, `HeightTooLarge` and `NotGenuine`, as `CirclePcs::commit` says.
///
/// Requires one row for each point. Takes no memory.
#[tactic(auto, unfolding(circle_relation::specs::TestsInOrder::answer))]
pub fn validate_evaluations<F: ComplexExtendable, M>(
    params: &FriParameters<M>,
    evaluations: &[(CircleDomain<F>, RowMajorMatrix<F>)],
) -> Result<(), ProverError>
    requires { HaveRowsForPoints evaluations.now }
    ensures { result ≡ answer
        (evaluation_tests F.CIRCLE_TWO_ADICITY params.now F.eq F.ops evaluations.now) tt }
{
    for (domain, _) in evaluations {
        validate_domain(params, domain)?;
    }
    Ok(())
}

// The values of the polynomials of rows on a domain, on the standard domain of `2^log_blowup` times
// as many points, in the transform's order.
fn extension<F: ComplexExtendable>(
    alloc: Global,
    log_blowup: usize,
    domain: CircleDomain<F>,
    evaluations: RowMajorMatrix<F>,
) -> Result<RowMajorMatrix<F>, AllocError>
    requires rows { height_of evaluations ≡ 2 ^ log_size domain }
    requires extendable { IsExtendable F.ops F.CIRCLE_TWO_ADICITY log_blowup domain }
    ensures { IfOk result (IsExtension F.ops F.generators log_blowup domain evaluations) }
{
    let target = CircleDomain::standard(domain.log_n() + log_blowup);
    let given = CircleEvaluations::from_natural_order(domain, evaluations);
    Ok(given.extrapolate(alloc, target)?.to_cfft_order())
}

/// For each matrix the values of its polynomials on the standard domain of `2^log_blowup` times as
/// many points, in the transform's order (Circle STARKs, IACR ePrint 2024/278, sections 4.3 and 6).
///
/// Requires one row for each point, and genuine domains that the group can extend. Fails where
/// memory is refused.
pub fn extensions<F: ComplexExtendable>(
    alloc: Global,
    log_blowup: usize,
    evaluations: Vec<(CircleDomain<F>, RowMajorMatrix<F>)>,
) -> Result<Vec<RowMajorMatrix<F>>, AllocError>
    requires rows { HaveRowsForPoints evaluations.items }
    requires extendable { All (λ e. IsExtendable F.ops F.CIRCLE_TWO_ADICITY log_blowup e.0)
        evaluations.items }
    ensures { IfOk result (λ made.
        AreExtensions F.ops F.generators log_blowup evaluations.items made.items) }
{
    let mut made = Vec::with_capacity(alloc, evaluations.len())?;
    for (domain, matrix) in evaluations {
        made.push(extension(alloc, log_blowup, domain, matrix)?)?;
    }
    Ok(made)
}

// Refuses a committed matrix that is to be evaluated on a domain, by the first reason.
#[tactic(auto, unfolding(circle_relation::specs::TestsInOrder::answer))]
fn validate_target<F: ComplexExtendable, M>(
    params: &FriParameters<M>,
    committed: &RowMajorMatrix<F>,
    domain: &CircleDomain<F>,
) -> Result<(), ProverError>
    requires { IsPowerOfTwo (height_of committed.now) }
    ensures { result ≡ answer (target_tests F.CIRCLE_TWO_ADICITY params.now
        (height_of committed.now) (log_size domain.now)) tt }
{
    validate_height(params, committed)?;
    if domain.log_n() < log2_strict(committed.height()) - params.log_blowup {
        return Err(ProverError::DomainSmallerThanTrace);
    }
    Ok(())
}

// The rows of a matrix in natural order.
fn natural_rows<F: ComplexExtendable>(
    alloc: Global,
    matrix: &RowMajorMatrix<F>,
) -> Result<RowMajorMatrix<F>, AllocError>
    requires { IsPowerOfTwo (height_of matrix.now) }
    ensures width { IfOk result (λ made. width_of made ≡ width_of matrix.now) }
    ensures rows { IfOk result (λ made. (n : ℕ) → height_of matrix.now ≡ 2 ^ n →
        rows made ≡ other_order n (rows matrix.now)) }
{
    let (all, _) = matrix.split_rows(matrix.height());
    all.cfft_perm_rows().to_row_major_matrix(alloc)
}

// The values on a domain, in natural order, of the polynomials of `2^log_trace` coefficients that
// the first rows of a committed matrix of `2^log_height` rows fix.
fn continued_rows<F: ComplexExtendable>(
    alloc: Global,
    log_trace: usize,
    log_height: usize,
    committed: &RowMajorMatrix<F>,
    domain: CircleDomain<F>,
) -> Result<RowMajorMatrix<F>, AllocError>
    requires height { height_of committed.now ≡ 2 ^ log_height }
    requires positive { 1 ≤ log_trace }
    requires extended { log_trace ≤ log_height }
    requires in_group { log_height < F.CIRCLE_TWO_ADICITY }
    requires large { log_trace ≤ log_size domain }
    requires domain_in_group { log_size domain ≤ F.CIRCLE_TWO_ADICITY }
    ensures width { IfOk result (λ made. width_of made ≡ width_of committed.now) }
    ensures rows { IfOk result (λ made. ContinuesFirst F.ops F.generators log_trace log_height
        committed.now domain made) }
{
    let trace_domain = CircleDomain::new(log_trace, Point::generator(log_height + 1));
    let (first, _) = committed.split_rows(1 << log_trace);
    let coeffs = CircleEvaluations::from_cfft_order(trace_domain, first).interpolate(alloc)?;
    let values = CircleEvaluations::evaluate(alloc, domain, coeffs)?;
    values.to_natural_order().to_row_major_matrix(alloc)
}

/// The first `2^log_rows` rows of a matrix whose rows stand in the transform's order, as evaluations
/// on the domain of as many points with the same shift: its points in the transform's order are the
/// first ones of the whole domain. Lends the rows and takes no memory.
///
/// Requires a row for each point, at most `2^62` points, and that `log_rows` is from 1 to the
/// domain's logarithm.
pub fn first_rows<F: ComplexExtendable>(
    domain: CircleDomain<F>,
    matrix: &RowMajorMatrix<F>,
    log_rows: usize,
) -> CircleEvaluations<F, RowMajorMatrixView<'_, F>>
    requires size { height_of matrix.now ≡ 2 ^ log_size domain }
    requires small { log_size domain ≤ 62 }
    requires positive { 1 ≤ log_rows }
    requires within { log_rows ≤ log_size domain }
    ensures size { log_size (domain_of result) ≡ log_rows }
    ensures shift { shift_of (domain_of result) ≡ shift_of domain }
    ensures rows { view_rows (cfft_values result) ≡ take (2 ^ log_rows) (rows matrix.now) }
    ensures points { BeginsOrder F.ops F.generators domain log_rows }
{
    let (first, _) = matrix.split_rows(1 << log_rows);
    CircleEvaluations::from_cfft_order(CircleDomain::new(log_rows, domain.shift()), first)
}

// Whether a domain is the standard one of `2^log_n` points.
fn is_standard_of<F: ComplexExtendable>(domain: &CircleDomain<F>, log_n: usize) -> bool
    requires positive { 1 ≤ log_size domain.now }
    requires in_group { log_size domain.now ≤ F.CIRCLE_TWO_ADICITY }
    requires below { log_n < F.CIRCLE_TWO_ADICITY }
    ensures { IsTrue result ↔ IsStandardOf F.generators log_n domain.now }
{
    domain.log_n() == log_n && domain.is_standard()
}

/// The values on a domain, in natural order, of the polynomials of a committed matrix, or the first
/// reason that there are none, as `CirclePcs::get_evaluations_on_domain` says, with what it
/// requires.
pub fn evaluations_on<F: ComplexExtendable, M>(
    alloc: Global,
    params: &FriParameters<M>,
    committed: &RowMajorMatrix<F>,
    domain: CircleDomain<F>,
) -> Result<RowMajorMatrix<F>, ProverError>
    requires power { IsPowerOfTwo (height_of committed.now) }
    requires positive { 1 ≤ log_size domain }
    requires in_group { log_size domain ≤ F.CIRCLE_TWO_ADICITY }
    ensures refused { RefusesInOrder (target_tests F.CIRCLE_TWO_ADICITY params.now
        (height_of committed.now) (log_size domain)) result }
    ensures values { IfOk result (AreCommittedValues F.ops F.generators params.now.log_blowup
        committed.now domain) }
{
    validate_target(params, committed, &domain)?;
    let log_height = log2_strict(committed.height());
    if is_standard_of(&domain, log_height) {
        return Ok(natural_rows(alloc, committed)?);
    }
    let log_trace = log_height - params.log_blowup;
    Ok(continued_rows(alloc, log_trace, log_height, committed, domain)?)
}
