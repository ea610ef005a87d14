//! Requests to open, and what is refused of them before the challenger is seeded.
ghost use Rattle.std.specs.Prelude.{◌≡◌, ◌==◌, ◌≤◌, All, IfOk, flat_map, length};
ghost use Rattle.circle_commit.specs.Mmcs.{HaveHeightsOfPowers};
ghost use Rattle.circle_commit.specs.RowMajorMatrix.{height_of};
ghost use Rattle.circle_domain.specs.Selectors.{IsFinite};
ghost use Rattle.circle_prover.specs.Requesting.{matrix_tests, is_unfit, lacks_matrices};
ghost use Rattle.circle_prover.specs.Requesting.{has_other_counts, is_infinite, some_on_standard};
ghost use Rattle.circle_prover.specs.Requesting.{meets_standard, meets_standards};
ghost use Rattle.circle_prover.specs.Requesting.{HasDomain, IsAtPoints};
ghost use Rattle.circle_prover.specs.OfRequests.{AreTested, IsRequestOf};
ghost use Rattle.circle_relation.specs.TestsInOrder.{answer};
ghost use Rattle.circle_point.specs.Projective.{is_at_infinity};
ghost use Rattle.std.specs.List.{list_any};

use crate::heights::validate_heights;
use crate::openable::OpenableRequests;
use circle_codewords::are_off_domain;
use circle_commit::{
    FriParameters, MAX_PROOF_OF_WORK_BITS, Matrix, Mmcs, OpeningRequest, RowMajorMatrix,
    log2_strict,
};
use circle_field::{ComplexExtendable, ExtensionField, Field};
use circle_point::is_at_infinity;
use circle_relation::ProverError;

// Whether parameters are not supported.
fn are_unfit<M>(params: &FriParameters<M>) -> bool
    ensures { result ≡ is_unfit params.now }
{
    params.num_queries == 0
        || params.log_blowup == 0
        || params.max_log_arity != 1
        || params.batch_proof_of_work_bits > MAX_PROOF_OF_WORK_BITS
        || params.commit_proof_of_work_bits > MAX_PROOF_OF_WORK_BITS
        || params.query_proof_of_work_bits > MAX_PROOF_OF_WORK_BITS
}

// Whether some request is of no matrix.
fn some_without_matrix<F: ComplexExtendable, EF: ExtensionField<F>, M: Mmcs<F>>(
    mmcs: &M,
    requests: &[OpeningRequest<M::ProverData, EF>],
) -> bool
    ensures { result ≡ list_any (λ r. length (M.matrices r.prover_data.now) == 0) requests.now }
{
    requests.iter().any(|request| mmcs.get_matrices(request.prover_data).is_empty())
}

// Whether there is no request, or one of no matrix.
fn lack_matrices<F: ComplexExtendable, EF: ExtensionField<F>, M: Mmcs<F>>(
    mmcs: &M,
    requests: &[OpeningRequest<M::ProverData, EF>],
) -> bool
    ensures { result ≡ lacks_matrices M.matrices requests.now }
{
    requests.is_empty() || some_without_matrix(mmcs, requests)
}

// Whether some request has not a list of points for each matrix.
fn have_other_counts<F: ComplexExtendable, EF: ExtensionField<F>, M: Mmcs<F>>(
    mmcs: &M,
    requests: &[OpeningRequest<M::ProverData, EF>],
) -> bool
    ensures { result ≡ has_other_counts M.matrices requests.now }
{
    requests.iter().any(|request| request.points.len()
        != mmcs.get_matrices(request.prover_data).len())
}

// Refuses the heights of the matrices of all requests, by the first reason.
#[tactic(auto, unfolding(circle_relation::specs::TestsInOrder::answer))]
fn validate_request_heights<F: ComplexExtendable, EF: ExtensionField<F>, M: Mmcs<F>, W>(
    mmcs: &M,
    params: &FriParameters<W>,
    requests: &[OpeningRequest<M::ProverData, EF>],
) -> Result<(), ProverError>
    requires { All (λ r. HaveHeightsOfPowers (M.matrices r.prover_data.now)) requests.now }
    ensures { result ≡ answer (flat_map (λ r. matrix_tests F.CIRCLE_TWO_ADICITY params.now
        (M.matrices r.prover_data.now)) requests.now) tt }
{
    for request in requests {
        validate_heights(params, mmcs.get_matrices(request.prover_data))?;
    }
    Ok(())
}

// Whether some coordinate belongs to no point.
fn has_infinite<EF: Field>(points: &[EF]) -> bool
    ensures { result ≡ list_any (is_at_infinity EF.eq EF.ops) points.now }
{
    points.iter().any(|t| is_at_infinity(t))
}

// Whether some coordinate of a request belongs to no point.
fn request_has_infinite<D, EF: Field>(request: &OpeningRequest<D, EF>) -> bool
    ensures { result ≡ is_infinite EF.eq EF.ops request.now }
{
    request.points.iter().any(|points| has_infinite(points))
}

// Whether some coordinate of the requests belongs to no point.
fn have_infinite<D, EF: Field>(requests: &[OpeningRequest<D, EF>]) -> bool
    ensures { result ≡ list_any (is_infinite EF.eq EF.ops) requests.now }
{
    requests.iter().any(|request| request_has_infinite(request))
}

// Whether a matrix is to be opened at a point of the domain that it is committed on.
fn is_on_domain<F: ComplexExtendable, EF: ExtensionField<F>>(
    matrix: &RowMajorMatrix<F>,
    points: &[EF],
) -> bool
    requires domain { HasDomain F.CIRCLE_TWO_ADICITY matrix.now }
    requires finite { All (IsFinite EF.ops) points.now }
    ensures { result ≡ some_on_standard F.ops F.generators EF.ops EF.embed EF.eq matrix.now
        points.now }
{
    !are_off_domain::<F, EF>(log2_strict(matrix.height()), points)
}

// Whether some matrix of a batch is to be opened at a point of the domain that it is committed on.
fn meet_domain<F: ComplexExtendable, EF: ExtensionField<F>>(
    matrices: &[RowMajorMatrix<F>],
    points: &[Vec<EF>],
) -> bool
    requires domains { All (HasDomain F.CIRCLE_TWO_ADICITY) matrices.now }
    requires finite { All (λ v. All (IsFinite EF.ops) v.items) points.now }
    ensures { result ≡ meets_standard F.ops F.generators EF.ops EF.embed EF.eq matrices.now
        points.now }
{
    for (matrix, points) in matrices.iter().zip(points) {
        if is_on_domain(matrix, points) {
            return true;
        }
    }
    false
}

// Whether some matrix is to be opened at a point of the domain that it is committed on.
fn meet_domains<F: ComplexExtendable, EF: ExtensionField<F>, M: Mmcs<F>>(
    mmcs: &M,
    requests: &[OpeningRequest<M::ProverData, EF>],
) -> bool
    requires domains { All (λ r. All (HasDomain F.CIRCLE_TWO_ADICITY)
        (M.matrices r.prover_data.now)) requests.now }
    requires finite { All (IsAtPoints EF.ops) requests.now }
    ensures { result ≡ meets_standards F.ops F.generators EF.ops EF.embed EF.eq M.matrices
        requests.now }
{
    for request in requests {
        if meet_domain(mmcs.get_matrices(request.prover_data), &request.points) {
            return true;
        }
    }
    false
}

impl<
    'a,
    Val: ComplexExtendable,
    EF: ExtensionField<Val>,
    InputMmcs: Mmcs<Val>,
    FriMmcs: Mmcs<EF>,
> OpenableRequests<'a, Val, EF, InputMmcs, FriMmcs> {
    /// The requests, where they can be opened. Refuses them by the first reason in the one order in
    /// which a prover tests them before it seeds the challenger.
    ///
    /// - `UnfitParameters` where there are no queries, codewords are no longer than what they
    ///   encode, a round may fold by another number than two, or a proof of work has more than 30
    ///   bits.
    /// - `NoCommittedMatrices` where there is no request, or one whose data has no matrix.
    /// - `MatrixCountMismatch` where a request has not one list of points for each matrix.
    /// - For each matrix in turn, `HeightTooSmall` where it has too few rows to be folded, and
    ///   `HeightTooLarge` where the group has no domain of as many points.
    /// - `PointAtInfinity` where a coordinate `t` has `t^2 = -1`, so that it belongs to no point.
    /// - `PointOnDomain` where a matrix is to be opened at a point of the domain that it is
    ///   committed on.
    ///
    /// Requires that the matrices have heights that are powers of two, as committed ones do. Takes
    /// no memory.
    pub fn new(
        mmcs: &'a InputMmcs,
        params: &'a FriParameters<FriMmcs>,
        requests: &'a [OpeningRequest<'a, InputMmcs::ProverData, EF>],
    ) -> Result<Self, ProverError>
        // A power of two is at least 1. It is required by itself, since with one clause alone the
        // prover takes long to state the place of a call.
        requires rows { All (λ r. All (λ m. 1 ≤ height_of m)
            (InputMmcs.matrices r.prover_data.now)) requests.now }
        requires powers { All (λ r. HaveHeightsOfPowers (InputMmcs.matrices r.prover_data.now))
            requests.now }
        ensures tested { AreTested result params.now requests.now }
        ensures requests { IfOk result (IsRequestOf mmcs.now params.now requests.now) }
    {
        if are_unfit(params) {
            return Err(ProverError::UnfitParameters);
        }
        if lack_matrices(mmcs, requests) {
            return Err(ProverError::NoCommittedMatrices);
        }
        if have_other_counts(mmcs, requests) {
            return Err(ProverError::MatrixCountMismatch);
        }
        validate_request_heights(mmcs, params, requests)?;
        if have_infinite(requests) {
            return Err(ProverError::PointAtInfinity);
        }
        if meet_domains(mmcs, requests) {
            return Err(ProverError::PointOnDomain);
        }
        Ok(OpenableRequests {
            mmcs,
            params,
            requests,
        })
    }
}
