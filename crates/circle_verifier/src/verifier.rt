//! What is refused of a proof before the challenger is seeded.
ghost use Rattle.std.specs.Prelude.{◌≡◌, ◌≤◌, [], ◌∷◌, map, vec_len};
ghost use Rattle.std.specs.List.{list_all, list_any};
ghost use Rattle.circle_commit.specs.Mmcs.{greatest};
ghost use Rattle.circle_relation.specs.Statement.{all_matrices, log_sizes};
ghost use Rattle.circle_relation.specs.StatementOf.{matrix_claims, batch_claims};
ghost use Rattle.circle_relation.specs.TestsInOrder.{answer};
ghost use Rattle.circle_verifier.specs.Refusals.{domain_tests, final_test, grinding_test};
ghost use Rattle.circle_verifier.specs.Refusals.{parameter_tests, point_tests, round_tests};
ghost use Rattle.circle_verifier.specs.Refusals.{rounds_tests, sibling_tests, some_point};
ghost use Rattle.circle_verifier.specs.Refusals.{witness_test};
ghost use Rattle.circle_point.specs.Projective.{is_at_infinity};
ghost use Rattle.circle_verifier.specs.OfTested.{IsTestedOf};
ghost use Rattle.circle_verifier.specs.Tests.{batch_tests, claimed_height, proof_tests};
ghost use Rattle.circle_verifier.specs.Tests.{sibling_counts};

use crate::tested::TestedRun;
use circle_commit::{
    CommitmentOpening, FriError, FriParameters, MAX_PROOF_OF_WORK_BITS, MatrixOpening, Mmcs,
    PointOpening, PowPhase,
};
use circle_domain::CircleDomain;
use circle_field::{ComplexExtendable, ExtensionField, Field};
use circle_point::is_at_infinity;
use circle_relation::{
    CircleCommitPhaseMultiStep, CircleFriProof, CirclePcsProof, InputError, VerifierError,
};

// The greatest logarithm of a domain of a batch, or 0 where it claims no matrix. Refuses the first
// domain that leaves nothing to fold.
#[tactic(auto, unfolding(circle_relation::specs::TestsInOrder::answer))]
fn greatest_domain_of<F: ComplexExtendable, E, CommitErr, InputMmcsErr, FriMmcsErr>(
    matrices: &[MatrixOpening<E, CircleDomain<F>>],
    log_final_poly_len: usize,
) -> Result<usize, FriError<CommitErr, InputError<InputMmcsErr, FriMmcsErr>>>
    ensures { let sizes = log_sizes (matrix_claims matrices.now) in
        result ≡ answer (domain_tests log_final_poly_len sizes) (greatest sizes) }
{
    let mut greatest = 0;
    for matrix in matrices {
        let log_n = matrix.domain.log_n();
        if log_n <= log_final_poly_len {
            return Err(FriError::InputError(InputError::DomainTooSmall { log_n }));
        }
        greatest = greatest.max(log_n);
    }
    Ok(greatest)
}

// The greatest logarithm of a claimed domain, or 0 where no matrix is claimed. Refuses the first
// domain that leaves nothing to fold.
#[tactic(auto, unfolding(circle_relation::specs::TestsInOrder::answer))]
fn greatest_domain<F: ComplexExtendable, E, Com, CommitErr, InputMmcsErr, FriMmcsErr>(
    claims: &[CommitmentOpening<E, Com, CircleDomain<F>>],
    log_final_poly_len: usize,
) -> Result<usize, FriError<CommitErr, InputError<InputMmcsErr, FriMmcsErr>>>
    ensures { let sizes = log_sizes (all_matrices (batch_claims claims.now)) in
        result ≡ answer (domain_tests log_final_poly_len sizes) (greatest sizes) }
{
    let mut greatest = 0;
    for batch in claims {
        greatest = greatest.max(greatest_domain_of(&batch.matrices, log_final_poly_len)?);
    }
    Ok(greatest)
}

/// Refuses claims by the first of these that holds, and returns the logarithm of the greatest
/// height that is claimed, which is below that of the circle's group.
///
/// - `NoCommittedMatrices` where no matrix is claimed.
/// - `DomainTooSmall` for the first domain that leaves nothing to fold: its logarithm is at most
///   that of the number of coefficients at which folding stops.
/// - `GlobalMaxHeightTooLarge` where the group has no domain of the greatest height's points.
///
/// Takes no memory.
#[tactic(auto, unfolding(circle_relation::specs::TestsInOrder::answer))]
pub fn validate_claims<F: ComplexExtendable, E, Com, CommitErr, InputMmcsErr, FriMmcsErr>(
    claims: &[CommitmentOpening<E, Com, CircleDomain<F>>],
    log_blowup: usize,
    log_final_poly_len: usize,
) -> Result<usize, FriError<CommitErr, InputError<InputMmcsErr, FriMmcsErr>>>
    ensures { let b = batch_claims claims.now in result ≡ answer (batch_tests F.CIRCLE_TWO_ADICITY
        log_blowup log_final_poly_len b) (claimed_height log_blowup b) }
{
    let greatest = greatest_domain(claims, log_final_poly_len)?;
    if greatest == 0 {
        return Err(FriError::NoCommittedMatrices);
    }
    let log_global_max_height = greatest.saturating_add(log_blowup);
    // A query's index has as many bits as this logarithm, and names a point of the standard domain
    // of the greatest height. That domain's shift has twice as great an order, which the group has
    // only where the logarithm is below its own. An index is then also below the order of a field
    // of one element less than the group has points, as Mersenne31.
    if log_global_max_height >= F::CIRCLE_TWO_ADICITY {
        return Err(FriError::GlobalMaxHeightTooLarge {
            log_global_max_height,
            two_adicity: F::CIRCLE_TWO_ADICITY,
        });
    }
    Ok(log_global_max_height)
}

// Refuses a difficulty past what is supported.
#[tactic(auto, unfolding(circle_relation::specs::TestsInOrder::answer))]
fn check_grinding<CommitErr, InputErr>(
    phase: PowPhase,
    bits: usize,
) -> Result<(), FriError<CommitErr, InputErr>>
    ensures { result ≡ answer (grinding_test phase bits ∷ []) tt }
{
    if bits > MAX_PROOF_OF_WORK_BITS {
        return Err(FriError::UnsupportedGrinding { phase, bits });
    }
    Ok(())
}

/// Refuses parameters that are not supported, by the first of these that holds.
///
/// - `UnsupportedGrinding` where a proof of work has more than 30 bits, in the order of the run.
/// - `ZeroQueries` where there are no queries.
/// - `ZeroBlowup` where the codewords are no longer than what they encode.
/// - `UnsupportedFoldingCap` where a round may fold by another number than two.
#[tactic(auto, unfolding(circle_relation::specs::TestsInOrder::answer))]
pub fn validate_parameters<M, CommitErr, InputErr>(
    params: &FriParameters<M>,
) -> Result<(), FriError<CommitErr, InputErr>>
    ensures { result ≡ answer (parameter_tests params.now) tt }
{
    check_grinding(PowPhase::Batch, params.batch_proof_of_work_bits)?;
    check_grinding(PowPhase::CommitPhase, params.commit_proof_of_work_bits)?;
    check_grinding(PowPhase::Query, params.query_proof_of_work_bits)?;
    // Only at queries are the codewords compared with committed rows, with one another and with the
    // final polynomial. Without a query any final polynomial would pass.
    if params.num_queries == 0 {
        return Err(FriError::ZeroQueries);
    }
    // At rate one a word has as many entries as its polynomial has coefficients, and any entries
    // are the values of such a polynomial. Every word is a codeword, so folding would refuse none.
    if params.log_blowup == 0 {
        return Err(FriError::ZeroBlowup);
    }
    if params.max_log_arity != 1 {
        return Err(FriError::UnsupportedFoldingCap {
            max_log_arity: params.max_log_arity,
        });
    }
    Ok(())
}

// Whether all witnesses are zero.
fn are_zero<Witness: Field>(witnesses: &[Witness]) -> bool
    ensures { result ≡ list_all (λ w. Witness.eq w Witness.ZERO) witnesses.now }
{
    witnesses.iter().all(|w| *w == Witness::ZERO)
}

// Refuses witnesses that are not zero where the proof of work has no difficulty: the transcript
// takes such a witness in nowhere and every value passes, so that without this test anyone could
// change the bytes of an accepted proof.
#[tactic(auto, unfolding(circle_relation::specs::TestsInOrder::answer))]
fn check_witnesses<CommitErr, InputErr>(
    phase: PowPhase,
    bits: usize,
    are_zero: bool,
) -> Result<(), FriError<CommitErr, InputErr>>
    ensures { result ≡ answer (witness_test phase bits are_zero ∷ []) tt }
{
    if bits == 0 && !are_zero {
        return Err(FriError::NonCanonicalPowWitness { phase });
    }
    Ok(())
}

// Refuses a query that has not one sibling.
#[tactic(auto, unfolding(circle_relation::specs::TestsInOrder::answer))]
fn check_siblings<F, CommitErr, InputErr>(
    round: usize,
    siblings: &[Vec<F>],
) -> Result<(), FriError<CommitErr, InputErr>>
    ensures { result ≡ answer (sibling_tests round (map vec_len siblings.now)) tt }
{
    for values in siblings {
        if values.len() != 1 {
            return Err(FriError::SiblingValuesLengthMismatch {
                round,
                expected: 1,
                got: values.len(),
            });
        }
    }
    Ok(())
}

// Refuses a round that is not opened at every query, or with another number of siblings than one.
#[tactic(auto, unfolding(circle_relation::specs::TestsInOrder::answer))]
fn check_round<F: Field, M: Mmcs<F>, CommitErr, InputErr>(
    num_queries: usize,
    round: usize,
    opening: &CircleCommitPhaseMultiStep<F, M>,
) -> Result<(), FriError<CommitErr, InputErr>>
    ensures { result
        ≡ answer (round_tests num_queries round (map vec_len opening.now.sibling_values.items)) tt }
{
    let got = opening.sibling_values.len();
    if got != num_queries {
        return Err(FriError::CommitPhaseQueryCountMismatch {
            round,
            expected: num_queries,
            got,
        });
    }
    check_siblings(round, &opening.sibling_values)
}

// Refuses rounds by the first that is not opened at every query with one sibling.
#[tactic(auto, unfolding(circle_relation::specs::TestsInOrder::answer, crate::specs::Refusals::rounds_tests))]
fn check_rounds<F: Field, M: Mmcs<F>, CommitErr, InputErr>(
    num_queries: usize,
    openings: &[CircleCommitPhaseMultiStep<F, M>],
) -> Result<(), FriError<CommitErr, InputErr>>
    ensures { result ≡ answer (rounds_tests num_queries 0 (sibling_counts openings.now)) tt }
{
    for (round, opening) in openings.iter().enumerate() {
        check_round(num_queries, round, opening)?;
    }
    Ok(())
}

/// Refuses a proof of another shape than the parameters and the number of rounds require, by the
/// first of these that holds.
///
/// - `CommitRoundCountMismatch` where there isn't one commitment for each round.
/// - `CommitPowWitnessCountMismatch` where there isn't one witness for each round.
/// - `NonCanonicalPowWitness` where a witness of a round, or that of the queries, isn't zero though
///   its proof of work has no difficulty.
/// - `CommitPhaseOpeningsCountMismatch` where there isn't one opening for each round.
/// - For each round in turn, `CommitPhaseQueryCountMismatch` where it isn't opened at every query,
///   and `SiblingValuesLengthMismatch` where a query has another number of siblings than one.
#[tactic(auto, unfolding(circle_relation::specs::TestsInOrder::answer))]
pub fn validate_proof_shape<F: Field, M: Mmcs<F>, Witness: Field, InputProof, InputErr>(
    params: &FriParameters<M>,
    proof: &CircleFriProof<F, M, Witness, InputProof>,
    num_commit_rounds: usize,
) -> Result<(), FriError<M::Error, InputErr>>
    ensures { result ≡ answer (proof_tests (λ w. Witness.eq w Witness.ZERO) params.now
        num_commit_rounds proof.now) tt }
{
    let expected = num_commit_rounds;
    let got = proof.commit_phase_commits.len();
    if got != expected {
        return Err(FriError::CommitRoundCountMismatch { expected, got });
    }
    let got = proof.commit_pow_witnesses.len();
    if got != expected {
        return Err(FriError::CommitPowWitnessCountMismatch { expected, got });
    }
    check_witnesses(
        PowPhase::CommitPhase,
        params.commit_proof_of_work_bits,
        are_zero(&proof.commit_pow_witnesses),
    )?;
    check_witnesses(
        PowPhase::Query,
        params.query_proof_of_work_bits,
        proof.pow_witness == Witness::ZERO,
    )?;
    let got = proof.commit_phase_openings.len();
    if got != expected {
        return Err(FriError::CommitPhaseOpeningsCountMismatch { expected, got });
    }
    check_rounds(params.num_queries, &proof.commit_phase_openings)
}

// Whether a matrix is claimed at infinity.
fn matrix_at_infinity<F: Field>(points: &[PointOpening<F>]) -> bool
    ensures { result ≡ list_any (λ p. is_at_infinity F.eq F.ops p.point) points.now }
{
    points.iter().any(|p| is_at_infinity(&p.point))
}

// Whether a matrix of a batch is claimed at infinity.
fn batch_at_infinity<F: Field, D>(matrices: &[MatrixOpening<F, D>]) -> bool
    ensures { result ≡ list_any (λ m. list_any (λ p. is_at_infinity F.eq F.ops p.point)
        m.points.items) matrices.now }
{
    matrices.iter().any(|m| matrix_at_infinity(&m.points))
}

// Whether some claimed point is at infinity.
fn some_at_infinity<F: Field, Commitment, D>(claims: &[CommitmentOpening<F, Commitment, D>]) -> bool
    ensures { result ≡ some_point (is_at_infinity F.eq F.ops) claims.now }
{
    claims.iter().any(|b| batch_at_infinity(&b.matrices))
}

// Whether the witness is zero.
fn is_zero<Witness: Field>(witness: &Witness) -> bool
    ensures { result ≡ Witness.eq witness.now Witness.ZERO }
{
    *witness == Witness::ZERO
}

// Refuses a final polynomial of another number of coefficients than `2^log_final_poly_len`, which
// is to be a number.
#[tactic(auto, unfolding(circle_relation::specs::TestsInOrder::answer))]
fn check_final_poly<CommitErr, InputErr>(
    log_final_poly_len: usize,
    got: usize,
) -> Result<(), FriError<CommitErr, InputErr>>
    requires { log_final_poly_len ≤ 63 }
    ensures { result ≡ answer (final_test log_final_poly_len got ∷ []) tt }
{
    let expected = 1 << log_final_poly_len;
    if got != expected {
        return Err(FriError::FinalPolyLengthMismatch { expected, got });
    }
    Ok(())
}

/// Refuses a witness of the batching challenge and claimed points, by the first of these that
/// holds.
///
/// - `NonCanonicalPowWitness` where the witness isn't zero though its proof of work has no
///   difficulty.
/// - `PointAtInfinity` where a claimed coordinate `t` has `t^2 = -1`, so that it belongs to no
///   point.
#[tactic(auto, unfolding(circle_relation::specs::TestsInOrder::answer))]
pub fn validate_points<F: Field, Commitment, D, M, Witness: Field, CommitErr, InputErr>(
    params: &FriParameters<M>,
    batch_pow_witness: &Witness,
    claims: &[CommitmentOpening<F, Commitment, D>],
) -> Result<(), FriError<CommitErr, InputErr>>
    ensures { let infinite = some_point (is_at_infinity F.eq F.ops) claims.now in result ≡ answer
        (point_tests params.now (Witness.eq batch_pow_witness.now Witness.ZERO) infinite) tt }
{
    check_witnesses(
        PowPhase::Batch,
        params.batch_proof_of_work_bits,
        is_zero(batch_pow_witness),
    )?;
    if some_at_infinity(claims) {
        return Err(FriError::PointAtInfinity);
    }
    Ok(())
}

impl<
    'a,
    Val: ComplexExtendable,
    EF: ExtensionField<Val>,
    InputMmcs: Mmcs<Val>,
    FriMmcs: Mmcs<EF>,
> TestedRun<'a, Val, EF, InputMmcs, FriMmcs> {
    /// Claims and a proof that no test before the seeding of the challenger refuses, with the
    /// logarithm of the greatest height that is claimed. Refuses by the first reason in the one
    /// order in which a verifier tests them: the claims ([`validate_claims`]), the parameters
    /// ([`validate_parameters`]), the lengths and the witnesses of the proof
    /// ([`validate_proof_shape`]), the number of coefficients of the final polynomial
    /// (`FinalPolyLengthMismatch`), and the witness of the batching challenge and the claimed
    /// points ([`validate_points`]).
    ///
    /// No height is read from the proof. That of the claims fixes the number of rounds and the bits
    /// of an index, and the proof's lists are compared with it: a proof with other rounds can
    /// neither make the indices wider nor the folding shorter.
    ///
    /// Takes no memory.
    pub fn new(
        params: &'a FriParameters<FriMmcs>,
        claims: &'a [CommitmentOpening<EF, InputMmcs::Commitment, CircleDomain<Val>>],
        proof: &'a CirclePcsProof<Val, EF, InputMmcs, FriMmcs, Val>,
    ) -> Result<Self, VerifierError<InputMmcs::Error, FriMmcs::Error>>
        ensures { IsTestedOf result params.now claims.now proof.now }
    {
        let log_final_poly_len = params.log_final_poly_len;
        let log_max_height = validate_claims(claims, params.log_blowup, log_final_poly_len)?;
        validate_parameters(params)?;
        let num_commit_rounds = log_max_height - 1 - params.log_blowup - log_final_poly_len;
        validate_proof_shape(params, &proof.fri_proof, num_commit_rounds)?;
        check_final_poly(log_final_poly_len, proof.fri_proof.final_poly.len())?;
        validate_points(params, &proof.batch_pow_witness, claims)?;
        Ok(TestedRun {
            params,
            claims,
            proof,
            log_max_height,
        })
    }
}
