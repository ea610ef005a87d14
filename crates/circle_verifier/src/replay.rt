//! The verifier's side of the transcript: what it is described by, and what it absorbs.
ghost use Rattle.std.specs.Prelude.{◌≡◌, ◌++◌, map, flat_map, length, All, IfOk, IfErr, OnOk};
ghost use Rattle.circle_domain.specs.Selectors.{IsFinite};
ghost use Rattle.circle_relation.specs.Statement.{all_matrices};
ghost use Rattle.circle_relation.specs.StatementOf.{point_claim, matrix_claims, batch_claims};
ghost use Rattle.circle_transcript.specs.Claims.{claims_of};
ghost use Rattle.circle_transcript.specs.ShapeOf.{matrices_of, batches_of};
ghost use Rattle.circle_relation.specs.Taken.{widths_by, point_taken, claims_taken};
ghost use Rattle.circle_verifier.specs.Replay.{AreDrawn, AreNotDrawn, refusal_of};

use crate::drawn::DrawnRun;
use crate::tested::TestedRun;
use circle_challenger::{CanObserve, CanSample, GrindingChallenger, RunChallenger};
use circle_commit::{
    CommitmentOpening, FriError, FriFoldingStrategy, MatrixOpening, Mmcs, PointOpening,
};
use circle_domain::CircleDomain;
use circle_field::{ComplexExtendable, ExtensionField, Field};
use circle_folding::CircleFriFolding;
use circle_point::Point;
use circle_relation::VerifierError;
use circle_transcript::{
    CircleMessages, CirclePcsShape, CircleTranscriptFailure, CircleWitnesses, OpeningClaim,
    verifier_run,
};
use std::alloc::{AllocError, Global};

// The number of values that are claimed of a matrix at each of its points.
fn widths_of_matrix<EF>(
    alloc: Global,
    points: &[PointOpening<EF>],
) -> Result<Vec<usize>, AllocError>
    ensures { IfOk result (λ v.
        v.items ≡ map (λ c. length c.values) (map point_claim points.now)) }
{
    let mut widths = Vec::with_capacity(alloc, points.len())?;
    for point in points {
        widths.push(point.values.len())?;
    }
    Ok(widths)
}

// The same of the matrices of a batch.
fn widths_of_batch<F: ComplexExtendable, EF>(
    alloc: Global,
    matrices: &[MatrixOpening<EF, CircleDomain<F>>],
) -> Result<Vec<Vec<usize>>, AllocError>
    ensures { IfOk result (λ v. matrices_of v.items
        ≡ map (λ m. map (λ c. length c.values) m.claims) (matrix_claims matrices.now)) }
{
    let mut widths = Vec::with_capacity(alloc, matrices.len())?;
    for matrix in matrices {
        widths.push(widths_of_matrix(alloc, &matrix.points)?)?;
    }
    Ok(widths)
}

// The number of values of every claim, by batch, matrix and point.
fn widths_of_claims<F: ComplexExtendable, EF, Com>(
    alloc: Global,
    claims: &[CommitmentOpening<EF, Com, CircleDomain<F>>],
) -> Result<Vec<Vec<Vec<usize>>>, AllocError>
    ensures { IfOk result (λ v. batches_of v.items ≡ widths_by (batch_claims claims.now)) }
{
    let mut widths = Vec::with_capacity(alloc, claims.len())?;
    for batch in claims {
        widths.push(widths_of_batch(alloc, &batch.matrices)?)?;
    }
    Ok(widths)
}

// Adds the claims of a matrix.
fn push_matrix<'a, EF: Field>(
    claims: &mut Vec<OpeningClaim<'a, EF>>,
    points: &'a [PointOpening<EF>],
) -> Result<(), AllocError>
    requires { All (λ c. IsFinite EF.ops c.point) (map point_claim points.now) }
    ensures { OnOk result (claims_of claims.new.items ≡ claims_of claims.old.items
        ++ map (point_taken EF.ops) (map point_claim points.now)) }
{
    for opening in points {
        match Point::from_projective_line(opening.point) {
            Some(point) => claims.push((point, &opening.values))?,
            None => unreachable!(),
        }
    }
    Ok(())
}

// Adds the claims of a batch.
fn push_batch<'a, F: ComplexExtendable, EF: Field>(
    claims: &mut Vec<OpeningClaim<'a, EF>>,
    matrices: &'a [MatrixOpening<EF, CircleDomain<F>>],
) -> Result<(), AllocError>
    requires { All (λ m. All (λ c. IsFinite EF.ops c.point) m.claims) (matrix_claims matrices.now) }
    ensures { OnOk result (claims_of claims.new.items ≡ claims_of claims.old.items
        ++ flat_map (λ m. map (point_taken EF.ops) m.claims) (matrix_claims matrices.now)) }
{
    for matrix in matrices {
        push_matrix(claims, &matrix.points)?;
    }
    Ok(())
}

// The claims as the transcript and the quotients take them, one after another. Requires points that
// are not at infinity.
fn opening_claims<'a, F: ComplexExtendable, EF: Field, Com>(
    alloc: Global,
    batches: &'a [CommitmentOpening<EF, Com, CircleDomain<F>>],
) -> Result<Vec<OpeningClaim<'a, EF>>, AllocError>
    requires { All (λ m. All (λ c. IsFinite EF.ops c.point) m.claims)
        (all_matrices (batch_claims batches.now)) }
    ensures { IfOk result (λ v. claims_of v.items
        ≡ claims_taken EF.ops (batch_claims batches.now)) }
{
    let mut claims = Vec::new(alloc);
    for batch in batches {
        push_batch(&mut claims, &batch.matrices)?;
    }
    Ok(claims)
}

// The refusal that a transcript's failure is returned as.
fn refusal_of<CommitErr, InputErr>(
    failure: CircleTranscriptFailure,
) -> FriError<CommitErr, InputErr>
    ensures { result ≡ refusal_of failure }
{
    match failure {
        CircleTranscriptFailure::PowWitness { phase, .. }
        | CircleTranscriptFailure::NoWitness { phase, .. } => FriError::InvalidPowWitness(phase),
        CircleTranscriptFailure::Memory => FriError::Memory,
    }
}

impl<
    'a,
    Val: ComplexExtendable,
    EF: ExtensionField<Val>,
    InputMmcs: Mmcs<Val>,
    FriMmcs: Mmcs<EF>,
> TestedRun<'a, Val, EF, InputMmcs, FriMmcs> {
    /// Plays the transcript, and draws the challenges: the seed is made of the claims and the
    /// parameters, never of the proof.
    ///
    /// Fails with `InvalidPowWitness` of the first phase whose witness doesn't pass, and with
    /// `Memory` where memory is refused.
    pub fn replay_transcript<C>(
        self,
        alloc: Global,
        challenger: &mut C,
    ) -> Result<
        DrawnRun<'a, Val, EF, InputMmcs, FriMmcs>,
        VerifierError<InputMmcs::Error, FriMmcs::Error>,
    >
    where
        C: CanSample<Val> + GrindingChallenger<Val> + CanObserve<FriMmcs::Commitment>,
        ensures run { IfOk result (λ drawn. drawn.run ≡ self.entry) }
        ensures drawn { let m = ⟦<C as RunChallenger<Val, EF, FriMmcs::Commitment>>⟧.run in
            IfOk result (λ d. AreDrawn m d.run challenger.old d.draws challenger.new) }
        ensures failure { let m = ⟦<C as RunChallenger<Val, EF, FriMmcs::Commitment>>⟧.run in
            IfErr result (AreNotDrawn m self.entry challenger.old) }
    {
        let proof = self.proof;
        let widths = widths_of_claims(alloc, self.claims)?;
        let extra_bits = FriFoldingStrategy::<Val, EF>::extra_query_index_bits(&CircleFriFolding);
        let shape = CirclePcsShape::new(self.params, widths, self.log_max_height, extra_bits);
        let fri_proof = &proof.fri_proof;
        let messages = CircleMessages {
            first_layer: &proof.first_layer_commitment,
            commitments: &fri_proof.commit_phase_commits,
            final_poly: &fri_proof.final_poly,
        };
        let witnesses = CircleWitnesses {
            batch: proof.batch_pow_witness,
            rounds: Vec::from_slice(alloc, &fri_proof.commit_pow_witnesses)?,
            query: fri_proof.pow_witness,
        };
        let points = opening_claims(alloc, self.claims)?;
        match verifier_run(alloc, challenger, shape, &points, &messages, &witnesses) {
            Ok(draws) => Ok(DrawnRun {
                run: self,
                claimed_points: points,
                draws,
            }),
            Err(failure) => Err(refusal_of(failure)),
        }
    }
}
