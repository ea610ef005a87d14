//! The verifier's side of the transcript, played over one batch of claims and a proof.
ghost use Rattle.std.specs.Prelude.{◌≡◌, ◌≤◌, IfOk, flat_map};
ghost use Rattle.circle_transcript.specs.Claims.{claims_of};
ghost use Rattle.circle_transcript.specs.Draw.{widths_of};
ghost use Rattle.circle_transcript.specs.Shape.{claimed_widths};
ghost use Rattle.circle_transcript.specs.ShapeOf.{shape_of, matrices_of};

use circle_challenger::{CanObserve, CanSample, GrindingChallenger};
use circle_commit::{CommitmentOpening, FriParameters, MatrixOpening, Mmcs, PointOpening};
use circle_field::{Cubic, Mersenne31};
use circle_transcript::{
    CircleDraws, CircleMessages, CirclePcsShape, CircleTranscriptFailure, CircleWitnesses,
    OpeningClaim, verifier_run,
};
use p3_circle::{CirclePcsProof, Point};
use std::alloc::{AllocError, Global};
use std::test::Fail;
use test_batches::batches::Domain;

/// The binary logarithm of the greatest height, which 16 rows have at a blowup of two.
const TOP: usize = 5;

// The numbers of values of the claims on a matrix.
fn widths_at(alloc: Global, points: &[PointOpening<Cubic>]) -> Result<Vec<usize>, AllocError> {
    let mut widths = Vec::with_capacity(alloc, points.len())?;
    for claim in points {
        widths.push(claim.values.len())?;
    }
    Ok(widths)
}

// Those of the claims on each matrix.
fn widths(
    alloc: Global,
    matrices: &[MatrixOpening<Cubic, Domain>],
) -> Result<Vec<Vec<usize>>, AllocError> {
    let mut widths = Vec::with_capacity(alloc, matrices.len())?;
    for matrix in matrices {
        widths.push(widths_at(alloc, &matrix.points)?)?;
    }
    Ok(widths)
}

// These numbers, one matrix after another.
fn joined(alloc: Global, matrices: &[Vec<usize>]) -> Result<Vec<usize>, AllocError>
    ensures { IfOk result (λ v. v.items ≡ flat_map (λ m. m) (matrices_of matrices.now)) }
{
    let mut all = Vec::new(alloc);
    for matrix in matrices {
        all.extend_from_slice(matrix)?;
    }
    Ok(all)
}

// The numbers of values of the claims that are absorbed.
fn lengths(alloc: Global, claims: &[OpeningClaim<Cubic>]) -> Result<Vec<usize>, AllocError>
    ensures { IfOk result (λ v. v.items ≡ widths_of (claims_of claims.now)) }
{
    let mut lengths = Vec::with_capacity(alloc, claims.len())?;
    for claim in claims {
        lengths.push(claim.1.len())?;
    }
    Ok(lengths)
}

// Adds the claims on a matrix.
fn push_claims<'a>(
    taken: &mut Vec<OpeningClaim<'a, Cubic>>,
    points: &'a [PointOpening<Cubic>],
) -> Result<(), Fail> {
    for claim in points {
        let point = Point::from_projective_line(claim.point).ok_or("a point at infinity")?;
        taken.push((point, claim.values.as_slice()))?;
    }
    Ok(())
}

// The claims as they are absorbed.
fn taken<'a>(
    alloc: Global,
    matrices: &'a [MatrixOpening<Cubic, Domain>],
) -> Result<Vec<OpeningClaim<'a, Cubic>>, Fail> {
    let mut taken = Vec::new(alloc);
    for matrix in matrices {
        push_claims(&mut taken, &matrix.points)?;
    }
    Ok(taken)
}

// The shape of a run over one batch of claims of these numbers of values.
fn shape<M>(
    alloc: Global,
    params: &FriParameters<M>,
    widths: Vec<Vec<usize>>,
) -> Result<CirclePcsShape, Fail>
    ensures widths { IfOk result (λ s. claimed_widths (shape_of s)
        ≡ flat_map (λ m. m) (matrices_of widths.items)) }
    ensures batch { IfOk result (λ s. s.batch_pow_bits ≤ 30) }
    ensures commit { IfOk result (λ s. s.commit_pow_bits ≤ 30) }
    ensures query { IfOk result (λ s. s.query_pow_bits ≤ 30) }
    ensures index { IfOk result (λ s. s.index_bits ≡ TOP) }
    ensures final_poly { IfOk result (λ s. s.log_final_poly_len ≤ 2) }
{
    if params.log_blowup != 1 || params.log_final_poly_len > 2 {
        return Err(Fail::new("the words"));
    }
    if params.batch_proof_of_work_bits > 30
        || params.commit_proof_of_work_bits > 30
        || params.query_proof_of_work_bits > 30
    {
        return Err(Fail::new("the difficulties"));
    }
    let batches = vec![in alloc; widths]?;
    Ok(CirclePcsShape::new(params, batches, TOP, 1))
}

// The shape of a run over one batch of claims, which are absorbed as these.
fn shape_for<M>(
    alloc: Global,
    params: &FriParameters<M>,
    matrices: &[MatrixOpening<Cubic, Domain>],
    taken: &[OpeningClaim<Cubic>],
) -> Result<CirclePcsShape, Fail>
    ensures widths { IfOk result (λ s. claimed_widths (shape_of s)
        ≡ widths_of (claims_of taken.now)) }
    ensures batch { IfOk result (λ s. s.batch_pow_bits ≤ 30) }
    ensures commit { IfOk result (λ s. s.commit_pow_bits ≤ 30) }
    ensures query { IfOk result (λ s. s.query_pow_bits ≤ 30) }
    ensures index { IfOk result (λ s. s.index_bits ≡ TOP) }
    ensures final_poly { IfOk result (λ s. s.log_final_poly_len ≤ 2) }
{
    let widths = widths(alloc, matrices)?;
    if lengths(alloc, taken)? != joined(alloc, &widths)? {
        return Err(Fail::new("the numbers of values"));
    }
    shape(alloc, params, widths)
}

// The witnesses of the proof.
fn witnesses<I: Mmcs<Mersenne31>, W: Mmcs<Cubic>>(
    alloc: Global,
    proof: &CirclePcsProof<Mersenne31, Cubic, I, W, Mersenne31>,
) -> Result<CircleWitnesses<Mersenne31>, AllocError> {
    Ok(CircleWitnesses {
        batch: proof.batch_pow_witness,
        rounds: Vec::from_slice(alloc, &proof.fri_proof.commit_pow_witnesses)?,
        query: proof.fri_proof.pow_witness,
    })
}

/// What a verifier draws over claims of one batch, the tallest of which is of 16 rows, and a proof.
pub(crate) fn play<I: Mmcs<Mersenne31>, W: Mmcs<Cubic>, C>(
    alloc: Global,
    params: &FriParameters<W>,
    claims: &[CommitmentOpening<Cubic, I::Commitment, Domain>],
    proof: &CirclePcsProof<Mersenne31, Cubic, I, W, Mersenne31>,
    challenger: &mut C,
) -> Result<Result<CircleDraws<Cubic>, CircleTranscriptFailure>, Fail>
where
    C: CanSample<Mersenne31> + GrindingChallenger<Mersenne31> + CanObserve<W::Commitment>,
{
    let [batch] = claims else {
        return Err(Fail::new("the number of batches"));
    };
    let taken = taken(alloc, &batch.matrices)?;
    let shape = shape_for(alloc, params, &batch.matrices, &taken)?;
    let words = &proof.fri_proof;
    let messages = CircleMessages {
        first_layer: &proof.first_layer_commitment,
        commitments: &words.commit_phase_commits,
        final_poly: &words.final_poly,
    };
    let witnesses = witnesses::<I, W>(alloc, proof)?;
    if messages.commitments.len() != shape.num_commit_rounds
        || witnesses.rounds.len() != shape.num_commit_rounds
        || messages.final_poly.len() != 1 << shape.log_final_poly_len
    {
        return Err(Fail::new("the lengths"));
    }
    Ok(verifier_run(alloc, challenger, shape, &taken, &messages, &witnesses))
}
