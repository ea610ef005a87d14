//! Calls on a transcript and its shape.
ghost use Rattle.std.specs.Prelude.{◌≡◌, ◌≤◌, [], ◌∷◌, IfOk};
ghost use Rattle.circle_transcript.specs.Shape.{claimed_widths};
ghost use Rattle.circle_transcript.specs.ShapeOf.{shape_of};

use crate::plane::cubic;
use crate::told::{Stage, Told, shown, told};
use anyhow::Result;
use circle_challenger::{CanSample, Sha256Challenger};
use circle_commit::FriParameters;
use circle_field::{Cubic, Mersenne31};
use circle_transcript::CircleMessages;
use p3_circle::{CirclePcsShape, CircleProverTranscript, CircleRun, Neutral, Point, prover_run};
use std::alloc::{AllocError, Global};

/// The shape of a run of one round over one claim of one column.
pub fn shape(alloc: Global) -> Result<CirclePcsShape, AllocError>
    ensures widths { IfOk result (λ s. claimed_widths (shape_of s) ≡ 1 ∷ []) }
    ensures rounds { IfOk result (λ s. s.num_commit_rounds ≡ 1) }
    ensures batch { IfOk result (λ s. s.batch_pow_bits ≡ 0) }
    ensures commit { IfOk result (λ s. s.commit_pow_bits ≡ 0) }
    ensures query { IfOk result (λ s. s.query_pow_bits ≡ 0) }
    ensures index { IfOk result (λ s. s.index_bits ≡ 2) }
    ensures final_poly { IfOk result (λ s. s.log_final_poly_len ≡ 0) }
{
    let widths = vec![in alloc; 1]?;
    let matrices = vec![in alloc; widths]?;
    let batches = vec![in alloc; matrices]?;
    let params = FriParameters {
        log_blowup: 1,
        log_final_poly_len: 0,
        max_log_arity: 1,
        num_queries: 40,
        batch_proof_of_work_bits: 0,
        commit_proof_of_work_bits: 0,
        query_proof_of_work_bits: 0,
        mmcs: (),
    };
    Ok(CirclePcsShape::new(&params, batches, 3, 0))
}

// The number that a challenger draws next.
fn drawn(challenger: &mut Sha256Challenger) -> u32 {
    let drawn: Mersenne31 = challenger.sample();
    drawn.value()
}

// Begins a transcript of this shape, and aborts it.
fn begin(
    alloc: Global,
    stage: Stage,
    challenger: &mut Sha256Challenger,
    shape: CirclePcsShape,
) -> Result<&'static str>
    requires final_poly { shape.log_final_poly_len ≤ 63 }
{
    stage.begin()?;
    let begun = CircleProverTranscript::<Sha256Challenger, Mersenne31, Cubic, [u8; 32]>::new(
        alloc, challenger, shape,
    )?;
    begun.abort();
    Ok("begun")
}

/// `CircleTranscript::new`, with what its challenger draws afterwards.
pub fn transcript(alloc: Global, stage: Stage) -> Result<Told> {
    let shape = shape(alloc)?;
    let mut challenger = Sha256Challenger::new();
    let answer = shown(begin(alloc, stage, &mut challenger, shape));
    let next = drawn(&mut challenger);
    Ok(Told::of(format_args!("{}, draws {next}", answer.as_str())))
}

/// `CirclePcsShape::has_seed_of`.
pub fn has_seed_of(alloc: Global, stage: Stage) -> Result<Told> {
    let (one, other) = (shape(alloc)?, shape(alloc)?);
    stage.begin()?;
    Ok(told(one.has_seed_of::<Mersenne31, Cubic>(alloc, &other)?))
}

/// `prover_run` over one claim.
pub fn run(alloc: Global, stage: Stage) -> Result<Told> {
    let run = CircleRun::new(shape(alloc)?);
    let (values, final_poly) = ([cubic([5, 6, 7])], [cubic([1, 2, 3])]);
    let claims = [(Point::<Cubic>::ZERO, values.as_slice())];
    let messages = CircleMessages {
        first_layer: &[7; 32],
        commitments: &[[9; 32]],
        final_poly: final_poly.as_slice(),
    };
    let mut challenger = Sha256Challenger::new();
    stage.begin()?;
    let (draws, _) = prover_run(alloc, &mut challenger, run, claims.as_slice(), &messages)?;
    Ok(told(draws.indices.len()))
}
