//! Whole runs of a transcript, on both sides.
ghost use Rattle.std.specs.Prelude.{◌≡◌, ◌^◌, ◌<◌, ◌≤◌, [], length, map, true, IfOk, IfErr, OnOk};
ghost use Rattle.std.specs.Prelude.{All, unwrap_or};
ghost use Rattle.circle_challenger.specs.Due.{AreNext, HasPlayed};
ghost use Rattle.circle_transcript.specs.Failure.{IsMemoryOr};
ghost use Rattle.circle_transcript.specs.Shape.{claimed_widths};
ghost use Rattle.circle_transcript.specs.ShapeOf.{shape_of};
ghost use Rattle.circle_transcript.specs.Draw.{widths_of};
ghost use Rattle.circle_transcript.specs.Claims.{claims_of};
ghost use Rattle.circle_transcript.specs.Numbers.{numbers_of, run_steps};
ghost use Rattle.circle_transcript.specs.Transcript.{current, due, numbers, IsSame};
ghost use Rattle.circle_transcript.specs.Transcript.{steps_of_rounds};
ghost use Rattle.circle_transcript.specs.CircleRun.{IsDrawn, IsDrawnWithSome, AreAlike, FindsNone};
ghost use Rattle.circle_transcript.specs.Runs.{ArePlayable, taken_of, Draws, Misses};
ghost use Rattle.circle_transcript.specs.Runs.{DrawsFrom, MissesFrom};
ghost use Rattle.circle_transcript.specs.Runs.{FindsNoneFrom, MissesInRounds, FindsNoneInRounds};
ghost use Rattle.circle_transcript.specs.Runs.{HavePlayed};

use crate::{
    CirclePcsShape, CircleProverTranscript, CircleRun, CircleTranscriptFailure,
    CircleVerifierTranscript, OpeningClaim,
};
use circle_challenger::{CanObserve, CanSample, GrindingChallenger, RunChallenger};
use circle_field::{ExtensionField, Field};
use std::alloc::Global;

/// What a run draws.
#[derive(Debug, Drop)]
pub struct CircleDraws<EF> {
    /// The challenge that batches the claims.
    pub alpha: EF,
    /// The challenge that folds the first layer.
    pub bivariate: EF,
    /// The folding challenge of each round.
    pub betas: Vec<EF>,
    /// The query indices.
    pub indices: Vec<usize>,
}

/// What the prover sends in a run, beside its claims and its witnesses.
#[derive(Debug, Drop)]
pub struct CircleMessages<'a, EF, Com> {
    /// The commitment to the first layer.
    pub first_layer: &'a Com,
    /// The commitment of each round.
    pub commitments: &'a [Com],
    /// The coefficients of the final polynomial, `2^log_final_poly_len` of them.
    pub final_poly: &'a [EF],
}

/// The witnesses of a run's proofs of work, 0 where there is no difficulty.
#[derive(Debug, Drop)]
pub struct CircleWitnesses<F> {
    /// The witness of the batching challenge.
    pub batch: F,
    /// The witness of each round.
    pub rounds: Vec<F>,
    /// The witness of the query indices.
    pub query: F,
}

/// Plays rounds with their witnesses, and draws their challenges.
///
/// Requires that these are the next steps, one witness for each commitment, and a difficulty of at
/// most 63.
fn checking_rounds<'a, F: Field, EF: ExtensionField<F>, C, Com>(
    alloc: Global,
    transcript: &mut CircleVerifierTranscript<'a, C, F, EF, Com>,
    commitments: &[Com],
    witnesses: &[F],
) -> Result<Vec<EF>, CircleTranscriptFailure>
where
    C: CanSample<F> + GrindingChallenger<F> + CanObserve<Com>,
    requires next { AreNext (steps_of_rounds transcript.old commitments.now)
        (due transcript.old) }
    requires paired { length witnesses.now ≡ length commitments.now }
    requires small { (numbers transcript.old).commit_pow_bits ≤ 63 }
    ensures same { IsSame transcript.old transcript.new }
    ensures due { OnOk result (HasPlayed (steps_of_rounds transcript.old commitments.now)
        (due transcript.old) (due transcript.new)) }
    ensures played { IfOk result (λ v. HavePlayed transcript.old transcript.new commitments.now
        witnesses.now (map EF.coefficients v.items)) }
    ensures failure { IfErr result
        (IsMemoryOr (MissesInRounds transcript.old commitments.now witnesses.now)) }
{
    let mut betas = Vec::new(alloc);
    for (i, commitment) in commitments.iter().enumerate() {
        let beta = transcript.commit_round(commitment, witnesses[i])?;
        match betas.push(beta) {
            Ok(()) => {}
            Err(_) => return Err(CircleTranscriptFailure::Memory),
        }
    }
    Ok(betas)
}

/// Plays a run with its witnesses, and draws what it draws.
///
/// Requires that these are all the steps due, one witness for each commitment, as many coefficients
/// as the shape says, and difficulties and a number of bits of an index of at most 63.
fn checking_run<'a, F: Field, EF: ExtensionField<F>, C, Com>(
    alloc: Global,
    transcript: &mut CircleVerifierTranscript<'a, C, F, EF, Com>,
    claims: &[OpeningClaim<EF>],
    messages: &CircleMessages<EF, Com>,
    witnesses: &CircleWitnesses<F>,
) -> Result<CircleDraws<EF>, CircleTranscriptFailure>
where
    C: CanSample<F> + GrindingChallenger<F> + CanObserve<Com>,
    requires next { due transcript.old ≡ run_steps EF.DEGREE (widths_of (claims_of claims.now))
        (length messages.now.commitments.now) (numbers transcript.old) }
    requires paired { length witnesses.now.rounds.items ≡ length messages.now.commitments.now }
    requires small { ArePlayable (numbers transcript.old) }
    requires count { length messages.now.final_poly.now ≡
        2 ^ (numbers transcript.old).log_final_poly_len }
    ensures same { IsSame transcript.old transcript.new }
    ensures due { OnOk result (due transcript.new ≡ []) }
    ensures below { IfOk result (λ d. All (λ i. i < 2 ^ (numbers transcript.old).index_bits)
        d.indices.items) }
    ensures draws { let taken = taken_of claims.now messages.now witnesses.now in IfOk result (λ d.
        DrawsFrom transcript.old taken d transcript.new) }
    ensures failure { let taken = taken_of claims.now messages.now witnesses.now in IfErr result
        (IsMemoryOr (MissesFrom transcript.old taken)) }
{
    let alpha = transcript.batch_phase(claims, witnesses.batch)?;
    let bivariate = transcript.first_layer(messages.first_layer);
    let betas = checking_rounds(alloc, transcript, messages.commitments, &witnesses.rounds)?;
    let indices = transcript.query_phase(alloc, messages.final_poly, witnesses.query)?;
    Ok(CircleDraws {
        alpha,
        bivariate,
        betas,
        indices,
    })
}

/// The verifier's side of a run: seeds the challenger, absorbs the claims and what a proof holds,
/// and draws the challenges. Fails with `PowWitness` where a witness doesn't pass, and with
/// `Memory` where memory is refused.
///
/// Requires claims of the described numbers of values, a commitment and a witness for each round,
/// as many coefficients as the shape says, and difficulties, a number of bits of an index and a
/// `log_final_poly_len` of at most 63.
pub fn verifier_run<F: Field, EF: ExtensionField<F>, C, Com>(
    alloc: Global,
    challenger: &mut C,
    shape: CirclePcsShape,
    claims: &[OpeningClaim<EF>],
    messages: &CircleMessages<EF, Com>,
    witnesses: &CircleWitnesses<F>,
) -> Result<CircleDraws<EF>, CircleTranscriptFailure>
where
    C: CanSample<F> + GrindingChallenger<F> + CanObserve<Com>,
    requires claims { widths_of (claims_of claims.now) ≡ claimed_widths (shape_of shape) }
    requires rounds { length messages.now.commitments.now ≡ shape.num_commit_rounds }
    requires paired { length witnesses.now.rounds.items ≡ length messages.now.commitments.now }
    requires small { ArePlayable (numbers_of (shape_of shape)) }
    requires count { length messages.now.final_poly.now ≡ 2 ^ shape.log_final_poly_len }
    ensures draws { let taken = taken_of claims.now messages.now witnesses.now in IfOk result (λ d.
        Draws ⟦<C as RunChallenger<F, EF, Com>>⟧.run shape taken challenger.old d challenger.new) }
    ensures below { IfOk result (λ d. All (λ i. i < 2 ^ shape.index_bits) d.indices.items) }
    ensures failure { let taken = taken_of claims.now messages.now witnesses.now in IfErr result
        (IsMemoryOr (Misses ⟦<C as RunChallenger<F, EF, Com>>⟧.run shape taken challenger.old)) }
{
    let seeded = CircleVerifierTranscript::<C, F, EF, Com>::seeded(alloc, challenger, shape)?;
    let mut transcript = CircleVerifierTranscript::<C, F, EF, Com>::of_seeded(challenger, seeded);
    match checking_run(alloc, &mut transcript, claims, messages, witnesses) {
        Ok(draws) => {
            transcript.finish();
            Ok(draws)
        }
        Err(failure) => {
            transcript.abort();
            Err(failure)
        }
    }
}

/// Plays rounds, looking for their witnesses, and draws their challenges.
///
/// Requires that these are the next steps, and a difficulty of at most 63.
fn grinding_rounds<'a, F: Field, EF: ExtensionField<F>, C, Com>(
    alloc: Global,
    transcript: &mut CircleProverTranscript<'a, C, F, EF, Com>,
    commitments: &[Com],
) -> Result<(Vec<EF>, Vec<F>), CircleTranscriptFailure>
where
    C: CanSample<F> + GrindingChallenger<F> + CanObserve<Com>,
    requires next { AreNext (steps_of_rounds transcript.old commitments.now)
        (due transcript.old) }
    requires small { (numbers transcript.old).commit_pow_bits ≤ 63 }
    ensures same { IsSame transcript.old transcript.new }
    ensures due { OnOk result (HasPlayed (steps_of_rounds transcript.old commitments.now)
        (due transcript.old) (due transcript.new)) }
    ensures count { IfOk result (λ r. length r.1.items ≡ length commitments.now) }
    ensures easy { IfOk result (λ r. (numbers transcript.old).commit_pow_bits ≡ 0 →
        All (λ w. w ≡ F.ops.zero) r.1.items) }
    ensures played { IfOk result (λ r. HavePlayed transcript.old transcript.new commitments.now
        r.1.items (map EF.coefficients r.0.items)) }
    ensures failure { IfErr result
        (IsMemoryOr (FindsNoneInRounds transcript.old commitments.now)) }
{
    let mut betas = Vec::new(alloc);
    let mut witnesses = Vec::new(alloc);
    for commitment in commitments {
        let (beta, found) = transcript.commit_round(commitment)?;
        let witness = found.unwrap_or(F::ZERO);
        match betas.push(beta) {
            Ok(()) => {}
            Err(_) => return Err(CircleTranscriptFailure::Memory),
        }
        match witnesses.push(witness) {
            Ok(()) => {}
            Err(_) => return Err(CircleTranscriptFailure::Memory),
        }
    }
    Ok((betas, witnesses))
}

/// The witness, or 0 where there is none.
fn or_zero<F: Field>(witness: Option<F>) -> F
    ensures { result ≡ unwrap_or witness F.ops.zero }
{
    witness.unwrap_or(F::ZERO)
}

/// Plays a run, looking for the witnesses, and draws what it draws.
///
/// Requires that these are all the steps due, as many coefficients as the shape says, and
/// difficulties and a number of bits of an index of at most 63.
fn grinding_run<'a, F: Field, EF: ExtensionField<F>, C, Com>(
    alloc: Global,
    transcript: &mut CircleProverTranscript<'a, C, F, EF, Com>,
    claims: &[OpeningClaim<EF>],
    messages: &CircleMessages<EF, Com>,
) -> Result<(CircleDraws<EF>, CircleWitnesses<F>), CircleTranscriptFailure>
where
    C: CanSample<F> + GrindingChallenger<F> + CanObserve<Com>,
    requires next { due transcript.old ≡ run_steps EF.DEGREE (widths_of (claims_of claims.now))
        (length messages.now.commitments.now) (numbers transcript.old) }
    requires small { ArePlayable (numbers transcript.old) }
    requires count { length messages.now.final_poly.now ≡
        2 ^ (numbers transcript.old).log_final_poly_len }
    ensures same { IsSame transcript.old transcript.new }
    ensures due { OnOk result (due transcript.new ≡ []) }
    ensures count { IfOk result (λ r.
        length r.1.rounds.items ≡ length messages.now.commitments.now) }
    ensures easy_batch { IfOk result (λ r.
        (numbers transcript.old).batch_pow_bits ≡ 0 → r.1.batch ≡ F.ops.zero) }
    ensures easy_rounds { IfOk result (λ r. (numbers transcript.old).commit_pow_bits ≡ 0 →
        All (λ w. w ≡ F.ops.zero) r.1.rounds.items) }
    ensures easy_query { IfOk result (λ r.
        (numbers transcript.old).query_pow_bits ≡ 0 → r.1.query ≡ F.ops.zero) }
    ensures below { IfOk result (λ r. All (λ i. i < 2 ^ (numbers transcript.old).index_bits)
        r.0.indices.items) }
    ensures draws { IfOk result (λ r.
        DrawsFrom transcript.old (taken_of claims.now messages.now r.1) r.0 transcript.new) }
    ensures failure { IfErr result
        (IsMemoryOr (FindsNoneFrom transcript.old claims.now messages.now)) }
{
    let (alpha, batch) = transcript.batch_phase(claims)?;
    let bivariate = transcript.first_layer(messages.first_layer);
    let (betas, rounds) = grinding_rounds(alloc, transcript, messages.commitments)?;
    let (indices, query) = transcript.query_phase(alloc, messages.final_poly)?;
    let batch_witness = or_zero(batch);
    let query_witness = or_zero(query);
    Ok((
        CircleDraws {
            alpha,
            bivariate,
            betas,
            indices,
        },
        CircleWitnesses {
            batch: batch_witness,
            rounds,
            query: query_witness,
        },
    ))
}

/// The prover's side of a run whose messages are given: seeds the challenger, absorbs the claims
/// and the messages, looks for the witnesses, and draws the challenges. Fails with `NoWitness`
/// where no witness passes, and with `Memory` where memory is refused.
///
/// Requires claims of the described numbers of values, a commitment for each round, and as many
/// coefficients as the shape says.
pub fn prover_run<F: Field, EF: ExtensionField<F>, C, Com>(
    alloc: Global,
    challenger: &mut C,
    run: CircleRun<C, F, EF, Com>,
    claims: &[OpeningClaim<EF>],
    messages: &CircleMessages<EF, Com>,
) -> Result<(CircleDraws<EF>, CircleWitnesses<F>), CircleTranscriptFailure>
where
    C: CanSample<F> + GrindingChallenger<F> + CanObserve<Com>,
    requires claims { widths_of (claims_of claims.now) ≡ claimed_widths (shape_of run.shape) }
    requires rounds { length messages.now.commitments.now ≡ run.shape.num_commit_rounds }
    requires count { length messages.now.final_poly.now ≡ 2 ^ run.shape.log_final_poly_len }
    ensures count { IfOk result (λ r.
        length r.1.rounds.items ≡ length messages.now.commitments.now) }
    ensures draws { IfOk result (λ r. IsDrawn run (taken_of claims.now messages.now r.1)
        challenger.old r.0 challenger.new) }
    ensures below { IfOk result (λ r. All (λ i. i < 2 ^ run.shape.index_bits) r.0.indices.items) }
    ensures easy_batch { IfOk result (λ r. run.shape.batch_pow_bits ≡ 0 → r.1.batch ≡ F.ops.zero) }
    ensures easy_rounds { IfOk result (λ r. run.shape.commit_pow_bits ≡ 0 →
        All (λ w. w ≡ F.ops.zero) r.1.rounds.items) }
    ensures easy_query { IfOk result (λ r. run.shape.query_pow_bits ≡ 0 → r.1.query ≡ F.ops.zero) }
    ensures failure { IfErr result
        (IsMemoryOr (FindsNone run claims.now messages.now challenger.old)) }
{
    let seeded = CircleProverTranscript::<C, F, EF, Com>::seeded(alloc, challenger, run.shape)?;
    let mut transcript = CircleProverTranscript::<C, F, EF, Com>::of_seeded(challenger, seeded);
    match grinding_run(alloc, &mut transcript, claims, messages) {
        Ok(draws) => {
            transcript.finish();
            Ok(draws)
        }
        Err(failure) => {
            transcript.abort();
            Err(failure)
        }
    }
}

/// Both sides of a run from equal states, the verifier's with the prover's witnesses: they draw
/// equal challenges and leave equal states, and no witness of the prover's fails to pass.
///
/// Requires what `prover_run` requires, and that the challengers' states are equal.
pub fn both_runs<F: Field, EF: ExtensionField<F>, C, Com>(
    alloc: Global,
    prover: &mut C,
    verifier: &mut C,
    run: CircleRun<C, F, EF, Com>,
    claims: &[OpeningClaim<EF>],
    messages: &CircleMessages<EF, Com>,
) -> Result<(CircleDraws<EF>, CircleDraws<EF>), CircleTranscriptFailure>
where
    C: CanSample<F> + GrindingChallenger<F> + CanObserve<Com>,
    requires equal { C.state prover.old ≡ C.state verifier.old }
    requires claims { widths_of (claims_of claims.now) ≡ claimed_widths (shape_of run.shape) }
    requires rounds { length messages.now.commitments.now ≡ run.shape.num_commit_rounds }
    requires count { length messages.now.final_poly.now ≡ 2 ^ run.shape.log_final_poly_len }
    ensures draws { IfOk result (λ r.
        IsDrawnWithSome run claims.now messages.now prover.old r.0 prover.new) }
    ensures redraws { IfOk result (λ r.
        IsDrawnWithSome run claims.now messages.now verifier.old r.1 verifier.new) }
    ensures alike { IfOk result (λ r. AreAlike run r.1 verifier.new r.0 prover.new) }
    ensures failure { IfErr result
        (IsMemoryOr (FindsNone run claims.now messages.now prover.old)) }
{
    let copy = CircleRun::new(run.shape.try_clone(alloc)?);
    let (drawn, witnesses) = prover_run(alloc, prover, copy, claims, messages)?;
    let redrawn = verifier_run(alloc, verifier, run.shape, claims, messages, &witnesses)?;
    Ok((drawn, redrawn))
}
