//! The run of an opening, from its batching challenge to its query indices.
ghost use Rattle.std.specs.Prelude.{◌≡◌, ◌≤◌, ◌<◌, ◌-◌, ◌+◌, ◌^◌, [], All, Ok, length};
ghost use Rattle.std.specs.Prelude.{IfOk, IfErr, OnOk};
ghost use Rattle.circle_transcript.specs.Claims.{claims_of};
ghost use Rattle.circle_transcript.specs.Draw.{widths_of};
ghost use Rattle.circle_transcript.specs.Numbers.{indices_steps, numbers_of, run_steps};
ghost use Rattle.circle_transcript.specs.Runs.{ArePlayable, DrawsFrom};
ghost use Rattle.circle_transcript.specs.Shape.{claimed_widths};
ghost use Rattle.circle_transcript.specs.ShapeOf.{shape_of};
ghost use Rattle.circle_transcript.specs.Transcript.{due, numbers, run_of, IsSame};
ghost use Rattle.circle_prover.specs.OfFoldable.{AreMadeOf, IsOutcome, IsRunFailure};
ghost use Rattle.circle_prover.specs.OfFoldable.{round_count};
ghost use Rattle.circle_prover.specs.Folding.{AreRoundsOver, IsBegun, IsFoldFailure, IsFoldedLayer};
ghost use Rattle.circle_prover.specs.Folding.{folding_steps};
ghost use Rattle.circle_prover.specs.Words.{ArePlayed, taken_in};

use crate::first_layer::{FoldedLayer, final_coefficients, fold_first_layer};
use crate::foldable::FoldableMatrices;
use crate::heights::greatest_height;
use crate::rounds::Rounds;
use circle_challenger::{CanObserve, CanSample, GrindingChallenger, RunChallenger};
use circle_commit::Mmcs;
use circle_field::{ComplexExtendable, ExtensionField, Field};
use circle_relation::ProverError;
use circle_transcript::{
    CircleDraws, CirclePcsShape, CircleProverTranscript, CircleWitnesses, OpeningClaim,
};
use std::alloc::Global;

/// What an opening has committed to, with what was drawn and the witnesses that were found.
#[derive(Drop)]
pub struct CommittedWords<F, EF, Com, Data> {
    /// The binary logarithms of the heights, ascending.
    pub heights: Vec<usize>,
    /// The greatest of them.
    pub log_max_height: usize,
    /// What was drawn.
    pub draws: CircleDraws<EF>,
    /// The witnesses of the proofs of work, 0 where there is no difficulty.
    pub witnesses: CircleWitnesses<F>,
    /// For each height, from the least up, the multiple of the vanishing polynomial in its
    /// codeword.
    pub lambdas: Vec<EF>,
    /// The commitment to the first layer.
    pub first_commitment: Com,
    /// What the committer keeps of it.
    pub first_kept: Data,
    /// For each round the commitment to its codeword.
    pub commitments: Vec<Com>,
    /// For each round what the committer keeps of its codeword.
    pub kept: Vec<Data>,
    /// The coefficients of the polynomial whose values the last codeword is.
    pub final_poly: Vec<EF>,
}

impl<F: ComplexExtendable, EF: ExtensionField<F>, M: Mmcs<EF>> FoldableMatrices<'_, F, EF, M> {
    // Absorbs the claims, commits to the first layer, and folds it by the challenge drawn after it.
    // Returns it with the codeword that the rounds begin with.
    fn fold_layer<'b, C>(
        &self,
        alloc: Global,
        transcript: &mut CircleProverTranscript<'b, C, F, EF, M::Commitment>,
        claims: &[OpeningClaim<EF>],
    ) -> Result<(FoldedLayer<F, EF, M::Commitment, M::ProverData>, Vec<EF>), ProverError>
    where
        C: CanSample<F> + GrindingChallenger<F> + CanObserve<M::Commitment>,
        requires next { due transcript.old ≡ run_steps EF.DEGREE (widths_of (claims_of claims.now))
            (round_count self.now) (numbers transcript.old) }
        requires small { (numbers transcript.old).batch_pow_bits ≤ 63 }
        ensures same { IsSame transcript.old transcript.new }
        ensures due { OnOk result (due transcript.new
            ≡ folding_steps EF.DEGREE (round_count self.now) (numbers transcript.old)) }
        ensures easy { IfOk result (λ r.
            (numbers transcript.old).batch_pow_bits ≡ 0 → r.0.witness ≡ F.ops.zero) }
        ensures begun { IfOk result (λ r.
            IsBegun transcript.old transcript.new (claims_of claims.now) r.0) }
        ensures layer { IfOk result (λ r.
            IsFoldedLayer self.now M.commits M.matrices r.0 r.1.items) }
        ensures failure { IfErr result (IsRunFailure self.now (run_of transcript.old) M.commits
            claims.now transcript.old) }
    {
        let (alpha, batch) = transcript.batch_phase(claims)?;
        let layer = self.commit_first_layer(alloc, alpha)?;
        let bivariate = transcript.first_layer(&layer.commitment);
        let (tallest, joining) = fold_first_layer::<F, EF, M>(
            alloc,
            &self.params.mmcs,
            bivariate,
            &layer.heights,
            &layer.kept,
        )?;
        let folded = FoldedLayer {
            alpha,
            witness: batch.unwrap_or(F::ZERO),
            layer,
            bivariate,
            joining,
        };
        Ok((folded, tallest))
    }

    // Plays the rounds, the first of the tallest codeword, and finds the coefficients of the
    // polynomial whose values the last codeword is.
    fn fold_rounds<'b, C>(
        &self,
        alloc: Global,
        transcript: &mut CircleProverTranscript<'b, C, F, EF, M::Commitment>,
        first: &FoldedLayer<F, EF, M::Commitment, M::ProverData>,
        tallest: Vec<EF>,
    ) -> Result<(Rounds<F, EF, M::Commitment, M::ProverData>, Vec<EF>), ProverError>
    where
        C: CanSample<F> + GrindingChallenger<F> + CanObserve<M::Commitment>,
        requires next { due transcript.old
            ≡ folding_steps EF.DEGREE (round_count self.now) (numbers transcript.old) }
        requires small { (numbers transcript.old).commit_pow_bits ≤ 63 }
        requires layer { IsFoldedLayer self.now M.commits M.matrices first.now tallest.items }
        ensures same { IsSame transcript.old transcript.new }
        ensures due { OnOk result
            (due transcript.new ≡ indices_steps EF.DEGREE (numbers transcript.new)) }
        ensures easy { IfOk result (λ r. (numbers transcript.old).commit_pow_bits ≡ 0 →
            All (λ w. w ≡ F.ops.zero) r.0.witnesses.items) }
        ensures played { IfOk result (λ r. ArePlayed transcript.old transcript.new r.0) }
        ensures count { IfOk result (λ r.
            length r.1.items ≡ 2 ^ self.now.params.now.log_final_poly_len) }
        ensures rounds { IfOk result (λ r.
            AreRoundsOver self.now M.commits M.matrices first.now r.0 r.1.items) }
        ensures failure { IfErr result
            (IsFoldFailure self.now (run_of transcript.old) M.commits first.now transcript.old) }
    {
        let log_points = self.params.log_blowup + self.params.log_final_poly_len;
        let log_max_height = greatest_height(self.matrices);
        let (rounds, word) = self.play_rounds(
            alloc,
            transcript,
            log_max_height - 1 - log_points,
            log_max_height - 1,
            tallest,
            &first.layer.heights[..first.layer.heights.len() - 1],
            &first.joining,
        )?;
        let final_poly = final_coefficients::<F, EF>(
            alloc,
            &word,
            log_points,
            self.params.log_final_poly_len,
        )?;
        Ok((rounds, final_poly))
    }

    // Plays the run of a transcript that has just begun.
    fn play<'b, C>(
        &self,
        alloc: Global,
        transcript: &mut CircleProverTranscript<'b, C, F, EF, M::Commitment>,
        claims: &[OpeningClaim<EF>],
    ) -> Result<CommittedWords<F, EF, M::Commitment, M::ProverData>, ProverError>
    where
        C: CanSample<F> + GrindingChallenger<F> + CanObserve<M::Commitment>,
        requires next { due transcript.old ≡ run_steps EF.DEGREE (widths_of (claims_of claims.now))
            (round_count self.now) (numbers transcript.old) }
        requires small { ArePlayable (numbers transcript.old) }
        requires coefficients { (numbers transcript.old).log_final_poly_len
            ≡ self.now.params.now.log_final_poly_len }
        ensures same { IsSame transcript.old transcript.new }
        ensures due { OnOk result (due transcript.new ≡ []) }
        ensures below { IfOk result (λ w.
            All (λ i. i < 2 ^ (numbers transcript.old).index_bits) w.draws.indices.items) }
        ensures easy_batch { IfOk result (λ w.
            (numbers transcript.old).batch_pow_bits ≡ 0 → w.witnesses.batch ≡ F.ops.zero) }
        ensures easy_rounds { IfOk result (λ w. (numbers transcript.old).commit_pow_bits ≡ 0 →
            All (λ a. a ≡ F.ops.zero) w.witnesses.rounds.items) }
        ensures easy_query { IfOk result (λ w.
            (numbers transcript.old).query_pow_bits ≡ 0 → w.witnesses.query ≡ F.ops.zero) }
        ensures draws { IfOk result (λ w.
            DrawsFrom transcript.old (taken_in (claims_of claims.now) w) w.draws transcript.new) }
        ensures words { IfOk result (AreMadeOf self.now M.commits M.matrices) }
        ensures failure { IfErr result (IsRunFailure self.now (run_of transcript.old) M.commits
            claims.now transcript.old) }
    {
        let (first, tallest) = self.fold_layer(alloc, transcript, claims)?;
        let (rounds, final_poly) = self.fold_rounds(alloc, transcript, &first, tallest)?;
        let (indices, query) = transcript.query_phase(alloc, &final_poly)?;
        let FoldedLayer {
            alpha,
            witness,
            layer,
            bivariate,
            ..
        } = first;
        Ok(CommittedWords {
            heights: layer.heights,
            log_max_height: greatest_height(self.matrices),
            draws: CircleDraws {
                alpha,
                bivariate,
                betas: rounds.betas,
                indices,
            },
            witnesses: CircleWitnesses {
                batch: witness,
                rounds: rounds.witnesses,
                query: query.unwrap_or(F::ZERO),
            },
            lambdas: layer.lambdas,
            first_commitment: layer.commitment,
            first_kept: layer.kept,
            commitments: rounds.commitments,
            kept: rounds.kept,
            final_poly,
        })
    }

    /// Seeds the challenger with the shape of the run, absorbs the claims, makes the codewords of
    /// the matrices and commits to them, and draws the challenges. Refuses `NoGrindingWitness` of a
    /// phase where no witness passes, `LastWordNotConstant` where the last codeword is of too high
    /// degree, and `Memory` where memory is refused.
    ///
    /// Requires claims of the described numbers of values, the shape's rounds to be those of the
    /// matrices' greatest height and the parameters, difficulties and a number of bits of an index
    /// of at most 63.
    pub(crate) fn open<C>(
        &self,
        alloc: Global,
        challenger: &mut C,
        shape: CirclePcsShape,
        claims: &[OpeningClaim<EF>],
    ) -> Result<CommittedWords<F, EF, M::Commitment, M::ProverData>, ProverError>
    where
        C: CanSample<F> + GrindingChallenger<F> + CanObserve<M::Commitment>,
        requires claims { widths_of (claims_of claims.now) ≡ claimed_widths (shape_of shape) }
        requires rounds { shape.num_commit_rounds ≡ round_count self.now }
        requires coefficients { shape.log_final_poly_len ≡ self.now.params.now.log_final_poly_len }
        requires small { ArePlayable (numbers_of (shape_of shape)) }
        ensures below { IfOk result (λ w.
            All (λ i. i < 2 ^ shape.index_bits) w.draws.indices.items) }
        ensures easy_batch { IfOk result (λ w.
            shape.batch_pow_bits ≡ 0 → w.witnesses.batch ≡ F.ops.zero) }
        ensures easy_rounds { IfOk result (λ w. shape.commit_pow_bits ≡ 0 →
            All (λ a. a ≡ F.ops.zero) w.witnesses.rounds.items) }
        ensures easy_query { IfOk result (λ w.
            shape.query_pow_bits ≡ 0 → w.witnesses.query ≡ F.ops.zero) }
        ensures words { IfOk result (AreMadeOf self.now M.commits M.matrices) }
        ensures outcome { IsOutcome self.now ⟦<C as RunChallenger<F, EF, M::Commitment>>⟧.run
            M.commits claims.now shape challenger.old result challenger.new }
    {
        let seeded = CircleProverTranscript::<C, F, EF, M::Commitment>::seeded(
            alloc, challenger, shape,
        )?;
        let mut transcript = CircleProverTranscript::<C, F, EF, M::Commitment>::of_seeded(
            challenger, seeded,
        );
        match self.play(alloc, &mut transcript, claims) {
            Ok(words) => {
                transcript.finish();
                Ok(words)
            }
            Err(failure) => {
                transcript.abort();
                Err(failure)
            }
        }
    }
}
