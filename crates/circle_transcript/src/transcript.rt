//! Both sides of a transcript.
ghost use Rattle.std.specs.Prelude.{◌≡◌, ◌<◌, ◌≤◌, ◌^◌, ◌↔◌, ◌⊎◌, [], length};
ghost use Rattle.std.specs.Prelude.{IsNone, IfOk, IfErr, OnOk, OnErr, IsOk, Err, Ok, Some, All};
ghost use Rattle.std.specs.Prelude.{unwrap_or};
ghost use Rattle.std.specs.Borrow.{sem, RestsIfErr};
ghost use Rattle.std.specs.Coded.{Coded-set};
ghost use Rattle.circle_challenger.specs.Due.{AreNext, HasPlayed};
ghost use Rattle.circle_challenger.specs.Moves.{after_bytes};
ghost use Rattle.circle_commit.specs.declared.params.PowPhase.TheVariants.{Batch, CommitPhase};
ghost use Rattle.circle_commit.specs.declared.params.PowPhase.TheVariants.{Query};
ghost use Rattle.circle_transcript.specs.Claims.{claims_of};
ghost use Rattle.circle_transcript.specs.Draw.{DrawsInRange};
ghost use Rattle.circle_transcript.specs.Shape.{steps_of, text_of, first_layer_steps, round_steps};
ghost use Rattle.circle_transcript.specs.ShapeOf.{shape_of};
ghost use Rattle.circle_transcript.specs.Numbers.{numbers_of, indices_steps};
ghost use Rattle.circle_transcript.specs.declared.failure.CircleTranscriptFailure.TheVariants.{Memory};

use crate::failure::CircleTranscriptFailure;
use crate::moves::TranscriptMoves;
use crate::shape::{
    BATCH_CHALLENGE, BATCH_POW, BIVARIATE_CHALLENGE, COMMIT_POW, COMMITMENT, CirclePcsShape,
    FIRST_LAYER_COMMITMENT, FOLD_CHALLENGE, QUERY_POW,
};
use circle_challenger::{
    CanObserve, CanSample, FieldChallenger, GrindingChallenger, ProverSide, StepsDue,
    TranscriptState, VerifierSide,
};
use circle_commit::PowPhase;
use circle_field::{ExtensionField, Field};
use circle_point::Point;
use std::alloc::{AllocError, Global};
use std::marker::PhantomData;

/// A claimed opening: a point of the circle, and the claimed values there.
pub type OpeningClaim<'a, EF> = (Point<EF>, &'a [EF]);

/// The numbers of a shape that the calls of a transcript read.
#[derive(Clone, Copy)]
pub(crate) struct Numbers {
    pub(crate) batch_pow_bits: usize,
    pub(crate) commit_pow_bits: usize,
    pub(crate) query_pow_bits: usize,
    pub(crate) num_queries: usize,
    pub(crate) index_bits: usize,
    pub(crate) log_final_poly_len: usize,
}

/// What a run begins with once its challenger is seeded: the steps that are due, and the numbers
/// that its calls read.
pub struct Seeded<C> {
    due: StepsDue<C>,
    shape: Numbers,
}

/// The transcript of one run: the challenger that it borrows, what its calls read of the shape that
/// the run was described by, and for contracts alone the steps that are still due and what the
/// challenger is to a run whose commitments are of the type `Com`.
///
/// `S` is the side that plays it. It has no `Drop`: it is spent by `finish` or `abort`. So a `?`
/// may not leave the function that owns one. Play it in a function that takes it by `&mut`, where
/// `?` is free; then `finish` it where that function succeeded and `abort` it where it failed; and
/// then `?` on the result, as `verifier_run` and `prover_run` do.
pub struct CircleTranscript<'a, C: TranscriptMoves<F, EF, Com>, F, EF, Com, S> {
    pub(crate) challenger: &'a mut C,
    pub(crate) due: StepsDue<C>,
    pub(crate) shape: Numbers,
    of: PhantomData<(F, EF, Com, S)>,
    ghost paused: { challenger.now ≡ due.challenger } by { Coded-set C.code _ _ },
    ghost in_range: { DrawsInRange C.run },
}

/// The transcript as the prover plays it.
pub type CircleProverTranscript<'a, C, F, EF, Com> = CircleTranscript<
    'a,
    C,
    F,
    EF,
    Com,
    ProverSide,
>;

/// The transcript as the verifier plays it.
pub type CircleVerifierTranscript<'a, C, F, EF, Com> = CircleTranscript<
    'a,
    C,
    F,
    EF,
    Com,
    VerifierSide,
>;

impl<
    'a,
    F: Field,
    EF: ExtensionField<F>,
    C: CanSample<F> + GrindingChallenger<F> + CanObserve<Com>,
    S,
    Com,
> CircleTranscript<'a, C, F, EF, Com, S> {
    ghost use Rattle.circle_transcript.specs.Transcript.{current, due, run_of, state_of, IsSame};
    ghost use Rattle.circle_transcript.specs.Transcript.{Borrows};
    ghost use Rattle.circle_transcript.specs.Transcript.{first_layer_from};

    /// Begins the transcript of a run of this shape: the challenger absorbs the seed's text. Where
    /// memory is refused it is left as it was.
    ///
    /// Requires `log_final_poly_len <= 63`.
    pub fn new(
        alloc: Global,
        challenger: &'a mut C,
        shape: CirclePcsShape,
    ) -> Result<Self, AllocError>
        requires final_poly { shape.log_final_poly_len ≤ 63 }
        ensures* refused { sem 𝓛 (RestsIfErr C.row challenger.entry
            (λ t. t.challenger.ghost_name) result (λ n. n ≡ challenger.old)) }
        ensures same_reference { IfOk result (λ t. Borrows t challenger.entry) }
        ensures shape { IfOk result (λ t. t.shape ≡ numbers_of (shape_of shape)) }
        ensures due { IfOk result (λ t. due t ≡ steps_of EF.DEGREE (shape_of shape)) }
        ensures state { IfOk result (λ t. state_of t ≡ after_bytes (run_of t).base
            (C.state challenger.old) (text_of EF.DEGREE (shape_of shape))) }
    {
        match Self::seeded(alloc, challenger, shape) {
            Ok(seeded) => Ok(Self::of_seeded(challenger, seeded)),
            Err(refused) => Err(refused),
        }
    }

    /// The transcript of a challenger that was [`seeded`](CircleTranscript::seeded) with this run:
    /// the second half of `new`.
    ///
    /// Requires that the challenger is as `seeded` left it: a run begins over no other.
    pub fn of_seeded(challenger: &'a mut C, seeded: Seeded<C>) -> Self
        requires paused { challenger.old ≡ seeded.due.challenger }
        ensures same_reference { Borrows result challenger.entry }
        ensures same { current result ≡ challenger.old }
        ensures due { due result ≡ seeded.due.steps }
        ensures shape { result.shape ≡ seeded.shape }
    {
        let Seeded { due, shape } = seeded;
        CircleTranscript {
            challenger,
            due,
            shape,
            of: PhantomData,
        }
    }

    /// Seeds a challenger with the text of a run of this shape, and returns what the run begins
    /// with. Where memory is refused the challenger is left as it was. The first half of `new`, for
    /// callers that borrow the challenger again where it fails.
    ///
    /// Requires `log_final_poly_len <= 63`.
    pub fn seeded(
        alloc: Global,
        challenger: &mut C,
        shape: CirclePcsShape,
    ) -> Result<Seeded<C>, AllocError>
        requires final_poly { shape.log_final_poly_len ≤ 63 }
        ensures refused { OnErr result (challenger.new ≡ challenger.old) }
        ensures due { IfOk result (λ s. s.due.steps ≡ steps_of EF.DEGREE (shape_of shape)) }
        ensures shape { IfOk result (λ s. s.shape ≡ numbers_of (shape_of shape)) }
        ensures state { let m = ⟦<C as FieldChallenger<F, EF>>⟧.moves in
            OnOk result (C.state challenger.new ≡ after_bytes m (C.state challenger.old)
            (text_of EF.DEGREE (shape_of shape))) }
        ensures kept { IfOk result (λ s. challenger.new ≡ s.due.challenger) }
    {
        let separator = shape.domain_separator::<F, EF>(alloc)?;
        Ok(Seeded {
            due: TranscriptState::<C, F, S>::new(challenger, &separator).pause(),
            shape: Numbers {
                batch_pow_bits: shape.batch_pow_bits,
                commit_pow_bits: shape.commit_pow_bits,
                query_pow_bits: shape.query_pow_bits,
                num_queries: shape.num_queries,
                index_bits: shape.index_bits,
                log_final_poly_len: shape.log_final_poly_len,
            },
        })
    }

    /// Absorbs the commitment to the first layer, and draws the challenge that folds that layer.
    ///
    /// Requires that these are the next steps.
    #[tactic(auto, unfolding(crate::specs::Shape::first_layer_steps))]
    pub fn first_layer(&mut self, commitment: &Com) -> EF
        requires next { AreNext (first_layer_steps EF.DEGREE) (due self.old) }
        ensures same { IsSame self.old self.new }
        ensures due { HasPlayed (first_layer_steps EF.DEGREE) (due self.old) (due self.new) }
        ensures played { (EF.coefficients result, state_of self.new)
            ≡ first_layer_from self.old commitment.now }
    {
        self.observe_commitment(FIRST_LAYER_COMMITMENT, commitment);
        self.challenge(BIVARIATE_CHALLENGE)
    }

    /// Ends the transcript and gives the challenger back.
    ///
    /// Requires that no step is due.
    pub fn finish(self)
        requires { due self ≡ [] }
        ensures { self.exit.0.now ≡ current self.entry }
    {
        self.abort();
    }

    /// Gives the transcript up, whatever steps are due, and the challenger back.
    pub fn abort(self)
        ensures { self.exit.0.now ≡ current self.entry }
    {
        let CircleTranscript {
            challenger: _,
            due: _,
            shape: _,
            of: _,
        } = self;
    }
}

impl<
    'a,
    F: Field,
    EF: ExtensionField<F>,
    C: CanSample<F> + GrindingChallenger<F> + CanObserve<Com>,
    Com,
> CircleTranscript<'a, C, F, EF, Com, ProverSide> {
    ghost use Rattle.circle_transcript.specs.Transcript.{due, state_of, IsSame, no_witness};
    ghost use Rattle.circle_transcript.specs.Transcript.{steps_of_batch, at_batch_pow, batch_found};
    ghost use Rattle.circle_transcript.specs.Transcript.{batch_from, at_commitment, commit_found};
    ghost use Rattle.circle_transcript.specs.Transcript.{commit_from, at_query_pow, query_found};
    ghost use Rattle.circle_transcript.specs.Transcript.{query_from};

    /// Absorbs the claims, by batch, matrix and point, looks for a witness where the proof of work
    /// has a difficulty, and draws the challenge that batches the claims. Fails with `NoWitness`
    /// exactly where no witness passes, and then only `abort` may follow.
    ///
    /// Requires that these are the next steps, so that the claims have the described numbers of
    /// values, and that the difficulty is at most 63.
    #[tactic(auto, unfolding(crate::specs::Shape::batch_steps))]
    pub fn batch_phase(
        &mut self,
        claims: &[OpeningClaim<EF>],
    ) -> Result<(EF, Option<F>), CircleTranscriptFailure>
        requires next { AreNext (steps_of_batch self.old (claims_of claims.now)) (due self.old) }
        requires small { self.old.shape.batch_pow_bits ≤ 63 }
        ensures same { IsSame self.old self.new }
        ensures due { OnOk result (HasPlayed (steps_of_batch self.old (claims_of claims.now))
            (due self.old) (due self.new)) }
        ensures needed { IfOk result (λ r. IsNone r.1 ↔ (self.old.shape.batch_pow_bits ≡ 0)) }
        ensures found { IfOk result (λ r. batch_found self.old (claims_of claims.now)
            ≡ Some (unwrap_or r.1 F.ops.zero)) }
        ensures played { IfOk result (λ r. batch_from self.old (claims_of claims.now)
            (unwrap_or r.1 F.ops.zero) ≡ Ok (EF.coefficients r.0, state_of self.new)) }
        ensures failure { IfErr result (λ e. e ≡ no_witness self.old Batch) }
        ensures none { OnErr result
            ((w : F) → batch_from self.old (claims_of claims.now) w ≡ Err Batch) }
        ensures unchanged { OnErr result
            (state_of self.new ≡ at_batch_pow self.old (claims_of claims.now)) }
    {
        let bits = self.shape.batch_pow_bits;
        self.observe_claims(claims);
        let witness = self.grind(BATCH_POW, PowPhase::Batch, bits)?;
        Ok((self.challenge(BATCH_CHALLENGE), witness))
    }

    /// Absorbs a round's commitment, looks for a witness where the proof of work has a difficulty,
    /// and draws the folding challenge. Fails with `NoWitness` exactly where no witness passes, and
    /// then only `abort` may follow.
    ///
    /// Requires that these are the next steps, and that the difficulty is at most 63.
    #[tactic(auto, unfolding(crate::specs::Shape::round_steps))]
    pub fn commit_round(
        &mut self,
        commitment: &Com,
    ) -> Result<(EF, Option<F>), CircleTranscriptFailure>
        requires next { AreNext (round_steps EF.DEGREE self.old.shape.commit_pow_bits)
            (due self.old) }
        requires small { self.old.shape.commit_pow_bits ≤ 63 }
        ensures same { IsSame self.old self.new }
        ensures due { OnOk result (HasPlayed (round_steps EF.DEGREE self.old.shape.commit_pow_bits)
            (due self.old) (due self.new)) }
        ensures needed { IfOk result (λ r. IsNone r.1 ↔ (self.old.shape.commit_pow_bits ≡ 0)) }
        ensures found { IfOk result (λ r.
            commit_found self.old commitment.now ≡ Some (unwrap_or r.1 F.ops.zero)) }
        ensures played { IfOk result (λ r. commit_from self.old commitment.now
            (unwrap_or r.1 F.ops.zero) ≡ Ok (EF.coefficients r.0, state_of self.new)) }
        ensures failure { IfErr result (λ e. e ≡ no_witness self.old CommitPhase) }
        ensures none { OnErr result
            ((w : F) → commit_from self.old commitment.now w ≡ Err CommitPhase) }
        ensures unchanged { OnErr result
            (state_of self.new ≡ at_commitment self.old commitment.now) }
    {
        let bits = self.shape.commit_pow_bits;
        self.observe_commitment(COMMITMENT, commitment);
        let witness = self.grind(COMMIT_POW, PowPhase::CommitPhase, bits)?;
        Ok((self.challenge(FOLD_CHALLENGE), witness))
    }

    /// Absorbs the coefficients of the final polynomial in order, looks for a witness where the
    /// proof of work has a difficulty, and draws the query indices. Fails with `NoWitness` exactly
    /// where no witness passes, and with `Memory` where memory is refused; then only `abort` may
    /// follow.
    ///
    /// Requires that these are the next steps, that the difficulty and the number of bits of an
    /// index are at most 63, and that there are as many coefficients as the shape says.
    #[tactic(auto, unfolding(crate::specs::Shape::query_steps))]
    pub fn query_phase(
        &mut self,
        alloc: Global,
        final_poly: &[EF],
    ) -> Result<(Vec<usize>, Option<F>), CircleTranscriptFailure>
        requires next { AreNext (indices_steps EF.DEGREE self.old.shape) (due self.old) }
        requires small { self.old.shape.query_pow_bits ≤ 63 }
        requires narrow { self.old.shape.index_bits ≤ 63 }
        requires count { length final_poly.now ≡ 2 ^ self.old.shape.log_final_poly_len }
        ensures same { IsSame self.old self.new }
        ensures due { OnOk result (HasPlayed (indices_steps EF.DEGREE self.old.shape) (due self.old)
            (due self.new)) }
        ensures needed { IfOk result (λ r. IsNone r.1 ↔ (self.old.shape.query_pow_bits ≡ 0)) }
        ensures found { IfOk result (λ r.
            query_found self.old final_poly.now ≡ Some (unwrap_or r.1 F.ops.zero)) }
        ensures played { IfOk result (λ r. query_from self.old final_poly.now
            (unwrap_or r.1 F.ops.zero) ≡ Ok (r.0.items, state_of self.new)) }
        ensures below { IfOk result (λ r. All (λ i. i < 2 ^ self.old.shape.index_bits) r.0.items) }
        ensures failure { IfErr result (λ e. (e ≡ Memory) ⊎ (e ≡ no_witness self.old Query)) }
        ensures none { result ≡ Err (no_witness self.old Query)
            → (w : F) → query_from self.old final_poly.now w ≡ Err Query }
        ensures unchanged { result ≡ Err (no_witness self.old Query)
            → state_of self.new ≡ at_query_pow self.old final_poly.now }
    {
        let shape = self.shape;
        self.observe_final_poly(final_poly);
        let witness = self.grind(QUERY_POW, PowPhase::Query, shape.query_pow_bits)?;
        let indices = self.draw_indices(alloc, shape.index_bits, shape.num_queries)?;
        Ok((indices, witness))
    }
}

impl<
    'a,
    F: Field,
    EF: ExtensionField<F>,
    C: CanSample<F> + GrindingChallenger<F> + CanObserve<Com>,
    Com,
> CircleTranscript<'a, C, F, EF, Com, VerifierSide> {
    ghost use Rattle.circle_transcript.specs.Transcript.{due, IsSame, outcome, or_bad_witness};
    ghost use Rattle.circle_transcript.specs.Transcript.{steps_of_batch, batch_from, commit_from};
    ghost use Rattle.circle_transcript.specs.Transcript.{query_from};

    /// Absorbs the claims, by batch, matrix and point, checks the witness where the proof of work
    /// has a difficulty, and draws the challenge that batches the claims. Fails with `PowWitness`
    /// exactly where the witness doesn't pass, and then only `abort` may follow.
    ///
    /// Requires that these are the next steps, so that the claims have the described numbers of
    /// values, and that the difficulty is at most 63.
    #[tactic(auto, unfolding(crate::specs::Shape::batch_steps))]
    pub fn batch_phase(
        &mut self,
        claims: &[OpeningClaim<EF>],
        witness: F,
    ) -> Result<EF, CircleTranscriptFailure>
        requires next { AreNext (steps_of_batch self.old (claims_of claims.now)) (due self.old) }
        requires small { self.old.shape.batch_pow_bits ≤ 63 }
        ensures same { IsSame self.old self.new }
        ensures due { OnOk result (HasPlayed (steps_of_batch self.old (claims_of claims.now))
            (due self.old) (due self.new)) }
        ensures played { outcome self.new EF.coefficients result ≡ or_bad_witness self.old.shape
            (batch_from self.old (claims_of claims.now) witness) }
    {
        let bits = self.shape.batch_pow_bits;
        self.observe_claims(claims);
        self.check(BATCH_POW, PowPhase::Batch, bits, witness)?;
        Ok(self.challenge(BATCH_CHALLENGE))
    }

    /// Absorbs a round's commitment, checks the witness where the proof of work has a difficulty,
    /// and draws the folding challenge. Fails with `PowWitness` exactly where the witness doesn't
    /// pass, and then only `abort` may follow.
    ///
    /// Requires that these are the next steps, and that the difficulty is at most 63.
    #[tactic(auto, unfolding(crate::specs::Shape::round_steps))]
    pub fn commit_round(
        &mut self,
        commitment: &Com,
        witness: F,
    ) -> Result<EF, CircleTranscriptFailure>
        requires next { AreNext (round_steps EF.DEGREE self.old.shape.commit_pow_bits)
            (due self.old) }
        requires small { self.old.shape.commit_pow_bits ≤ 63 }
        ensures same { IsSame self.old self.new }
        ensures due { OnOk result (HasPlayed (round_steps EF.DEGREE self.old.shape.commit_pow_bits)
            (due self.old) (due self.new)) }
        ensures played { outcome self.new EF.coefficients result
            ≡ or_bad_witness self.old.shape (commit_from self.old commitment.now witness) }
    {
        let bits = self.shape.commit_pow_bits;
        self.observe_commitment(COMMITMENT, commitment);
        self.check(COMMIT_POW, PowPhase::CommitPhase, bits, witness)?;
        Ok(self.challenge(FOLD_CHALLENGE))
    }

    /// Absorbs the coefficients of the final polynomial in order, checks the witness where the
    /// proof of work has a difficulty, and draws the query indices. Fails with `PowWitness` exactly
    /// where the witness doesn't pass, and with `Memory` where memory is refused; then only `abort`
    /// may follow.
    ///
    /// Requires that these are the next steps, that the difficulty and the number of bits of an
    /// index are at most 63, and that there are as many coefficients as the shape says.
    #[tactic(auto, unfolding(crate::specs::Shape::query_steps))]
    pub fn query_phase(
        &mut self,
        alloc: Global,
        final_poly: &[EF],
        witness: F,
    ) -> Result<Vec<usize>, CircleTranscriptFailure>
        requires next { AreNext (indices_steps EF.DEGREE self.old.shape) (due self.old) }
        requires small { self.old.shape.query_pow_bits ≤ 63 }
        requires narrow { self.old.shape.index_bits ≤ 63 }
        requires count { length final_poly.now ≡ 2 ^ self.old.shape.log_final_poly_len }
        ensures same { IsSame self.old self.new }
        ensures due { OnOk result (HasPlayed (indices_steps EF.DEGREE self.old.shape) (due self.old)
            (due self.new)) }
        ensures below { IfOk result (λ a. All (λ i. i < 2 ^ self.old.shape.index_bits) a.items) }
        ensures played { (result ≡ Err Memory) ⊎ (outcome self.new (λ a. a.items) result
            ≡ or_bad_witness self.old.shape (query_from self.old final_poly.now witness)) }
        ensures passed { result ≡ Err Memory → IsOk (query_from self.old final_poly.now witness) }
    {
        let shape = self.shape;
        self.observe_final_poly(final_poly);
        self.check(QUERY_POW, PowPhase::Query, shape.query_pow_bits, witness)?;
        Ok(self.draw_indices(alloc, shape.index_bits, shape.num_queries)?)
    }
}
