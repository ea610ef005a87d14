//! Steps that both sides of a transcript play.
ghost use Rattle.circle_transcript.specs.declared.failure.CircleTranscriptFailure.TheVariants.{NoWitness};
ghost use Rattle.circle_transcript.specs.declared.failure.CircleTranscriptFailure.TheVariants.{PowWitness};

use crate::failure::CircleTranscriptFailure;
use crate::shape::{FINAL_POLY, OPENED_VALUES, OPENING_POINT, QUERY_INDICES};
use crate::transcript::{CircleTranscript, OpeningClaim};
use circle_challenger::{
    CanObserve, CanSample, GrindingChallenger, ProverSide, ProverState, TranscriptState,
    VerifierSide, VerifierState,
};
use circle_commit::PowPhase;
use circle_field::{ExtensionField, Field};
use circle_point::Point;
use std::alloc::{AllocError, Global};

impl<
    'a,
    F: Field,
    EF: ExtensionField<F>,
    C: CanSample<F> + GrindingChallenger<F> + CanObserve<Com>,
    S,
    Com,
> CircleTranscript<'a, C, F, EF, Com, S> {
    ghost use Rattle.std.specs.Prelude.{◌≡◌, ◌<◌, ◌≤◌, ◌^◌, Some, slice_get, drop, length, [], ◌∷◌};
    ghost use Rattle.std.specs.Prelude.{flat_map, IfOk, OnOk, All};
    ghost use Rattle.circle_challenger.specs.Due.{AreNext, HasPlayed};
    ghost use Rattle.circle_challenger.specs.Played.{opaque_message, element_challenge};
    ghost use Rattle.circle_challenger.specs.Played.{numbers_challenge};
    ghost use Rattle.circle_point.specs.Point.{coordinates};
    ghost use Rattle.circle_transcript.specs.Claims.{claims_of};
    ghost use Rattle.circle_transcript.specs.Draw.{claim, widths_of};
    ghost use Rattle.circle_transcript.specs.Shape.{claim_steps, final_poly_step};
    ghost use Rattle.circle_transcript.specs.Transcript.{due, numbers, state_of, IsSame};
    ghost use Rattle.circle_transcript.specs.Transcript.{at_batch_pow, at_commitment, at_query_pow};
    ghost use Rattle.circle_transcript.specs.Transcript.{element_from, numbers_from};

    /// Absorbs a claim: the coordinates of its point, and its values.
    #[tactic(auto, unfolding(crate::specs::Shape::claim_steps))]
    pub(crate) fn observe_claim(&mut self, point: Point<EF>, values: &[EF])
        requires next { AreNext (claim_steps EF.DEGREE (length values.now)) (due self.old) }
        ensures same { IsSame self.old self.new }
        ensures due { HasPlayed (claim_steps EF.DEGREE (length values.now)) (due self.old)
            (due self.new) }
        ensures state { state_of self.new
            ≡ at_batch_pow self.old (claim (coordinates point) values.now ∷ []) }
    {
        let mut transcript = TranscriptState::<C, F, S>::resume(self.challenger, self.due.take());
        transcript.observe_extension_pair(OPENING_POINT, &point.x(), &point.y());
        transcript.observe_extensions(OPENED_VALUES, values);
        self.due = transcript.pause();
    }

    /// Absorbs claims, in order.
    pub(crate) fn observe_claims(&mut self, claims: &[OpeningClaim<EF>])
        requires next { AreNext
            (flat_map (claim_steps EF.DEGREE) (widths_of (claims_of claims.now))) (due self.old) }
        ensures same { IsSame self.old self.new }
        ensures due { HasPlayed (flat_map (claim_steps EF.DEGREE) (widths_of
            (claims_of claims.now))) (due self.old) (due self.new) }
        ensures state { state_of self.new ≡ at_batch_pow self.old (claims_of claims.now) }
    {
        for (point, values) in claims {
            self.observe_claim(*point, values);
        }
    }

    /// Absorbs a commitment.
    pub(crate) fn observe_commitment(&mut self, label: &str, commitment: &Com)
        requires next { slice_get (due self.old) 0 ≡ Some (opaque_message label.now) }
        ensures same { IsSame self.old self.new }
        ensures due { due self.new ≡ drop 1 (due self.old) }
        ensures state { state_of self.new ≡ at_commitment self.old commitment.now }
    {
        let mut transcript = TranscriptState::<C, F, S>::resume(self.challenger, self.due.take());
        transcript.observe_opaque(label, commitment);
        self.due = transcript.pause();
    }

    /// Absorbs the coefficients of the final polynomial in order, each by its own coefficients over
    /// the base field.
    ///
    /// Requires that this is the next step, and that there are as many as it says.
    pub(crate) fn observe_final_poly(&mut self, final_poly: &[EF])
        requires next { slice_get (due self.old) 0
            ≡ Some (final_poly_step EF.DEGREE (numbers self.old).log_final_poly_len) }
        requires count { length final_poly.now ≡ 2 ^ (numbers self.old).log_final_poly_len }
        ensures same { IsSame self.old self.new }
        ensures due { due self.new ≡ drop 1 (due self.old) }
        ensures state { state_of self.new ≡ at_query_pow self.old final_poly.now }
    {
        let mut transcript = TranscriptState::<C, F, S>::resume(self.challenger, self.due.take());
        if self.shape.log_final_poly_len == 0 {
            transcript.observe_extension(FINAL_POLY, &final_poly[0]);
            self.due = transcript.pause();
        } else {
            transcript.observe_extensions(FINAL_POLY, final_poly);
            self.due = transcript.pause();
        }
    }

    /// Draws a challenge.
    pub(crate) fn challenge(&mut self, label: &str) -> EF
        requires next { slice_get (due self.old) 0 ≡ Some (element_challenge EF.DEGREE label.now) }
        ensures same { IsSame self.old self.new }
        ensures due { due self.new ≡ drop 1 (due self.old) }
        ensures drawn { (EF.coefficients result, state_of self.new) ≡ element_from self.old }
    {
        let mut transcript = TranscriptState::<C, F, S>::resume(self.challenger, self.due.take());
        let challenge = transcript.challenge_extension(label);
        self.due = transcript.pause();
        challenge
    }

    /// Draws the query indices: `count` numbers of `width` bits. Fails where memory is refused.
    ///
    /// Requires that this is the next step, and that `width <= 63`.
    pub(crate) fn draw_indices(
        &mut self,
        alloc: Global,
        width: usize,
        count: usize,
    ) -> Result<Vec<usize>, AllocError>
        requires next { slice_get (due self.old) 0
            ≡ Some (numbers_challenge QUERY_INDICES.now width count) }
        requires narrow { width ≤ 63 }
        ensures same { IsSame self.old self.new }
        ensures due { OnOk result (due self.new ≡ drop 1 (due self.old)) }
        ensures below { IfOk result (λ v. All (λ i. i < 2 ^ width) v.items) }
        ensures drawn { IfOk result (λ v.
            (v.items, state_of self.new) ≡ numbers_from self.old width count) }
    {
        let mut transcript = TranscriptState::<C, F, S>::resume(self.challenger, self.due.take());
        let drawn = transcript.challenge_bits(alloc, QUERY_INDICES, width, count);
        self.due = transcript.pause();
        drawn
    }
}

impl<
    'a,
    F: Field,
    EF: ExtensionField<F>,
    C: CanSample<F> + GrindingChallenger<F> + CanObserve<Com>,
    Com,
> CircleTranscript<'a, C, F, EF, Com, ProverSide> {
    ghost use Rattle.std.specs.Prelude.{◌≡◌, ◌≤◌, ◌↔◌, Some, IfOk, IfErr, OnOk, OnErr, IsTrue, false};
    ghost use Rattle.std.specs.Prelude.{IsNone, unwrap_or};
    ghost use Rattle.circle_challenger.specs.Due.{AreNext, HasPlayed};
    ghost use Rattle.circle_transcript.specs.Shape.{pow_steps};
    ghost use Rattle.circle_transcript.specs.Transcript.{due, state_of, IsSame, witness_passes};
    ghost use Rattle.circle_transcript.specs.Transcript.{witness_found, after_witness};

    /// Looks for a witness and takes it in, where the proof of work has a difficulty.
    ///
    /// Requires that this is the next step, and that `bits <= 63`.
    pub(crate) fn grind(
        &mut self,
        label: &str,
        phase: PowPhase,
        bits: usize,
    ) -> Result<Option<F>, CircleTranscriptFailure>
        requires next { AreNext (pow_steps label.now bits) (due self.old) }
        requires small { bits ≤ 63 }
        ensures same { IsSame self.old self.new }
        ensures due { OnOk result (HasPlayed (pow_steps label.now bits) (due self.old)
            (due self.new)) }
        ensures needed { IfOk result (λ w. IsNone w ↔ (bits ≡ 0)) }
        ensures found { IfOk result (λ w.
            witness_found self.old bits ≡ Some (unwrap_or w F.ops.zero)) }
        ensures passes { IfOk result (λ w.
            IsTrue (witness_passes self.old bits (unwrap_or w F.ops.zero))) }
        ensures state { IfOk result (λ w.
            state_of self.new ≡ after_witness self.old bits (unwrap_or w F.ops.zero)) }
        ensures failure { IfErr result (λ e. e ≡ NoWitness phase bits) }
        ensures none { OnErr result ((w : F) → witness_passes self.old bits w ≡ false) }
        ensures unchanged { OnErr result (state_of self.new ≡ state_of self.old) }
    {
        if bits == 0 {
            return Ok(None);
        }
        let mut transcript = ProverState::<C, F>::resume(self.challenger, self.due.take());
        let found = transcript.observe_pow(label, bits);
        self.due = transcript.pause();
        match found {
            Some(witness) => Ok(Some(witness)),
            None => Err(CircleTranscriptFailure::NoWitness { phase, bits }),
        }
    }
}

impl<
    'a,
    F: Field,
    EF: ExtensionField<F>,
    C: CanSample<F> + GrindingChallenger<F> + CanObserve<Com>,
    Com,
> CircleTranscript<'a, C, F, EF, Com, VerifierSide> {
    ghost use Rattle.std.specs.Prelude.{◌≡◌, ◌≤◌, IfErr, OnOk, OnErr, IsTrue, false};
    ghost use Rattle.circle_challenger.specs.Due.{AreNext, HasPlayed};
    ghost use Rattle.circle_transcript.specs.Shape.{pow_steps};
    ghost use Rattle.circle_transcript.specs.Transcript.{due, state_of, IsSame, witness_passes};
    ghost use Rattle.circle_transcript.specs.Transcript.{after_witness};

    /// Absorbs a witness and checks it, where the proof of work has a difficulty.
    ///
    /// Requires that this is the next step, and that `bits <= 63`.
    pub(crate) fn check(
        &mut self,
        label: &str,
        phase: PowPhase,
        bits: usize,
        witness: F,
    ) -> Result<(), CircleTranscriptFailure>
        requires next { AreNext (pow_steps label.now bits) (due self.old) }
        requires small { bits ≤ 63 }
        ensures same { IsSame self.old self.new }
        ensures due { OnOk result (HasPlayed (pow_steps label.now bits) (due self.old)
            (due self.new)) }
        ensures passes { OnOk result (IsTrue (witness_passes self.old bits witness)) }
        ensures state { state_of self.new ≡ after_witness self.old bits witness }
        ensures failure { IfErr result (λ e. e ≡ PowWitness phase bits) }
        ensures missed { OnErr result (witness_passes self.old bits witness ≡ false) }
    {
        if bits == 0 {
            return Ok(());
        }
        let mut transcript = VerifierState::<C, F>::resume(self.challenger, self.due.take());
        let passed = transcript.observe_pow(label, bits, witness);
        self.due = transcript.pause();
        if passed {
            Ok(())
        } else {
            Err(CircleTranscriptFailure::PowWitness { phase, bits })
        }
    }
}
