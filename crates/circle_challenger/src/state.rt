//! The drivers: a transcript that is played step by step, as it was described.
ghost use Rattle.std.specs.Prelude.{◌≡◌, ◌+◌, ◌≤◌, ◌<◌, ◌^◌, [], ◌∷◌, map, flat_map, length, drop};
ghost use Rattle.std.specs.Prelude.{slice_get, Some, All, IfOk, OnOk, IfSome, IfNone, IsTrue};
ghost use Rattle.std.specs.Prelude.{false};
ghost use Rattle.circle_field.specs.Field.{of_nat};
ghost use Rattle.circle_challenger.specs.Grinding.{passes, after_check};
ghost use Rattle.circle_challenger.specs.Observing.{after_all};
ghost use Rattle.circle_challenger.specs.Sampling.{samples, after_samples};
ghost use Rattle.circle_challenger.specs.Separator.{seed_text};
ghost use Rattle.circle_challenger.specs.Played.{element_message, elements_message, opaque_message};
ghost use Rattle.circle_challenger.specs.Played.{pow_step, element_challenge, numbers_challenge};
ghost use Rattle.circle_challenger.specs.TranscriptState.{Borrows, current, due, SameChallenger};

use crate::challenger::{
    CanObserve, CanSample, CanSampleBits, FieldChallenger, GrindingChallenger,
};
use crate::domain_separator::DomainSeparator;
use crate::due::StepsDue;
use circle_field::{ExtensionField, Field};
use std::alloc::{AllocError, Global};
use std::marker::PhantomData;

/// A transcript that is played: the challenger that it borrows, and for contracts alone the steps
/// that are still due.
///
/// `S` is the side that plays it. It has no `Drop`: it is spent by `finish` or `abort`, or handed
/// on by `pause`. So a `?` may not leave the function that owns one. Play it in a function that
/// takes it by `&mut`, where `?` is free; then `finish` it where that function succeeded and
/// `abort` it where it failed; and then `?` on the result.
pub struct TranscriptState<'a, C, F, S> {
    challenger: &'a mut C,
    due: StepsDue<C>,
    of: PhantomData<(F, S)>,
}

/// The side that proves.
pub struct ProverSide;

/// The side that verifies.
pub struct VerifierSide;

/// The transcript as the prover plays it.
pub type ProverState<'a, C, F> = TranscriptState<'a, C, F, ProverSide>;

/// The transcript as the verifier plays it.
pub type VerifierState<'a, C, F> = TranscriptState<'a, C, F, VerifierSide>;

impl<'a, F: Field, C: CanSample<F> + GrindingChallenger<F>, S> TranscriptState<'a, C, F, S> {
    /// Begins the described transcript: the challenger absorbs the seed's text, each byte as an
    /// element of the base field.
    pub fn new(challenger: &'a mut C, separator: &DomainSeparator) -> Self
        ensures same_reference { Borrows result challenger.entry }
        ensures due { due result ≡ separator.now.steps }
        ensures state { C.state (current result) ≡ after_all C.after_observe
            (C.state challenger.old) (map (of_nat F.ops) (seed_text separator.now)) }
    {
        separator.seed::<F, C>(challenger);
        let due = StepsDue::of(separator, challenger);
        TranscriptState {
            challenger,
            due,
            of: PhantomData,
        }
    }

    /// Resumes a transcript that was paused. So a caller's own type can keep the challenger and the
    /// steps that are due, and have the transcript at hand while it plays some: it takes the steps
    /// out, and `pause` returns those that are left.
    ///
    /// Requires that the challenger is as `pause` left it: the steps go on over no other.
    pub fn resume(challenger: &'a mut C, kept: StepsDue<C>) -> Self
        requires paused { challenger.old ≡ kept.challenger }
        ensures same_reference { Borrows result challenger.entry }
        ensures due { due result ≡ kept.steps }
        ensures challenger { current result ≡ challenger.old }
    {
        TranscriptState {
            challenger,
            due: kept,
            of: PhantomData,
        }
    }

    /// Pauses the transcript: gives the challenger back, and returns the steps that are still due,
    /// over the challenger as it is now.
    pub fn pause(self) -> StepsDue<C>
        ensures due { result.steps ≡ due self.entry }
        ensures kept { result.challenger ≡ current self.entry }
        ensures challenger { self.exit.0.now ≡ current self.entry }
    {
        let kept = self.kept();
        self.abort();
        kept
    }

    /// The steps that are still due, over the challenger as it is now.
    fn kept(&self) -> StepsDue<C>
        ensures due { result.steps ≡ due self.now }
        ensures challenger { result.challenger ≡ current self.now }
    {
        self.due.over(self.challenger)
    }

    /// Absorbs one element of the extension, its coefficients in order.
    ///
    /// Requires that this is the next step.
    pub fn observe_extension<EF: ExtensionField<F>>(&mut self, label: &str, value: &EF)
        requires next { slice_get (due self.old) 0 ≡ Some (element_message EF.DEGREE label.now) }
        ensures same_reference { SameChallenger self.old self.new }
        ensures due { due self.new ≡ drop 1 (due self.old) }
        ensures state { C.state (current self.new) ≡ after_all C.after_observe
            (C.state (current self.old)) (EF.coefficients value.now) }
    {
        self.challenger.observe_algebra_element(value);
        self.due = self.due.after_first();
    }

    /// Absorbs elements of the extension in order, the coefficients of each in order.
    ///
    /// Requires that this is the next step.
    pub fn observe_extensions<EF: ExtensionField<F>>(&mut self, label: &str, values: &[EF])
        requires next { slice_get (due self.old) 0 ≡ Some (elements_message EF.DEGREE label.now
            (length values.now)) }
        ensures same_reference { SameChallenger self.old self.new }
        ensures due { due self.new ≡ drop 1 (due self.old) }
        ensures state { C.state (current self.new) ≡ after_all C.after_observe
            (C.state (current self.old)) (flat_map EF.coefficients values.now) }
    {
        self.challenger.observe_algebra_slice(values);
        self.due = self.due.after_first();
    }

    /// Absorbs two elements of the extension, the coefficients of each in order.
    ///
    /// Requires that this is the next step.
    pub fn observe_extension_pair<EF: ExtensionField<F>>(
        &mut self,
        label: &str,
        first: &EF,
        second: &EF,
    )
        requires next { slice_get (due self.old) 0 ≡ Some (elements_message EF.DEGREE label.now 2) }
        ensures same_reference { SameChallenger self.old self.new }
        ensures due { due self.new ≡ drop 1 (due self.old) }
        ensures state { C.state (current self.new) ≡ after_all C.after_observe
            (C.state (current self.old)) (flat_map EF.coefficients (first.now ∷ second.now ∷ [])) }
    {
        self.challenger.observe_algebra_element(first);
        self.challenger.observe_algebra_element(second);
        self.due = self.due.after_first();
    }

    /// Absorbs a value as it is.
    ///
    /// Requires that this is the next step.
    pub fn observe_opaque<Com>(&mut self, label: &str, value: &Com)
    where
        C: CanObserve<Com>,
        requires next { slice_get (due self.old) 0 ≡ Some (opaque_message label.now) }
        ensures same_reference { SameChallenger self.old self.new }
        ensures due { due self.new ≡ drop 1 (due self.old) }
        ensures state { C.state (current self.new) ≡ ⟦<C as CanObserve<Com>>⟧.after_observe
            (C.state (current self.old)) value.now }
    {
        self.challenger.observe(value);
        self.due = self.due.after_first();
    }

    /// Draws an element of the extension, its coefficients in order.
    ///
    /// Requires that this is the next step.
    pub fn challenge_extension<EF: ExtensionField<F>>(&mut self, label: &str) -> EF
        requires next { slice_get (due self.old) 0 ≡ Some (element_challenge EF.DEGREE label.now) }
        ensures same_reference { SameChallenger self.old self.new }
        ensures due { due self.new ≡ drop 1 (due self.old) }
        ensures value { EF.coefficients result ≡ samples C.sampled C.after_sample EF.DEGREE
            (C.state (current self.old)) }
        ensures state { C.state (current self.new) ≡ after_samples C.after_sample EF.DEGREE
            (C.state (current self.old)) }
    {
        let value = self.challenger.sample_algebra_element();
        self.due = self.due.after_first();
        value
    }

    /// Draws `count` numbers of `width` bits. Fails where memory is refused, and then only `abort`
    /// may follow.
    ///
    /// Requires that this is the next step, and that `width <= 63`.
    pub fn challenge_bits(
        &mut self,
        alloc: Global,
        label: &str,
        width: usize,
        count: usize,
    ) -> Result<Vec<usize>, AllocError>
        requires next { slice_get (due self.old) 0 ≡ Some
            (numbers_challenge label.now width count) }
        requires small { width ≤ 63 }
        ensures same_reference { SameChallenger self.old self.new }
        ensures due { OnOk result (due self.new ≡ drop 1 (due self.old)) }
        ensures values { IfOk result (λ v. v.items ≡ samples (λ s. C.sampled_bits s width)
            (λ s. C.after_bits s width) count (C.state (current self.old))) }
        ensures below { IfOk result (λ v. All (λ i. i < 2 ^ width) v.items) }
        ensures state { OnOk result (C.state (current self.new) ≡ after_samples
            (λ s. C.after_bits s width) count (C.state (current self.old))) }
    {
        let numbers = sample_numbers(alloc, self.challenger, width, count)?;
        self.due = self.due.after_first();
        Ok(numbers)
    }

    /// Ends the transcript and gives the challenger back.
    ///
    /// Requires that no step is due.
    pub fn finish(self)
        requires { due self ≡ [] }
        ensures { self.exit.0.now ≡ current self.entry }
    {
        self.abort();
    }

    /// Gives the transcript up, whatever steps are due, and the challenger back.
    pub fn abort(self)
        ensures { self.exit.0.now ≡ current self.entry }
    {
        let TranscriptState {
            challenger: _,
            due: _,
            of: _,
        } = self;
    }
}

impl<'a, F: Field, C: CanSample<F> + GrindingChallenger<F>> TranscriptState<'a, C, F, ProverSide> {
    /// Looks for a witness at a difficulty of `bits` bits and takes it in. `None` where none
    /// passes, and then only `abort` may follow.
    ///
    /// Requires that this is the next step, and that `bits <= 63`.
    pub fn observe_pow(&mut self, label: &str, bits: usize) -> Option<F>
        requires next { slice_get (due self.old) 0 ≡ Some (pow_step label.now bits) }
        requires small { bits ≤ 63 }
        ensures same_reference { SameChallenger self.old self.new }
        ensures due { due self.new ≡ drop 1 (due self.old) }
        ensures answer { result ≡ C.found_witness (C.state (current self.old)) bits }
        ensures passes { IfSome result (λ w. IsTrue (passes C.after_observe C.sampled_bits
            (C.state (current self.old)) bits w)) }
        ensures state { IfSome result (λ w. C.state (current self.new) ≡ after_check C.after_observe
            C.after_bits (C.state (current self.old)) bits w) }
        ensures none { IfNone result ((w : F) → passes C.after_observe C.sampled_bits
            (C.state (current self.old)) bits w ≡ false) }
        ensures unchanged { IfNone result
            (C.state (current self.new) ≡ C.state (current self.old)) }
    {
        self.due = self.due.after_first();
        self.challenger.grind(bits)
    }
}

impl<'a, F: Field, C: CanSample<F> + GrindingChallenger<F>> TranscriptState<
    'a,
    C,
    F,
    VerifierSide,
> {
    /// Absorbs a witness, and returns whether it passes at a difficulty of `bits` bits. Where it
    /// doesn't only `abort` may follow.
    ///
    /// Requires that this is the next step, and that `bits <= 63`.
    pub fn observe_pow(&mut self, label: &str, bits: usize, witness: F) -> bool
        requires next { slice_get (due self.old) 0 ≡ Some (pow_step label.now bits) }
        requires small { bits ≤ 63 }
        ensures same_reference { SameChallenger self.old self.new }
        ensures due { due self.new ≡ drop 1 (due self.old) }
        ensures answer { result ≡ passes C.after_observe C.sampled_bits (C.state (current self.old))
            bits witness }
        ensures state { C.state (current self.new) ≡ after_check C.after_observe C.after_bits
            (C.state (current self.old)) bits witness }
    {
        self.due = self.due.after_first();
        self.challenger.check_witness(bits, witness)
    }
}

/// The challenger's next `count` numbers of `width` bits.
fn sample_numbers<C: CanSampleBits>(
    alloc: Global,
    challenger: &mut C,
    width: usize,
    count: usize,
) -> Result<Vec<usize>, AllocError>
    requires { width ≤ 63 }
    ensures values { IfOk result (λ v. v.items ≡ samples (λ s. C.sampled_bits s width)
        (λ s. C.after_bits s width) count (C.state challenger.old)) }
    ensures below { IfOk result (λ v. All (λ i. i < 2 ^ width) v.items) }
    ensures state { OnOk result (C.state challenger.new ≡ after_samples (λ s. C.after_bits s width)
        count (C.state challenger.old)) }
{
    let mut numbers = Vec::with_capacity(alloc, count)?;
    for _i in 0..count {
        numbers.push(challenger.sample_bits(width))?;
    }
    Ok(numbers)
}
