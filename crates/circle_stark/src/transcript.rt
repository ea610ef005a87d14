//! The transcript of a STARK before that of the scheme.
ghost use Rattle.std.specs.Prelude.{◌≡◌, [], ◌++◌, IfOk, OnErr, OnOk, length};
ghost use Rattle.circle_challenger.specs.Due.{AreNext, HasPlayed};
ghost use Rattle.circle_challenger.specs.Interaction.{step_of};
ghost use Rattle.circle_challenger.specs.Played.{element_challenge, opaque_message};
ghost use Rattle.circle_challenger.specs.Observing.{after_all};
ghost use Rattle.circle_challenger.specs.TranscriptState.{SameChallenger, current, due};
ghost use Rattle.circle_stark.specs.Draw.{after_challenge, challenge_after};
ghost use Rattle.circle_stark.specs.OfProvable.{begun, own_of};
ghost use Rattle.circle_stark.specs.Statement.{described_by, statement_of};
ghost use Rattle.circle_stark.specs.Steps.{public_steps, quotient_steps, separator_of, steps_of};

use crate::proof::StarkStatement;
use crate::provable::ProvableOver;
use circle_challenger::{
    CanObserve, CanSample, DomainSeparator, GrindingChallenger, Hierarchy, Interaction,
    InteractionPattern, Kind, Length, StepsDue, VerifierState,
};
use circle_commit::Mmcs;
use circle_field::{ComplexExtendable, ElementBytes, ExtensionField, Field};
use circle_transcript::TranscriptMoves;
use std::alloc::{AllocError, Global};
use std::marker::PhantomData;

/// The version that the seed names.
const VERSION: u8 = 1;

/// The protocol's name in the seed.
const NAME: &str = "circle-stark";

/// The step of the public values.
const PUBLIC_VALUES: &str = "public_values";

/// The commitment to the trace.
const TRACE_COMMITMENT: &str = "trace_commitment";

/// The challenge that puts the constraints together.
const CONSTRAINT_CHALLENGE: &str = "constraint_challenge";

/// The commitment to the quotient's chunks.
const QUOTIENT_COMMITMENT: &str = "quotient_commitment";

/// The coordinate of the point at which all is opened.
const OUT_OF_DOMAIN_POINT: &str = "out_of_domain_point";

/// A run whose first challenge is drawn, until the quotient is committed to.
#[derive(Drop)]
pub(crate) struct PausedRun<C: TranscriptMoves<F, EF, Com>, F, EF, Com> {
    /// The challenge that puts the constraints together.
    pub alpha: EF,
    /// The steps that are left, over the challenger as it was left.
    pub due: StepsDue<C>,
    of: PhantomData<(F, Com)>,
    /// The steps are those of the quotient.
    pub ghost steps: { due.steps ≡ quotient_steps C.run.base.degree },
}

// A step that absorbs a commitment.
fn commitment(label: &'static str) -> Interaction
    ensures { step_of result ≡ opaque_message label.now }
{
    Interaction::opaque(Hierarchy::Atomic, Kind::Message, label, Length::Scalar)
}

// A step that draws an element of the extension.
fn challenge<F: Field, EF: ExtensionField<F>>(label: &'static str) -> Interaction
    ensures { step_of result ≡ element_challenge EF.DEGREE label.now }
{
    Interaction::algebra(
        Hierarchy::Atomic,
        Kind::Challenge,
        label,
        EF::DEGREE,
        Length::Scalar,
    )
}

// The steps of a run with this number of public values.
fn pattern<F: Field, EF: ExtensionField<F>>(
    alloc: Global,
    num_public_values: usize,
) -> Result<InteractionPattern, AllocError>
    ensures { IfOk result (λ p. p ≡ steps_of EF.DEGREE num_public_values) }
{
    let mut steps = Vec::with_capacity(alloc, 5)?;
    if num_public_values > 0 {
        steps.push(Interaction::algebra(
            Hierarchy::Atomic,
            Kind::Message,
            PUBLIC_VALUES,
            1,
            Length::Fixed(num_public_values),
        ))?;
    }
    steps.push(commitment(TRACE_COMMITMENT))?;
    steps.push(challenge::<F, EF>(CONSTRAINT_CHALLENGE))?;
    steps.push(commitment(QUOTIENT_COMMITMENT))?;
    steps.push(challenge::<F, EF>(OUT_OF_DOMAIN_POINT))?;
    Ok(InteractionPattern::new(steps))
}

// Absorbs the public values, where there are any.
fn observe_public_values<F: Field, C: CanSample<F> + GrindingChallenger<F>>(
    transcript: &mut VerifierState<'_, C, F>,
    values: &[F],
)
    requires next { AreNext (public_steps (length values.now)) (due transcript.old) }
    ensures same_reference { SameChallenger transcript.old transcript.new }
    ensures due { HasPlayed (public_steps (length values.now)) (due transcript.old)
        (due transcript.new) }
    ensures state { C.state (current transcript.new)
        ≡ after_all C.after_observe (C.state (current transcript.old)) values.now }
{
    if values.len() > 0 {
        transcript.observe_extensions(PUBLIC_VALUES, values);
    }
}

// What the run of a statement is seeded with.
#[tactic(auto, unfolding(circle_challenger::specs::Step::be64))]
fn domain_separator<Val: ComplexExtendable + ElementBytes, EF: ExtensionField<Val>>(
    alloc: Global,
    statement: &StarkStatement<Val>,
) -> Result<DomainSeparator, AllocError>
    ensures { let d = described_by Val.bytes Val.BYTES (statement_of statement.now) in IfOk result
        (λ s. s ≡ separator_of EF.DEGREE (length d.public_values) d.digest d.log_n) }
{
    let pattern = pattern::<Val, EF>(alloc, statement.public_values.len())?;
    let separator = DomainSeparator::new(alloc, VERSION, NAME, pattern)?;
    let digest = statement.air.digest();
    let separator = separator.instance(alloc, &digest)?;
    separator.instance(alloc, &(statement.log_n as u64).to_be_bytes())
}

/// Begins the run of a statement: seeds the challenger, absorbs the public values and the trace's
/// commitment, and draws the challenge that puts the constraints together. Where memory is refused
/// the challenger is left as it was.
pub(crate) fn constraint_challenge<Val, EF, InputMmcs, FriMmcs, C>(
    alloc: Global,
    provable: &ProvableOver<'_, Val, EF, InputMmcs, FriMmcs, C>,
    challenger: &mut C,
    trace: &InputMmcs::Commitment,
) -> Result<PausedRun<C, Val, EF, InputMmcs::Commitment>, AllocError>
where
    Val: ComplexExtendable + ElementBytes,
    EF: ExtensionField<Val>,
    InputMmcs: Mmcs<Val>,
    FriMmcs: Mmcs<EF>,
    C: CanSample<Val>
        + GrindingChallenger<Val>
        + CanObserve<InputMmcs::Commitment>
        + CanObserve<FriMmcs::Commitment>,
    ensures refused { OnErr result (challenger.new ≡ challenger.old) }
    ensures alpha { IfOk result (λ run. EF.coefficients run.alpha
        ≡ challenge_after (own_of provable.now) (begun provable.now challenger.old) trace.now) }
    ensures state { OnOk result (C.state challenger.new
        ≡ after_challenge (own_of provable.now) (begun provable.now challenger.old) trace.now) }
    ensures kept { IfOk result (λ run. run.due.challenger ≡ challenger.new) }
{
    let statement = provable.statement;
    let separator = domain_separator::<Val, EF>(alloc, &statement)?;
    let mut transcript = VerifierState::<C, Val>::new(challenger, &separator);
    observe_public_values(&mut transcript, statement.public_values);
    transcript.observe_opaque(TRACE_COMMITMENT, trace);
    let alpha = transcript.challenge_extension(CONSTRAINT_CHALLENGE);
    let due = transcript.pause();
    Ok(PausedRun {
        alpha,
        due,
        of: PhantomData,
    })
}

impl<F: Field, EF: ExtensionField<F>, Com, C> PausedRun<C, F, EF, Com>
where
    C: CanSample<F> + GrindingChallenger<F> + CanObserve<Com>,
{
    ghost use Rattle.circle_stark.specs.OfPaused.{moves_of};

    /// Ends the run: absorbs the commitment to the quotient's chunks, and draws the coordinate of
    /// the point at which all is opened.
    ///
    /// Requires the challenger as it was left when the run was paused.
    pub fn out_of_domain_point(self, challenger: &mut C, quotient: &Com) -> EF
        requires paused { challenger.old ≡ self.due.challenger }
        ensures zeta { EF.coefficients result
            ≡ challenge_after (moves_of self) (C.state challenger.old) quotient.now }
        ensures state { C.state challenger.new
            ≡ after_challenge (moves_of self) (C.state challenger.old) quotient.now }
    {
        let mut transcript = VerifierState::<C, F>::resume(challenger, self.due);
        transcript.observe_opaque(QUOTIENT_COMMITMENT, quotient);
        let zeta = transcript.challenge_extension(OUT_OF_DOMAIN_POINT);
        transcript.finish();
        zeta
    }
}
