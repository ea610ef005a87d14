//! The calls of transcripts that allocate nothing, of the challenger's crate and of the scheme's.
ghost use Rattle.std.specs.Prelude.{◌≡◌, [], ◌∷◌, IfOk, OnOk, ◌≤◌};
ghost use Rattle.circle_challenger.specs.Played.{elements_message, element_message, opaque_message};
ghost use Rattle.circle_challenger.specs.Played.{pow_step, element_challenge};
ghost use Rattle.circle_challenger.specs.TranscriptState.{due, SameChallenger};
ghost use Rattle.circle_transcript.specs.Numbers.{indices_steps};
ghost use Rattle.circle_transcript.specs.Transcript.{due as due_of, numbers};
ghost use Rattle.test_allocations.specs.Run.{IsRun};

use crate::plane::cubic;
use crate::told::{Stage, Told, digest, low_bits, told_numbers, unfit};
use crate::transcript::shape;
use anyhow::Result;
use circle_challenger::{
    CanSample, DomainSeparator, Hierarchy, Interaction, InteractionPattern, Kind, Length,
    ProverState, Sha256Challenger, TranscriptState, VerifierState,
};
use circle_commit::PowPhase;
use circle_field::{Cubic, Field, Mersenne31};
use p3_circle::{
    CircleProverTranscript, CircleTranscriptFailure, CircleVerifierTranscript, Neutral, Point,
};
use std::alloc::{AllocError, Global};

const POINT: &str = "point";

const POW: &str = "pow";

const ALPHA: &str = "challenge";

const COMMITMENT: &str = "commitment";

const FINAL: &str = "final";

const INDICES: &str = "indices";

type Prover<'a> = CircleProverTranscript<'a, Sha256Challenger, Mersenne31, Cubic, [u8; 32]>;

type Verifier<'a> = CircleVerifierTranscript<'a, Sha256Challenger, Mersenne31, Cubic, [u8; 32]>;

// The separator of a run with a proof of work of 8 bits.
fn separator(alloc: Global) -> Result<DomainSeparator, AllocError>
    ensures { IfOk result (λ s. s.steps ≡ elements_message 3 POINT.now 2 ∷ pow_step POW.now 8
        ∷ element_challenge 3 ALPHA.now ∷ opaque_message COMMITMENT.now
        ∷ element_message 3 FINAL.now ∷ elements_message 3 POINT.now 2 ∷ []) }
{
    let pair = Interaction::algebra(Hierarchy::Atomic, Kind::Message, POINT, 3, Length::Fixed(2));
    let steps = vec![in alloc;
        pair,
        Interaction::algebra(Hierarchy::Atomic, Kind::Pow, POW, 1, Length::Fixed(8)),
        Interaction::algebra(Hierarchy::Atomic, Kind::Challenge, ALPHA, 3, Length::Scalar),
        Interaction::opaque(Hierarchy::Atomic, Kind::Message, COMMITMENT, Length::Scalar),
        Interaction::algebra(Hierarchy::Atomic, Kind::Message, FINAL, 3, Length::Scalar),
        pair,
    ]?;
    DomainSeparator::new(alloc, 1, "a run", InteractionPattern::new(steps))
}

// Plays what follows the proof of work.
fn play_others<S>(transcript: &mut TranscriptState<Sha256Challenger, Mersenne31, S>) -> Cubic
    requires { due transcript.old ≡ element_challenge 3 ALPHA.now ∷ opaque_message COMMITMENT.now
        ∷ element_message 3 FINAL.now ∷ elements_message 3 POINT.now 2 ∷ [] }
    ensures same_reference { SameChallenger transcript.old transcript.new }
    ensures due { due transcript.new ≡ [] }
{
    let drawn: Cubic = transcript.challenge_extension(ALPHA);
    transcript.observe_opaque(COMMITMENT, &[7u8; 32]);
    transcript.observe_extension(FINAL, &cubic([7, 8, 9]));
    transcript.observe_extension_pair(POINT, &cubic([1, 2, 3]), &cubic([4, 5, 6]));
    drawn
}

// The witness and what is drawn as the prover, and what is drawn as the verifier.
fn of_states(separator: &DomainSeparator) -> Option<(Mersenne31, Cubic, Cubic)>
    requires { separator.now.steps ≡ elements_message 3 POINT.now 2 ∷ pow_step POW.now 8
        ∷ element_challenge 3 ALPHA.now ∷ opaque_message COMMITMENT.now
        ∷ element_message 3 FINAL.now ∷ elements_message 3 POINT.now 2 ∷ [] }
{
    let points = [cubic([1, 2, 3]), cubic([4, 5, 6])];
    let (mut prover, mut verifier) = (Sha256Challenger::new(), Sha256Challenger::new());
    let mut proving = ProverState::<Sha256Challenger, Mersenne31>::new(&mut prover, separator);
    proving.observe_extensions(POINT, &points);
    let Some(witness) = proving.observe_pow(POW, 8) else {
        proving.abort();
        return None;
    };
    let proved = play_others(&mut proving);
    proving.finish();
    let mut checking = VerifierState::<Sha256Challenger, Mersenne31>::new(&mut verifier, separator);
    checking.observe_extensions(POINT, &points);
    if !checking.observe_pow(POW, 8, witness) {
        checking.abort();
        return None;
    }
    let checked = play_others(&mut checking);
    checking.finish();
    Some((witness, proved, checked))
}

// How many steps and labels a separator has, and how many bytes its text.
fn of_readers(separator: &DomainSeparator) -> [usize; 3] {
    [
        separator.pattern().steps().len(),
        separator.labels().len(),
        separator.text().len(),
    ]
}

// A step of each kind of values.
fn steps() -> [Interaction; 3] {
    [
        Interaction::algebra(Hierarchy::Atomic, Kind::Message, FINAL, 3, Length::Scalar),
        Interaction::opaque(Hierarchy::Atomic, Kind::Message, COMMITMENT, Length::Scalar),
        Interaction::bits(
            Hierarchy::Atomic,
            Kind::Challenge,
            INDICES,
            10,
            Length::Fixed(3),
        ),
    ]
}

// Whether a pattern of these steps has those that are made again.
fn of_pattern(listed: Vec<Interaction>) -> bool {
    InteractionPattern::new(listed).steps() == steps().as_slice()
}

// The phases that failures name.
fn of_failures() -> [bool; 3] {
    let phase = PowPhase::Batch;
    [
        CircleTranscriptFailure::PowWitness { phase, bits: 8 }.phase() == phase,
        CircleTranscriptFailure::NoWitness { phase, bits: 8 }.phase() == phase,
        CircleTranscriptFailure::Memory.phase() == PowPhase::Query,
    ]
}

// What is drawn after a transcript that was paused and resumed.
fn of_paused(separator: &DomainSeparator) -> Mersenne31 {
    let mut challenger = Sha256Challenger::new();
    let due = ProverState::<Sha256Challenger, Mersenne31>::new(&mut challenger, separator).pause();
    ProverState::<Sha256Challenger, Mersenne31>::resume(&mut challenger, due).abort();
    challenger.sample()
}

// What the prover draws before the queries.
fn prove(transcript: &mut Prover<'_>) -> Result<[Cubic; 3], CircleTranscriptFailure>
    requires run { IsRun (numbers transcript.old) (due_of transcript.old) }
    requires batch { (numbers transcript.old).batch_pow_bits ≡ 0 }
    requires commit { (numbers transcript.old).commit_pow_bits ≡ 0 }
    ensures same { numbers transcript.new ≡ numbers transcript.old }
    ensures queries { OnOk result
        (due_of transcript.new ≡ indices_steps 3 (numbers transcript.old)) }
{
    let values = [cubic([5, 6, 7])];
    let claims = [(Point::<Cubic>::ZERO, values.as_slice())];
    let (alpha, _) = transcript.batch_phase(claims.as_slice())?;
    let bivariate = transcript.first_layer(&[7u8; 32]);
    let (beta, _) = transcript.commit_round(&[9u8; 32])?;
    Ok([alpha, bivariate, beta])
}

// Plays the whole run as the prover, whose queries are as many as this.
fn prove_whole(alloc: Global, transcript: &mut Prover<'_>) -> Result<usize, CircleTranscriptFailure>
    requires run { IsRun (numbers transcript.old) (due_of transcript.old) }
    requires batch { (numbers transcript.old).batch_pow_bits ≡ 0 }
    requires commit { (numbers transcript.old).commit_pow_bits ≡ 0 }
    requires query { (numbers transcript.old).query_pow_bits ≡ 0 }
    requires index { (numbers transcript.old).index_bits ≤ 63 }
    requires constant { (numbers transcript.old).log_final_poly_len ≡ 0 }
    ensures { OnOk result (due_of transcript.new ≡ []) }
{
    prove(transcript)?;
    let (indices, _) = transcript.query_phase(alloc, &[cubic([1, 2, 3])])?;
    Ok(indices.len())
}

// What the verifier draws before the queries.
fn verify(transcript: &mut Verifier<'_>) -> Result<[Cubic; 3], CircleTranscriptFailure>
    requires run { IsRun (numbers transcript.old) (due_of transcript.old) }
    requires batch { (numbers transcript.old).batch_pow_bits ≡ 0 }
    requires commit { (numbers transcript.old).commit_pow_bits ≡ 0 }
    ensures same { numbers transcript.new ≡ numbers transcript.old }
    ensures queries { OnOk result
        (due_of transcript.new ≡ indices_steps 3 (numbers transcript.old)) }
{
    let values = [cubic([5, 6, 7])];
    let claims = [(Point::<Cubic>::ZERO, values.as_slice())];
    let alpha = transcript.batch_phase(claims.as_slice(), Mersenne31::ZERO)?;
    let bivariate = transcript.first_layer(&[7u8; 32]);
    let beta = transcript.commit_round(&[9u8; 32], Mersenne31::ZERO)?;
    Ok([alpha, bivariate, beta])
}

// Plays the whole run as the verifier, whose queries are as many as this.
fn verify_whole(
    alloc: Global,
    transcript: &mut Verifier<'_>,
) -> Result<usize, CircleTranscriptFailure>
    requires run { IsRun (numbers transcript.old) (due_of transcript.old) }
    requires batch { (numbers transcript.old).batch_pow_bits ≡ 0 }
    requires commit { (numbers transcript.old).commit_pow_bits ≡ 0 }
    requires query { (numbers transcript.old).query_pow_bits ≡ 0 }
    requires index { (numbers transcript.old).index_bits ≤ 63 }
    requires constant { (numbers transcript.old).log_final_poly_len ≡ 0 }
    ensures { OnOk result (due_of transcript.new ≡ []) }
{
    verify(transcript)?;
    let indices = transcript.query_phase(alloc, &[cubic([1, 2, 3])], Mersenne31::ZERO)?;
    Ok(indices.len())
}

/// The calls of the challenger's transcripts, all but those that draw numbers.
pub fn states(alloc: Global, stage: Stage) -> Result<Told> {
    let separator = separator(alloc)?;
    let listed = vec![in alloc; steps()[0], steps()[1], steps()[2]]?;
    stage.begin()?;
    let Some((witness, proved, checked)) = of_states(&separator) else {
        return unfit("no witness passes");
    };
    let [steps, labels, bytes] = of_readers(&separator);
    Ok(told_numbers(&[
        digest(&[witness]),
        digest(&[proved, checked]),
        digest(&[of_paused(&separator)]),
        low_bits(steps),
        low_bits(labels),
        low_bits(bytes),
        u32::from(of_pattern(listed)),
        u32::from(of_failures() == [true; 3]),
    ]))
}

/// The calls of the prover's transcript before it draws the indices of the queries.
pub fn prover(alloc: Global, stage: Stage) -> Result<Told> {
    let shape = shape(alloc)?;
    let mut challenger = Sha256Challenger::new();
    let mut transcript = Prover::new(alloc, &mut challenger, shape)?;
    if let Err(end) = stage.begin() {
        transcript.abort();
        return Err(end);
    }
    let drawn = prove(&mut transcript);
    transcript.abort();
    Ok(told_numbers(&[digest(&drawn?)]))
}

/// `finish` of the prover's transcript, once the indices of the queries are drawn.
pub fn finish(alloc: Global, stage: Stage) -> Result<Told> {
    let shape = shape(alloc)?;
    let mut challenger = Sha256Challenger::new();
    let mut transcript = Prover::new(alloc, &mut challenger, shape)?;
    let count = match prove_whole(alloc, &mut transcript) {
        Ok(count) => count,
        Err(failure) => {
            transcript.abort();
            return Err(failure.into());
        }
    };
    if let Err(end) = stage.begin() {
        transcript.abort();
        return Err(end);
    }
    transcript.finish();
    let next: Mersenne31 = challenger.sample();
    Ok(told_numbers(&[low_bits(count), digest(&[next])]))
}

/// The calls of the verifier's transcript before it draws the indices of the queries.
pub fn verifier(alloc: Global, stage: Stage) -> Result<Told> {
    let shape = shape(alloc)?;
    let mut challenger = Sha256Challenger::new();
    let mut transcript = Verifier::new(alloc, &mut challenger, shape)?;
    if let Err(end) = stage.begin() {
        transcript.abort();
        return Err(end);
    }
    let drawn = verify(&mut transcript);
    transcript.abort();
    Ok(told_numbers(&[digest(&drawn?)]))
}

/// `finish` of the verifier's transcript, once the indices of the queries are drawn.
pub fn finish_of_verifier(alloc: Global, stage: Stage) -> Result<Told> {
    let shape = shape(alloc)?;
    let mut challenger = Sha256Challenger::new();
    let mut transcript = Verifier::new(alloc, &mut challenger, shape)?;
    let count = match verify_whole(alloc, &mut transcript) {
        Ok(count) => count,
        Err(failure) => {
            transcript.abort();
            return Err(failure.into());
        }
    };
    if let Err(end) = stage.begin() {
        transcript.abort();
        return Err(end);
    }
    transcript.finish();
    let next: Mersenne31 = challenger.sample();
    Ok(told_numbers(&[low_bits(count), digest(&[next])]))
}
