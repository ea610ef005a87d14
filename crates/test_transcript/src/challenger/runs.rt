//! Whole runs of a described transcript, on both sides.
ghost use Rattle.std.specs.Prelude.{◌≡◌, [], ◌∷◌};
ghost use Rattle.circle_challenger.specs.Played.{elements_message, element_message, opaque_message};
ghost use Rattle.circle_challenger.specs.Played.{pow_step, element_challenge, numbers_challenge};
ghost use Rattle.circle_challenger.specs.TranscriptState.{due, SameChallenger};

use super::MEMORY;
use circle_challenger::{
    CanObserve, CanSample, DomainSeparator, GrindingChallenger, Hierarchy, Interaction,
    InteractionPattern, Kind, Length, ProverState, TranscriptState, VerifierState,
};
use circle_field::{Cubic, ExtensionField, Field, Mersenne31};
use std::alloc::Global;
use std::process::Abort;

const POINT: &str = "opening_point";

const VALUES: &str = "opened_values";

const POW: &str = "batch_pow";

const ALPHA: &str = "batch_challenge";

const COMMITMENT: &str = "first_layer_commitment";

const FINAL: &str = "final_poly";

const INDICES: &str = "query_indices";

/// What a run draws, and its witness.
#[derive(Drop)]
pub struct Drawn {
    pub witness: Mersenne31,
    pub alpha: Cubic,
    pub indices: Vec<usize>,
}

/// The separator of a run with a proof of work of 8 bits.
fn separator(rt: &impl Abort, alloc: Global) -> DomainSeparator
    ensures { result.steps ≡ elements_message 3 POINT.now 2 ∷ elements_message 3 VALUES.now 1
        ∷ pow_step POW.now 8 ∷ element_challenge 3 ALPHA.now ∷ opaque_message COMMITMENT.now
        ∷ element_message 3 FINAL.now ∷ numbers_challenge INDICES.now 3 2 ∷ [] }
{
    let steps = vec![in alloc;
        Interaction::algebra(Hierarchy::Atomic, Kind::Message, POINT, 3, Length::Fixed(2)),
        Interaction::algebra(
            Hierarchy::Atomic,
            Kind::Message,
            VALUES,
            3,
            Length::Fixed(1)
        ),
        Interaction::algebra(Hierarchy::Atomic, Kind::Pow, POW, 1, Length::Fixed(8)),
        Interaction::algebra(Hierarchy::Atomic, Kind::Challenge, ALPHA, 3, Length::Scalar),
        Interaction::opaque(Hierarchy::Atomic, Kind::Message, COMMITMENT, Length::Scalar),
        Interaction::algebra(Hierarchy::Atomic, Kind::Message, FINAL, 3, Length::Scalar),
        Interaction::bits(
            Hierarchy::Atomic,
            Kind::Challenge,
            INDICES,
            3,
            Length::Fixed(2)
        ),
    ];
    let pattern = InteractionPattern::new(steps.expect(rt, MEMORY));
    DomainSeparator::new(alloc, 1, "a run", pattern).expect(rt, MEMORY)
}

fn element(n: u64) -> Mersenne31 {
    Mersenne31::from_u64(n)
}

fn cubic(a: u64, b: u64, c: u64) -> Cubic {
    Cubic::from_coefficients(&[element(a), element(b), element(c)])
}

/// What the run draws after its proof of work, which had this witness.
fn draw<C, S>(
    rt: &impl Abort,
    alloc: Global,
    transcript: &mut TranscriptState<C, Mersenne31, S>,
    witness: Mersenne31,
) -> Drawn
where
    C: CanSample<Mersenne31> + GrindingChallenger<Mersenne31> + CanObserve<[u8; 32]>,
    requires { due transcript.old ≡ element_challenge 3 ALPHA.now ∷ opaque_message COMMITMENT.now
        ∷ element_message 3 FINAL.now ∷ numbers_challenge INDICES.now 3 2 ∷ [] }
    ensures same_reference { SameChallenger transcript.old transcript.new }
    ensures due { due transcript.new ≡ [] }
{
    let alpha: Cubic = transcript.challenge_extension(ALPHA);
    transcript.observe_opaque(COMMITMENT, &[7u8; 32]);
    transcript.observe_extension(FINAL, &cubic(10, 11, 12));
    let indices = transcript.challenge_bits(alloc, INDICES, 3, 2);
    Drawn {
        witness,
        alpha,
        indices: indices.expect(rt, MEMORY),
    }
}

/// The prover's side of the run, or nothing where no witness passes.
pub fn prove<C>(rt: &impl Abort, alloc: Global, challenger: &mut C) -> Option<Drawn>
where
    C: CanSample<Mersenne31> + GrindingChallenger<Mersenne31> + CanObserve<[u8; 32]>,
{
    let separator = separator(rt, alloc);
    let mut transcript = ProverState::<C, Mersenne31>::new(challenger, &separator);
    transcript.observe_extensions(POINT, &[cubic(1, 2, 3), cubic(4, 5, 6)]);
    transcript.observe_extensions(VALUES, &[cubic(7, 8, 9)]);
    let Some(witness) = transcript.observe_pow(POW, 8) else {
        transcript.abort();
        return None;
    };
    let drawn = draw(rt, alloc, &mut transcript, witness);
    transcript.finish();
    Some(drawn)
}

/// The verifier's side of the run, or nothing where the witness misses.
pub fn verify<C>(
    rt: &impl Abort,
    alloc: Global,
    challenger: &mut C,
    witness: Mersenne31,
) -> Option<Drawn>
where
    C: CanSample<Mersenne31> + GrindingChallenger<Mersenne31> + CanObserve<[u8; 32]>,
{
    let separator = separator(rt, alloc);
    let mut transcript = VerifierState::<C, Mersenne31>::new(challenger, &separator);
    transcript.observe_extensions(POINT, &[cubic(1, 2, 3), cubic(4, 5, 6)]);
    transcript.observe_extensions(VALUES, &[cubic(7, 8, 9)]);
    if !transcript.observe_pow(POW, 8, witness) {
        transcript.abort();
        return None;
    }
    let drawn = draw(rt, alloc, &mut transcript, witness);
    transcript.finish();
    Some(drawn)
}
