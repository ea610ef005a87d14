//! Tests of the crate. What is expected of SHA-256 and of texts was computed apart from this code.
ghost use Rattle.std.specs.Prelude.{◌≡◌, ◌≤◌, [], ◌∷◌, map};
ghost use Rattle.circle_field.specs.Field.{of_nat};
ghost use Rattle.circle_challenger.specs.Interaction.{step_of};
ghost use Rattle.circle_challenger.specs.Played.{opaque_message};
ghost use Rattle.circle_challenger.specs.Observing.{after_all};
ghost use Rattle.circle_challenger.specs.Separator.{seed_text};

use circle_challenger::{
    CanObserve, CanSample, CanSampleBits, DomainSeparator, FieldChallenger, GrindingChallenger,
    Hierarchy, Interaction, InteractionPattern, Kind, Length, ProverState, Sha256Challenger,
};
use circle_field::{Cubic, ExtensionField, Field, Mersenne31};
use runs::Drawn;
use std::alloc::Global;
use std::process::Abort;
use test_schemes::expect;

mod runs;
mod wrapped;

/// Why a test ends that memory is refused.
const MEMORY: &str = "memory is refused";

fn element(n: u64) -> Mersenne31 {
    Mersenne31::from_u64(n)
}

fn cubic(a: u64, b: u64, c: u64) -> Cubic {
    Cubic::from_coefficients(&[element(a), element(b), element(c)])
}

/// Asserts the next element that is drawn.
fn assert_next(rt: &impl Abort, challenger: &mut Sha256Challenger, expected: u64) {
    let next: Mersenne31 = challenger.sample();
    expect!(rt; next == element(expected));
}

/// Asserts an element.
fn assert_element(rt: &impl Abort, found: Mersenne31, expected: u64) {
    expect!(rt; found == element(expected));
}

/// The first element that is drawn after these elements are absorbed.
fn after_elements(elements: &[Mersenne31]) -> Mersenne31 {
    let mut challenger = Sha256Challenger::new();
    for element in elements {
        challenger.observe(element);
    }
    challenger.sample()
}

/// The first element that is drawn after this commitment is absorbed.
fn after_commitment(commitment: [u8; 32]) -> Mersenne31 {
    let mut challenger = Sha256Challenger::new();
    challenger.observe(&commitment);
    challenger.sample()
}

/// The first element that is drawn after these bytes are absorbed.
fn after_bytes(bytes: &[u8]) -> Mersenne31 {
    let mut challenger = Sha256Challenger::new();
    challenger.observe_bytes(bytes);
    challenger.sample()
}

#[test]
fn the_sponge_is_the_digests_of_its_states(rt: HostRuntime) {
    assert_element(&rt, after_elements(&[]), 887805594);
    assert_element(
        &rt,
        after_elements(&[-Mersenne31::ONE, element(5)]),
        1443688485,
    );
    assert_element(&rt, after_commitment([7; 32]), 563722081);
    assert_element(&rt, after_bytes(b"abc"), 990172798);
}

/// Asserts the next element of the extension that is drawn.
fn assert_next_of_extension(rt: &impl Abort, challenger: &mut Sha256Challenger, expected: Cubic) {
    let next: Cubic = challenger.sample_algebra_element();
    expect!(rt; next == expected);
}

#[test]
fn elements_of_the_extension_are_their_coefficients_in_order(rt: HostRuntime) {
    let expected = cubic(887805594, 2008966348, 1680214714);
    assert_next_of_extension(&rt, &mut Sha256Challenger::new(), expected);

    let mut challenger = Sha256Challenger::new();
    challenger.observe_algebra_element(&cubic(1, 2, 3));
    challenger.observe_algebra_slice(&[cubic(4, 5, 6), cubic(7, 8, 9)]);
    let expected = cubic(942657691, 510228239, 1162152177);
    assert_next_of_extension(&rt, &mut challenger, expected);
}

#[test]
fn numbers_are_drawn_from_the_states(rt: HostRuntime) {
    let mut challenger = Sha256Challenger::default();
    for (bits, number) in [
        (0, 0),
        (1, 0),
        (5, 6),
        (10, 638),
        (31, 1934231230),
        (63, 33323379293894408),
    ] {
        expect!(rt; challenger.sample_bits(bits) == number);
    }
}

#[test]
fn grinding_without_a_difficulty_changes_nothing(rt: HostRuntime) {
    let mut challenger = Sha256Challenger::new();
    expect!(rt; challenger.grind(0) == Some(Mersenne31::ZERO));
    expect!(rt; challenger.check_witness(0, element(9)));
    expect!(rt; challenger == Sha256Challenger::new());
}

/// Asserts the witness that a search finds, and that a verifier that tests it is left alike.
fn assert_least_witness(rt: &impl Abort, bits: usize, witness: Mersenne31)
    requires { bits ≤ 63 }
{
    let mut prover = Sha256Challenger::new();
    expect!(rt; prover.grind(bits) == Some(witness));
    let mut verifier = Sha256Challenger::new();
    expect!(rt; verifier.check_witness(bits, witness));
    expect!(rt; prover == verifier);
}

#[test]
fn grinding_finds_the_least_witness(rt: HostRuntime) {
    assert_least_witness(&rt, 1, element(3));
    assert_least_witness(&rt, 8, element(312));
    assert_least_witness(&rt, 12, element(6094));
}

#[test]
fn grinding_and_a_miss_change_the_state(rt: HostRuntime) {
    let mut challenger = Sha256Challenger::new();
    let _ = challenger.grind(8);
    assert_next(&rt, &mut challenger, 1493963882);
    let mut challenger = Sha256Challenger::new();
    expect!(rt; !challenger.check_witness(8, Mersenne31::ZERO));
    assert_next(&rt, &mut challenger, 862777544);
}

/// Asserts what a run draws, and its witness.
fn assert_drawn(rt: &impl Abort, drawn: &Drawn) {
    expect!(rt; drawn.witness == element(4));
    expect!(rt; drawn.alpha == cubic(435491986, 1509700079, 614995509));
    expect!(rt; drawn.indices.as_slice() == [3, 1].as_slice());
}

/// The witness of the prover's run, whose draws are asserted.
fn proved_witness(rt: &impl Abort, alloc: Global, prover: &mut Sha256Challenger) -> Mersenne31 {
    let drawn = runs::prove(rt, alloc, prover).expect(rt, "no witness");
    assert_drawn(rt, &drawn);
    drawn.witness
}

/// Asserts what the verifier's run with a witness draws.
fn assert_verified(
    rt: &impl Abort,
    alloc: Global,
    verifier: &mut Sha256Challenger,
    witness: Mersenne31,
) {
    let drawn = runs::verify(rt, alloc, verifier, witness).expect(rt, "a miss");
    assert_drawn(rt, &drawn);
}

#[test]
fn both_sides_draw_alike(rt: HostRuntime) {
    let mut prover = Sha256Challenger::new();
    let witness = proved_witness(&rt, rt.alloc(), &mut prover);
    let mut verifier = Sha256Challenger::new();
    assert_verified(&rt, rt.alloc(), &mut verifier, witness);
    expect!(rt; verifier == prover);
    assert_next(&rt, &mut verifier, 2031691190);
}

#[test]
fn another_witness_misses(rt: HostRuntime) {
    let mut verifier = Sha256Challenger::new();
    let verified = runs::verify(&rt, rt.alloc(), &mut verifier, Mersenne31::ZERO);
    expect!(rt; verified.is_none());
}

/// A transcript of one message, at any challenger. In the clause `CanObserve-1` is its bound of
/// elements, and `CanObserve-2` that of messages.
fn one_message<F: Field, C: CanSample<F> + GrindingChallenger<F>, Com>(
    challenger: &mut C,
    separator: &DomainSeparator,
    label: &str,
    value: &Com,
)
where
    C: CanObserve<Com>,
    requires { separator.now.steps ≡ opaque_message label.now ∷ [] }
    ensures { C.state challenger.new ≡ C.CanObserve-2.after_observe
        (after_all C.CanObserve-1.after_observe (C.state challenger.old)
        (map (of_nat F.ops) (seed_text separator.now))) value.now }
{
    let mut transcript = ProverState::<C, F>::new(challenger, separator);
    transcript.observe_opaque(label, value);
    transcript.finish();
}

/// The separator of a transcript of this one step.
fn of_one_step(rt: &impl Abort, alloc: Global, step: Interaction) -> DomainSeparator
    ensures { result.steps ≡ step_of step ∷ [] }
{
    let steps = vec![in alloc; step].expect(rt, MEMORY);
    DomainSeparator::new(alloc, 1, "one", InteractionPattern::new(steps)).expect(rt, MEMORY)
}

#[test]
fn a_value_is_taken_in_as_it_is(rt: HostRuntime) {
    let label = "message";
    let step = Interaction::opaque(Hierarchy::Atomic, Kind::Message, label, Length::Scalar);
    let separator = of_one_step(&rt, rt.alloc(), step);
    let mut challenger = Sha256Challenger::new();
    one_message::<Mersenne31, Sha256Challenger, [u8; 32]>(
        &mut challenger,
        &separator,
        label,
        &[7; 32],
    );
    assert_next(&rt, &mut challenger, 478777721);
}

#[test]
fn a_transcript_goes_on_after_a_pause(rt: HostRuntime) {
    let label = "draw";
    let step = Interaction::algebra(Hierarchy::Atomic, Kind::Challenge, label, 3, Length::Scalar);
    let separator = of_one_step(&rt, rt.alloc(), step);
    let mut challenger = Sha256Challenger::new();
    let (value, drawn) = wrapped::one_draw::<Cubic, Mersenne31, Sha256Challenger>(
        &mut challenger,
        &separator,
        label,
    );
    expect!(rt; value == cubic(1668035039, 2137457899, 218258125));
    expect!(rt; drawn == 1);
    assert_next(&rt, &mut challenger, 2047373211);
}
