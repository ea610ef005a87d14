//! Chosen points: `prove` and `verify` by a challenger that samples given elements.
use crate::calls::{Answer, Text, honest, proof_of, told, verdict_on};
use crate::cases::{FIBONACCI, Rule};
use crate::changes::{Change, verdict_after};
use crate::chosen::Chosen;
use circle_air::Place;
use circle_field::Cubic;
use circle_presets::{ChallengeMmcs, Val, ValMmcs};
use p3_circle::CirclePcs;
use std::alloc::Global;
use std::process::Abort;
use std::test::Fail;
use test_batches::openings::expect_text;
use test_batches::parameters::{Numbers, SMALL, parameters, scheme};
use test_schemes::quadratic::Quadratic;
use test_schemes::schemes::ListMmcs;
use test_schemes::stubborn::Stubborn;

// The coordinate 2, of the point (-3/5, 4/5), as each challenge.
const TWO: [u64; 3] = [2, 0, 0];

// The coordinate of the first point of the trace's domain.
const ON_TRACE: [u64; 3] = [775713575, 0, 0];

// The coordinate of the first point of the domain of 16 points that the trace is committed on.
const ON_COMMITTED: [u64; 3] = [742943573, 0, 0];

// The coordinate of the point whose next point is (-1, 0).
const BEFORE_HALF_TURN: [u64; 3] = [2147418110, 0, 0];

// The number of elements that both challenges before the scheme's have.
const OF_CHALLENGES: u64 = 6;

const UNFIT: &str = "the drawn point can't be opened";

const OTHER_QUOTIENT: &str = "the constraints don't match the quotient at the drawn point";

/// When a result is returned.
#[derive(Clone, Copy)]
enum When {
    /// Once the point is drawn, and nothing after it.
    AtPoint,
    /// Once all is drawn.
    AtEnd,
}

/// What is sampled, what `prove` returns and when.
type OfTrace = ([u64; 3], &'static str, When);

const TRACES: &[OfTrace] = &[
    (TWO, "accepted", When::AtEnd),
    (ON_TRACE, UNFIT, When::AtPoint),
    (BEFORE_HALF_TURN, UNFIT, When::AtPoint),
    (
        ON_COMMITTED,
        "the drawn point is on the committed domain",
        When::AtPoint,
    ),
];

// Asserts what `prove` returns of Fibonacci numbers, and when.
fn assert_proved(rt: &impl Abort, alloc: Global, row: &OfTrace) -> Result<(), Fail> {
    let (elements, expected, when) = *row;
    let mut challenger = Chosen::new(elements);
    let answer: Answer<Cubic, ChallengeMmcs> = proof_of(
        rt,
        alloc,
        &scheme(SMALL),
        &FIBONACCI,
        &mut challenger,
    );
    let is_at_point = challenger.sampled() == OF_CHALLENGES;
    assert!(rt; is_at_point == matches!(when, When::AtPoint), "{expected}");
    expect_text(told(answer).as_str(), expected)
}

#[test]
fn traces_by_chosen_challenges(rt: HostRuntime) -> Result<(), Fail> {
    for row in TRACES {
        assert_proved(&rt, rt.alloc(), row)?;
    }
    Ok(())
}

// The difficulties, and what `prove` returns where no witness passes.
const OF_WORK: &[([usize; 3], &str)] = &[
    (
        [4, 0, 0],
        "no witness passes the proof of work of the batch phase",
    ),
    (
        [0, 4, 0],
        "no witness passes the proof of work of the commit phase",
    ),
    (
        [0, 0, 4],
        "no witness passes the proof of work of the query phase",
    ),
];

#[test]
fn phases_in_which_no_witness_passes(rt: HostRuntime) -> Result<(), Fail> {
    for (work, expected) in OF_WORK {
        assert_no_witness(&rt, rt.alloc(), *work, expected)?;
    }
    Ok(())
}

// Asserts what `prove` returns by proofs of work of these difficulties, where no witness passes.
fn assert_no_witness(
    rt: &impl Abort,
    alloc: Global,
    work: [usize; 3],
    expected: &str,
) -> Result<(), Fail> {
    let pcs = scheme(Numbers { work, ..SMALL });
    let mut challenger = Stubborn { taken: 0 };
    let answer: Answer<Cubic, ChallengeMmcs> = proof_of(
        rt,
        alloc,
        &pcs,
        &FIBONACCI,
        &mut challenger,
    );
    expect_text(told(answer).as_str(), expected)
}

/// What is changed of a proof by the coordinate 2, what is sampled, what `verify` returns and when.
type OfProof = (Change, [u64; 3], &'static str, When);

const PROOFS: &[OfProof] = &[
    (Change::Nothing, TWO, "accepted", When::AtEnd),
    (
        Change::PublicValues(&[1, 1, 35]),
        TWO,
        OTHER_QUOTIENT,
        When::AtEnd,
    ),
    (
        Change::Rule(Rule::Squares(Place::Every)),
        TWO,
        OTHER_QUOTIENT,
        When::AtEnd,
    ),
    (Change::Nothing, ON_TRACE, UNFIT, When::AtPoint),
    (Change::Nothing, BEFORE_HALF_TURN, UNFIT, When::AtPoint),
    (
        Change::LogN(29),
        TWO,
        "invalid opening: the proof commits to 2 rounds, and 28 are due",
        When::AtPoint,
    ),
];

// Asserts what `verify` returns, and when. It samples at the end as much as `prove` did.
fn assert_verified(rt: &impl Abort, alloc: Global, row: &OfProof) -> Result<(), Fail> {
    let (change, elements, expected, when) = *row;
    let (mut prover, mut verifier) = (Chosen::new(TWO), Chosen::new(elements));
    let verdict = verdict_after(rt, alloc, change, &mut prover, &mut verifier);
    let due = match when {
        When::AtPoint => OF_CHALLENGES,
        When::AtEnd => prover.sampled(),
    };
    assert!(rt; verifier.sampled() == due, "{expected}");
    expect_text(verdict.as_str(), expected)
}

#[test]
fn proofs_by_chosen_challenges(rt: HostRuntime) -> Result<(), Fail> {
    for row in PROOFS {
        assert_verified(&rt, rt.alloc(), row)?;
    }
    Ok(())
}

// Of the quadratic extension by the root `X` of -1, each challenge is `2 + 2X`.
const TWOS: [u64; 3] = [2, 2, 2];

// What is sampled, and what `prove` and `verify` return: the point is at infinity where the first
// challenge is 1 or -1, and the second, its coordinate, is `X` or `-X`.
const OF_QUADRATIC: &[([u64; 3], &str)] = &[
    (TWOS, "accepted"),
    ([1, 0, 0], UNFIT),
    ([2147483646, 0, 0], UNFIT),
];

// The scheme over trees and lists.
fn lists() -> CirclePcs<Val, ValMmcs, ListMmcs> {
    CirclePcs::new(ValMmcs::new(), parameters(SMALL, ListMmcs))
}

// `prove` of Fibonacci numbers over the quadratic extension.
fn proved_over_quadratic(
    rt: &impl Abort,
    alloc: Global,
    challenger: &mut Chosen,
) -> Answer<Quadratic, ListMmcs> {
    proof_of(rt, alloc, &lists(), &FIBONACCI, challenger)
}

// The text of what `verify` returns over the quadratic extension of an honest proof.
fn verdict_over_quadratic(rt: &impl Abort, alloc: Global, challenger: &mut Chosen) -> Text {
    let answer = proved_over_quadratic(rt, alloc, &mut Chosen::new(TWOS));
    let proof = answer.expect(rt, "there is no proof");
    verdict_on(rt, alloc, &honest(lists(), &FIBONACCI, proof), challenger)
}

// Asserts what `prove` and `verify` return over the quadratic extension.
fn assert_over_quadratic(
    rt: &impl Abort,
    alloc: Global,
    elements: [u64; 3],
    expected: &str,
) -> Result<(), Fail> {
    let (mut prover, mut verifier) = (Chosen::new(elements), Chosen::new(elements));
    let answer = told(proved_over_quadratic(rt, alloc, &mut prover));
    let verdict = verdict_over_quadratic(rt, alloc, &mut verifier);
    assert!(rt; verifier.sampled() == prover.sampled());
    expect_text(answer.as_str(), expected)?;
    expect_text(verdict.as_str(), expected)
}

#[test]
fn points_at_infinity(rt: HostRuntime) -> Result<(), Fail> {
    for (elements, expected) in OF_QUADRATIC {
        assert_over_quadratic(&rt, rt.alloc(), *elements, expected)?;
    }
    Ok(())
}
