//! The verdict on an opening that was changed, and the state that this leaves.
use crate::damage::{
    Damage, OfClaims, OfFirstLayer, OfParameters, OfRounds, OfWitnesses, apply, item, numbers_for,
};
use crate::played::play;
use crate::statement::{Opening, numbers, proved};
use circle_challenger::Sha256Challenger;
use circle_field::{Cubic, ExtensionField};
use circle_presets::{ChallengeMmcs, Scheme, ValMmcs};
use p3_circle::ProverError;
use std::alloc::Global;
use std::fmt::InlineText;
use std::process::Abort;
use std::test::Fail;
use test_batches::batches::{Batch, Domain, two_columns};
use test_batches::openings::{expect_start, open, shown, verify};
use test_batches::parameters::scheme;

/// When the verdict is given, which fixes the state of the challenger.
#[derive(Clone, Copy)]
enum When {
    /// Before the challenger is seeded: it is as it was.
    Before,
    /// Once the whole transcript is played, over what was changed.
    After,
    /// Within the transcript, where the state is open.
    Within,
}

/// What is changed, the texts of which the verdict begins with one, and when it is given.
type Row = (Damage, &'static [&'static str], When);

const BEFORE_THE_SEEDING: &[Row] = &[
    (
        Damage::Claims(OfClaims::None),
        &["no matrix is claimed"],
        When::Before,
    ),
    (
        Damage::Claims(OfClaims::Size(0)),
        &[
            "the input is refused: tallest claimed domain is 2^0 rows; the first-layer fold needs at least 2",
        ],
        When::Before,
    ),
    (
        Damage::Rounds(OfRounds::CommitmentLess),
        &["the proof commits to 2 rounds, and 3 are due"],
        When::Before,
    ),
    (
        Damage::Rounds(OfRounds::OpeningLess),
        &["the proof opens 2 rounds, and 3 are due"],
        When::Before,
    ),
    (
        Damage::Rounds(OfRounds::SiblingLess),
        &["a query of round 0 has 0 siblings, and 1 are due"],
        When::Before,
    ),
    (
        Damage::Rounds(OfRounds::CoefficientMore),
        &["the final polynomial has 2 coefficients, and 1 are due"],
        When::Before,
    ),
    (
        Damage::Witnesses(OfWitnesses::RoundLess),
        &["the proof has witnesses for 2 rounds, and 3 are due"],
        When::Before,
    ),
    (
        Damage::Witnesses(OfWitnesses::Round),
        &["a witness of a proof of work without difficulty is not zero (commit)"],
        When::Before,
    ),
    (
        Damage::Witnesses(OfWitnesses::BatchAndQuery),
        &["a witness of a proof of work without difficulty is not zero (query)"],
        When::Before,
    ),
    (
        Damage::Witnesses(OfWitnesses::Batch),
        &["a witness of a proof of work without difficulty is not zero (batch)"],
        When::Before,
    ),
    (
        Damage::Rounds(OfRounds::QueryLess),
        &["round 1 is opened at 39 queries, and 40 are due"],
        When::Before,
    ),
    (
        Damage::Rounds(OfRounds::SiblingMore),
        &["a query of round 2 has 2 siblings, and 1 are due"],
        When::Before,
    ),
    (
        Damage::Claims(OfClaims::Size(usize::MAX)),
        &["the greatest height is 2^18446744073709551615, but the group has only 2^31 points"],
        When::Before,
    ),
    (
        Damage::Claims(OfClaims::Size(30)),
        &["the greatest height is 2^31, but the group has only 2^31 points"],
        When::Before,
    ),
    (
        Damage::Parameters(OfParameters::Difficulty(31)),
        &["a proof of work of 31 bits is not supported (batch)"],
        When::Before,
    ),
    (
        Damage::Parameters(OfParameters::NoQueriesNorBlowup),
        &["there are no queries"],
        When::Before,
    ),
    (
        Damage::Parameters(OfParameters::NoBlowup),
        &["there is no blowup"],
        When::Before,
    ),
    (
        Damage::Parameters(OfParameters::WideFolds),
        &["folding by up to 2^2 entries at once is not supported"],
        When::Before,
    ),
];

const INPUT_SHAPE: &[&str] = &["the input is refused: input shape error: mismatched dimensions"];

const INPUT_ROWS: &str = "the input is refused: input MMCS error: ";

const FIRST_LAYER: &str = "the input is refused: first layer MMCS error: ";

const NO_POINTS: &str =
    "the input is refused: batch 0, matrix 1: opened at no points; its width cannot be authenticated";

const WEAK: &str = "a witness of a proof of work does not pass (batch)";

const ROUND: &str = "the opening of a round is refused: ";

const LAST_WORD: &str = "a query is folded to another value than the final polynomial's";

/// Any refusal of a run that was played whole.
const REFUSED: &[&str] = &[
    "the input is refused: ",
    ROUND,
    LAST_WORD,
    "1 values are left over",
];

const AFTER_THE_SEEDING: &[Row] = &[
    (Damage::Nothing, &["accepted"], When::After),
    (Damage::NothingOfWorked, &["accepted"], When::After),
    (
        Damage::Digest,
        &["the input is refused: input MMCS error: the root is not the commitment"],
        When::After,
    ),
    (
        Damage::FirstLayer(OfFirstLayer::Digest),
        &["the input is refused: first layer MMCS error: the root is not the commitment"],
        When::After,
    ),
    (
        Damage::Rounds(OfRounds::Digest),
        &["the opening of a round is refused: the root is not the commitment"],
        When::After,
    ),
    (
        Damage::FirstLayer(OfFirstLayer::LambdaMore),
        INPUT_SHAPE,
        When::After,
    ),
    (
        Damage::FirstLayer(OfFirstLayer::LambdaLess),
        INPUT_SHAPE,
        When::After,
    ),
    (
        Damage::FirstLayer(OfFirstLayer::QueryLess),
        INPUT_SHAPE,
        When::After,
    ),
    (
        Damage::FirstLayer(OfFirstLayer::Lambda),
        &[FIRST_LAYER, ROUND, LAST_WORD],
        When::After,
    ),
    (
        Damage::OpenedRow,
        &[INPUT_ROWS, FIRST_LAYER, ROUND, LAST_WORD],
        When::After,
    ),
    (
        Damage::FirstLayer(OfFirstLayer::SiblingOfRepeated(0)),
        &[FIRST_LAYER, ROUND, LAST_WORD],
        When::After,
    ),
    (
        Damage::FirstLayer(OfFirstLayer::SiblingOfRepeated(1)),
        &[FIRST_LAYER, ROUND, LAST_WORD],
        When::After,
    ),
    (
        Damage::Rounds(OfRounds::Sibling),
        &[ROUND, LAST_WORD],
        When::After,
    ),
    (
        Damage::Rounds(OfRounds::FinalPolynomial),
        REFUSED,
        When::After,
    ),
    (Damage::Claims(OfClaims::Value), REFUSED, When::After),
    (Damage::Claims(OfClaims::Point), REFUSED, When::After),
    (
        Damage::Claims(OfClaims::NoPoints),
        &[NO_POINTS],
        When::After,
    ),
    (Damage::Claims(OfClaims::TwoRows), REFUSED, When::After),
    (
        Damage::Claims(OfClaims::ValueOfWorked),
        &[WEAK],
        When::Within,
    ),
    (
        Damage::Witnesses(OfWitnesses::BatchMissing),
        &[WEAK],
        When::Within,
    ),
    (
        Damage::Witnesses(OfWitnesses::Missing),
        &["a witness of a proof of work does not pass (query)"],
        When::Within,
    ),
];

// The challenger that the verifier's transcript leaves over the claims and the proof.
fn played(alloc: Global, given: &Opening) -> Result<Sha256Challenger, Fail> {
    let mut challenger = Sha256Challenger::new();
    let params = &given.scheme.fri_params;
    play::<ValMmcs, ChallengeMmcs, Sha256Challenger>(
        alloc,
        params,
        &given.claims,
        &given.proof,
        &mut challenger,
    )??;
    Ok(challenger)
}

// The challenger that is due after the verdict, where it is promised.
fn due(alloc: Global, given: &Opening, when: When) -> Result<Option<Sha256Challenger>, Fail> {
    Ok(match when {
        When::Before => Some(Sha256Challenger::new()),
        When::After => Some(played(alloc, given)?),
        When::Within => None,
    })
}

/// The text of a verdict, and the challenger after it.
pub(crate) type Answered = (InlineText<128>, Sha256Challenger);

/// The verdict on the opening.
pub(crate) fn answer_to(alloc: Global, given: Opening) -> Answered {
    let Opening {
        scheme,
        claims,
        proof,
    } = given;
    let mut verifier = Sha256Challenger::new();
    let answer = shown(verify(alloc, &scheme, claims, &proof, &mut verifier));
    (answer, verifier)
}

// The opening with this change.
fn changed(alloc: Global, damage: Damage) -> Result<Opening, Fail> {
    let mut given = proved(alloc, numbers_for(damage))?;
    apply(alloc, &mut given, damage)?;
    Ok(given)
}

// Asserts that the verdict on the opening with this change is as expected, and which state that
// leaves.
fn assert_answered(
    rt: &impl Abort,
    alloc: Global,
    (damage, expected, when): &Row,
) -> Result<(), Fail> {
    let given = changed(alloc, *damage)?;
    let due = due(alloc, &given, *when)?;
    let (answer, left) = answer_to(alloc, given);
    expect_start(answer.as_str(), expected)?;
    if let Some(due) = due {
        assert!(rt; left == due, "{} leaves another state", answer.as_str());
    }
    Ok(())
}

#[test]
fn forged_proofs(rt: HostRuntime) -> Result<(), Fail> {
    for rows in [BEFORE_THE_SEEDING, AFTER_THE_SEEDING] {
        for row in rows {
            assert_answered(&rt, rt.alloc(), row)?;
        }
    }
    Ok(())
}

// The columns, the taller of which is opened at a point that it is committed on: on the standard
// domain of 32 points, the first of which is the domain's shift.
fn at_a_committed_point(alloc: Global, scheme: &Scheme) -> Result<Batch, Fail> {
    let shift = Domain::standard(5).shift();
    let first = shift.to_projective_line().ok_or("the half turn")?;
    let mut batch = two_columns(alloc, scheme)?;
    item(&mut batch.points, 1)?.push(Cubic::from_base(first))?;
    Ok(batch)
}

#[test]
fn a_point_of_the_committed_domain(rt: HostRuntime) -> Result<(), Fail> {
    let (alloc, scheme) = (rt.alloc(), scheme(numbers(0, [0; 3])));
    let batches = [at_a_committed_point(alloc, &scheme)?];
    let mut challenger = Sha256Challenger::new();
    let refused = open(alloc, &scheme, &batches, &mut challenger).err();
    assert!(rt; refused == Some(ProverError::PointOnDomain));
    assert!(rt; challenger == Sha256Challenger::new());
    Ok(())
}
