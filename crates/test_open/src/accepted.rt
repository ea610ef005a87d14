//! Openings on domains that are not standard are accepted, and whole runs over any scheme.
ghost use Rattle.std.specs.Prelude.{◌≡◌, ◌≤◌, length, All, IsTrue};
ghost use Rattle.circle_round_trip.specs.RoundTrip.{HasPoints};
ghost use Rattle.p3_circle.specs.Committing.{HaveRowsForPoints};

use circle_challenger::Sha256Challenger;
use circle_commit::OpenedValues;
use circle_field::Cubic;
use circle_presets::{Scheme, VerifierError};
use circle_round_trip::RoundTripError;
use p3_circle::{Point, ProverError, heights_match_domains};
use std::alloc::Global;
use std::fmt::InlineText;
use std::process::Abort;
use std::test::Fail;
use test_batches::batches::{
    AtPoints, Batch, Domain, Size, at_points, commit_one, cubic, one, scattered,
};
use test_batches::openings::{claims_of, expect_text, open, shown, verify};
use test_batches::parameters::{Numbers, SMALL, scheme};

// The text of the result of opening the batches.
fn answer_to(
    alloc: Global,
    scheme: &Scheme,
    batches: &[Batch],
    prover: &mut Sha256Challenger,
    verifier: &mut Sha256Challenger,
) -> Result<InlineText<128>, Fail> {
    let (values, proof) = open(alloc, scheme, batches, prover)?;
    let claims = claims_of(alloc, batches, &values)?;
    Ok(shown(verify(alloc, scheme, claims, &proof, verifier)))
}

// Asserts that what is opened is accepted, and that both sides end in one state.
fn assert_accepted(
    rt: &impl Abort,
    alloc: Global,
    scheme: &Scheme,
    batches: &[Batch],
) -> Result<(), Fail> {
    let (mut prover, mut verifier) = (Sha256Challenger::new(), Sha256Challenger::new());
    let answer = answer_to(alloc, scheme, batches, &mut prover, &mut verifier)?;
    expect_text(answer.as_str(), "accepted")?;
    assert!(rt; verifier == prover);
    Ok(())
}

// Asserts that one matrix without a pattern on this domain is accepted at these points.
fn assert_one(
    rt: &impl Abort,
    alloc: Global,
    log_final_poly_len: usize,
    domain: Domain,
    width: usize,
    seed: u64,
    points: &[Cubic],
) -> Result<(), Fail> {
    let small = scheme(Numbers {
        log_final_poly_len,
        ..SMALL
    });
    let matrix = scattered(alloc, domain.log_n(), width, seed)?;
    let one = [commit_one(alloc, &small, domain, matrix, points)?];
    assert_accepted(rt, alloc, &small, &one)
}

// Asserts that two columns on a domain that isn't standard are accepted.
fn assert_turned(
    rt: &impl Abort,
    alloc: Global,
    log_final_poly_len: usize,
    turned: Domain,
    seed: u64,
) -> Result<(), Fail> {
    assert!(rt; turned.log_n() <= 31 && turned.is_genuine() && !turned.is_standard());
    let at = cubic([0, 1, 0]);
    assert_one(rt, alloc, log_final_poly_len, turned, 2, seed, &[at])
}

#[test]
fn domains_that_are_not_standard(rt: HostRuntime) -> Result<(), Fail> {
    let eight = Domain::new(3, Point::generator(31) * 5);
    assert_turned(&rt, rt.alloc(), 0, eight, 10)?;
    for log_final_poly_len in 0..4 {
        let turned = Domain::new(5, Point::generator(31) * 7);
        assert_turned(&rt, rt.alloc(), log_final_poly_len, turned, 13)?;
    }
    Ok(())
}

// Batches of these sizes.
fn all_at_points(alloc: Global, sizes: &[&[Size]]) -> Result<Vec<AtPoints>, Fail> {
    let mut batches = Vec::new(alloc);
    for (i, of_batch) in sizes.iter().enumerate() {
        batches.push(at_points(alloc, of_batch, i as u64)?)?;
    }
    Ok(batches)
}

// Whether each list has a point.
fn have_points(lists: &[Vec<Cubic>]) -> bool
    ensures { IsTrue result → All (λ points. 1 ≤ length points.items) lists.now }
{
    lists.iter().all(|points| !points.is_empty())
}

// Whether a batch has rows for the points of its domains, and points for its matrices.
fn can_be_opened(batch: &AtPoints) -> bool
    ensures rows { IsTrue result → HaveRowsForPoints batch.now.evaluations.items }
    ensures points { IsTrue result → HasPoints batch.now }
{
    if batch.points.len() != batch.evaluations.len() {
        return false;
    }
    heights_match_domains(&batch.evaluations) && have_points(&batch.points)
}

// Whether each of the batches has these.
fn can_all_be_opened(batches: &[AtPoints]) -> bool
    // Of the list by the name that a caller has for it, as that of a `Vec` that lends the slice.
    ensures rows { IsTrue result → (list : _) → batches.now ≡ list
        → All (λ b. HaveRowsForPoints b.evaluations.items) list }
    ensures points { IsTrue result → (list : _) → batches.now ≡ list → All HasPoints list }
{
    for batch in batches {
        if !can_be_opened(batch) {
            return false;
        }
    }
    true
}

/// What a whole run returns.
type Run = Result<OpenedValues<Cubic>, RoundTripError<ProverError, VerifierError>>;

// `CirclePcs::round_trip`, after a test of what it requires, and whether both challengers end in
// one state.
fn whole_run(
    rt: &impl Abort,
    alloc: Global,
    numbers: Numbers,
    batches: Vec<AtPoints>,
) -> (Run, bool) {
    assert!(rt; can_all_be_opened(&batches));
    let (mut prover, mut verifier) = (Sha256Challenger::new(), Sha256Challenger::new());
    let run = scheme(numbers).round_trip(alloc, batches, &mut prover, &mut verifier);
    (run, verifier == prover)
}

// Asserts that a whole run over batches of these sizes returns values, and that both challengers
// end in one state.
fn assert_whole_run(
    rt: &impl Abort,
    alloc: Global,
    numbers: Numbers,
    sizes: &[&[Size]],
) -> Result<(), Fail> {
    let batches = all_at_points(alloc, sizes)?;
    let (run, is_one_state) = whole_run(rt, alloc, numbers, batches);
    let values = run.ok().ok_or("values")?;
    assert!(rt; values.len() == sizes.len() && is_one_state);
    Ok(())
}

const FOUR_ROWS: &[Size] = &[(2, 1, 1)];

const NINE_HEIGHTS: &[Size] = &[
    (2, 1, 1),
    (3, 1, 1),
    (4, 1, 1),
    (5, 1, 1),
    (6, 1, 1),
    (7, 1, 1),
    (8, 1, 1),
    (9, 1, 1),
    (10, 1, 1),
];

// The binary logarithm of the blowup, the number of queries, and the sizes of the batches.
const RUNS: &[(usize, usize, &[&[Size]])] = &[
    (1, 2, &[&[(3, 2, 1)], &[(4, 2, 2)]]),
    (1, 2, &[FOUR_ROWS; 9]),
    (1, 2, &[&[(2, 1, 1); 9]]),
    (1, 2, &[NINE_HEIGHTS]),
    (1, 2, &[&[(2, 1, 9)]]),
    (1, 2, &[&[(2, 40, 1)]]),
    (1, 2, &[&[(13, 1, 1)]]),
    (5, 2, &[FOUR_ROWS]),
    (1, 200, &[FOUR_ROWS]),
];

#[test]
fn whole_runs(rt: HostRuntime) -> Result<(), Fail> {
    for (log_blowup, num_queries, sizes) in RUNS {
        let numbers = Numbers {
            log_blowup: *log_blowup,
            num_queries: *num_queries,
            ..SMALL
        };
        assert_whole_run(&rt, rt.alloc(), numbers, sizes)?;
    }
    Ok(())
}

// A column of `2^log_n` rows, with this coordinate of a point.
fn column_at(alloc: Global, log_n: usize, at: [u64; 3]) -> Result<Vec<AtPoints>, Fail> {
    let mut batch = at_points(alloc, &[(log_n, 1, 0)], 12)?;
    batch.points = one(alloc, one(alloc, cubic(at))?)?;
    Ok(one(alloc, batch)?)
}

// The result of a whole run over a column of `2^log_n` rows, opened at this coordinate.
fn run_of_one(
    rt: &impl Abort,
    alloc: Global,
    log_n: usize,
    at: [u64; 3],
) -> Result<InlineText<128>, Fail> {
    let batches = column_at(alloc, log_n, at)?;
    let (run, _) = whole_run(rt, alloc, SMALL, batches);
    match run {
        Ok(_) => Ok(InlineText::of("done")),
        Err(refusal) => Ok(InlineText::of(refusal)),
    }
}

// Asserts that a run over `2^log_n` rows, opened at this coordinate, ends with this text.
fn assert_refused(
    rt: &impl Abort,
    alloc: Global,
    log_n: usize,
    at: [u64; 3],
    expected: &str,
) -> Result<(), Fail> {
    let answer = run_of_one(rt, alloc, log_n, at)?;
    expect_text(answer.as_str(), expected)
}

const NO_COMMITMENT: &str = "there is no commitment: a matrix has too few rows to be folded";

const NO_OPENING: &str =
    "there is no opening: an opening point lies on the committed domain of its matrix";

// Two rows are too few; the other coordinate is of a point that four rows are committed on.
#[test]
fn runs_that_are_refused(rt: HostRuntime) -> Result<(), Fail> {
    assert_refused(&rt, rt.alloc(), 1, [0, 1, 0], NO_COMMITMENT)?;
    assert_refused(&rt, rt.alloc(), 2, [775713575, 0, 0], NO_OPENING)
}
