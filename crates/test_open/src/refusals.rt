//! What is refused of requests to open, in its order.
use circle_challenger::{CanObserve, CanSample, GrindingChallenger, Sha256Challenger};
use circle_commit::{OpeningRequest, heights_are_powers_of_two};
use circle_field::{ExtensionField, Field, Mersenne31};
use circle_presets::{ProverData, Scheme, ValMmcs};
use p3_circle::{CirclePcs, ProverError};
use std::alloc::{AllocError, Global};
use std::fmt::InlineText;
use std::process::Abort;
use std::test::Fail;
use test_batches::batches::{Batch, Domain, Rows, cubic, one, rows, scattered_batch, sevens};
use test_batches::openings::{expect_text, open, open_at, told};
use test_batches::parameters::{Numbers, SMALL, parameters, scheme};
use test_schemes::quadratic::Quadratic;
use test_schemes::schemes::ListMmcs;
use test_schemes::stubborn::Stubborn;

// The text of the refusal to open the batches.
fn refusal<C>(
    alloc: Global,
    scheme: &Scheme,
    batches: &[Batch],
    challenger: &mut C,
) -> InlineText<64>
where
    C: CanSample<Mersenne31> + GrindingChallenger<Mersenne31> + CanObserve<[u8; 32]>,
{
    told(open(alloc, scheme, batches, challenger))
}

// Asserts that the batches are refused, and that the challenger is as it was.
fn assert_refused(
    rt: &impl Abort,
    alloc: Global,
    scheme: &Scheme,
    batches: &[Batch],
    expected: &str,
) -> Result<(), Fail> {
    let mut challenger = Sha256Challenger::new();
    let refused = refusal(alloc, scheme, batches, &mut challenger);
    expect_text(refused.as_str(), expected)?;
    assert!(rt; challenger == Sha256Challenger::new());
    Ok(())
}

// The small numbers with other difficulties.
fn of_work(work: [usize; 3]) -> Numbers {
    Numbers { work, ..SMALL }
}

#[test]
fn nothing_to_open(rt: HostRuntime) -> Result<(), Fail> {
    let no_queries = Numbers {
        num_queries: 0,
        ..SMALL
    };
    let cases = [
        (SMALL, "no matrix is committed to"),
        (of_work([30, 30, 30]), "no matrix is committed to"),
        (no_queries, "the parameters are not supported"),
    ];
    for (numbers, expected) in cases {
        assert_refused(&rt, rt.alloc(), &scheme(numbers), &[], expected)?;
    }
    Ok(())
}

// Two matrices with points for the first alone.
fn fewer_lists(alloc: Global, scheme: &Scheme) -> Result<Batch, Fail> {
    let mut fewer = scattered_batch(alloc, scheme, &[(2, 1, 1), (2, 1, 1)], 3)?;
    let _ = fewer.points.pop();
    Ok(fewer)
}

// A matrix with points for two.
fn more_lists(alloc: Global, scheme: &Scheme) -> Result<Batch, Fail> {
    let mut more = scattered_batch(alloc, scheme, &[(2, 1, 1)], 4)?;
    more.points.push(Vec::new(alloc))?;
    Ok(more)
}

const OTHER_NUMBER: &str = "there is not one list of points for each matrix";

// The first matrix has too few rows for the higher blowup.
const HIGH_BLOWUP: Numbers = Numbers {
    log_blowup: 2,
    ..SMALL
};

#[test]
fn other_numbers_of_lists_of_points(rt: HostRuntime) -> Result<(), Fail> {
    let (alloc, small) = (rt.alloc(), scheme(SMALL));
    let more = more_lists(alloc, &small)?;
    assert_refused(&rt, alloc, &small, &[more], OTHER_NUMBER)?;
    let batches = [sevens(alloc, &small)?, fewer_lists(alloc, &small)?];
    assert_refused(&rt, alloc, &small, &batches, OTHER_NUMBER)?;
    assert_refused(&rt, alloc, &scheme(HIGH_BLOWUP), &batches, OTHER_NUMBER)
}

// The coordinate of a point of the domain on which four rows are committed to.
const ON_FOUR_ROWS: [u64; 3] = [775713575, 0, 0];

// Four sevens, opened at that point.
fn on_four_rows(alloc: Global, scheme: &Scheme) -> Result<Batch, Fail> {
    let mut batch = sevens(alloc, scheme)?;
    batch.points = one(alloc, one(alloc, cubic(ON_FOUR_ROWS))?)?;
    Ok(batch)
}

#[test]
fn too_few_rows_before_points_of_their_domain(rt: HostRuntime) -> Result<(), Fail> {
    let (alloc, small) = (rt.alloc(), scheme(SMALL));
    let four = [on_four_rows(alloc, &small)?];
    let on_domain = "an opening point lies on the committed domain of its matrix";
    assert_refused(&rt, alloc, &small, &four, on_domain)?;
    for (log_blowup, log_final_poly_len) in [(2, 0), (1, 1), (1, usize::MAX), (usize::MAX, 0)] {
        let other = scheme(Numbers {
            log_blowup,
            log_final_poly_len,
            ..SMALL
        });
        let too_small = "a matrix has too few rows to be folded";
        assert_refused(&rt, alloc, &other, &four, too_small)?;
    }
    Ok(())
}

// A request to open one matrix at these coordinates.
fn request_at<'a>(
    alloc: Global,
    prover_data: &'a ProverData,
    points: &[Quadratic],
) -> Result<Vec<OpeningRequest<'a, ProverData, Quadratic>>, AllocError> {
    let points = one(alloc, Vec::from_slice(alloc, points)?)?;
    one(
        alloc,
        OpeningRequest {
            prover_data,
            points,
        },
    )
}

// The text of the refusal to open sevens at these coordinates over the quadratic extension.
fn refusal_over_quadratic(alloc: Global, points: &[Quadratic]) -> Result<InlineText<64>, Fail> {
    let four = sevens(alloc, &scheme(SMALL))?;
    let requests = request_at(alloc, &four.data, points)?;
    let lists = CirclePcs::new(ValMmcs::new(), parameters(SMALL, ListMmcs));
    let mut challenger = Sha256Challenger::new();
    Ok(told(open_at(alloc, &lists, requests, &mut challenger)))
}

// The square of the element `X` of the quadratic extension is -1.
#[test]
fn points_at_infinity(rt: HostRuntime) -> Result<(), Fail> {
    let infinity = Quadratic::from_coefficients(&[Mersenne31::ZERO, Mersenne31::ONE]);
    let other = Quadratic::from_coefficients(&[Mersenne31::ONE, Mersenne31::ONE]);
    let refused = "an opening point is at infinity";
    let cases: [(&[Quadratic], &str); 3] = [
        (&[infinity], refused),
        (&[other, -infinity], refused),
        (&[other], "done"),
    ];
    for (points, expected) in cases {
        let answer = refusal_over_quadratic(rt.alloc(), points)?;
        expect_text(answer.as_str(), expected)?;
    }
    Ok(())
}

const OF_BATCHING: &str = "no witness passes the proof of work of the batch phase";

const OF_A_ROUND: &str = "no witness passes the proof of work of the commit phase";

#[test]
fn phases_in_which_no_witness_passes(rt: HostRuntime) -> Result<(), Fail> {
    let alloc = rt.alloc();
    let of_queries = "no witness passes the proof of work of the query phase";
    let cases = [
        ([4, 0, 0], OF_BATCHING),
        ([0, 4, 0], OF_A_ROUND),
        ([0, 0, 4], of_queries),
        ([4, 4, 4], OF_BATCHING),
        ([0, 4, 4], OF_A_ROUND),
        ([0, 0, 0], "done"),
    ];
    for (work, expected) in cases {
        let guarded = scheme(of_work(work));
        let four = [sevens(alloc, &guarded)?];
        let refused = refusal(alloc, &guarded, &four, &mut Stubborn { taken: 0 });
        expect_text(refused.as_str(), expected)?;
    }
    Ok(())
}

// `CirclePcs::commit_ldes`, after a test of what it requires.
fn commit_ldes(
    rt: &impl Abort,
    alloc: Global,
    scheme: &Scheme,
    ldes: Vec<Rows>,
) -> Result<([u8; 32], ProverData), ProverError> {
    assert!(rt; heights_are_powers_of_two(&ldes));
    scheme.commit_ldes(alloc, ldes)
}

// A matrix committed to as it is, opened at `[0, 1, 0]`.
fn as_it_is(
    rt: &impl Abort,
    alloc: Global,
    scheme: &Scheme,
    domain: Domain,
    entries: &[u64],
) -> Result<Batch, Fail> {
    let ldes = one(alloc, rows(alloc, entries, 1)?)?;
    let (commitment, data) = commit_ldes(rt, alloc, scheme, ldes)?;
    Ok(Batch {
        commitment,
        data,
        domains: one(alloc, domain)?,
        points: one(alloc, one(alloc, cubic([0, 1, 0]))?)?,
    })
}

const FIRST_OF_EIGHT: &[u64] = &[1, 0, 0, 0, 0, 0, 0, 0];

const SIXTH_OF_SIXTEEN: &[u64] = &[0, 0, 0, 0, 0, 1, 0, 0, 0, 0, 0, 0, 0, 0, 0, 0];

// A column of zeros but for one entry has more coefficients than half of its rows.
#[test]
fn a_column_of_too_high_degree(rt: HostRuntime) -> Result<(), Fail> {
    let alloc = rt.alloc();
    for (log_final_poly_len, log_n, entries) in [(0, 2, FIRST_OF_EIGHT), (1, 3, SIXTH_OF_SIXTEEN)] {
        let small = scheme(Numbers {
            log_final_poly_len,
            ..SMALL
        });
        let domain = Domain::standard(log_n);
        let high = [as_it_is(&rt, alloc, &small, domain, entries)?];
        let refused = refusal(alloc, &small, &high, &mut Sha256Challenger::new());
        expect_text(
            refused.as_str(),
            "the last folded word is of too high degree",
        )?;
    }
    Ok(())
}
