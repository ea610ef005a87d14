//! Zeros over schemes that authenticate everything: what is left to refuse is the claims' own.
use crate::played::play;
use crate::statement::{QUERIES, numbers};
use crate::unhearing::Unhearing;
use circle_commit::{
    BatchMultiOpening, CommitmentOpening, FriParameters, MatrixOpening, PointOpening,
};
use circle_field::{Cubic, ExtensionField, Field, Mersenne31};
use p3_circle::{
    CircleCommitPhaseMultiStep, CircleFriProof, CircleInputProof, CirclePcs, CirclePcsProof,
    Neutral, Point,
};
use std::alloc::{AllocError, Global};
use std::fmt::InlineText;
use std::process::Abort;
use std::test::Fail;
use test_batches::batches::{Domain, cubic, one};
use test_batches::openings::{expect_text, shown};
use test_batches::parameters::parameters;
use test_schemes::schemes::{Nothing, TrustingMmcs};

type Claims = Vec<CommitmentOpening<Cubic, Nothing, Domain>>;

type Proof = CirclePcsProof<Mersenne31, Cubic, TrustingMmcs, TrustingMmcs, Mersenne31>;

// Claims that a column is zero at these points.
fn zero_at(
    alloc: Global,
    log_n: usize,
    points: &[Cubic],
) -> Result<MatrixOpening<Cubic, Domain>, AllocError> {
    let mut claims = Vec::new(alloc);
    for point in points {
        claims.push(PointOpening {
            point: *point,
            values: one(alloc, Cubic::ZERO)?,
        })?;
    }
    Ok(MatrixOpening {
        domain: Domain::new(log_n, Point::ZERO),
        points: claims,
    })
}

// The coordinates of the 32 points that a column of 16 rows is committed on.
fn committed_points(alloc: Global) -> Result<Vec<Cubic>, Fail> {
    let mut points = Vec::new(alloc);
    for point in Domain::standard(5).points() {
        let coordinate = point.to_projective_line().ok_or("the half turn")?;
        points.push(Cubic::from_base(coordinate))?;
    }
    Ok(points)
}

// `lists` lists of `of` zeros.
fn lists_of_zeros<F: Field>(
    alloc: Global,
    lists: usize,
    of: usize,
) -> Result<Vec<Vec<F>>, AllocError> {
    let mut all = Vec::new(alloc);
    for _ in 0..lists {
        all.push(vec![in alloc; F::ZERO; of]?)?;
    }
    Ok(all)
}

// What is opened of `count` rounds.
fn rounds(
    alloc: Global,
    count: usize,
) -> Result<Vec<CircleCommitPhaseMultiStep<Cubic, TrustingMmcs>>, AllocError> {
    let mut rounds = Vec::new(alloc);
    for _ in 0..count {
        rounds.push(CircleCommitPhaseMultiStep {
            sibling_values: lists_of_zeros(alloc, QUERIES, 1)?,
            opening_proof: Nothing,
        })?;
    }
    Ok(rounds)
}

// The rows of `columns` columns at each query.
fn opened(
    alloc: Global,
    columns: usize,
) -> Result<BatchMultiOpening<Mersenne31, TrustingMmcs>, AllocError> {
    let mut opened_values = Vec::new(alloc);
    for _ in 0..QUERIES {
        opened_values.push(lists_of_zeros(alloc, columns, 1)?)?;
    }
    Ok(BatchMultiOpening {
        opened_values,
        opening_proof: Nothing,
    })
}

// A proof of zeros, of lengths that fit `columns` columns, each of another height, `num_rounds`
// rounds and `coefficients` coefficients.
fn proof(
    alloc: Global,
    columns: usize,
    num_rounds: usize,
    coefficients: usize,
) -> Result<Proof, AllocError> {
    let input_openings = CircleInputProof {
        input_openings: one(alloc, opened(alloc, columns)?)?,
        first_layer_siblings: lists_of_zeros(alloc, QUERIES, columns)?,
        first_layer_proof: Nothing,
    };
    let fri_proof = CircleFriProof {
        commit_phase_commits: vec![in alloc; Nothing; num_rounds]?,
        commit_pow_witnesses: vec![in alloc; Mersenne31::ZERO; num_rounds]?,
        input_openings,
        commit_phase_openings: rounds(alloc, num_rounds)?,
        final_poly: vec![in alloc; Cubic::ZERO; coefficients]?,
        pow_witness: Mersenne31::ZERO,
    };
    Ok(CirclePcsProof {
        batch_pow_witness: Mersenne31::ZERO,
        first_layer_commitment: Nothing,
        lambdas: vec![in alloc; Cubic::ZERO; columns]?,
        fri_proof,
    })
}

/// Columns that are claimed to be zero, with a proof, and the logarithm of the number of
/// coefficients of the final polynomial.
#[derive(Drop)]
struct Zeros {
    log_final_poly_len: usize,
    claims: Claims,
    proof: Proof,
}

/// The logarithm of the number of coefficients of the final polynomial, the number of rounds, and
/// that of coefficients.
type Lengths = (usize, usize, usize);

const ONE_COEFFICIENT: Lengths = (0, 3, 1);

const TWO_COEFFICIENTS: Lengths = (1, 2, 2);

// One batch of these columns, each of another height, with a proof of these lengths.
fn of_columns(
    alloc: Global,
    matrices: Vec<MatrixOpening<Cubic, Domain>>,
    (log_final_poly_len, num_rounds, coefficients): Lengths,
) -> Result<Zeros, AllocError> {
    let proof = proof(alloc, matrices.len(), num_rounds, coefficients)?;
    let batch = CommitmentOpening {
        commitment: Nothing,
        matrices,
    };
    Ok(Zeros {
        log_final_poly_len,
        claims: one(alloc, batch)?,
        proof,
    })
}

// A column of 16 zeros, claimed at each point that it is committed on.
fn at_every_query(alloc: Global) -> Result<Zeros, Fail> {
    let matrix = zero_at(alloc, 4, &committed_points(alloc)?)?;
    Ok(of_columns(alloc, one(alloc, matrix)?, ONE_COEFFICIENT)?)
}

// A column of 16 zeros and one of `2^log_n`, each claimed at one point.
fn with_a_short_column(alloc: Global, log_n: usize, lengths: Lengths) -> Result<Zeros, AllocError> {
    let at = [cubic([0, 1, 0])];
    let mut matrices = one(alloc, zero_at(alloc, 4, &at)?)?;
    matrices.push(zero_at(alloc, log_n, &at)?)?;
    of_columns(alloc, matrices, lengths)
}

// A column of 16 zeros, claimed at one point, with the commitments and witnesses of two rounds.
fn of_two_rounds(alloc: Global) -> Result<Zeros, AllocError> {
    let matrix = zero_at(alloc, 4, &[cubic([0, 1, 0])])?;
    of_columns(alloc, one(alloc, matrix)?, (0, 2, 1))
}

// The text of the verdict on zeros.
fn answer_to(
    alloc: Global,
    params: FriParameters<TrustingMmcs>,
    zeros: Zeros,
    verifier: &mut Unhearing,
) -> InlineText<128> {
    let scheme = CirclePcs::new(TrustingMmcs, params);
    shown(scheme.verify(alloc, zeros.claims, &zeros.proof, verifier))
}

// The challenger that the verifier's transcript leaves over the claims and the proof.
fn played(
    alloc: Global,
    params: &FriParameters<TrustingMmcs>,
    zeros: &Zeros,
) -> Result<Unhearing, Fail> {
    let mut challenger = Unhearing::new();
    play::<TrustingMmcs, TrustingMmcs, Unhearing>(
        alloc,
        params,
        &zeros.claims,
        &zeros.proof,
        &mut challenger,
    )??;
    Ok(challenger)
}

// Asserts that the verdict has this text, and that the whole transcript is played.
fn assert_answered(
    rt: &impl Abort,
    alloc: Global,
    zeros: Zeros,
    expected: &str,
) -> Result<(), Fail> {
    let params = parameters(numbers(zeros.log_final_poly_len, [0; 3]), TrustingMmcs);
    let due = played(alloc, &params, &zeros)?;
    let mut verifier = Unhearing::new();
    let answer = answer_to(alloc, params, zeros, &mut verifier);
    expect_text(answer.as_str(), expected)?;
    assert!(rt; verifier == due);
    Ok(())
}

#[test]
fn two_commitments_of_three_rounds(rt: HostRuntime) -> Result<(), Fail> {
    let (alloc, mut verifier) = (rt.alloc(), Unhearing::new());
    let params = parameters(numbers(0, [0; 3]), TrustingMmcs);
    let answer = answer_to(alloc, params, of_two_rounds(alloc)?, &mut verifier);
    expect_text(
        answer.as_str(),
        "the proof commits to 2 rounds, and 3 are due",
    )?;
    assert!(rt; verifier == Unhearing::new());
    Ok(())
}

const ON_A_QUERY: &str = "the input is refused: opening point coincides with a query point";

const OF_TWO_LEFT: &str = "1 values are left over, the next of height 2^1";

const OF_FOUR_LEFT: &str = "1 values are left over, the next of height 2^2";

#[test]
fn zeros_that_authenticate(rt: HostRuntime) -> Result<(), Fail> {
    let alloc = rt.alloc();
    assert_answered(&rt, alloc, at_every_query(alloc)?, ON_A_QUERY)?;
    let of_two = with_a_short_column(alloc, 1, ONE_COEFFICIENT)?;
    assert_answered(&rt, alloc, of_two, OF_TWO_LEFT)?;
    let of_four = with_a_short_column(alloc, 2, TWO_COEFFICIENTS)?;
    assert_answered(&rt, alloc, of_four, OF_FOUR_LEFT)
}
