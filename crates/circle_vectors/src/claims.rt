//! Claims at points at infinity.
use circle_challenger::Sha256Challenger;
use circle_commit::{CommitmentOpening, MatrixOpening, PointOpening};
use circle_field::{ExtensionField, Field, Mersenne31};
use circle_presets::ValMmcs;
use p3_circle::{
    CircleDomain, CircleFriProof, CircleInputProof, CirclePcs, CirclePcsProof, Neutral, Point,
};
use std::alloc::{AllocError, Global};
use std::fmt::InlineText;
use std::test::Fail;
use test_batches::batches::one;
use test_batches::openings::{expect_start, expect_text, shown};
use test_batches::parameters::{SMALL, parameters};
use test_schemes::matrix_list::MatrixList;
use test_schemes::quadratic::Quadratic;
use test_schemes::schemes::{ListMmcs, Nothing};

type QuadraticClaims = Vec<CommitmentOpening<Quadratic, [u8; 32], CircleDomain<Mersenne31>>>;

// A matrix of two rows that is claimed at the point of this coordinate.
fn claimed_at(alloc: Global, point: Quadratic) -> Result<QuadraticClaims, AllocError> {
    let claim = PointOpening {
        point,
        values: Vec::new(alloc),
    };
    let matrix = MatrixOpening {
        domain: CircleDomain::new(1, Point::ZERO),
        points: one(alloc, claim)?,
    };
    let batch = CommitmentOpening {
        commitment: [0; 32],
        matrices: one(alloc, matrix)?,
    };
    one(alloc, batch)
}

type QuadraticProof = CirclePcsProof<Mersenne31, Quadratic, ValMmcs, ListMmcs, Mersenne31>;

// A proof without rounds, as is due for two rows, that opens nothing.
fn proof_of_nothing(alloc: Global) -> Result<QuadraticProof, AllocError> {
    let input_openings = CircleInputProof {
        input_openings: Vec::new(alloc),
        first_layer_siblings: Vec::new(alloc),
        first_layer_proof: Nothing,
    };
    let fri_proof = CircleFriProof {
        commit_phase_commits: Vec::new(alloc),
        commit_pow_witnesses: Vec::new(alloc),
        input_openings,
        commit_phase_openings: Vec::new(alloc),
        final_poly: one(alloc, Quadratic::ZERO)?,
        pow_witness: Mersenne31::ZERO,
    };
    Ok(CirclePcsProof {
        batch_pow_witness: Mersenne31::ZERO,
        first_layer_commitment: MatrixList::new(Vec::new(alloc)),
        lambdas: Vec::new(alloc),
        fri_proof,
    })
}

// The text of the verdict on a claim at a point.
fn answer_at(
    alloc: Global,
    point: Quadratic,
    challenger: &mut Sha256Challenger,
) -> Result<InlineText<128>, Fail> {
    let scheme = CirclePcs::new(ValMmcs::new(), parameters(SMALL, ListMmcs));
    let proof = proof_of_nothing(alloc)?;
    Ok(shown(scheme.verify(alloc, claimed_at(alloc, point)?, &proof, challenger)))
}

// The square of the element `X` of the quadratic extension is -1.
#[test]
fn points_at_infinity(rt: HostRuntime) -> Result<(), Fail> {
    let alloc = rt.alloc();
    let infinity = Quadratic::from_coefficients(&[Mersenne31::ZERO, Mersenne31::ONE]);
    let mut challenger = Sha256Challenger::new();
    let answer = answer_at(alloc, infinity, &mut challenger)?;
    expect_text(answer.as_str(), "a claimed point is at infinity")?;
    assert!(rt; challenger == Sha256Challenger::new());
    let other = answer_at(alloc, Quadratic::ONE, &mut challenger)?;
    expect_start(other.as_str(), &["the input is refused: "])?;
    assert!(rt; challenger != Sha256Challenger::new());
    Ok(())
}
