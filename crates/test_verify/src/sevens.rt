//! Eight sevens whose codewords are folded to two coefficients: numbers that are refused before the
//! challenger is seeded.
use crate::damage::item;
use crate::forged::answer_to;
use crate::statement::{Opening, opened_batches};
use circle_challenger::Sha256Challenger;
use circle_commit::{MatrixOpening, PointOpening};
use circle_field::{Cubic, Field};
use p3_circle::{Neutral, Point};
use std::alloc::Global;
use std::process::Abort;
use std::test::Fail;
use test_batches::batches::{Domain, commit_one, cubic, one, rows};
use test_batches::openings::expect_text;
use test_batches::parameters::{Numbers, SMALL, scheme};

// The sevens, opened at `[0, 1, 0]`.
fn sevens(alloc: Global) -> Result<Opening, Fail> {
    let scheme = scheme(Numbers {
        log_final_poly_len: 1,
        ..SMALL
    });
    let (domain, column) = (Domain::standard(3), rows(alloc, &[7; 8], 1)?);
    let batch = commit_one(alloc, &scheme, domain, column, &[cubic([0, 1, 0])])?;
    opened_batches(alloc, scheme, &[batch])
}

// The sevens with a final polynomial of one coefficient.
fn of_one_coefficient(alloc: Global) -> Result<Opening, Fail> {
    let mut given = sevens(alloc)?;
    given.proof.fri_proof.final_poly = one(alloc, Cubic::ZERO)?;
    Ok(given)
}

// The sevens with a claim of sevens on two rows beside them.
fn with_two_rows(alloc: Global) -> Result<Opening, Fail> {
    let mut given = sevens(alloc)?;
    let claim = PointOpening {
        point: cubic([0, 1, 0]),
        values: one(alloc, cubic([7, 0, 0]))?,
    };
    let matrix = MatrixOpening {
        domain: Domain::new(1, Point::ZERO),
        points: one(alloc, claim)?,
    };
    item(&mut given.claims, 0)?.matrices.push(matrix)?;
    Ok(given)
}

// Asserts that this is returned, and that the challenger is as it was.
fn assert_refused(
    rt: &impl Abort,
    alloc: Global,
    given: Opening,
    expected: &str,
) -> Result<(), Fail> {
    let (answer, left) = answer_to(alloc, given);
    expect_text(answer.as_str(), expected)?;
    assert!(rt; left == Sha256Challenger::new());
    Ok(())
}

const TWO_DUE: &str = "the final polynomial has 1 coefficients, and 2 are due";

const TWO_ROWS: &str =
    "the input is refused: tallest claimed domain is 2^1 rows; the first-layer fold needs at least 2";

#[test]
fn numbers_of_two_coefficients(rt: HostRuntime) -> Result<(), Fail> {
    let alloc = rt.alloc();
    assert_refused(&rt, alloc, of_one_coefficient(alloc)?, TWO_DUE)?;
    assert_refused(&rt, alloc, with_two_rows(alloc)?, TWO_ROWS)
}
