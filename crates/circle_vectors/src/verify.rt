//! Zeros are accepted over each scheme, and another final polynomial of theirs is refused.
use crate::any_scheme::accepts;
use circle_challenger::{CanObserve, CanSample, GrindingChallenger, Sha256Challenger};
use circle_commit::{FriError, Mmcs};
use circle_field::{Cubic, Field, Mersenne31};
use circle_presets::{ChallengeMmcs, ValMmcs};
use p3_circle::InputError;
use std::alloc::{AllocError, Global};
use std::process::Abort;
use std::test::Fail;
use test_batches::batches::one;
use test_batches::openings::{expect_text, shown};
use test_schemes::schemes::ListMmcs;

mod zeros;

use zeros::{EIGHT, FOUR, Size, Zeros, claim, prove};

type Answer<I, W> = Result<
    (),
    FriError<
        <W as Mmcs<Cubic>>::Error,
        InputError<<I as Mmcs<Mersenne31>>::Error, <W as Mmcs<Cubic>>::Error>,
    >,
>;

// The coefficients of the honest final polynomial.
fn zero_poly(alloc: Global, size: Size) -> Result<Vec<Cubic>, AllocError> {
    vec![in alloc; Cubic::ZERO; size.coefficients]
}

// Zeros over trees, proved from the fresh challenger with this final polynomial.
fn proved(
    alloc: Global,
    size: Size,
    final_poly: Vec<Cubic>,
) -> Result<Zeros<ValMmcs, ChallengeMmcs>, Fail> {
    let schemes = (ValMmcs::new(), ChallengeMmcs::new());
    prove(
        alloc,
        schemes,
        size,
        final_poly,
        &mut Sha256Challenger::new(),
    )
}

// Zeros over trees, proved honestly.
fn honest(alloc: Global, size: Size) -> Result<Zeros<ValMmcs, ChallengeMmcs>, Fail> {
    proved(alloc, size, zero_poly(alloc, size)?)
}

// The verdict from the state of the challenger.
fn verify<I, W, C>(alloc: Global, zeros: Zeros<I, W>, challenger: &mut C) -> Answer<I, W>
where
    I: Mmcs<Mersenne31> + Drop,
    W: Mmcs<Cubic> + Drop,
    C: CanSample<Mersenne31> + GrindingChallenger<Mersenne31> + CanObserve<W::Commitment>,
{
    let Zeros {
        scheme,
        claims,
        proof,
    } = zeros;
    scheme.verify(alloc, claims, &proof, challenger)
}

// Asserts that zeros over these schemes are accepted, and that both sides end in one state.
fn assert_accepted<I, W>(
    rt: &impl Abort,
    alloc: Global,
    schemes: (I, W),
    size: Size,
) -> Result<(), Fail>
where
    I: Mmcs<Mersenne31> + Drop,
    W: Mmcs<Cubic> + Drop,
    Sha256Challenger: CanObserve<W::Commitment>,
{
    let mut prover = Sha256Challenger::new();
    let honest = prove(alloc, schemes, size, zero_poly(alloc, size)?, &mut prover)?;
    let mut verifier = Sha256Challenger::new();
    assert!(rt; verify(alloc, honest, &mut verifier).is_ok());
    assert!(rt; verifier != Sha256Challenger::new() && verifier == prover);
    Ok(())
}

#[test]
fn zeros_are_accepted(rt: HostRuntime) -> Result<(), Fail> {
    for size in [FOUR, EIGHT] {
        let trees = (ValMmcs::new(), ChallengeMmcs::new());
        assert_accepted(&rt, rt.alloc(), trees, size)?;
        assert_accepted(&rt, rt.alloc(), (ListMmcs, ListMmcs), size)?;
    }
    Ok(())
}

// What a caller over any scheme returns for the zeros over this one.
fn accepts_as_any(alloc: Global, zeros: Zeros<ValMmcs, ChallengeMmcs>) -> Result<bool, AllocError> {
    let Zeros {
        scheme,
        claims,
        proof,
    } = zeros;
    accepts(alloc, &scheme, claims, &proof, &mut Sha256Challenger::new())
}

// Four zeros, proved honestly, with another final polynomial.
fn with_another_polynomial(alloc: Global) -> Result<Zeros<ValMmcs, ChallengeMmcs>, Fail> {
    let mut other = honest(alloc, FOUR)?;
    other.proof.fri_proof.final_poly = one(alloc, Cubic::ONE)?;
    Ok(other)
}

#[test]
fn zeros_over_any_scheme(rt: HostRuntime) -> Result<(), Fail> {
    let alloc = rt.alloc();
    let accepts_honest = accepts_as_any(alloc, honest(alloc, FOUR)?)?;
    let accepts_other = accepts_as_any(alloc, with_another_polynomial(alloc)?)?;
    assert!(rt; accepts_honest && !accepts_other);
    Ok(())
}

/// What is changed of four zeros and their proof.
#[derive(Clone, Copy, Debug)]
enum Change {
    /// The lambda is one.
    Lambda,
    /// The final polynomial is one.
    FinalPolynomial,
    /// The round has no opening.
    NoOpening,
    /// Two rows are claimed beside them.
    TwoRows,
}

const CHANGES: [Change; 4] = [
    Change::Lambda,
    Change::FinalPolynomial,
    Change::NoOpening,
    Change::TwoRows,
];

// Makes a change.
fn apply<I: Mmcs<Mersenne31>, W: Mmcs<Cubic>>(
    alloc: Global,
    zeros: &mut Zeros<I, W>,
    change: Change,
) -> Result<(), Fail> {
    let proof = &mut zeros.proof;
    match change {
        Change::Lambda => proof.lambdas = one(alloc, Cubic::ONE)?,
        Change::FinalPolynomial => proof.fri_proof.final_poly = one(alloc, Cubic::ONE)?,
        Change::NoOpening => proof.fri_proof.commit_phase_openings = Vec::new(alloc),
        Change::TwoRows => {
            let batch = zeros.claims.get_mut(0).ok_or("no claims")?;
            batch.matrices.push(claim(alloc, 1, Cubic::ZERO)?)?;
        }
    }
    Ok(())
}

// Asserts that four zeros over these schemes with a change are refused: where the round has no
// opening with the numbers of openings, and before the challenger is seeded.
fn assert_refused<I, W>(
    rt: &impl Abort,
    alloc: Global,
    schemes: (I, W),
    change: Change,
) -> Result<(), Fail>
where
    I: Mmcs<Mersenne31> + Drop,
    W: Mmcs<Cubic> + Drop,
    Sha256Challenger: CanObserve<W::Commitment>,
{
    let (poly, mut prover) = (zero_poly(alloc, FOUR)?, Sha256Challenger::new());
    let mut zeros = prove(alloc, schemes, FOUR, poly, &mut prover)?;
    apply(alloc, &mut zeros, change)?;
    let mut verifier = Sha256Challenger::new();
    let answer = verify(alloc, zeros, &mut verifier);
    assert!(rt; answer.is_err(), "{change:?}");
    let is_of_openings = matches!(
        answer,
        Err(FriError::CommitPhaseOpeningsCountMismatch {
            expected: 1,
            got: 0
        })
    );
    let is_unseeded = verifier == Sha256Challenger::new();
    let due = matches!(change, Change::NoOpening);
    assert!(rt; is_of_openings == due && is_unseeded == due, "{change:?}");
    Ok(())
}

#[test]
fn changed_zeros_are_refused(rt: HostRuntime) -> Result<(), Fail> {
    for change in CHANGES {
        let trees = (ValMmcs::new(), ChallengeMmcs::new());
        assert_refused(&rt, rt.alloc(), trees, change)?;
        assert_refused(&rt, rt.alloc(), (ListMmcs, ListMmcs), change)?;
    }
    Ok(())
}

// All is opened as it was committed to, and folds to 0.
#[test]
fn another_final_polynomial(rt: HostRuntime) -> Result<(), Fail> {
    let alloc = rt.alloc();
    let proved = proved(alloc, FOUR, one(alloc, Cubic::ONE)?)?;
    let answer = shown(verify(alloc, proved, &mut Sha256Challenger::new()));
    let mismatch = "a query is folded to another value than the final polynomial's";
    expect_text(answer.as_str(), mismatch)
}
