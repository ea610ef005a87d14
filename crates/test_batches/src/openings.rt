//! What is opened of committed batches, the claims on them, and the verdict on these.
use crate::batches::Batch;
use circle_challenger::{CanObserve, CanSample, GrindingChallenger, Sha256Challenger};
use circle_commit::{CommitmentOpening, FriError, Mmcs, OpenedValues, OpeningRequest};
use circle_field::{ComplexExtendable, Cubic, ExtensionField, Mersenne31};
use circle_presets::{Claim, Known, Proof, ProverData, Scheme, VerifierError};
use p3_circle::{CircleDomain, CirclePcs, CirclePcsProof, InputError, ProverError};
use std::alloc::{AllocError, Global};
use std::fmt::{Display, InlineText};
use std::test::Fail;

pub type Claims = Vec<Claim>;

pub type Answer = Result<(), VerifierError>;

/// `CirclePcs::open`, or `NotGenuine`, which it never returns, where it requires other heights.
pub fn open_at<F: ComplexExtendable, EF: ExtensionField<F>, I: Mmcs<F>, W: Mmcs<EF>, C>(
    alloc: Global,
    scheme: &CirclePcs<F, I, W>,
    requests: Vec<OpeningRequest<I::ProverData, EF>>,
    challenger: &mut C,
) -> Result<(OpenedValues<EF>, CirclePcsProof<F, EF, I, W, F>), ProverError>
where
    C: CanSample<F> + GrindingChallenger<F> + CanObserve<W::Commitment>,
{
    if !scheme.have_heights_of_powers(&requests) {
        return Err(ProverError::NotGenuine);
    }
    scheme.open(alloc, requests, challenger)
}

// A copy of lists of points.
fn copies_of(alloc: Global, points: &[Vec<Cubic>]) -> Result<Vec<Vec<Cubic>>, AllocError> {
    let mut copies = Vec::with_capacity(alloc, points.len())?;
    for of_matrix in points {
        copies.push(Vec::from_slice(alloc, of_matrix)?)?;
    }
    Ok(copies)
}

// Requests to open the batches.
fn requests_of(
    alloc: Global,
    batches: &[Batch],
) -> Result<Vec<OpeningRequest<'_, ProverData, Cubic>>, AllocError> {
    let mut requests = Vec::with_capacity(alloc, batches.len())?;
    for batch in batches {
        requests.push(OpeningRequest {
            prover_data: &batch.data,
            points: copies_of(alloc, &batch.points)?,
        })?;
    }
    Ok(requests)
}

/// Opens the batches.
pub fn open<C>(
    alloc: Global,
    scheme: &Scheme,
    batches: &[Batch],
    challenger: &mut C,
) -> Result<(OpenedValues<Cubic>, Proof), ProverError>
where
    C: CanSample<Mersenne31> + GrindingChallenger<Mersenne31> + CanObserve<[u8; 32]>,
{
    open_at(alloc, scheme, requests_of(alloc, batches)?, challenger)
}

// What a verifier knows of the batches.
fn known(alloc: Global, batches: &[Batch]) -> Result<Vec<Known>, AllocError> {
    let mut known = Vec::with_capacity(alloc, batches.len())?;
    for batch in batches {
        known.push(Known {
            commitment: batch.commitment,
            domains: Vec::from_slice(alloc, &batch.domains)?,
            points: copies_of(alloc, &batch.points)?,
        })?;
    }
    Ok(known)
}

/// The claims that the batches have these values.
pub fn claims_of(
    alloc: Global,
    batches: &[Batch],
    values: &OpenedValues<Cubic>,
) -> Result<Claims, AllocError> {
    p3_circle::claims_of(alloc, known(alloc, batches)?, values.clone()?)
}

// `CirclePcs::verify`.
fn verify_at<F: ComplexExtendable, EF: ExtensionField<F>, I: Mmcs<F>, W: Mmcs<EF>, C>(
    alloc: Global,
    scheme: &CirclePcs<F, I, W>,
    claims: Vec<CommitmentOpening<EF, I::Commitment, CircleDomain<F>>>,
    proof: &CirclePcsProof<F, EF, I, W, F>,
    challenger: &mut C,
) -> Result<(), FriError<W::Error, InputError<I::Error, W::Error>>>
where
    C: CanSample<F> + GrindingChallenger<F> + CanObserve<W::Commitment>,
{
    scheme.verify(alloc, claims, proof, challenger)
}

/// The verdict on the claims and the proof.
pub fn verify(
    alloc: Global,
    scheme: &Scheme,
    claims: Claims,
    proof: &Proof,
    challenger: &mut Sha256Challenger,
) -> Answer {
    verify_at(alloc, scheme, claims, proof, challenger)
}

/// The text of a verdict, `accepted` where it is Ok.
pub fn shown<E: Display + Drop>(answer: Result<(), E>) -> InlineText<128> {
    match answer {
        Ok(()) => InlineText::of("accepted"),
        Err(refusal) => InlineText::of(refusal),
    }
}

/// The text of a prover's refusal, `done` where there is none.
pub fn told<T: Drop>(answer: Result<T, ProverError>) -> InlineText<64> {
    match answer {
        Ok(_) => InlineText::of("done"),
        Err(refusal) => InlineText::of(refusal),
    }
}

/// Expects that the text of a result begins with one of these.
pub fn expect_start(found: &str, starts: &[&str]) -> Result<(), Fail> {
    for start in starts {
        if found.starts_with(*start) {
            return Ok(());
        }
    }
    Err(Fail::new(format_args!("{found}, where one of {starts:?} is due")))
}

/// Expects this text of a result.
pub fn expect_text(found: &str, due: &str) -> Result<(), Fail> {
    if found == due {
        return Ok(());
    }
    Err(Fail::new(format_args!("{found}, where {due} is due")))
}
