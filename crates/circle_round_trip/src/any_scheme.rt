//! A committer and a verifier of any scheme, played against each other.
ghost use Rattle.std.specs.Prelude.{◌≡◌, ◌∷◌, ◌++◌, [], All, IfErr, IfOk, OnOk, map};
ghost use Rattle.circle_commit.specs.Pcs.{openings};
ghost use Rattle.circle_commit.specs.Mmcs.{opened_rows};
ghost use Rattle.circle_commit.specs.Claims.{lists};
ghost use Rattle.circle_commit.specs.Honest.{requested_points};
ghost use Rattle.circle_round_trip.specs.RoundTrip.{AreCommitted, AreHonestUnder, AreValuesOf};
ghost use Rattle.circle_round_trip.specs.RoundTrip.{HasPoints, IsCommitted, IsOfMemory};
ghost use Rattle.circle_round_trip.specs.RoundTrip.{IsReasonUnder, IsUncommitted, IsUncommittedOf};
ghost use Rattle.circle_round_trip.specs.declared.any_scheme.RoundTripError.TheVariants.{Memory};

use circle_challenger::ChallengerState;
use circle_commit::{
    CommittedBatch, OpenedValues, OpenedValuesForMatrix, OpenedValuesForRound, OpeningRequest, Pcs,
    PolynomialSpace, RowMajorMatrix, claims_of,
};
use circle_field::ExtensionField;
use std::alloc::{AllocError, Global};
use std::fmt::Display;
use thiserror::Error;

/// A batch of matrices, and the points that each of them is opened at.
#[derive(Drop)]
pub struct BatchAtPoints<Challenge, Domain, Matrix> {
    /// The matrices, each with the domain that its columns are values on.
    pub evaluations: Vec<(Domain, Matrix)>,
    /// For each matrix its points, each by one coordinate.
    pub points: Vec<Vec<Challenge>>,
}

/// Why a round trip returns no values: the refusal of the call that refused, or want of memory.
#[derive(Debug, Drop, Error)]
#[error_bound(ProverError: Display, VerifierError: Display)]
pub enum RoundTripError<ProverError, VerifierError> {
    /// `commit` refuses a batch.
    #[error("there is no commitment: {0}")]
    Commit(ProverError),
    /// `open` refuses the requests.
    #[error("there is no opening: {0}")]
    Open(ProverError),
    /// `verify` refuses what was returned.
    #[error("what was answered is refused: {0}")]
    Verify(VerifierError),
    /// Memory was refused.
    #[error("out of memory")]
    Memory,
}

impl<ProverError, VerifierError> From<AllocError> for RoundTripError<ProverError, VerifierError> {
    ghost from_gives = { λ _ e. e ≡ Memory };

    fn from(_refused: AllocError) -> RoundTripError<ProverError, VerifierError> {
        RoundTripError::Memory
    }
}

// A batch that is committed to: what a verifier knows of it, and what the committer keeps.
#[derive(Drop)]
pub(crate) struct Committed<Challenge, Commitment, ProverData, Domain> {
    pub known: CommittedBatch<Challenge, Commitment, Domain>,
    pub prover_data: ProverData,
}

/// Commits to batches, opens them all at once, each matrix at its own points, and verifies what is
/// returned, by two challengers that begin in one state.
///
/// Returns, batch by batch, the values of their polynomials, once they are accepted; then both
/// challengers end in one state. Otherwise the result is the refusal of `commit`, `open` or
/// `verify`, with the reason that the scheme gives for it, or `Memory`. Batches that may be opened
/// at their points are refused for memory alone, where each search for a witness finds one.
///
/// Requires what `commit` requires of each batch, and a list of points for each matrix, of one
/// point at least.
pub fn round_trip<Challenge, C: ChallengerState, P: Pcs<Challenge, C>>(
    alloc: Global,
    pcs: &P,
    batches: Vec<
        BatchAtPoints<Challenge, P::Domain, RowMajorMatrix<<P::Domain as PolynomialSpace>::Val>>,
    >,
    prover: &mut C,
    verifier: &mut C,
) -> Result<OpenedValues<Challenge>, RoundTripError<P::ProverError, P::Error>>
where
    Challenge: ExtensionField<<P::Domain as PolynomialSpace>::Val>,
    requires asks { All (λ b. P.commit_asks pcs.now b.evaluations.items) batches.items }
    requires points { All HasPoints batches.items }
    requires same { C.state prover.old ≡ C.state verifier.old }
    ensures accepted { IfErr result (λ e. AreHonestUnder P.Pcs pcs.now batches.items
        (C.state prover.old) → IsOfMemory P.is_prover_memory P.is_memory e) }
    ensures values { IfOk result (λ v.
        AreValuesOf (P.values_of pcs.now) batches.items (openings v.items)) }
    ensures states { OnOk result (C.state prover.new ≡ C.state verifier.new) }
    ensures reason { let s = C.state in IfErr result (IsReasonUnder P.Pcs pcs.now batches.items
        P.Domain.size (s prover.old) (s prover.new) (s verifier.new)) }
{
    let committed = commit_batches(alloc, pcs, batches)?;
    let requests = requests_of(alloc, &committed)?;
    let (values, proof) = match open_committed(alloc, pcs, requests, prover) {
        Ok(opened) => opened,
        Err(error) => return Err(RoundTripError::Open(error)),
    };
    let copies = copies_of_batches(alloc, &values)?;
    let claims = claims_of(alloc, known_batches(alloc, committed)?, copies)?;
    match pcs.verify(alloc, claims, &proof, verifier) {
        Ok(()) => Ok(values),
        Err(error) => Err(RoundTripError::Verify(error)),
    }
}

// Opens what was committed to at the points.
fn open_committed<Challenge, C: ChallengerState, P: Pcs<Challenge, C>>(
    alloc: Global,
    pcs: &P,
    requests: Vec<OpeningRequest<'_, P::ProverData, Challenge>>,
    challenger: &mut C,
) -> Result<(OpenedValues<Challenge>, P::Proof), P::ProverError>
where
    Challenge: ExtensionField<<P::Domain as PolynomialSpace>::Val>,
    requires asks { P.open_asks pcs.now requests.items }
    ensures opened { let s = C.state in IfOk result (λ r. P.open_gives pcs.now
        requests.entry.items (s challenger.old) (openings r.0.items) r.1 (s challenger.new)) }
    ensures refused { let s = C.state in IfErr result (P.open_refuses pcs.now
        requests.entry.items (s challenger.old) (s challenger.new)) }
{
    pcs.open(alloc, requests, challenger)
}

// Commits to each batch.
fn commit_batches<Challenge, C: ChallengerState, P: Pcs<Challenge, C>>(
    alloc: Global,
    pcs: &P,
    batches: Vec<
        BatchAtPoints<Challenge, P::Domain, RowMajorMatrix<<P::Domain as PolynomialSpace>::Val>>,
    >,
) -> Result<
    Vec<Committed<Challenge, P::Commitment, P::ProverData, P::Domain>>,
    RoundTripError<P::ProverError, P::Error>,
>
where
    Challenge: ExtensionField<<P::Domain as PolynomialSpace>::Val>,
    requires { All (λ b. P.commit_asks pcs.now b.evaluations.items) batches.items }
    ensures committed { IfOk result (λ v. AreCommitted (P.commits pcs.now) batches.items v.items) }
    ensures refused { IfErr result (IsUncommittedOf (P.commit_refuses pcs.now) batches.items) }
{
    let mut committed = Vec::with_capacity(alloc, batches.len())?;
    for batch in batches {
        push(&mut committed, commit_batch(alloc, pcs, batch)?)?;
    }
    Ok(committed)
}

// Adds an item.
fn push<T: Drop>(items: &mut Vec<T>, item: T) -> Result<(), AllocError>
    ensures { OnOk result (items.new.items ≡ items.old.items ++ item ∷ []) }
{
    items.push(item)?;
    Ok(())
}

// Commits to a batch.
fn commit_batch<Challenge, C: ChallengerState, P: Pcs<Challenge, C>>(
    alloc: Global,
    pcs: &P,
    batch: BatchAtPoints<Challenge, P::Domain, RowMajorMatrix<<P::Domain as PolynomialSpace>::Val>>,
) -> Result<
    Committed<Challenge, P::Commitment, P::ProverData, P::Domain>,
    RoundTripError<P::ProverError, P::Error>,
>
where
    Challenge: ExtensionField<<P::Domain as PolynomialSpace>::Val>,
    requires { P.commit_asks pcs.now batch.evaluations.items }
    ensures committed { IfOk result (IsCommitted (P.commits pcs.now) batch) }
    ensures refused { IfErr result (IsUncommitted (P.commit_refuses pcs.now) batch) }
{
    let domains = domains_of(alloc, &batch.evaluations)?;
    let (commitment, prover_data) = match pcs.commit(alloc, batch.evaluations) {
        Ok(committed) => committed,
        Err(error) => return Err(RoundTripError::Commit(error)),
    };
    let known = CommittedBatch {
        commitment,
        domains,
        points: batch.points,
    };
    Ok(Committed { known, prover_data })
}

// The domains of a batch.
fn domains_of<D: Copy, M>(alloc: Global, batch: &[(D, M)]) -> Result<Vec<D>, AllocError>
    ensures { IfOk result (λ domains. domains.items ≡ map (λ m. m.0) batch.now) }
{
    let mut domains = Vec::with_capacity(alloc, batch.len())?;
    for given in batch {
        domains.push(given.0)?;
    }
    Ok(domains)
}

// Requests to open what was committed to at the points.
fn requests_of<'a, E: Copy, Com, Data, D>(
    alloc: Global,
    committed: &'a [Committed<E, Com, Data, D>],
) -> Result<Vec<OpeningRequest<'a, Data, E>>, AllocError>
    ensures kept { IfOk result (λ v. map (λ r. r.prover_data.now) v.items
        ≡ map (λ c. c.prover_data) committed.now) }
    ensures points { IfOk result (λ v. map requested_points v.items
        ≡ map (λ c. lists c.known.points) committed.now) }
{
    let mut requests = Vec::with_capacity(alloc, committed.len())?;
    for batch in committed {
        requests.push(OpeningRequest {
            prover_data: &batch.prover_data,
            points: copies_of(alloc, &batch.known.points)?,
        })?;
    }
    Ok(requests)
}

// Vectors of the same items.
fn copies_of<E: Copy>(alloc: Global, vectors: &[Vec<E>]) -> Result<Vec<Vec<E>>, AllocError>
    ensures { IfOk result (λ copies. map (λ v. v.items) copies.items
        ≡ map (λ v. v.items) vectors.now) }
{
    let mut copies = Vec::with_capacity(alloc, vectors.len())?;
    for vector in vectors {
        copies.push(Vec::from_slice(alloc, vector)?)?;
    }
    Ok(copies)
}

// What a verifier knows of the batches.
fn known_batches<E: Copy, Com: Drop, Data: Drop, D: Copy>(
    alloc: Global,
    committed: Vec<Committed<E, Com, Data, D>>,
) -> Result<Vec<CommittedBatch<E, Com, D>>, AllocError>
    ensures { IfOk result (λ known. known.items ≡ map (λ c. c.known) committed.items) }
{
    let mut known = Vec::with_capacity(alloc, committed.len())?;
    for batch in committed {
        known.push(batch.known)?;
    }
    Ok(known)
}

// Opened values of a batch, copied.
fn copies_of_rows<E: Copy>(
    alloc: Global,
    matrices: &[OpenedValuesForMatrix<E>],
) -> Result<OpenedValuesForRound<E>, AllocError>
    ensures { IfOk result (λ copies. opened_rows copies.items ≡ opened_rows matrices.now) }
{
    let mut copies = Vec::with_capacity(alloc, matrices.len())?;
    for matrix in matrices {
        copies.push(copies_of(alloc, matrix)?)?;
    }
    Ok(copies)
}

// Opened values, copied.
fn copies_of_batches<E: Copy>(
    alloc: Global,
    batches: &[OpenedValuesForRound<E>],
) -> Result<OpenedValues<E>, AllocError>
    ensures { IfOk result (λ copies. openings copies.items ≡ openings batches.now) }
{
    let mut copies = Vec::with_capacity(alloc, batches.len())?;
    for batch in batches {
        copies.push(copies_of_rows(alloc, batch)?)?;
    }
    Ok(copies)
}
