//! Calls of the scheme, on one batch of a column of 4 rows and one of 16, each opened at two
//! points.
ghost use Rattle.std.specs.Prelude.{◌≡◌};

use crate::plane::{Domain, Rows, column, cubic};
use crate::told::{Stage, Told, shown, told, unfit};
use anyhow::Result;
use circle_challenger::{CanObserve, CanSample, Sha256Challenger};
use circle_commit::{FriParameters, OpenedValues, OpeningRequest};
use circle_field::{Cubic, Mersenne31};
use circle_json::JsonForm;
use circle_presets::{Claim, Commitment, Known, Proof, ProverData, Request, Scheme};
use p3_circle::{BatchAtPoints, claims_of, heights_match_domains};
use std::alloc::{AllocError, Global};

type Opened = (OpenedValues<Cubic>, Proof);

/// The parameters: twice as many rows are committed to as there are, and 40 of them are queried.
pub fn params() -> FriParameters<()>
    ensures blowup { result.log_blowup ≡ 1 }
    ensures final_poly { result.log_final_poly_len ≡ 0 }
{
    FriParameters {
        log_blowup: 1,
        log_final_poly_len: 0,
        max_log_arity: 1,
        num_queries: 40,
        batch_proof_of_work_bits: 0,
        commit_proof_of_work_bits: 0,
        query_proof_of_work_bits: 0,
        mmcs: (),
    }
}

/// The scheme with these parameters.
pub fn scheme() -> Scheme {
    circle_presets::scheme(params())
}

/// The challenger that absorbed the commitment.
pub fn after_commitment(commitment: &Commitment) -> Sha256Challenger {
    let mut challenger = Sha256Challenger::new();
    challenger.observe(commitment);
    challenger
}

// The points that each matrix is opened at.
fn points() -> [Cubic; 2] {
    [cubic([0, 1, 0]), cubic([0, 0, 1])]
}

// The domains of the matrices.
fn domains() -> [Domain; 2] {
    [Domain::standard(2), Domain::standard(4)]
}

// The matrices with their domains.
fn batch(alloc: Global) -> Result<Vec<(Domain, Rows)>, AllocError> {
    let [low, tall] = domains();
    Ok(vec![in alloc; (low, column(alloc, 4)?), (tall, column(alloc, 16)?)]?)
}

/// The commitment to the matrices, and what the prover keeps.
pub fn committed(alloc: Global, stage: Stage) -> Result<(Commitment, ProverData)> {
    let evaluations = batch(alloc)?;
    if !heights_match_domains(&evaluations) {
        return unfit("there is not one row for each point");
    }
    stage.begin()?;
    Ok(scheme().commit(alloc, evaluations)?)
}

/// The first number of a digest.
pub fn number(digest: &[u8; 32]) -> u32 {
    u32::from_be_bytes([digest[0], digest[1], digest[2], digest[3]])
}

/// `CirclePcs::commit`.
pub fn commit(alloc: Global, stage: Stage) -> Result<Told> {
    let (commitment, _) = committed(alloc, stage)?;
    Ok(told(number(&commitment)))
}

/// The request to open the matrices.
pub fn requests(alloc: Global, data: &ProverData) -> Result<Vec<Request<'_>>, AllocError> {
    let points = points();
    let request = OpeningRequest {
        prover_data: data,
        points: vec![in alloc;
            Vec::from_slice(alloc, &points)?,
            Vec::from_slice(alloc, &points)?,
        ]?,
    };
    Ok(vec![in alloc; request]?)
}

// Opens the matrices, after a test of what that requires.
fn open_requests(
    alloc: Global,
    requests: Vec<Request<'_>>,
    challenger: &mut Sha256Challenger,
) -> Result<Opened> {
    let pcs = scheme();
    if !pcs.have_heights_of_powers(&requests) {
        return unfit("a height is no power of two");
    }
    Ok(pcs.open(alloc, requests, challenger)?)
}

/// The opened values and the proof of them.
pub fn opened(alloc: Global, commitment: &Commitment, data: &ProverData) -> Result<Opened> {
    let requests = requests(alloc, data)?;
    open_requests(alloc, requests, &mut after_commitment(commitment))
}

// The number that a challenger draws which absorbs the values and the proof as JSON.
fn number_of(alloc: Global, opened: Result<Opened>) -> Result<u32> {
    let (values, proof) = opened?;
    let mut challenger = Sha256Challenger::new();
    challenger.observe_bytes(values.to_json(alloc)?.to_string(alloc)?.as_bytes());
    challenger.observe_bytes(proof.to_json(alloc)?.to_string(alloc)?.as_bytes());
    let drawn: Mersenne31 = challenger.sample();
    Ok(drawn.value())
}

/// `CirclePcs::open`, with what is opened of the same matrices afterwards.
pub fn open(alloc: Global, stage: Stage) -> Result<Told> {
    let (commitment, data) = committed(alloc, Stage::Whole)?;
    let requests = requests(alloc, &data)?;
    let mut challenger = after_commitment(&commitment);
    stage.begin()?;
    let first = open_requests(alloc, requests, &mut challenger);
    stage.end()?;
    let answer = shown(number_of(alloc, first));
    let again = number_of(alloc, opened(alloc, &commitment, &data))?;
    Ok(Told::of(format_args!("{}, again {again}", answer.as_str())))
}

/// The claims that the matrices have these values.
pub fn claims(
    alloc: Global,
    commitment: Commitment,
    values: OpenedValues<Cubic>,
) -> Result<Vec<Claim>> {
    let points = points();
    let known = Known {
        commitment,
        domains: Vec::from_slice(alloc, &domains())?,
        points: vec![in alloc;
            Vec::from_slice(alloc, &points)?,
            Vec::from_slice(alloc, &points)?,
        ]?,
    };
    Ok(claims_of(alloc, vec![in alloc; known]?, values)?)
}

/// `CirclePcs::verify`.
pub fn verify(alloc: Global, stage: Stage) -> Result<Told> {
    let (commitment, data) = committed(alloc, Stage::Whole)?;
    let (values, proof) = opened(alloc, &commitment, &data)?;
    let claims = claims(alloc, commitment, values)?;
    let mut challenger = after_commitment(&commitment);
    stage.begin()?;
    scheme().verify(alloc, claims, &proof, &mut challenger)?;
    Ok(told("accepted"))
}

/// `CirclePcs::round_trip` of one column at one point.
pub fn round_trip(alloc: Global, stage: Stage) -> Result<Told> {
    let evaluations = vec![in alloc; (Domain::standard(2), column(alloc, 4)?)]?;
    if evaluations.len() != 1 || !heights_match_domains(&evaluations) {
        return unfit("there is not one row for each point");
    }
    let [point, _] = points();
    let batch = BatchAtPoints {
        evaluations,
        points: vec![in alloc; vec![in alloc; point]?]?,
    };
    let batches = vec![in alloc; batch]?;
    let (mut prover, mut verifier) = (Sha256Challenger::new(), Sha256Challenger::new());
    stage.begin()?;
    let values = scheme().round_trip(alloc, batches, &mut prover, &mut verifier)?;
    Ok(told(values.len()))
}
