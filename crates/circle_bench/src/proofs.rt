//! Lines about a stored proof: whether it is accepted, and how long reading and verifying it take.
use crate::openings;
use crate::timing::{self, Mode};
use circle_challenger::{CanObserve, Sha256Challenger};
use circle_commit::{CommitmentOpening, FriParameters, MatrixOpening};
use circle_json::{JsonForm, member};
use circle_presets::{Claim, ClaimOn, Proof, scheme};
use p3_circle::{CircleDomain, Neutral, Point};
use serde_json::Value;
use std::alloc::{AllocError, Global};
use std::fs;
use std::io::{self, ErrorKind};
use std::time::{Duration, Instant};

/// What the lines call the proof: two batches with proofs of work.
const NAME: &str = "two_batches_with_work";

/// The file of the claims, the parameters and the proof, where the program is run beside it.
const FILE: &str = "two_batches_with_work.verify.json";

/// The file where the program is run in the crate's folder.
const FILE_OF_CRATE: &str = "data/two_batches_with_work.verify.json";

/// How many times the proof is read and verified when that is timed.
const RUNS: usize = 50;

/// What the verifier is handed.
#[derive(Drop)]
struct Input {
    claims: Vec<ClaimOn<usize>>,
    params: FriParameters<()>,
    proof: Proof,
}

/// Prints a line for reading the proof, one for verifying it, and one for both.
pub fn report(rt: &HostRuntime, mode: Mode) -> io::Result<()> {
    let ([reading, verifying, both], accepted) = fastest(rt, mode)?;
    print_line(rt, mode, "read", reading, accepted)?;
    print_line(rt, mode, "verify", verifying, accepted)?;
    print_line(rt, mode, "read and verify", both, accepted)
}

/// The shortest times of reading, of verifying and of both, and whether the proof was accepted each
/// time.
fn fastest(rt: &HostRuntime, mode: Mode) -> io::Result<([Duration; 3], bool)> {
    let text = text(rt)?;
    let mut best = [Duration::MAX; 3];
    let mut accepted = true;
    for _ in 0..timing::runs(mode, RUNS) {
        let ([reading, verifying, both], is_accepted) = read_and_verify(rt, &text)?;
        best = [
            best[0].min(reading),
            best[1].min(verifying),
            best[2].min(both),
        ];
        accepted = accepted && is_accepted;
    }
    Ok((best, accepted))
}

/// The text of the file.
fn text(rt: &HostRuntime) -> io::Result<Vec<u8>> {
    match fs::read(rt, FILE) {
        Ok(text) => Ok(text),
        Err(_) => fs::read(rt, FILE_OF_CRATE),
    }
}

/// The times of reading the proof once, of verifying it and of both, and whether it was accepted.
fn read_and_verify(rt: &HostRuntime, text: &[u8]) -> io::Result<([Duration; 3], bool)> {
    let begin = Instant::now(rt)?;
    let input = read(rt.alloc(), text)?;
    let reading = begin.elapsed(rt)?;
    let middle = Instant::now(rt)?;
    let accepted = is_accepted(rt.alloc(), input)?;
    let verifying = middle.elapsed(rt)?;
    Ok(([reading, verifying, begin.elapsed(rt)?], accepted))
}

/// Prints the line of a pass: 1 where the proof was accepted each time, else 0.
fn print_line(
    rt: &HostRuntime,
    mode: Mode,
    name: &str,
    time: Duration,
    accepted: bool,
) -> io::Result<()> {
    print!(rt; "CirclePcsProof {name} {NAME}: ")?;
    timing::print_result(rt, mode, time, u64::from(accepted))
}

/// What a text of JSON stands for.
fn read(alloc: Global, text: &[u8]) -> io::Result<Input> {
    let Ok(value) = Value::from_slice(alloc, text) else {
        return Err(unreadable());
    };
    Ok(Input {
        claims: part(alloc, &value, "batches")?,
        params: part(alloc, &value, "params")?,
        proof: part(alloc, &value, "proof")?,
    })
}

/// What the member of an object with this key stands for.
fn part<T: JsonForm>(alloc: Global, value: &Value, key: &str) -> io::Result<T> {
    match member(alloc, value, key) {
        Ok(part) => Ok(part),
        Err(_) => Err(unreadable()),
    }
}

/// The failure of a text that isn't a proof.
fn unreadable() -> io::Error {
    io::Error::from(ErrorKind::InvalidData)
}

/// Whether the verifier accepts.
fn is_accepted(alloc: Global, input: Input) -> io::Result<bool> {
    let mut challenger = Sha256Challenger::new();
    let claims = observed(alloc, input.claims, &mut challenger)?;
    let pcs = scheme(input.params);
    openings::is_accepted(alloc, &pcs, claims, &input.proof, &mut challenger)
}

/// The claims, whose commitments the challenger absorbs.
fn observed(
    alloc: Global,
    claims: Vec<ClaimOn<usize>>,
    challenger: &mut Sha256Challenger,
) -> Result<Vec<Claim>, AllocError> {
    let mut observed = Vec::with_capacity(alloc, claims.len())?;
    for claim in claims {
        challenger.observe(&claim.commitment);
        observed.push(placed(alloc, claim)?)?;
    }
    Ok(observed)
}

/// The claims about domains of these sizes; only their sizes count.
fn placed(alloc: Global, claim: ClaimOn<usize>) -> Result<Claim, AllocError> {
    let mut matrices = Vec::with_capacity(alloc, claim.matrices.len())?;
    for matrix in claim.matrices {
        matrices.push(MatrixOpening {
            domain: CircleDomain::new(matrix.domain, Point::ZERO),
            points: matrix.points,
        })?;
    }
    Ok(CommitmentOpening {
        commitment: claim.commitment,
        matrices,
    })
}
