//! Lines about the whole scheme: what the proofs of matrices come to, whether they are accepted,
//! and how long both take, and opening alone.
use crate::commitments::{Hash, number, numbers};
use crate::compressions::{self, Proved};
use crate::evaluations::coefficients;
use crate::timing::{self, Mode};
use crate::transforms::Size;
use circle_challenger::{CanObserve, Sha256Challenger};
use circle_commit::{FriError, FriParameters, OpenedValues, OpeningRequest, RowMajorMatrix};
use circle_field::{Cubic, ExtensionField, Field, Mersenne31};
use circle_presets::{Claim, Domain, Known, Proof, ProverData, Request, Scheme, scheme};
use p3_circle::{CircleDomain, ProverError, claims_of, heights_match_domains};
use std::alloc::{AllocError, Global};
use std::io::{self, ErrorKind};
use std::time::{Duration, Instant};

/// How many times a matrix is proved, and how many times a proof is verified, when that is timed.
const PROOFS: usize = 5;

const VERIFICATIONS: usize = 50;

/// Matrices of [`Mersenne31`].
type Rows = RowMajorMatrix<Mersenne31>;

/// A matrix, and the points that it is opened at.
#[derive(Drop)]
struct Statement<'a> {
    size: Size,
    matrix: &'a Rows,
    points: &'a [Cubic],
}

/// A matrix of this size that was committed to.
#[derive(Drop)]
struct Committed {
    size: Size,
    commitment: Hash,
    data: ProverData,
}

/// What is published of a statement.
#[derive(Drop)]
struct Opened {
    commitment: Hash,
    values: OpenedValues<Cubic>,
    proof: Proof,
}

/// Prints the lines of a matrix of each size, opened at one point and at two.
pub fn report(
    rt: &HostRuntime,
    mode: Mode,
    sizes: &[Size],
    start: Mersenne31,
    step: Mersenne31,
) -> io::Result<()> {
    let points = points(start, step);
    for size in sizes {
        let matrix = &size.matrix(rt.alloc(), start, step)?;
        report_at(rt, mode, *size, matrix, &points[..1])?;
        report_at(rt, mode, *size, matrix, &points)?;
    }
    Ok(())
}

/// Prints a line for opening what was committed to of a matrix of each size, at one point and at
/// two.
pub fn report_opening(
    rt: &HostRuntime,
    mode: Mode,
    sizes: &[Size],
    start: Mersenne31,
    step: Mersenne31,
) -> io::Result<()> {
    let points = points(start, step);
    let pcs = scheme(PARAMETERS);
    for size in sizes {
        let matrix = size.matrix(rt.alloc(), start, step)?;
        let committed = &commit_matrix(rt.alloc(), &pcs, *size, matrix)?;
        report_opening_at(rt, mode, &pcs, committed, &points[..1])?;
        report_opening_at(rt, mode, &pcs, committed, &points)?;
    }
    Ok(())
}

/// Commits to the matrix of a size.
fn commit_matrix(alloc: Global, pcs: &Scheme, size: Size, matrix: Rows) -> io::Result<Committed> {
    let (commitment, data) = commit(alloc, pcs, evaluations(alloc, size, matrix)?)?;
    Ok(Committed {
        size,
        commitment,
        data,
    })
}

/// Prints a line for opening what was committed to at the points.
fn report_opening_at(
    rt: &HostRuntime,
    mode: Mode,
    pcs: &Scheme,
    committed: &Committed,
    points: &[Cubic],
) -> io::Result<()> {
    let mut best = Duration::MAX;
    let mut last = 0;
    for _ in 0..timing::runs(mode, PROOFS) {
        let (time, digest) = open_once(rt, pcs, committed, points)?;
        best = best.min(time);
        last = digest;
    }
    print_line(rt, mode, "open", committed.size, points.len(), best, last)
}

/// The time of one opening at the points, and the digest of what it comes to.
fn open_once(
    rt: &HostRuntime,
    pcs: &Scheme,
    committed: &Committed,
    points: &[Cubic],
) -> io::Result<(Duration, u64)> {
    let commitment = &committed.commitment;
    let begin = Instant::now(rt)?;
    let (_values, proof) = open(rt.alloc(), pcs, commitment, &committed.data, points)?;
    let time = begin.elapsed(rt)?;
    Ok((time, digest(rt.alloc(), commitment, &proof)?))
}

/// Prints the line of a pass over a matrix at these points.
fn print_line(
    rt: &HostRuntime,
    mode: Mode,
    name: &str,
    size: Size,
    points: usize,
    time: Duration,
    digest: u64,
) -> io::Result<()> {
    let (rows, width) = (size.rows(), size.width);
    print!(rt; "CirclePcs {name} {rows} x {width} at {points}: ")?;
    timing::print_result(rt, mode, time, digest)
}

/// Two points off the base field, and so off each domain.
pub fn points(start: Mersenne31, step: Mersenne31) -> [Cubic; 2] {
    let square = start.square();
    [
        Cubic::from_coefficients(&[start, step, square]),
        Cubic::from_coefficients(&[step, square, step.square()]),
    ]
}

/// Prints a line for proving the values of a matrix at the points, and one for verifying them.
fn report_at(
    rt: &HostRuntime,
    mode: Mode,
    size: Size,
    matrix: &Rows,
    points: &[Cubic],
) -> io::Result<()> {
    let statement = Statement {
        size,
        matrix,
        points,
    };
    let (time, opened) = prove(rt, mode, &statement)?;
    report_proof(rt, mode, &statement, time, &opened)?;
    let (time, accepted) = verify(rt, mode, &statement, &opened)?;
    print_line(
        rt,
        mode,
        "verify",
        size,
        points.len(),
        time,
        u64::from(accepted),
    )
}

/// Prints the line of a proof, and the one of the compressions that it asks for.
fn report_proof(
    rt: &HostRuntime,
    mode: Mode,
    statement: &Statement,
    time: Duration,
    opened: &Opened,
) -> io::Result<()> {
    let (size, points) = (statement.size, statement.points.len());
    let digest = digest(rt.alloc(), &opened.commitment, &opened.proof)?;
    print_line(rt, mode, "prove", size, points, time, digest)?;
    let proved = Proved {
        size,
        points,
        log_blowup: PARAMETERS.log_blowup,
        num_queries: PARAMETERS.num_queries,
    };
    compressions::report(rt, mode, proved, time)
}

/// Twice as many rows are committed to as there are, and 40 of them are queried.
pub const PARAMETERS: FriParameters<()> = FriParameters {
    log_blowup: 1,
    log_final_poly_len: 0,
    max_log_arity: 1,
    num_queries: 40,
    batch_proof_of_work_bits: 0,
    commit_proof_of_work_bits: 0,
    query_proof_of_work_bits: 0,
    mmcs: (),
};

/// The challenger that prover and verifier begin with.
fn after_commitment(commitment: &Hash) -> Sha256Challenger {
    let mut challenger = Sha256Challenger::new();
    challenger.observe(commitment);
    challenger
}

/// The shortest time of a proof, and the last one.
fn prove(rt: &HostRuntime, mode: Mode, statement: &Statement) -> io::Result<(Duration, Opened)> {
    let (mut best, mut opened) = prove_once(rt, statement)?;
    for _ in 1..timing::runs(mode, PROOFS) {
        let (time, next) = prove_once(rt, statement)?;
        best = best.min(time);
        opened = next;
    }
    Ok((best, opened))
}

/// The time of one commitment to a copy of the matrix and its opening, and what they come to.
fn prove_once(rt: &HostRuntime, statement: &Statement) -> io::Result<(Duration, Opened)> {
    let pcs = scheme(PARAMETERS);
    let copy = statement.matrix.try_clone(rt.alloc())?;
    let evaluations = evaluations(rt.alloc(), statement.size, copy)?;
    let begin = Instant::now(rt)?;
    let opened = commit_and_open(rt.alloc(), &pcs, evaluations, statement.points)?;
    Ok((begin.elapsed(rt)?, opened))
}

/// Commits to matrices on domains, and opens them at the points.
fn commit_and_open(
    alloc: Global,
    pcs: &Scheme,
    evaluations: Vec<(Domain, Rows)>,
    points: &[Cubic],
) -> io::Result<Opened> {
    let (commitment, data) = commit(alloc, pcs, evaluations)?;
    let (values, proof) = open(alloc, pcs, &commitment, &data, points)?;
    Ok(Opened {
        commitment,
        values,
        proof,
    })
}

/// The matrix of a size on its domain, a batch of its own.
fn evaluations(alloc: Global, size: Size, matrix: Rows) -> Result<Vec<(Domain, Rows)>, AllocError> {
    Ok(vec![in alloc; (CircleDomain::standard(size.log_rows), matrix)]?)
}

/// Commits to matrices on domains.
pub fn commit(
    alloc: Global,
    pcs: &Scheme,
    evaluations: Vec<(Domain, Rows)>,
) -> io::Result<(Hash, ProverData)> {
    if !heights_match_domains(&evaluations) {
        return Err(io::Error::from(ErrorKind::InvalidInput));
    }
    pcs.commit(alloc, evaluations).map_err(failure)
}

/// The values at the points of what was committed to, and the proof of them.
fn open(
    alloc: Global,
    pcs: &Scheme,
    commitment: &Hash,
    data: &ProverData,
    points: &[Cubic],
) -> io::Result<(OpenedValues<Cubic>, Proof)> {
    let requests = requests(alloc, data, points)?;
    if !pcs.have_heights_of_powers(&requests) {
        return Err(io::Error::from(ErrorKind::InvalidInput));
    }
    let mut challenger = after_commitment(commitment);
    pcs.open(alloc, requests, &mut challenger).map_err(failure)
}

/// The request to open one matrix at the points.
fn requests<'a>(
    alloc: Global,
    prover_data: &'a ProverData,
    points: &[Cubic],
) -> Result<Vec<Request<'a>>, AllocError> {
    let points = points_of_batch(alloc, points)?;
    Ok(vec![in alloc;
        OpeningRequest {
            prover_data,
            points
        },
    ]?)
}

/// The points of the only matrix of a batch.
fn points_of_batch(alloc: Global, points: &[Cubic]) -> Result<Vec<Vec<Cubic>>, AllocError> {
    Ok(vec![in alloc; Vec::from_slice(alloc, points)?]?)
}

/// The failure where a prover's call is refused.
pub fn failure(error: ProverError) -> io::Error {
    match error {
        ProverError::Memory => io::Error::from(AllocError),
        _ => io::Error::from(ErrorKind::InvalidInput),
    }
}

/// The shortest time of a verification, and whether the verifier accepted each time.
fn verify(
    rt: &HostRuntime,
    mode: Mode,
    statement: &Statement,
    opened: &Opened,
) -> io::Result<(Duration, bool)> {
    let pcs = scheme(PARAMETERS);
    let mut best = Duration::MAX;
    let mut accepted = true;
    for _ in 0..timing::runs(mode, VERIFICATIONS) {
        let claims = claims(rt.alloc(), statement, opened)?;
        let begin = Instant::now(rt)?;
        let mut challenger = after_commitment(&opened.commitment);
        let verdict = is_accepted(rt.alloc(), &pcs, claims, &opened.proof, &mut challenger)?;
        best = best.min(begin.elapsed(rt)?);
        accepted = accepted && verdict;
    }
    Ok((best, accepted))
}

/// Whether the verifier accepts the claims.
pub fn is_accepted(
    alloc: Global,
    pcs: &Scheme,
    claims: Vec<Claim>,
    proof: &Proof,
    challenger: &mut Sha256Challenger,
) -> io::Result<bool> {
    match pcs.verify(alloc, claims, proof, challenger) {
        Err(FriError::Memory) => Err(io::Error::from(AllocError)),
        verdict => Ok(verdict.is_ok()),
    }
}

/// The claims that the columns have the opened values at the points.
fn claims(alloc: Global, statement: &Statement, opened: &Opened) -> io::Result<Vec<Claim>> {
    let known = Known {
        commitment: opened.commitment,
        domains: vec![in alloc; CircleDomain::standard(statement.size.log_rows)]?,
        points: points_of_batch(alloc, statement.points)?,
    };
    Ok(claims_of(alloc, vec![in alloc; known]?, opened.values.clone()?)?)
}

/// The sum of the numbers of all commitments and of the digests beside the first layer's rows, and
/// of the residues of the lambdas and of the final polynomial's coefficients.
fn digest(alloc: Global, commitment: &Hash, proof: &Proof) -> Result<u64, AllocError> {
    let fri = &proof.fri_proof;
    Ok(
        number(commitment)
            .wrapping_add(number(&proof.first_layer_commitment))
            .wrapping_add(numbers(&fri.commit_phase_commits))
            .wrapping_add(numbers(&fri.input_openings.first_layer_proof))
            .wrapping_add(residues(alloc, &proof.lambdas)?)
            .wrapping_add(residues(alloc, &fri.final_poly)?),
    )
}

/// The sum of the residues of the elements' coefficients.
fn residues(alloc: Global, elements: &[Cubic]) -> Result<u64, AllocError> {
    let mut sum = 0u64;
    for coefficient in &coefficients(alloc, elements)? {
        sum = sum.wrapping_add(u64::from(coefficient.value()));
    }
    Ok(sum)
}
