//! Lines about proofs of traces: the values of a quotient, proving and verifying, and beside these
//! the same two commitments and the same opening alone.
use crate::commitments::Hash;
use crate::openings::{self, PARAMETERS, failure, is_accepted};
use crate::quotients::{extended, quotient};
use crate::timing::{self, Mode};
use crate::transforms::Size;
use circle_air::Air;
use circle_airs::Trace;
use circle_challenger::{CanObserve, Sha256Challenger};
use circle_commit::{Matrix, OpenedValues, RowMajorMatrix};
use circle_field::{Cubic, Field, Mersenne31};
use circle_presets::{
    Challenge, ChallengeMmcs, Challenger, Claim, Domain, Known, Proof, ProverData, Request, Scheme,
    ValMmcs, scheme,
};
use circle_quotient::chunks::quotient_chunks;
use circle_stark::{StarkProof, StarkStatement, StarkTrace, prove, verify};
use p3_circle::{CircleDomain, claims_of};
use std::alloc::{AllocError, Global};
use std::io::{self, ErrorKind};
use std::time::{Duration, Instant};

/// How many times a proof is made, and how many times it is verified, when that is timed.
const PROOFS: usize = 5;

const VERIFICATIONS: usize = 50;

/// Matrices of [`Mersenne31`].
type Rows = RowMajorMatrix<Mersenne31>;

/// A proof of a trace.
type Proved = StarkProof<Mersenne31, Challenge, ValMmcs, ChallengeMmcs>;

/// A trace that satisfies an AIR, with the challenge and the points that stand for drawn ones.
#[derive(Clone, Copy)]
pub struct Statement<'a> {
    /// What the lines call the AIR.
    pub name: &'a str,
    pub size: Size,
    pub air: &'a Air<Mersenne31>,
    pub trace: &'a Trace<Mersenne31>,
    /// The challenge that puts the constraints together.
    pub alpha: Cubic,
    /// The points that the trace is opened at; the chunks are opened at the first.
    pub points: [Cubic; 2],
}

impl<'a> Statement<'a> {
    /// The statement of a trace, with points of which the second is the challenge too.
    pub fn new(
        name: &'a str,
        size: Size,
        air: &'a Air<Mersenne31>,
        trace: &'a Trace<Mersenne31>,
        points: [Cubic; 2],
    ) -> Self {
        Statement {
            name,
            size,
            air,
            trace,
            alpha: points[1],
            points,
        }
    }
}

/// What is published of a trace and its chunks by the scheme alone.
#[derive(Drop)]
struct Opened {
    commitments: [Hash; 2],
    values: OpenedValues<Cubic>,
    proof: Proof,
}

/// Prints the lines of a trace.
pub fn report(rt: &HostRuntime, mode: Mode, statement: &Statement) -> io::Result<()> {
    report_quotient(rt, mode, statement)?;
    let (time, proof) = time_proving(rt, mode, statement)?;
    let (verifying, accepted) = time_verifying(rt, mode, statement, &proof)?;
    print_line(rt, mode, "prove", statement, time, u64::from(accepted))?;
    print_line(
        rt,
        mode,
        "verify",
        statement,
        verifying,
        u64::from(accepted),
    )?;
    let (time, opened) = time_opening(rt, mode, statement)?;
    let (verifying, accepted) = time_claims(rt, mode, statement, &opened)?;
    print_line(
        rt,
        mode,
        "commit and open",
        statement,
        time,
        u64::from(accepted),
    )?;
    print_line(
        rt,
        mode,
        "verify openings of",
        statement,
        verifying,
        u64::from(accepted),
    )
}

/// Prints the line of a pass over a trace.
fn print_line(
    rt: &HostRuntime,
    mode: Mode,
    pass: &str,
    statement: &Statement,
    time: Duration,
    digest: u64,
) -> io::Result<()> {
    let (rows, width) = (statement.size.rows(), statement.air.width());
    print!(rt; "Stark {pass} {} {rows} x {width}: ", statement.name)?;
    timing::print_result(rt, mode, time, digest)
}

/// Prints the lines of the trace's values on the quotient's domain and of the quotient's there.
fn report_quotient(rt: &HostRuntime, mode: Mode, statement: &Statement) -> io::Result<()> {
    let (mut extending, mut dividing) = (Duration::MAX, Duration::MAX);
    let (mut height, mut count) = (0, 0);
    for _ in 0..timing::runs(mode, PROOFS) {
        let rows = statement.trace.rows.try_clone(rt.alloc())?;
        let begin = Instant::now(rt)?;
        let rows = extended(rt.alloc(), statement, rows)?;
        extending = extending.min(begin.elapsed(rt)?);
        let begin = Instant::now(rt)?;
        count = quotient(rt.alloc(), statement, &rows)?.len();
        dividing = dividing.min(begin.elapsed(rt)?);
        height = rows.height();
    }
    print_line(rt, mode, "extend", statement, extending, height as u64)?;
    print_line(rt, mode, "quotient", statement, dividing, count as u64)
}

/// The shortest time of a proof, and the last one.
fn time_proving(
    rt: &HostRuntime,
    mode: Mode,
    statement: &Statement,
) -> io::Result<(Duration, Proved)> {
    let (mut best, mut proof) = prove_once(rt, statement)?;
    for _ in 1..timing::runs(mode, PROOFS) {
        let (time, next) = prove_once(rt, statement)?;
        best = best.min(time);
        proof = next;
    }
    Ok((best, proof))
}

/// The time of one proof, and the proof.
fn prove_once(rt: &HostRuntime, statement: &Statement) -> io::Result<(Duration, Proved)> {
    let pcs = scheme(PARAMETERS);
    let trace = StarkTrace {
        air: statement.air,
        rows: statement.trace.rows.try_clone(rt.alloc())?,
        public_values: &statement.trace.public_values,
    };
    let begin = Instant::now(rt)?;
    match prove(rt.alloc(), &pcs, trace, &mut Challenger::new()) {
        Ok(proof) => Ok((begin.elapsed(rt)?, proof)),
        Err(_) => Err(io::Error::from(ErrorKind::InvalidInput)),
    }
}

/// The shortest time of a verification, and whether the verifier accepted each time.
fn time_verifying(
    rt: &HostRuntime,
    mode: Mode,
    statement: &Statement,
    proof: &Proved,
) -> io::Result<(Duration, bool)> {
    let pcs = scheme(PARAMETERS);
    let (mut best, mut accepted) = (Duration::MAX, true);
    for _ in 0..timing::runs(mode, VERIFICATIONS) {
        let stated = StarkStatement {
            air: statement.air,
            log_n: statement.size.log_rows,
            public_values: &statement.trace.public_values,
        };
        let begin = Instant::now(rt)?;
        let verdict = verify(rt.alloc(), &pcs, stated, proof, &mut Challenger::new());
        best = best.min(begin.elapsed(rt)?);
        accepted = accepted && verdict.is_ok();
    }
    Ok((best, accepted))
}

/// The chunks of the trace's quotient, with their domains.
fn chunks(alloc: Global, statement: &Statement) -> io::Result<Vec<(Domain, Rows)>> {
    let log_n = statement.size.log_rows;
    let log_num_chunks = statement.air.log_num_quotient_chunks();
    let rows = extended(alloc, statement, statement.trace.rows.try_clone(alloc)?)?;
    let values = quotient(alloc, statement, &rows)?;
    if log_num_chunks > 4 || values.len() != 1 << (log_n + log_num_chunks) {
        return Err(io::Error::from(ErrorKind::InvalidInput));
    }
    Ok(quotient_chunks::<Mersenne31, Cubic>(alloc, log_n, log_num_chunks, values)?)
}

/// The shortest time of both commitments and the opening, and what the last ones come to.
fn time_opening(
    rt: &HostRuntime,
    mode: Mode,
    statement: &Statement,
) -> io::Result<(Duration, Opened)> {
    let (mut best, mut opened) = open_once(rt, statement)?;
    for _ in 1..timing::runs(mode, PROOFS) {
        let (time, next) = open_once(rt, statement)?;
        best = best.min(time);
        opened = next;
    }
    Ok((best, opened))
}

/// The time of both commitments and the opening, and what they come to.
fn open_once(rt: &HostRuntime, statement: &Statement) -> io::Result<(Duration, Opened)> {
    let pcs = scheme(PARAMETERS);
    let domain = CircleDomain::standard(statement.size.log_rows);
    let rows = statement.trace.rows.try_clone(rt.alloc())?;
    let trace = vec![in rt.alloc(); (domain, rows)]?;
    let chunks = chunks(rt.alloc(), statement)?;
    let begin = Instant::now(rt)?;
    let opened = commit_and_open(rt.alloc(), &pcs, trace, chunks, &statement.points)?;
    Ok((begin.elapsed(rt)?, opened))
}

/// Commits to a trace and to chunks, and opens the trace at both points and each chunk at the
/// first.
fn commit_and_open(
    alloc: Global,
    pcs: &Scheme,
    trace: Vec<(Domain, Rows)>,
    chunks: Vec<(Domain, Rows)>,
    points: &[Cubic; 2],
) -> io::Result<Opened> {
    let num_chunks = chunks.len();
    let (of_trace, trace_data) = openings::commit(alloc, pcs, trace)?;
    let (of_chunks, chunk_data) = openings::commit(alloc, pcs, chunks)?;
    let commitments = [of_trace, of_chunks];
    let requests = requests(alloc, &trace_data, &chunk_data, num_chunks, points)?;
    if !pcs.have_heights_of_powers(&requests) {
        return Err(io::Error::from(ErrorKind::InvalidInput));
    }
    let mut challenger = after_commitments(&commitments);
    let (values, proof) = pcs.open(alloc, requests, &mut challenger).map_err(failure)?;
    Ok(Opened {
        commitments,
        values,
        proof,
    })
}

/// The requests to open a trace and its chunks.
fn requests<'a>(
    alloc: Global,
    trace: &'a ProverData,
    chunks: &'a ProverData,
    num_chunks: usize,
    points: &[Cubic; 2],
) -> Result<Vec<Request<'a>>, AllocError> {
    let of_trace = Request {
        prover_data: trace,
        points: points_of_trace(alloc, points)?,
    };
    let of_chunks = Request {
        prover_data: chunks,
        points: points_of_chunks(alloc, num_chunks, points[0])?,
    };
    Ok(vec![in alloc; of_trace, of_chunks]?)
}

/// The points of the trace.
fn points_of_trace(alloc: Global, points: &[Cubic; 2]) -> Result<Vec<Vec<Cubic>>, AllocError> {
    Ok(vec![in alloc; Vec::from_slice(alloc, points)?]?)
}

/// One point for each chunk.
fn points_of_chunks(
    alloc: Global,
    count: usize,
    point: Cubic,
) -> Result<Vec<Vec<Cubic>>, AllocError> {
    let mut points = Vec::with_capacity(alloc, count)?;
    for _ in 0..count {
        points.push(vec![in alloc; point]?)?;
    }
    Ok(points)
}

/// The challenger that both sides begin with.
fn after_commitments(commitments: &[Hash; 2]) -> Sha256Challenger {
    let mut challenger = Sha256Challenger::new();
    for commitment in commitments {
        challenger.observe(commitment);
    }
    challenger
}

/// The claims that trace and chunks have the opened values.
fn claims(alloc: Global, statement: &Statement, opened: &Opened) -> io::Result<Vec<Claim>> {
    let domain = CircleDomain::standard(statement.size.log_rows);
    let num_chunks = 1usize << statement.air.log_num_quotient_chunks().min(4);
    let [of_trace, of_chunks] = opened.commitments;
    let trace = Known {
        commitment: of_trace,
        domains: vec![in alloc; domain]?,
        points: points_of_trace(alloc, &statement.points)?,
    };
    let chunks = Known {
        commitment: of_chunks,
        domains: vec![in alloc; domain; num_chunks]?,
        points: points_of_chunks(alloc, num_chunks, statement.points[0])?,
    };
    Ok(claims_of(
        alloc,
        vec![in alloc; trace, chunks]?,
        opened.values.clone()?,
    )?)
}

/// The shortest time in which the claims are verified, and whether they were accepted each time.
fn time_claims(
    rt: &HostRuntime,
    mode: Mode,
    statement: &Statement,
    opened: &Opened,
) -> io::Result<(Duration, bool)> {
    let pcs = scheme(PARAMETERS);
    let (mut best, mut accepted) = (Duration::MAX, true);
    for _ in 0..timing::runs(mode, VERIFICATIONS) {
        let claims = claims(rt.alloc(), statement, opened)?;
        let begin = Instant::now(rt)?;
        let mut challenger = after_commitments(&opened.commitments);
        let verdict = is_accepted(rt.alloc(), &pcs, claims, &opened.proof, &mut challenger)?;
        best = best.min(begin.elapsed(rt)?);
        accepted = accepted && verdict;
    }
    Ok((best, accepted))
}
