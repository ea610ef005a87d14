//! A prover commits to matrices of two heights, and opens each height in a run of its own, at a drawn
//! point and the next one; a verifier takes what it publishes, and refuses that once its commitments
//! are exchanged.
#![tactic(auto)]

ghost use Rattle.std.specs.Prelude.{IfOk};
ghost use Rattle.circle_commit.specs.Honest.{AreTrueValues};
ghost use Rattle.circle_commit.specs.Pcs.{openings};

use anyhow::{Result, bail};
use circle_presets::{
    Challenge, Challenger, Commitment, Domain, Known, Proof, ProverData, Request, Scheme, Val,
    VerifierError, scheme,
};
use p3_circle::{
    CanObserve, Field, FieldChallenger, FriParameters, OpenedValues, Pcs, PolynomialSpace,
    RowMajorMatrix, claims_of, heights_match_domains,
};
use std::alloc::{AllocError, Global};

/// What prover and verifier have in common: twice as many rows are committed to as there are, 40 of
/// them are queried after a proof of work of 8 bits, and folding stops at two coefficients.
const PARAMETERS: FriParameters<()> = FriParameters {
    log_blowup: 1,
    log_final_poly_len: 1,
    max_log_arity: 1,
    num_queries: 40,
    batch_proof_of_work_bits: 0,
    commit_proof_of_work_bits: 0,
    query_proof_of_work_bits: 8,
    mmcs: (),
};

/// What the verifier returns.
type Answer = Result<(), VerifierError>;

/// What the prover publishes of one height.
#[derive(Drop)]
struct Opening {
    values: OpenedValues<Challenge>,
    proof: Proof,
}

/// What the prover publishes.
#[derive(Drop)]
struct Published {
    commitments: [Commitment; 2],
    tall: Opening,
    low: Opening,
}

/// The first `rows` powers of two, as a column.
fn column(alloc: Global, rows: usize) -> Result<RowMajorMatrix<Val>, AllocError> {
    Ok(RowMajorMatrix::new_col(Val::powers(alloc, Val::TWO, rows)?))
}

/// The challenger that absorbed the commitments, and the point that it draws.
fn after_commitments(commitments: &[Commitment; 2]) -> (Challenger, Challenge) {
    let mut challenger = Challenger::new();
    for commitment in commitments {
        challenger.observe(commitment);
    }
    let point = challenger.sample_algebra_element();
    (challenger, point)
}

/// The points that the matrices of each height are opened at.
fn points(alloc: Global, point: Challenge) -> Result<[Vec<Vec<Challenge>>; 2]> {
    let [tall, low] = [Domain::standard(6), Domain::standard(5)];
    let Some(next) = tall.next_point(point) else {
        bail!("the drawn point has no successor");
    };
    let Some(next_of_low) = low.next_point(point) else {
        bail!("the drawn point has no successor");
    };
    Ok([
        vec![in alloc; vec![in alloc; point, next]?, vec![in alloc; point]?]?,
        vec![in alloc; vec![in alloc; point, next_of_low]?]?,
    ])
}

/// Commits to matrices, each with its domain.
fn commit(
    alloc: Global,
    pcs: &Scheme,
    batch: Vec<(Domain, RowMajorMatrix<Val>)>,
) -> Result<(Commitment, ProverData)> {
    if !heights_match_domains(&batch) {
        bail!("a matrix has not a row for each point");
    }
    Ok(pcs.commit(alloc, batch)?)
}

/// What is to be opened of a batch.
fn requests(
    alloc: Global,
    prover_data: &ProverData,
    points: Vec<Vec<Challenge>>,
) -> Result<Vec<Request<'_>>> {
    Ok(vec![in alloc;
        Request {
            prover_data,
            points
        },
    ]?)
}

/// Opens a batch of one height, in a run of its own: the values are those of the polynomials that
/// were committed to.
fn open(
    alloc: Global,
    pcs: &Scheme,
    requests: Vec<Request<'_>>,
    challenger: &mut Challenger,
) -> Result<Opening>
    ensures { let p = ⟦<Scheme as Pcs<Challenge, Challenger>>⟧ in IfOk result (λ o. AreTrueValues
        (p.commits pcs.now) (p.values_of pcs.now) requests.entry.items (openings o.values.items)) }
{
    if !pcs.have_heights_of_powers(&requests) {
        bail!("a height is no power of two");
    }
    let (values, proof) = pcs.open(alloc, requests, challenger)?;
    Ok(Opening { values, proof })
}

fn prove(alloc: Global, pcs: &Scheme) -> Result<Published> {
    let [tall, low] = [Domain::standard(6), Domain::standard(5)];
    let of_tall = vec![in alloc; (tall, column(alloc, 64)?), (tall, column(alloc, 64)?)]?;
    let of_low = vec![in alloc; (low, column(alloc, 32)?)]?;
    let (tall, tall_data) = commit(alloc, pcs, of_tall)?;
    let (low, low_data) = commit(alloc, pcs, of_low)?;

    let commitments = [tall, low];
    let (mut challenger, point) = after_commitments(&commitments);
    let [at_tall, at_low] = points(alloc, point)?;
    let of_tall = requests(alloc, &tall_data, at_tall)?;
    let of_low = requests(alloc, &low_data, at_low)?;
    let tall = open(alloc, pcs, of_tall, &mut challenger)?;
    let low = open(alloc, pcs, of_low, &mut challenger)?;
    Ok(Published {
        commitments,
        tall,
        low,
    })
}

/// The verdict on one height, in a run of its own.
fn verify_height(
    alloc: Global,
    pcs: &Scheme,
    known: Known,
    opening: &Opening,
    challenger: &mut Challenger,
) -> Result<Answer> {
    let known = vec![in alloc; known]?;
    let claims = claims_of(alloc, known, opening.values.clone()?)?;
    Ok(pcs.verify(alloc, claims, &opening.proof, challenger))
}

/// The verdict on what is published.
fn verify(alloc: Global, pcs: &Scheme, published: &Published) -> Result<Answer> {
    let (mut challenger, point) = after_commitments(&published.commitments);
    let [at_tall, at_low] = points(alloc, point)?;
    let [tall, low] = [Domain::standard(6), Domain::standard(5)];
    let [first, second] = published.commitments;
    let first = Known {
        commitment: first,
        domains: vec![in alloc; tall, tall]?,
        points: at_tall,
    };
    let second = Known {
        commitment: second,
        domains: vec![in alloc; low]?,
        points: at_low,
    };
    match verify_height(alloc, pcs, first, &published.tall, &mut challenger)? {
        Ok(()) => verify_height(alloc, pcs, second, &published.low, &mut challenger),
        Err(error) => Ok(Err(error)),
    }
}

/// How a verdict is printed.
fn told(answer: Answer) -> &'static str {
    answer.map_or_else(|error| error.name(), |()| "accepted")
}

fn main(rt: HostRuntime) -> Result<()> {
    let pcs = scheme(PARAMETERS);
    let mut published = prove(rt.alloc(), &pcs)?;
    let answer = verify(rt.alloc(), &pcs, &published)?;
    println!(rt; "what was published: {}", told(answer))?;
    published.commitments.swap(0, 1);
    let answer = verify(rt.alloc(), &pcs, &published)?;
    println!(rt; "its commitments exchanged: {}", told(answer))?;
    Ok(())
}
