//! Columns of zeros, claimed to be zero, with their proofs: what the prover would send, made here
//! of the schemes' and the transcript's own calls.
ghost use Rattle.std.specs.Prelude.{◌≡◌, ◌<◌, ◌≤◌, [], ◌∷◌, IfOk, flat_map};
ghost use Rattle.circle_transcript.specs.Shape.{claimed_widths};
ghost use Rattle.circle_transcript.specs.ShapeOf.{shape_of, batches_of};

use circle_challenger::{CanObserve, CanSample, GrindingChallenger};
use circle_commit::{
    BatchMultiOpening, CommitmentOpening, FriParameters, MatrixOpening, Mmcs, PointOpening,
    RowMajorMatrix, are_below, heights_are_powers_of_two,
};
use circle_field::{Cubic, ExtensionField, Field, Mersenne31};
use circle_transcript::{CircleMessages, CirclePcsShape, CircleRun, prover_run};
use p3_circle::{
    CircleCommitPhaseMultiStep, CircleDomain, CircleFriProof, CircleInputProof, CirclePcs,
    CirclePcsProof, Neutral, Point,
};
use std::alloc::{AllocError, Global};
use std::test::Fail;
use test_batches::batches::one;

/// The claims over this scheme of batches.
pub(super) type Claims<I> = Vec<
    CommitmentOpening<Cubic, <I as Mmcs<Mersenne31>>::Commitment, CircleDomain<Mersenne31>>,
>;

/// The scheme over these schemes of batches and of codewords.
type Scheme<I, W> = CirclePcs<Mersenne31, I, W>;

/// The proofs over these schemes of batches and of codewords.
type Proof<I, W> = CirclePcsProof<Mersenne31, Cubic, I, W, Mersenne31>;

/// The numbers of a statement of zeros whose proof has one round.
#[derive(Clone, Copy)]
pub(super) struct Size {
    /// The binary logarithm of the number of zeros.
    log_n: usize,
    /// The number of rows that are committed to: twice as many.
    height: usize,
    /// The binary logarithm of the number of coefficients of the final polynomial.
    log_final_poly_len: usize,
    /// That number.
    pub coefficients: usize,
}

/// Four zeros, folded to a constant.
pub(super) const FOUR: Size = Size {
    log_n: 2,
    height: 8,
    log_final_poly_len: 0,
    coefficients: 1,
};

/// Eight zeros, folded to a polynomial of two coefficients.
pub(super) const EIGHT: Size = Size {
    log_n: 3,
    height: 16,
    log_final_poly_len: 1,
    coefficients: 2,
};

/// A column of zeros, claimed to be zero at `[0, 1, 0]`, with its proof.
#[derive(Drop)]
pub(super) struct Zeros<I: Mmcs<Mersenne31>, W: Mmcs<Cubic>> {
    /// The scheme.
    pub scheme: Scheme<I, W>,
    /// What is claimed.
    pub claims: Claims<I>,
    /// The proof.
    pub proof: Proof<I, W>,
}

/// The commitments to the first layer and to the codeword of the round, and what the prover keeps
/// of these.
#[derive(Drop)]
struct Words<W: Mmcs<Cubic>> {
    first_layer: W::Commitment,
    rounds: Vec<W::Commitment>,
    layer: W::ProverData,
    word: W::ProverData,
}

// Parameters of three queries, a blowup of two and no proofs of work.
fn parameters<W>(log_final_poly_len: usize, mmcs: W) -> FriParameters<W>
    ensures blowup { result.log_blowup ≡ 1 }
    ensures final_poly { result.log_final_poly_len ≡ log_final_poly_len }
    ensures batch { result.batch_proof_of_work_bits ≡ 0 }
    ensures commit { result.commit_proof_of_work_bits ≡ 0 }
    ensures query { result.query_proof_of_work_bits ≡ 0 }
{
    FriParameters {
        log_blowup: 1,
        log_final_poly_len,
        max_log_arity: 1,
        num_queries: 3,
        batch_proof_of_work_bits: 0,
        commit_proof_of_work_bits: 0,
        query_proof_of_work_bits: 0,
        mmcs,
    }
}

/// The coordinate `[0, 1, 0]`.
pub(super) fn coordinate() -> Cubic {
    Cubic::from_coefficients(&[Mersenne31::ZERO, Mersenne31::ONE, Mersenne31::ZERO])
}

/// A matrix of `2^log_n` rows that is claimed to have this value at `[0, 1, 0]`.
pub(super) fn claim(
    alloc: Global,
    log_n: usize,
    value: Cubic,
) -> Result<MatrixOpening<Cubic, CircleDomain<Mersenne31>>, AllocError> {
    let opening = PointOpening {
        point: coordinate(),
        values: one(alloc, value)?,
    };
    Ok(MatrixOpening {
        domain: CircleDomain::new(log_n, Point::ZERO),
        points: one(alloc, opening)?,
    })
}

// One batch of a column that is claimed to be zero.
fn claimed_zero<Com: Drop>(
    alloc: Global,
    commitment: Com,
    log_n: usize,
) -> Result<Vec<CommitmentOpening<Cubic, Com, CircleDomain<Mersenne31>>>, AllocError> {
    let batch = CommitmentOpening {
        commitment,
        matrices: one(alloc, claim(alloc, log_n, Cubic::ZERO)?)?,
    };
    one(alloc, batch)
}

// Commits to a matrix of zeros in rows of this width.
fn commit_zeros<T: Field, M: Mmcs<T>>(
    alloc: Global,
    mmcs: &M,
    entries: usize,
    width: usize,
) -> Result<(M::Commitment, M::ProverData), Fail> {
    if width == 0 || entries % width != 0 {
        return Err(Fail::new("the width"));
    }
    let zeros = vec![in alloc; T::ZERO; entries]?;
    let inputs = one(alloc, RowMajorMatrix::new(zeros, width))?;
    if inputs.is_empty() || !heights_are_powers_of_two(&inputs) {
        return Err(Fail::new("the height"));
    }
    Ok(mmcs.commit(alloc, inputs)?)
}

// Opens what was committed to at these rows.
fn opened<T: Field, M: Mmcs<T>>(
    alloc: Global,
    mmcs: &M,
    data: &M::ProverData,
    indices: &[usize],
) -> Result<BatchMultiOpening<T, M>, Fail> {
    if indices.is_empty() || !are_below(indices, mmcs.get_max_height(data)) {
        return Err(Fail::new("the indices"));
    }
    let (opened_values, opening_proof) = mmcs.open_multi_batch(alloc, indices, data)?;
    Ok(BatchMultiOpening {
        opened_values,
        opening_proof,
    })
}

// The half of each number, rounded down.
fn halves(alloc: Global, numbers: &[usize]) -> Result<Vec<usize>, AllocError> {
    let mut halves = Vec::with_capacity(alloc, numbers.len())?;
    for number in numbers {
        halves.push(*number / 2)?;
    }
    Ok(halves)
}

// One zero for each query.
fn siblings(alloc: Global, queries: &[usize]) -> Result<Vec<Vec<Cubic>>, AllocError> {
    let mut all = Vec::new(alloc);
    for _ in queries {
        all.push(one(alloc, Cubic::ZERO)?)?;
    }
    Ok(all)
}

// The numbers of values of one claim of one value.
fn widths(alloc: Global) -> Result<Vec<Vec<Vec<usize>>>, AllocError>
    ensures { IfOk result (λ v. flat_map (λ m. m) (flat_map (λ b. b) (batches_of v.items))
        ≡ 1 ∷ []) }
{
    let matrix = vec![in alloc; 1]?;
    let batch = vec![in alloc; matrix]?;
    Ok(vec![in alloc; batch]?)
}

// The shape of a run over one claim of one value.
fn shape(
    alloc: Global,
    log_n: usize,
    log_final_poly_len: usize,
) -> Result<CirclePcsShape, AllocError>
    requires small { log_n ≤ 9 }
    requires large { log_final_poly_len < log_n }
    ensures widths { IfOk result (λ s. claimed_widths (shape_of s) ≡ 1 ∷ []) }
    ensures batch { IfOk result (λ s. s.batch_pow_bits ≡ 0) }
    ensures commit { IfOk result (λ s. s.commit_pow_bits ≡ 0) }
    ensures query { IfOk result (λ s. s.query_pow_bits ≡ 0) }
    ensures index { IfOk result (λ s. s.index_bits ≤ 63) }
    ensures final_poly { IfOk result (λ s. s.log_final_poly_len ≡ log_final_poly_len) }
{
    let params = parameters(log_final_poly_len, ());
    Ok(CirclePcsShape::new(&params, widths(alloc)?, log_n + 1, 1))
}

// Draws the queries on the prover's side.
fn queries<C, Com>(
    alloc: Global,
    size: Size,
    messages: &CircleMessages<Cubic, Com>,
    challenger: &mut C,
) -> Result<Vec<usize>, Fail>
where
    C: CanSample<Mersenne31> + GrindingChallenger<Mersenne31> + CanObserve<Com>,
{
    let log_len = size.log_final_poly_len;
    if size.log_n > 9 || log_len >= size.log_n {
        return Err(Fail::new("the size"));
    }
    let shape = shape(alloc, size.log_n, log_len)?;
    if messages.commitments.len() != shape.num_commit_rounds {
        return Err(Fail::new("the number of rounds"));
    }
    if messages.final_poly.len() != 1 << log_len {
        return Err(Fail::new("the number of coefficients"));
    }
    let Some(point) = Point::from_projective_line(coordinate()) else {
        return Err(Fail::new("the point"));
    };
    let values = [Cubic::ZERO];
    let claims = [(point, values.as_slice())];
    let (draws, _) = prover_run::<Mersenne31, Cubic, C, Com>(
        alloc,
        challenger,
        CircleRun::new(shape),
        claims.as_slice(),
        messages,
    )?;
    Ok(draws.indices)
}

// Commits to the codewords.
fn commit_words<W: Mmcs<Cubic>>(alloc: Global, mmcs: &W, size: Size) -> Result<Words<W>, Fail> {
    let (first_layer, layer) = commit_zeros(alloc, mmcs, size.height, 2)?;
    let (round, word) = commit_zeros(alloc, mmcs, size.height / 2, 2)?;
    Ok(Words {
        first_layer,
        rounds: one(alloc, round)?,
        layer,
        word,
    })
}

// Opens the column and the first layer at the queries.
fn input_proof<I: Mmcs<Mersenne31>, W: Mmcs<Cubic>>(
    alloc: Global,
    scheme: &Scheme<I, W>,
    column: &I::ProverData,
    layer: &W::ProverData,
    queries: &[usize],
) -> Result<CircleInputProof<Mersenne31, Cubic, I, W>, Fail> {
    let batch = opened(alloc, &scheme.mmcs, column, queries)?;
    let words = &scheme.fri_params.mmcs;
    let pairs = opened(alloc, words, layer, &halves(alloc, queries)?)?;
    Ok(CircleInputProof {
        input_openings: one(alloc, batch)?,
        first_layer_siblings: siblings(alloc, queries)?,
        first_layer_proof: pairs.opening_proof,
    })
}

// Opens the codeword of the round at the queries.
fn round<W: Mmcs<Cubic>>(
    alloc: Global,
    mmcs: &W,
    word: &W::ProverData,
    queries: &[usize],
) -> Result<CircleCommitPhaseMultiStep<Cubic, W>, Fail> {
    let indices = halves(alloc, &halves(alloc, queries)?)?;
    let pairs = opened(alloc, mmcs, word, &indices)?;
    Ok(CircleCommitPhaseMultiStep {
        sibling_values: siblings(alloc, queries)?,
        opening_proof: pairs.opening_proof,
    })
}

/// What is opened of the inputs and of the round.
type Openings<I, W> = (
    CircleInputProof<Mersenne31, Cubic, I, W>,
    CircleCommitPhaseMultiStep<Cubic, W>,
);

// Draws and opens the queries.
fn openings<I: Mmcs<Mersenne31>, W: Mmcs<Cubic>, C>(
    alloc: Global,
    scheme: &Scheme<I, W>,
    size: Size,
    column: &I::ProverData,
    words: &Words<W>,
    final_poly: &[Cubic],
    challenger: &mut C,
) -> Result<Openings<I, W>, Fail>
where
    C: CanSample<Mersenne31> + GrindingChallenger<Mersenne31> + CanObserve<W::Commitment>,
{
    let messages = CircleMessages {
        first_layer: &words.first_layer,
        commitments: &words.rounds,
        final_poly,
    };
    let queries = queries(alloc, size, &messages, challenger)?;
    let inputs = input_proof(alloc, scheme, column, &words.layer, &queries)?;
    let round = round(alloc, &scheme.fri_params.mmcs, &words.word, &queries)?;
    Ok((inputs, round))
}

// The proof with these commitments and openings.
fn proof_of<I: Mmcs<Mersenne31>, W: Mmcs<Cubic>>(
    alloc: Global,
    words: Words<W>,
    (input_openings, round): Openings<I, W>,
    final_poly: Vec<Cubic>,
) -> Result<Proof<I, W>, Fail> {
    let fri_proof = CircleFriProof {
        commit_phase_commits: words.rounds,
        commit_pow_witnesses: one(alloc, Mersenne31::ZERO)?,
        input_openings,
        commit_phase_openings: one(alloc, round)?,
        final_poly,
        pow_witness: Mersenne31::ZERO,
    };
    Ok(CirclePcsProof {
        batch_pow_witness: Mersenne31::ZERO,
        first_layer_commitment: words.first_layer,
        lambdas: one(alloc, Cubic::ZERO)?,
        fri_proof,
    })
}

// Commits to the codewords of this column, opens them, and puts the proof together.
fn proved<I: Mmcs<Mersenne31>, W: Mmcs<Cubic>, C>(
    alloc: Global,
    scheme: &Scheme<I, W>,
    size: Size,
    column: &I::ProverData,
    final_poly: Vec<Cubic>,
    challenger: &mut C,
) -> Result<Proof<I, W>, Fail>
where
    C: CanSample<Mersenne31> + GrindingChallenger<Mersenne31> + CanObserve<W::Commitment>,
{
    let words = commit_words(alloc, &scheme.fri_params.mmcs, size)?;
    let openings = openings(alloc, scheme, size, column, &words, &final_poly, challenger)?;
    proof_of(alloc, words, openings, final_poly)
}

/// The zeros of this size, proved from the challenger's state with this final polynomial, which is
/// zero where the prover is honest.
pub(super) fn prove<I, W, C>(
    alloc: Global,
    schemes: (I, W),
    size: Size,
    final_poly: Vec<Cubic>,
    challenger: &mut C,
) -> Result<Zeros<I, W>, Fail>
where
    I: Mmcs<Mersenne31> + Drop,
    W: Mmcs<Cubic> + Drop,
    C: CanSample<Mersenne31> + GrindingChallenger<Mersenne31> + CanObserve<W::Commitment>,
{
    let (mmcs, words) = schemes;
    let scheme = CirclePcs::new(mmcs, parameters(size.log_final_poly_len, words));
    let (commitment, column) = commit_zeros(alloc, &scheme.mmcs, size.height, 1)?;
    let claims = claimed_zero(alloc, commitment, size.log_n)?;
    let proof = proved(alloc, &scheme, size, &column, final_poly, challenger)?;
    Ok(Zeros {
        scheme,
        claims,
        proof,
    })
}
