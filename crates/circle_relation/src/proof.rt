//! What a proof is made of.

use circle_commit::{BatchMultiOpening, Mmcs};

/// A proof that the folded codewords of a run end in the values of a polynomial.
///
/// `M` commits to the folded codewords, `Witness` shows a proof of work, and `InputProof` opens
/// what the first of these codewords was made of.
#[derive(Drop)]
pub struct CircleFriProof<F: Copy, M: Mmcs<F>, Witness, InputProof> {
    /// For each round, the commitment to its codeword.
    pub commit_phase_commits: Vec<M::Commitment>,
    /// For each round, the witness of the proof of work before its challenge; zero where it has no
    /// difficulty.
    pub commit_pow_witnesses: Vec<Witness>,
    /// The openings, at all queries, of what was committed to before the rounds.
    pub input_openings: InputProof,
    /// For each round, the openings of its codeword at all queries.
    pub commit_phase_openings: Vec<CircleCommitPhaseMultiStep<F, M>>,
    /// The coefficients, in the basis in x, of the polynomial whose values the last codeword is.
    pub final_poly: Vec<F>,
    /// The witness of the proof of work before the query indices; zero where it has no difficulty.
    pub pow_witness: Witness,
}

/// The openings of one round's codeword at all queries, with one proof for them all.
#[derive(Drop)]
#[derive_where(Debug; F)]
pub struct CircleCommitPhaseMultiStep<F: Copy, M: Mmcs<F>> {
    /// For each query, the other entries of the row that it falls into: one, as two entries fold
    /// into one.
    pub sibling_values: Vec<Vec<F>>,
    /// The proof that the rows are those of the codeword.
    pub opening_proof: M::MultiProof,
}

/// The openings, at all queries, of the committed batches and of the first layer.
#[derive(Drop)]
pub struct CircleInputProof<
    Val: Copy,
    Challenge: Copy,
    InputMmcs: Mmcs<Val>,
    FriMmcs: Mmcs<Challenge>,
> {
    /// For each batch, its rows at all queries.
    pub input_openings: Vec<BatchMultiOpening<Val, InputMmcs>>,
    /// For each query, for each height of a batch's matrix from the least up, the other entry of
    /// the pair of the first layer that the query falls into.
    pub first_layer_siblings: Vec<Vec<Challenge>>,
    /// The proof that the pairs are those of the first layer.
    pub first_layer_proof: FriMmcs::MultiProof,
}

/// A proof of an opening.
///
/// `InputMmcs` commits to the batches, `FriMmcs` to the codewords that are made of them.
#[derive(Drop)]
pub struct CirclePcsProof<
    Val: Copy,
    Challenge: Copy,
    InputMmcs: Mmcs<Val>,
    FriMmcs: Mmcs<Challenge>,
    Witness,
> {
    /// The witness of the proof of work before the challenge that batches the claims; zero where it
    /// has no difficulty.
    pub batch_pow_witness: Witness,
    /// The commitment to the first layer: the reduced codewords of all heights, by pairs.
    pub first_layer_commitment: FriMmcs::Commitment,
    /// For each height of a batch's matrix from the least up, the multiple of the vanishing
    /// polynomial that was taken away from the reduced codeword.
    pub lambdas: Vec<Challenge>,
    /// The proof that the codewords of the first layer, folded and joined, end in the values of a
    /// polynomial.
    pub fri_proof: CircleFriProof<
        Challenge,
        FriMmcs,
        Witness,
        CircleInputProof<Val, Challenge, InputMmcs, FriMmcs>,
    >,
}
