//! Polynomial commitment schemes over domains: what is opened and what is claimed.
use crate::mmcs::{Mmcs, OpenedRows};
use std::fmt::Debug;

/// Rows of one commitment's matrices at several indices, with the proof of them all.
#[derive(Drop)]
pub struct BatchMultiOpening<T: Copy, M: Mmcs<T>> {
    /// For each index, for each matrix, the entries of its row.
    pub opened_values: OpenedRows<T>,
    /// The proof for all the rows.
    pub opening_proof: M::MultiProof,
}

/// The values of a matrix's columns at one point.
pub type OpenedValuesForPoint<F> = Vec<F>;

/// The values of a matrix's columns at each of its points.
pub type OpenedValuesForMatrix<F> = Vec<OpenedValuesForPoint<F>>;

/// The values of one batch of matrices, by matrix and point.
pub type OpenedValuesForRound<F> = Vec<OpenedValuesForMatrix<F>>;

/// The values that an opening returns: for each batch, for each of its matrices, for each of its
/// points, the values of the columns.
pub type OpenedValues<F> = Vec<OpenedValuesForRound<F>>;

/// One committed batch of matrices, with the points that each is to be opened at.
#[derive(Drop)]
pub struct OpeningRequest<'a, ProverData, Challenge> {
    /// What the committer kept of the batch.
    pub prover_data: &'a ProverData,
    /// For each matrix the points, each by one coordinate.
    pub points: Vec<Vec<Challenge>>,
}

/// One point that a matrix is opened at, with the values that are claimed there.
#[derive(Debug, Drop)]
pub struct PointOpening<Challenge> {
    /// The point, by one coordinate.
    pub point: Challenge,
    /// The claimed values, one for each column.
    pub values: Vec<Challenge>,
}

/// The claims about one matrix.
#[derive(Debug, Drop)]
pub struct MatrixOpening<Challenge, Domain> {
    /// The domain that the matrix was given on, before it was extended.
    pub domain: Domain,
    /// The points that it is opened at.
    pub points: Vec<PointOpening<Challenge>>,
}

/// The claims about one committed batch of matrices.
#[derive(Debug, Drop)]
pub struct CommitmentOpening<Challenge, Commitment, Domain> {
    /// The commitment to the batch.
    pub commitment: Commitment,
    /// The claims about each of its matrices.
    pub matrices: Vec<MatrixOpening<Challenge, Domain>>,
}
