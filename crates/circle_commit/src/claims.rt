//! The claims that a verifier is given on what was returned.
ghost use Rattle.std.specs.Prelude.{◌≡◌, IfOk, map, zip};
ghost use Rattle.circle_commit.specs.DotProduct.{pairwise};
ghost use Rattle.circle_commit.specs.Mmcs.{opened_rows};
ghost use Rattle.circle_commit.specs.Pcs.{openings};
ghost use Rattle.circle_commit.specs.Claims.{batch_claimed, batch_told, lists, matrix_claimed};
ghost use Rattle.circle_commit.specs.Claims.{matrix_told, point_told};

use crate::{
    CommitmentOpening, MatrixOpening, OpenedValues, OpenedValuesForMatrix, OpenedValuesForRound,
    PointOpening,
};
use std::alloc::{AllocError, Global};

/// A batch that was committed to, without its matrices: what a verifier knows of it beside the
/// values that it is handed.
#[derive(Debug, Drop)]
pub struct CommittedBatch<Challenge, Commitment, Domain> {
    /// The commitment to the batch.
    pub commitment: Commitment,
    /// For each matrix the domain that it was given on, before it was extended.
    pub domains: Vec<Domain>,
    /// For each matrix the points that it is opened at, each by one coordinate.
    pub points: Vec<Vec<Challenge>>,
}

/// The claims that the matrices of batches have these values at their points, as `verify` takes
/// them: `values` as `open` returns them for requests for the same batches, matrices and points, in
/// their order. What has no counterpart at its place is left out. Values and points are moved.
///
/// Fails where memory is refused.
pub fn claims_of<Challenge: Copy, Commitment: Drop, Domain: Copy>(
    alloc: Global,
    batches: Vec<CommittedBatch<Challenge, Commitment, Domain>>,
    values: OpenedValues<Challenge>,
) -> Result<Vec<CommitmentOpening<Challenge, Commitment, Domain>>, AllocError>
    ensures { IfOk result (λ claims. map batch_told claims.items
        ≡ pairwise batch_claimed batches.items (openings values.items)) }
{
    let mut claims = Vec::with_capacity(alloc, batches.len())?;
    for (batch, values) in batches.into_iter().zip(values) {
        claims.push(CommitmentOpening {
            commitment: batch.commitment,
            matrices: matrix_claims(alloc, batch.domains, batch.points, values)?,
        })?;
    }
    Ok(claims)
}

// What is claimed of the matrices of a batch.
fn matrix_claims<E: Copy, D: Copy>(
    alloc: Global,
    domains: Vec<D>,
    points: Vec<Vec<E>>,
    values: OpenedValuesForRound<E>,
) -> Result<Vec<MatrixOpening<E, D>>, AllocError>
    ensures { IfOk result (λ claims. map matrix_told claims.items ≡ pairwise matrix_claimed
        (zip domains.items (lists points)) (opened_rows values.items)) }
{
    let mut claims = Vec::with_capacity(alloc, domains.len())?;
    for ((domain, points), values) in domains.into_iter().zip(points).zip(values) {
        claims.push(MatrixOpening {
            domain,
            points: point_claims(alloc, points, values)?,
        })?;
    }
    Ok(claims)
}

// What is claimed of one matrix: at each point its values.
fn point_claims<E: Copy>(
    alloc: Global,
    points: Vec<E>,
    values: OpenedValuesForMatrix<E>,
) -> Result<Vec<PointOpening<E>>, AllocError>
    ensures { IfOk result (λ claims. map point_told claims.items
        ≡ zip points.items (map (λ v. v.items) values.items)) }
{
    let mut claims = Vec::with_capacity(alloc, points.len())?;
    for (point, values) in points.into_iter().zip(values) {
        claims.push(PointOpening { point, values })?;
    }
    Ok(claims)
}
