//! Requested matrices with the values that are returned, as an opening and its transcript absorb
//! them.
ghost use Rattle.std.specs.Prelude.{ℕ, ◌≡◌, ◌++◌, IfOk, OnOk};
ghost use Rattle.std.specs.Prelude.{length, map, flat_map};
ghost use Rattle.circle_commit.specs.Mmcs.{opened_rows};
ghost use Rattle.circle_commit.specs.Pcs.{openings};
ghost use Rattle.circle_commit.specs.DotProduct.{pairwise};
ghost use Rattle.circle_transcript.specs.Claims.{claims_of};
ghost use Rattle.circle_transcript.specs.ShapeOf.{batches_of, matrices_of};
ghost use Rattle.circle_relation.specs.Accepts.{Fields};
ghost use Rattle.circle_codewords.specs.Words.{claim_of, committed_of};
ghost use Rattle.circle_codewords.specs.Points.{coordinates_of};
ghost use Rattle.circle_codewords.specs.Requests.{lists_of};
ghost use Rattle.circle_prover.specs.OfRequests.{AddsOpened, AreAnsweredBy, AreMatricesAt};
ghost use Rattle.circle_prover.specs.OfRequests.{AreMatricesWith, AreValued, asked_of};
ghost use Rattle.circle_relation.specs.Taken.{point_taken};

use crate::openable::OpenableRequests;
use circle_codewords::{MatrixAtPoints, OpenedMatrix, OpeningPoint};
use circle_commit::{Mmcs, OpenedValuesForMatrix, OpenedValuesForRound};
use circle_field::{ComplexExtendable, ExtensionField, Field};
use circle_transcript::OpeningClaim;
use std::alloc::{AllocError, Global};

impl<
    'a,
    Val: ComplexExtendable,
    EF: ExtensionField<Val>,
    InputMmcs: Mmcs<Val>,
    FriMmcs: Mmcs<EF>,
> OpenableRequests<'a, Val, EF, InputMmcs, FriMmcs> {
    // Adds the matrices of a batch with their values.
    fn push_opened(
        &self,
        list: &mut Vec<OpenedMatrix<'a, Val, EF>>,
        matrices: &[MatrixAtPoints<'a, Val, EF>],
        values: &'a [OpenedValuesForMatrix<EF>],
    ) -> Result<(), AllocError>
        // It follows from the next clause, as in `matrices_at_points`.
        requires count { length values.now ≡ length matrices.now }
        requires valued { AreValued self.now (map asked_of matrices.now) (opened_rows values.now) }
        ensures { OnOk result (AddsOpened self.now (map asked_of matrices.now)
            (opened_rows values.now) list.old.items list.new.items) }
    {
        for (matrix, values) in matrices.iter().zip(values) {
            list.push(OpenedMatrix {
                log_height: matrix.log_height,
                rows: matrix.rows,
                points: matrix.points,
                values,
            })?;
        }
        Ok(())
    }

    /// All requested matrices with their values, one after another.
    ///
    /// Requires the matrices and the values that are returned. Fails where memory is refused.
    pub(crate) fn opened_matrices(
        &self,
        alloc: Global,
        matrices: &[MatrixAtPoints<'a, Val, EF>],
        values: &'a [OpenedValuesForRound<EF>],
    ) -> Result<Vec<OpenedMatrix<'a, Val, EF>>, AllocError>
        requires matrices { AreMatricesAt self.now matrices.now }
        requires values { AreAnsweredBy self.now (openings values.now) }
        ensures { IfOk result (λ v.
            AreMatricesWith self.now (openings values.now) v.items) }
    {
        let mut list = Vec::with_capacity(alloc, matrices.len())?;
        let mut done = 0;
        for (request, values) in self.requests.iter().zip(values) {
            let (_, rest) = matrices.split_at(done);
            let (batch, _) = rest.split_at(request.points.len());
            self.push_opened(&mut list, batch, values)?;
            done += batch.len();
        }
        Ok(list)
    }
}

// Adds the claims on a matrix.
fn append_claims<'a, EF: Field>(
    claims: &mut Vec<OpeningClaim<'a, EF>>,
    points: &[OpeningPoint<EF>],
    values: &'a [Vec<EF>],
) -> Result<(), AllocError>
    ensures { OnOk result (claims_of claims.new.items ≡ claims_of claims.old.items
        ++ map (point_taken EF.ops)
        (pairwise claim_of (coordinates_of points.now) (lists_of values.now))) }
{
    for (point, values) in points.iter().zip(values) {
        claims.push((point.point, values))?;
    }
    Ok(())
}

/// The claims on all matrices as the transcript takes them in, one after another.
///
/// Fails where memory is refused.
pub(crate) fn opened_claims<'a, F: ComplexExtendable, EF: ExtensionField<F>>(
    alloc: Global,
    matrices: &[OpenedMatrix<'a, F, EF>],
) -> Result<Vec<OpeningClaim<'a, EF>>, AllocError>
    ensures { IfOk result (λ v. (k : Fields F EF) (blowup : ℕ) → claims_of v.items ≡ flat_map
        (λ m. map (point_taken EF.ops) m.claims) (map (committed_of k blowup) matrices.now)) }
{
    let mut claims = Vec::new(alloc);
    for matrix in matrices {
        append_claims(&mut claims, matrix.points, matrix.values)?;
    }
    Ok(claims)
}

// The number of columns of each of a matrix's values.
fn matrix_widths<EF>(alloc: Global, values: &[Vec<EF>]) -> Result<Vec<usize>, AllocError>
    ensures { IfOk result (λ v. v.items ≡ map (λ w. length w) (lists_of values.now)) }
{
    let mut widths = Vec::with_capacity(alloc, values.len())?;
    for columns in values {
        widths.push(columns.len())?;
    }
    Ok(widths)
}

// The same of the matrices of a batch.
fn batch_widths<EF>(
    alloc: Global,
    values: &[OpenedValuesForMatrix<EF>],
) -> Result<Vec<Vec<usize>>, AllocError>
    ensures { IfOk result (λ v. matrices_of v.items
        ≡ map (λ m. map (λ w. length w) m) (opened_rows values.now)) }
{
    let mut widths = Vec::with_capacity(alloc, values.len())?;
    for matrix in values {
        widths.push(matrix_widths(alloc, matrix)?)?;
    }
    Ok(widths)
}

/// The number of columns of each of the values, by batch, matrix and point. Fails where memory is
/// refused.
pub(crate) fn opened_widths<EF>(
    alloc: Global,
    values: &[OpenedValuesForRound<EF>],
) -> Result<Vec<Vec<Vec<usize>>>, AllocError>
    ensures { IfOk result (λ v. batches_of v.items
        ≡ map (λ b. map (λ m. map (λ w. length w) m) b) (openings values.now)) }
{
    let mut widths = Vec::with_capacity(alloc, values.len())?;
    for batch in values {
        widths.push(batch_widths(alloc, batch)?)?;
    }
    Ok(widths)
}
