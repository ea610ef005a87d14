//! The values of committed matrices at the points that they are to be opened at.
ghost use Rattle.std.specs.Prelude.{◌<◌, All, IfOk};
ghost use Rattle.circle_commit.specs.Mmcs.{opened_rows};
ghost use Rattle.circle_commit.specs.Pcs.{openings};
ghost use Rattle.circle_prover.specs.OfRequests.{AreAnsweredBy, AreHigh, AreMatricesAt};
ghost use Rattle.circle_prover.specs.OfRequests.{AreValuesOfEach};

use crate::openable::OpenableRequests;
use circle_codewords::{MatrixAtPoints, PointWeights};
use circle_commit::{Mmcs, OpenedValues, OpenedValuesForRound};
use circle_field::{ComplexExtendable, ExtensionField};
use std::alloc::{AllocError, Global};

// The values of the matrices of one batch. The weights that are made are added to `all`, where
// those of other batches are found.
fn batch_values<F: ComplexExtendable, EF: ExtensionField<F>>(
    alloc: Global,
    all: &mut Vec<PointWeights<F, EF>>,
    log_blowup: usize,
    matrices: &[MatrixAtPoints<F, EF>],
) -> Result<OpenedValuesForRound<EF>, AllocError>
    requires { All (λ m. log_blowup < m.log_height) matrices.now }
    ensures { IfOk result (λ v. AreValuesOfEach log_blowup matrices.now (opened_rows v.items)) }
{
    let mut values = Vec::with_capacity(alloc, matrices.len())?;
    for matrix in matrices {
        values.push(matrix.opened_values(alloc, all, log_blowup)?)?;
    }
    Ok(values)
}

impl<
    Val: ComplexExtendable,
    EF: ExtensionField<Val>,
    InputMmcs: Mmcs<Val>,
    FriMmcs: Mmcs<EF>,
> OpenableRequests<'_, Val, EF, InputMmcs, FriMmcs> {
    /// For each request, for each of its matrices, for each of its points, the values of the
    /// columns' polynomials there: those that the first rows fix, as many as there were before the
    /// blowup (Circle STARKs, section 4.3). What depends on a height and a point alone is made once
    /// for all matrices.
    ///
    /// Requires all requested matrices. Fails where memory is refused.
    pub(crate) fn requested_values(
        &self,
        alloc: Global,
        matrices: &[MatrixAtPoints<Val, EF>],
    ) -> Result<OpenedValues<EF>, AllocError>
        // The second follows from the first, as in `matrices_at_points`.
        requires matrices { AreMatricesAt self.now matrices.now }
        requires high { AreHigh self.now matrices.now }
        ensures { IfOk result (λ v. AreAnsweredBy self.now (openings v.items)) }
    {
        let mut all = Vec::new(alloc);
        let mut values = Vec::with_capacity(alloc, self.requests.len())?;
        let mut done = 0;
        for request in self.requests {
            let (_, rest) = matrices.split_at(done);
            let (batch, _) = rest.split_at(request.points.len());
            values.push(batch_values(alloc, &mut all, self.params.log_blowup, batch)?)?;
            done += batch.len();
        }
        Ok(values)
    }
}
