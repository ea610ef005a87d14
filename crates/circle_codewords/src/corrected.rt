//! The first layer of an opening: the reduced codewords of all heights without their multiples of
//! the vanishing polynomial, as rows of two, and what these fold into by y (Circle STARKs, sections
//! 4.2 and 4.3).
ghost use Rattle.std.specs.Prelude.{◌≡◌, ◌-◌, ◌^◌, ◌<◌, ◌≤◌, length, map, All, IfOk};
ghost use Rattle.circle_commit.specs.RowMajorMatrix.{rows, width_of, height_of};
ghost use Rattle.circle_commit.specs.DotProduct.{pairwise};
ghost use Rattle.circle_codewords.specs.OfMatrices.{lambda_at, rows_at};
ghost use Rattle.circle_codewords.specs.Words.{HaveHeights, IsHeight, y_folds_at};

use crate::matrix::BatchedMatrices;
use circle_commit::RowMajorMatrix;
use circle_field::{ComplexExtendable, ExtensionField};
use circle_folding::{extract_lambda, fold_y};
use std::alloc::{AllocError, Global};

impl<F: ComplexExtendable, EF: ExtensionField<F>> BatchedMatrices<'_, F, EF> {
    // The lambda of one height, and what is left of the codeword of that height, as rows of two.
    fn layer(
        &self,
        alloc: Global,
        log_height: usize,
    ) -> Result<(EF, RowMajorMatrix<EF>), AllocError>
        requires height { IsHeight F.CIRCLE_TWO_ADICITY self.now.log_blowup log_height }
        ensures lambda { IfOk result (λ r. r.0 ≡ lambda_at self.now log_height) }
        ensures rows { IfOk result (λ r. rows r.1 ≡ rows_at self.now log_height) }
        ensures width { IfOk result (λ r. width_of r.1 ≡ 2) }
        ensures height { IfOk result (λ r. height_of r.1 ≡ 2 ^ (log_height - 1)) }
    {
        let mut word = self.reduced_word(alloc, log_height)?;
        let lambda = extract_lambda::<F, EF>(alloc, &mut word, self.log_blowup)?;
        Ok((lambda, RowMajorMatrix::new(word, 2)))
    }

    /// Of each height the multiple of the vanishing polynomial in its reduced codeword, and the
    /// codeword without it, as rows of two.
    ///
    /// Requires heights above the blowup and below `CIRCLE_TWO_ADICITY`. Fails where memory is
    /// refused.
    pub fn first_layer(
        &self,
        alloc: Global,
        heights: &[usize],
    ) -> Result<(Vec<EF>, Vec<RowMajorMatrix<EF>>), AllocError>
        requires heights { All (IsHeight F.CIRCLE_TWO_ADICITY self.now.log_blowup) heights.now }
        ensures lambdas { IfOk result (λ r. r.0.items ≡ map (lambda_at self.now) heights.now) }
        ensures layers { IfOk result (λ r.
            map rows r.1.items ≡ map (rows_at self.now) heights.now) }
        ensures shapes { IfOk result (λ r. HaveHeights heights.now r.1.items) }
    {
        let mut lambdas = Vec::with_capacity(alloc, heights.len())?;
        let mut layers = Vec::with_capacity(alloc, heights.len())?;
        for log_height in heights {
            let (lambda, rows) = self.layer(alloc, *log_height)?;
            lambdas.push(lambda)?;
            layers.push(rows)?;
        }
        Ok((lambdas, layers))
    }
}

/// What the layers of these heights fold into by y.
///
/// Requires a layer for each height, of half as many rows of two, and heights below
/// `CIRCLE_TWO_ADICITY`. Fails where memory is refused.
pub fn fold_corrected<F: ComplexExtendable, EF: ExtensionField<F>>(
    alloc: Global,
    bivariate: EF,
    heights: &[usize],
    layers: &[RowMajorMatrix<EF>],
) -> Result<Vec<Vec<EF>>, AllocError>
    requires heights { All (λ h. (1 ≤ h) × (h < F.CIRCLE_TWO_ADICITY)) heights.now }
    requires shapes { HaveHeights heights.now layers.now }
    ensures { IfOk result (λ folded. map (λ w. w.items) folded.items ≡ pairwise (y_folds_at F.ops
        F.generators EF.ops EF.embed bivariate) heights.now (map rows layers.now)) }
{
    let mut folded = Vec::with_capacity(alloc, layers.len())?;
    for layer in layers {
        folded.push(fold_y::<F, EF, RowMajorMatrix<EF>>(alloc, bivariate, layer)?)?;
    }
    Ok(folded)
}
