//! The heights of committed matrices.
ghost use Rattle.std.specs.Prelude.{ℕ, ◌≡◌, ◌==◌, ◌+◌, ◌-◌, ◌^◌, map, min, IfOk};
ghost use Rattle.std.specs.List.{list_any};
ghost use Rattle.circle_commit.specs.Matrix.{IsPowerOfTwo};
ghost use Rattle.circle_commit.specs.Mmcs.{greatest, HaveHeightsOfPowers};
ghost use Rattle.circle_commit.specs.RowMajorMatrix.{height_of};
ghost use Rattle.circle_relation.specs.Accepts.{Fields};
ghost use Rattle.circle_relation.specs.TestsInOrder.{answer};
ghost use Rattle.circle_prover.specs.Requesting.{height_tests, matrix_tests};
ghost use Rattle.circle_prover.specs.Words.{heights_of};
ghost use Rattle.circle_codewords.specs.Words.{committed_of};

use circle_codewords::OpenedMatrix;
use circle_commit::{FriParameters, Matrix, RowMajorMatrix, log2_strict};
use circle_field::{ComplexExtendable, ExtensionField};
use circle_relation::ProverError;
use std::alloc::{AllocError, Global};

/// The binary logarithm of the greatest height, 0 where there is no matrix.
pub(crate) fn greatest_height<F: ComplexExtendable, EF: ExtensionField<F>>(
    matrices: &[OpenedMatrix<F, EF>],
) -> usize
    ensures { result ≡ greatest (map (λ m. m.log_height) matrices.now) }
{
    let mut greatest = 0;
    for matrix in matrices {
        greatest = greatest.max(matrix.log_height);
    }
    greatest
}

// Whether there is a matrix of this height.
fn has_height<F: ComplexExtendable, EF: ExtensionField<F>>(
    matrices: &[OpenedMatrix<F, EF>],
    log_height: usize,
) -> bool
    ensures { result ≡ list_any (λ m. m.log_height == log_height) matrices.now }
{
    matrices.iter().any(|m| m.log_height == log_height)
}

/// The binary logarithms of all heights, ascending, each once. Fails where memory is refused.
pub(crate) fn committed_heights<F: ComplexExtendable, EF: ExtensionField<F>>(
    alloc: Global,
    matrices: &[OpenedMatrix<F, EF>],
) -> Result<Vec<usize>, AllocError>
    ensures { IfOk result (λ v. (k : Fields F EF) (blowup : ℕ) →
        v.items ≡ heights_of (map (committed_of k blowup) matrices.now)) }
{
    let mut heights = Vec::new(alloc);
    for log_height in 0..=greatest_height(matrices) {
        if has_height(matrices, log_height) {
            heights.push(log_height)?;
        }
    }
    Ok(heights)
}

/// The binary logarithm of the least number of rows that can be folded, or `usize::MAX` where it
/// passes that.
///
/// With `2^f` coefficients at which folding stops: the fold by y halves the coefficients, and one
/// round by x halves them again, so `2^(2 + f)` rows are the fewest with a round, four where the
/// final polynomial is a constant. A verifier takes claims without a round too.
pub fn log_min_trace_height<M>(params: &FriParameters<M>) -> usize
    ensures { result ≡ min (2 + params.now.log_final_poly_len) (2 ^ 64 - 1) }
{
    params.log_final_poly_len.saturating_add(2)
}

/// Refuses the height of a committed matrix, by the first of these: `HeightTooSmall` and
/// `HeightTooLarge`, as `CirclePcs::commit_ldes` says.
///
/// Requires a height that is a power of two. Takes no memory.
#[tactic(auto, unfolding(circle_relation::specs::TestsInOrder::answer))]
pub fn validate_height<F: ComplexExtendable, M>(
    params: &FriParameters<M>,
    matrix: &RowMajorMatrix<F>,
) -> Result<(), ProverError>
    requires { IsPowerOfTwo (height_of matrix.now) }
    ensures { result
        ≡ answer (height_tests F.CIRCLE_TWO_ADICITY params.now (height_of matrix.now)) tt }
{
    let log_height = log2_strict(matrix.height());
    if log_height
        < params
            .log_blowup
            .saturating_add(log_min_trace_height(params))
    {
        return Err(ProverError::HeightTooSmall);
    }
    if log_height >= F::CIRCLE_TWO_ADICITY {
        return Err(ProverError::HeightTooLarge);
    }
    Ok(())
}

/// Refuses the heights of committed matrices, by the first of these, matrix after matrix:
/// `HeightTooSmall` and `HeightTooLarge`, as `CirclePcs::commit_ldes` says.
///
/// Requires heights that are powers of two. Takes no memory.
#[tactic(auto, unfolding(circle_relation::specs::TestsInOrder::answer))]
pub fn validate_heights<F: ComplexExtendable, M>(
    params: &FriParameters<M>,
    matrices: &[RowMajorMatrix<F>],
) -> Result<(), ProverError>
    requires { HaveHeightsOfPowers matrices.now }
    ensures { result ≡ answer (matrix_tests F.CIRCLE_TWO_ADICITY params.now matrices.now) tt }
{
    for matrix in matrices {
        validate_height(params, matrix)?;
    }
    Ok(())
}
