//! How codewords are folded.
ghost use Rattle.std.specs.Prelude.{◌≡◌, ℕ, List, IfOk};

use crate::matrix::Matrix;
use circle_field::{ExtensionField, Field};
use std::alloc::{AllocError, Global};

/// How a codeword of an extension field's elements is folded by a challenge: neighbouring entries,
/// a row of a matrix, become one. Each strategy says what each call requires and returns.
pub trait FriFoldingStrategy<F: Field, EF: ExtensionField<F>> {
    ghost extra_query_index_bits: { Self → ℕ };

    // Of the index, the height's logarithm and the arity's.
    ghost fold_row_asks: { Self → ℕ → ℕ → ℕ → Type 0 };

    ghost fold_row_gives: { Self → ℕ → ℕ → ℕ → EF → List EF → EF → Type 0 };

    // Of the arity's logarithm, the width and the height.
    ghost fold_matrix_asks: { Self → ℕ → ℕ → ℕ → Type 0 };

    ghost fold_matrix_gives: { Self → EF → ℕ → List (List EF) → List EF → Type 0 };

    /// How many bits a query's index has beyond those of the first codeword that this strategy
    /// folds.
    fn extra_query_index_bits(&self) -> usize
        ensures { result ≡ extra_query_index_bits self.now };

    /// The fold of the row at `index` among `2^log_folded_height` rows.
    fn fold_row(
        &self,
        index: usize,
        log_folded_height: usize,
        log_arity: usize,
        beta: EF,
        evals: [EF; 2],
    ) -> EF
        requires { fold_row_asks self.now index log_folded_height log_arity }
        ensures { fold_row_gives self.now index log_folded_height log_arity beta evals result };

    /// The folds of all rows of a matrix, in order. Fails where memory is refused.
    fn fold_matrix<M: Matrix<EF> + Drop>(
        &self,
        alloc: Global,
        beta: EF,
        log_arity: usize,
        evals: M,
    ) -> Result<Vec<EF>, AllocError>
        requires { fold_matrix_asks self.now log_arity (M.width evals) (M.height evals) }
        ensures { IfOk result (λ folded. fold_matrix_gives self.now beta log_arity (M.rows evals)
            folded.items) };
}
