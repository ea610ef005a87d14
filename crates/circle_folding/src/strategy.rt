//! The folds by x as a strategy of FRI.
ghost use Rattle.std.specs.Prelude.{◌≡◌, ℕ, ◌+◌, ◌^◌, ◌<◌, ◌≤◌, length, IfOk};
ghost use Rattle.circle_folding.specs.Fold.{x_folds, x_fold};

use crate::folding::{fold_x, fold_x_row};
use circle_commit::{FriFoldingStrategy, Matrix};
use circle_field::{ComplexExtendable, ExtensionField};
use std::alloc::{AllocError, Global};

/// The strategy of the circle: a codeword after the first layer is folded by x, two neighbours at
/// once. The fold of the first layer, by y, is no part of it and takes one further bit of a query's
/// index.
#[derive(Clone, Copy, Debug, Default)]
pub struct CircleFriFolding;

impl<F: ComplexExtendable, EF: ExtensionField<F>> FriFoldingStrategy<F, EF> for CircleFriFolding {
    ghost extra_query_index_bits = { λ _. 1 };

    ghost fold_row_asks = { λ _ index log_folded_height log_arity. (log_arity ≡ 1)
        × (log_folded_height + 3 ≤ F.CIRCLE_TWO_ADICITY) × (index < 2 ^ log_folded_height) };

    ghost fold_row_gives = { λ _ index log_folded_height log_arity beta evals folded.
        folded ≡ x_fold F.ops F.generators EF.ops EF.embed log_folded_height index beta evals };

    ghost fold_matrix_asks = { λ _ log_arity width height. (width ≡ 2) × (log_arity ≡ 1)
        × ((k : ℕ) × (height ≡ 2 ^ k) × (k + 3 ≤ F.CIRCLE_TWO_ADICITY)) };

    ghost fold_matrix_gives = { λ _ beta log_arity rows folded. (k : ℕ) → length rows ≡ 2 ^ k →
        folded ≡ x_folds F.ops F.generators EF.ops EF.embed k beta rows };

    /// One, for the first layer.
    fn extra_query_index_bits(&self) -> usize {
        1
    }

    /// The fold by x of the pair at one index of a codeword of `2^(log_folded_height + 1)` entries.
    ///
    /// Requires `log_arity` 1, `log_folded_height + 3 <= CIRCLE_TWO_ADICITY` and an index below
    /// `2^log_folded_height`. Takes no memory.
    fn fold_row(
        &self,
        index: usize,
        log_folded_height: usize,
        log_arity: usize,
        beta: EF,
        evals: [EF; 2],
    ) -> EF
        requires arity { log_arity ≡ 1 }
        requires in_group { log_folded_height + 3 ≤ F.CIRCLE_TWO_ADICITY }
        requires index { index < 2 ^ log_folded_height }
        ensures { result
            ≡ x_fold F.ops F.generators EF.ops EF.embed log_folded_height index beta evals }
    {
        fold_x_row(index, log_folded_height, log_arity, beta, evals)
    }

    /// A codeword of `2^(k + 1)` entries, as `2^k` rows of two, folded by x.
    ///
    /// Requires width 2, `log_arity` 1, and a height `2^k` with `k + 3 <= CIRCLE_TWO_ADICITY`.
    /// Fails where memory is refused.
    fn fold_matrix<M: Matrix<EF> + Drop>(
        &self,
        alloc: Global,
        beta: EF,
        log_arity: usize,
        evals: M,
    ) -> Result<Vec<EF>, AllocError>
        requires width { M.width evals ≡ 2 }
        requires arity { log_arity ≡ 1 }
        requires height { (k : ℕ) × (M.height evals ≡ 2 ^ k) × (k + 3 ≤ F.CIRCLE_TWO_ADICITY) }
        ensures { IfOk result (λ folded. (k : ℕ) → M.height evals ≡ 2 ^ k →
            folded.items ≡ x_folds F.ops F.generators EF.ops EF.embed k beta (M.rows evals)) }
    {
        fold_x::<F, EF, M>(alloc, beta, log_arity, &evals)
    }
}
