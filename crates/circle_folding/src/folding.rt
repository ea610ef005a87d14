//! Folding a codeword to half its length by a challenge: each pair of entries becomes one (Circle
//! STARKs, section 4.2).
//!
//! The entries of the first codeword belong to the points of a standard domain, in the order of the
//! transform, and a pair to two opposite points. The entries of a later codeword belong to x
//! coordinates, and a pair to two opposite ones.
ghost use Rattle.std.specs.Prelude.{◌≡◌, ◌≢◌, ℕ, ◌+◌, ◌^◌, ◌<◌, ◌≤◌, length, map, All, IfOk};
ghost use Rattle.circle_commit.specs.DotProduct.{pairwise};
ghost use Rattle.circle_folding.specs.Fold.{fold, folds, y_folds, x_folds, x_fold};
ghost use Rattle.circle_folding.specs.Spans.{HalvesSpan, HalvesXSpan, ShowsSpan, ShowsXSpan};

use circle_commit::{Matrix, log2_strict};
use circle_domain::{CircleDomain, cfft_permute_index, x_twiddles, y_twiddles};
use circle_field::{ComplexExtendable, ExtensionField, Field, batch_multiplicative_inverse};
use std::alloc::{AllocError, Global};

/// The first codeword of `2^(k + 1)` entries, as `2^k` rows of two, folded by y: a row `(a, b)`
/// becomes `(a + b) / 2 + beta * (a - b) / (2 t)`, where `t` is the y coordinate of the row's first
/// point.
///
/// Requires width 2 and a height `2^k` with `k + 2 <= CIRCLE_TWO_ADICITY`. Fails where memory is
/// refused.
pub fn fold_y<F: ComplexExtendable, EF: ExtensionField<F>, M: Matrix<EF>>(
    alloc: Global,
    beta: EF,
    evals: &M,
) -> Result<Vec<EF>, AllocError>
    requires width { M.width evals.now ≡ 2 }
    requires height { (k : ℕ) × (M.height evals.now ≡ 2 ^ k) × (k + 2 ≤ F.CIRCLE_TWO_ADICITY) }
    ensures folds { IfOk result (λ folded. (k : ℕ) → M.height evals.now ≡ 2 ^ k →
        folded.items ≡ y_folds F.ops F.generators EF.ops EF.embed k beta (M.rows evals.now)) }
    ensures halves { IfOk result (λ folded. (k : ℕ) → M.height evals.now ≡ 2 ^ k →
        HalvesSpan F.ops F.generators EF.ops EF.embed k (M.rows evals.now) folded.items) }
    ensures shows { IfOk result (λ folded. (k : ℕ) → M.height evals.now ≡ 2 ^ k →
        ShowsSpan F.ops F.generators EF.ops EF.embed k beta (M.rows evals.now) folded.items) }
{
    let log_height = log2_strict(evals.height());
    let twiddles = y_twiddles(alloc, CircleDomain::<F>::standard(log_height + 1))?;
    fold_rows(alloc, beta, &twiddles, evals)
}

/// A later codeword of `2^(k + 1)` entries, as `2^k` rows of two, folded by x: a row `(a, b)`
/// becomes `(a + b) / 2 + beta * (a - b) / (2 t)`, where `t` is the x coordinate that the row's
/// first entry belongs to.
///
/// Requires width 2, `log_arity` 1, and a height `2^k` with `k + 3 <= CIRCLE_TWO_ADICITY`. Fails
/// where memory is refused.
pub fn fold_x<F: ComplexExtendable, EF: ExtensionField<F>, M: Matrix<EF>>(
    alloc: Global,
    beta: EF,
    log_arity: usize,
    evals: &M,
) -> Result<Vec<EF>, AllocError>
    requires width { M.width evals.now ≡ 2 }
    requires arity { log_arity ≡ 1 }
    requires height { (k : ℕ) × (M.height evals.now ≡ 2 ^ k) × (k + 3 ≤ F.CIRCLE_TWO_ADICITY) }
    ensures folds { IfOk result (λ folded. (k : ℕ) → M.height evals.now ≡ 2 ^ k →
        folded.items ≡ x_folds F.ops F.generators EF.ops EF.embed k beta (M.rows evals.now)) }
    ensures halves { IfOk result (λ folded. (k : ℕ) → M.height evals.now ≡ 2 ^ k →
        HalvesXSpan F.ops F.generators EF.ops EF.embed k (M.rows evals.now) folded.items) }
    ensures shows { IfOk result (λ folded. (k : ℕ) → M.height evals.now ≡ 2 ^ k →
        ShowsXSpan F.ops F.generators EF.ops EF.embed k beta (M.rows evals.now) folded.items) }
{
    let log_height = log2_strict(evals.height());
    let domain = CircleDomain::<F>::standard(log_height + log_arity + 1);
    fold_rows(alloc, beta, &x_twiddles(alloc, domain)?, evals)
}

/// The fold by x of the pair at one index of a later codeword of `2^(log_folded_height + 1)`
/// entries.
///
/// Requires `log_arity` 1, `log_folded_height + 3 <= CIRCLE_TWO_ADICITY` and an index below
/// `2^log_folded_height`. Takes no memory.
pub fn fold_x_row<F: ComplexExtendable, EF: ExtensionField<F>>(
    index: usize,
    log_folded_height: usize,
    log_arity: usize,
    beta: EF,
    evals: [EF; 2],
) -> EF
    requires arity { log_arity ≡ 1 }
    requires in_group { log_folded_height + 3 ≤ F.CIRCLE_TWO_ADICITY }
    requires index { index < 2 ^ log_folded_height }
    ensures { result
        ≡ x_fold F.ops F.generators EF.ops EF.embed log_folded_height index beta evals }
{
    let log_n = log_folded_height + log_arity + 1;
    let domain = CircleDomain::<F>::standard(log_n);
    let twiddle = domain.nth_point(cfft_permute_index(index << 2, log_n)).x();
    let [low, high] = evals;
    fold_row_with_inv_twiddle(twiddle.try_inverse().unwrap(), beta, low, high)
}

/// `(low + high) / 2 + beta * (low - high) / (2 t)`, where `inv_twiddle` is the inverse of `t`.
pub fn fold_row_with_inv_twiddle<F: Field, EF: ExtensionField<F>>(
    inv_twiddle: F,
    beta: EF,
    low: EF,
    high: EF,
) -> EF
    ensures { (t : F) → t ≢ F.ops.zero → inv_twiddle ≡ F.ops.inv t →
        result ≡ fold EF.ops low high (EF.embed t) beta }
{
    (low + high + beta * (low - high).times_base(inv_twiddle)).halve()
}

// The rows of two entries folded, each by its twiddle.
fn fold_rows<F: Field, EF: ExtensionField<F>, M: Matrix<EF>>(
    alloc: Global,
    beta: EF,
    twiddles: &[F],
    evals: &M,
) -> Result<Vec<EF>, AllocError>
    requires width { M.width evals.now ≡ 2 }
    requires height { M.height evals.now ≡ length twiddles.now }
    requires nonzero { All (λ t. t ≢ F.ops.zero) twiddles.now }
    ensures { IfOk result (λ folded. folded.items
        ≡ folds EF.ops beta (map EF.embed twiddles.now) (M.rows evals.now)) }
{
    let inverses = batch_multiplicative_inverse(alloc, twiddles)?;
    let mut folded = Vec::with_capacity(alloc, inverses.len())?;
    for (j, inverse) in inverses.iter().enumerate() {
        let row = evals.row(j);
        folded.push(fold_row_with_inv_twiddle(*inverse, beta, row[0], row[1]))?;
    }
    Ok(folded)
}

/// Adds to each value the other at its place.
///
/// Requires as many others.
pub fn add_each<E: Field>(values: &mut [E], others: &[E])
    requires { length others.now ≡ length values.old }
    ensures { values.new ≡ pairwise E.ops.add values.old others.now }
{
    for (i, value) in values.iter_mut().enumerate() {
        *value = *value + others[i];
    }
}
