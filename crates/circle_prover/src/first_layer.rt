//! The first layer of an opening, committed to and folded by y.
ghost use Rattle.std.specs.Prelude.{◌≡◌, ◌≤◌, ◌<◌, ◌-◌, ◌+◌, ◌^◌, ◌++◌, [], ◌∷◌, length, map, All};
ghost use Rattle.std.specs.Prelude.{IfOk, IfErr};
ghost use Rattle.std.specs.Prelude.{◌⊎◌};
ghost use Rattle.circle_domain.specs.Spans.{HasXValues, XSpan};
ghost use Rattle.circle_codewords.specs.Words.{HaveHeights, y_folds_at};
ghost use Rattle.circle_commit.specs.DotProduct.{pairwise};
ghost use Rattle.circle_commit.specs.RowMajorMatrix.{rows};
ghost use Rattle.circle_prover.specs.OfFoldable.{lambdas_of, layers_of, seen};
ghost use Rattle.circle_prover.specs.Words.{AreCommitted, heights_of};
ghost use Rattle.circle_relation.specs.declared.error.ProverError.TheVariants.{LastWordNotConstant};
ghost use Rattle.circle_relation.specs.declared.error.ProverError.TheVariants.{Memory};

use crate::foldable::FoldableMatrices;
use crate::heights::committed_heights;
use circle_codewords::{BatchedMatrices, fold_corrected};
use circle_commit::Mmcs;
use circle_field::{ComplexExtendable, ExtensionField, Field};
use circle_folding::x_interpolate;
use circle_relation::ProverError;
use std::alloc::{AllocError, Global};

/// The first layer of an opening.
#[derive(Drop)]
pub(crate) struct FirstLayer<EF, Com, Data> {
    /// The binary logarithms of the heights, ascending.
    pub heights: Vec<usize>,
    /// For each height, from the least up, the multiple of the vanishing polynomial in its
    /// codeword.
    pub lambdas: Vec<EF>,
    /// The commitment to the codewords without it.
    pub commitment: Com,
    /// What the committer keeps of them.
    pub kept: Data,
}

/// The first layer of an opening with its challenges, and what its codewords fold into.
#[derive(Drop)]
pub(crate) struct FoldedLayer<F, EF, Com, Data> {
    /// The challenge that batches the claims.
    pub alpha: EF,
    /// The witness of the proof of work before it, 0 where that has no difficulty.
    pub witness: F,
    /// The layer.
    pub layer: FirstLayer<EF, Com, Data>,
    /// The challenge that folds it.
    pub bivariate: EF,
    /// What the codewords fold into that join the rounds, all but that of the greatest height.
    pub joining: Vec<Vec<EF>>,
}

impl<F: ComplexExtendable, EF: ExtensionField<F>, M: Mmcs<EF>> FoldableMatrices<'_, F, EF, M> {
    /// Makes the codewords of all heights, and commits to them by pairs.
    ///
    /// The first layer has a commitment of its own, apart from the rounds: its pairs are at
    /// opposite points and fold by y, where those of rounds fold by x; and it has the codewords of
    /// all heights, so that those that join a later round are fixed too before the one challenge
    /// that folds them all. Fails where memory is refused.
    pub(crate) fn commit_first_layer(
        &self,
        alloc: Global,
        alpha: EF,
    ) -> Result<FirstLayer<EF, M::Commitment, M::ProverData>, AllocError>
        ensures heights { IfOk result (λ r. r.heights.items ≡ heights_of (seen self.now)) }
        ensures lambdas { IfOk result (λ r. r.lambdas.items ≡ lambdas_of self.now alpha) }
        ensures committed { IfOk result (λ r. AreCommitted (M.commits self.now.params.now.mmcs)
            (layers_of self.now alpha) (M.matrices r.kept) r.commitment) }
        ensures shapes { IfOk result (λ r. HaveHeights r.heights.items (M.matrices r.kept)) }
    {
        let heights = committed_heights(alloc, self.matrices)?;
        let log_blowup = self.params.log_blowup;
        let batched = BatchedMatrices::new(alloc, self.matrices, log_blowup, alpha)?;
        let (lambdas, layers) = batched.first_layer(alloc, &heights)?;
        let (commitment, kept) = self.params.mmcs.commit(alloc, layers)?;
        Ok(FirstLayer {
            heights,
            lambdas,
            commitment,
            kept,
        })
    }
}

/// What the codeword of the greatest height folds into by y, and what those of the others do.
///
/// Requires some height, heights below `CIRCLE_TWO_ADICITY`, and a layer of half as many rows of
/// two for each. Fails where memory is refused.
pub(crate) fn fold_first_layer<F: ComplexExtendable, EF: ExtensionField<F>, M: Mmcs<EF>>(
    alloc: Global,
    mmcs: &M,
    bivariate: EF,
    heights: &[usize],
    kept: &M::ProverData,
) -> Result<(Vec<EF>, Vec<Vec<EF>>), AllocError>
    requires some { 1 ≤ length heights.now }
    requires heights { All (λ h. (1 ≤ h) × (h < F.CIRCLE_TWO_ADICITY)) heights.now }
    requires shapes { HaveHeights heights.now (M.matrices kept.now) }
    ensures words { IfOk result (λ r. map (λ w. w.items) r.1.items ++ r.0.items ∷ [] ≡ pairwise
        (y_folds_at F.ops F.generators EF.ops EF.embed bivariate) heights.now
        (map rows (M.matrices kept.now))) }
    ensures lengths { IfOk result (λ r. map (λ w. length w.items) r.1.items
        ++ length r.0.items ∷ [] ≡ map (λ h. 2 ^ (h - 1)) heights.now) }
{
    let mut folded = fold_corrected::<F, EF>(alloc, bivariate, heights, mmcs.get_matrices(kept))?;
    let tallest = folded.pop().unwrap();
    Ok((tallest, folded))
}

/// The coefficients of the polynomial whose values the last codeword is. Refuses
/// `LastWordNotConstant` where there is none of so few coefficients, and `Memory` where memory is
/// refused.
///
/// Requires a codeword of `2^m` entries with `log_len <= m` and `m + 2 <= CIRCLE_TWO_ADICITY`.
pub(crate) fn final_coefficients<F: ComplexExtendable, EF: ExtensionField<F>>(
    alloc: Global,
    word: &[EF],
    log_points: usize,
    log_len: usize,
) -> Result<Vec<EF>, ProverError>
    requires length { length word.now ≡ 2 ^ log_points }
    requires few { log_len ≤ log_points }
    requires in_group { log_points + 2 ≤ F.CIRCLE_TWO_ADICITY }
    ensures count { IfOk result (λ c. length c.items ≡ 2 ^ log_len) }
    ensures values { IfOk result (λ c. HasXValues F.ops F.generators EF.ops EF.embed log_len
        log_points word.now c.items) }
    ensures failure { IfErr result (λ e. (e ≡ Memory) ⊎ ((e ≡ LastWordNotConstant)
        × ¬ XSpan F.ops F.generators EF.ops EF.embed log_len log_points word.now)) }
{
    match x_interpolate::<F, EF>(alloc, word, log_len)? {
        Some(coefficients) => Ok(coefficients),
        None => Err(ProverError::LastWordNotConstant),
    }
}
