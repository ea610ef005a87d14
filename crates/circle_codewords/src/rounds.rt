//! The rounds of an opening: codewords that are folded by x, each joined by what was folded from
//! the height that is due (Circle STARKs, section 4.2).
ghost use Rattle.std.specs.Prelude.{◌≡◌, ◌+◌, ◌-◌, ◌==◌, ◌^◌, ◌<◌, ◌≤◌, length, map, IfOk};
ghost use Rattle.std.specs.Prelude.{false, IfNone, IfSome, slice_index_or};
ghost use Rattle.std.specs.List.{list_any};
ghost use Rattle.circle_commit.specs.RowMajorMatrix.{rows, width_of, height_of};
ghost use Rattle.circle_codewords.specs.Words.{IsNextWord};

use circle_commit::RowMajorMatrix;
use circle_field::{ComplexExtendable, ExtensionField};
use circle_folding::{add_each, fold_x};
use std::alloc::{AllocError, Global};

// Which of the heights this is, the first where several are.
fn place_of(heights: &[usize], log_height: usize) -> Option<usize>
    ensures none { IfNone result (list_any (λ n. n == log_height) heights.now ≡ false) }
    ensures some { IfSome result (λ i. (i < length heights.now)
        × (slice_index_or heights.now i 0 ≡ log_height)) }
{
    for (i, height) in heights.iter().enumerate() {
        if *height == log_height {
            return Some(i);
        }
    }
    None
}

/// The codeword that follows one of `2^log_height` entries, which stands in rows of two: its fold
/// by x, and what was folded from the height `2^log_height`, where that is one of the heights.
///
/// Requires `1 <= log_height` and `log_height + 2 <= CIRCLE_TWO_ADICITY`, half as many rows of two,
/// and for each of the heights a codeword of half as many entries. Fails where memory is refused.
pub fn fold_round<F: ComplexExtendable, EF: ExtensionField<F>>(
    alloc: Global,
    beta: EF,
    log_height: usize,
    layer: &RowMajorMatrix<EF>,
    heights: &[usize],
    folded: &[Vec<EF>],
) -> Result<Vec<EF>, AllocError>
    requires positive { 1 ≤ log_height }
    requires in_group { log_height + 2 ≤ F.CIRCLE_TWO_ADICITY }
    requires width { width_of layer.now ≡ 2 }
    requires rows { height_of layer.now ≡ 2 ^ (log_height - 1) }
    requires words { map (λ w. length w.items) folded.now ≡ map (λ h. 2 ^ (h - 1)) heights.now }
    ensures length { IfOk result (λ word. length word.items ≡ 2 ^ (log_height - 1)) }
    ensures folds { IfOk result (λ word. IsNextWord F.ops F.generators EF.ops EF.embed
        heights.now folded.now log_height beta (rows layer.now) word.items) }
{
    let mut word = fold_x::<F, EF, RowMajorMatrix<EF>>(alloc, beta, 1, layer)?;
    if let Some(place) = place_of(heights, log_height) {
        add_each(&mut word, &folded[place]);
    }
    Ok(word)
}
