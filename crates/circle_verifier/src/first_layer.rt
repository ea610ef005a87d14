//! The first layer: the reduced codewords of all heights, which are folded by y.
ghost use Rattle.std.specs.Prelude.{◌≡◌, ◌^◌, ◌<◌, ◌≤◌, [], Some, length, map, All};
ghost use Rattle.std.specs.Prelude.{OnOk, IfOk, IfErr, slice_get, slice_index_or};
ghost use Rattle.std.specs.List.{flat_map};
ghost use Rattle.circle_commit.specs.Mmcs.{opened_rows};
ghost use Rattle.circle_point.specs.Point.{coordinates};
ghost use Rattle.circle_folding.specs.Chain.{first_layer_twiddle};
ghost use Rattle.circle_folding.specs.Queries.{query_point};
ghost use Rattle.circle_relation.specs.RunOf.{queried, joining_of};
ghost use Rattle.circle_verifier.specs.OfRun.{heights_of, first_pairs, folded_words};
ghost use Rattle.circle_verifier.specs.OfRun.{FirstLayerAuthenticates, Refuses};
ghost use Rattle.circle_verifier.specs.FirstLayer.{twiddles_of, pairs_of, folded_word, with_pairs};
ghost use Rattle.circle_verifier.specs.Sums.{word_at};
ghost use Rattle.circle_verifier.specs.FirstLayer.{pair_shape};

use crate::checked::CheckedRun;
use crate::reduced::ReducedWords;
use circle_commit::{Dimensions, FriError, Mmcs, OpenedRows};
use circle_field::{ComplexExtendable, ExtensionField, Operations, batch_multiplicative_inverse};
use circle_folding::{
    first_layer_twiddles, fold_query_values_with_inv_twiddles, push_query_pairs,
    subtract_vanishing, without_bits,
};
use circle_relation::{InputError, OverCircle, QueriedWord, QueryValues, VerifierError};
use std::alloc::{AllocError, Global};

/// What a run opens of the first layer, at the queries.
#[derive(Drop)]
pub struct FirstLayer<
    'a,
    Val: Operations,
    EF: Operations + OverCircle<Val>,
    InputMmcs: Mmcs<Val>,
    FriMmcs: Mmcs<EF>,
> {
    /// The run.
    pub run: &'a CheckedRun<'a, Val, EF, InputMmcs, FriMmcs>,
    /// For each query its pairs, one for each height that is claimed.
    pub pairs: OpenedRows<EF>,
    /// For each of these heights what the pairs fold into.
    pub folded: Vec<QueryValues<EF>>,
    /// What the pairs are.
    pub ghost asked: { opened_rows pairs.items ≡ first_pairs run.now.run },
    /// What they fold into.
    pub ghost folds: { map joining_of folded.items ≡ folded_words run.now.run },
}

impl<
    'a,
    Val: ComplexExtendable,
    EF: ExtensionField<Val>,
    InputMmcs: Mmcs<Val>,
    FriMmcs: Mmcs<EF>,
> ReducedWords<'a, Val, EF, InputMmcs, FriMmcs> {
    /// Takes from each reduced codeword its lambda times the vanishing polynomial, and folds the
    /// pairs at the queries: for each query its pairs, one for each height, and for each height
    /// what they fold into.
    ///
    /// The transcript absorbs no lambda, and nothing fixes one before the queries are drawn. The
    /// commitment to the first layer binds both members of a pair, but a prover that knows the
    /// queries can choose a height's lambda so that the member at one of them is what it committed
    /// to, whatever it claims. So one query adds no security.
    ///
    /// The twiddles of all heights are inverted together. Fails where memory is refused.
    pub fn fold_first_layer(
        self,
        alloc: Global,
    ) -> Result<FirstLayer<'a, Val, EF, InputMmcs, FriMmcs>, AllocError>
        ensures run { IfOk result (λ layer. layer.run.now ≡ self.entry.run.now) }
    {
        let ReducedWords { run, words } = self;
        let (top, indices) = (run.run.log_max_height, run.run.indices);
        let inverses = inverse_first_twiddles(alloc, top, indices, &words)?;
        let mut later = inverses.as_slice();
        let mut pairs = empty_rows(alloc, indices)?;
        let mut folded = Vec::with_capacity(alloc, words.len())?;
        for word in words {
            let (inv_twiddles, rest) = later.split_at(indices.len());
            let values = run.fold_word(alloc, folded.len(), word, inv_twiddles, &mut pairs)?;
            folded.push(values)?;
            later = rest;
        }
        Ok(FirstLayer { run, pairs, folded })
    }
}

impl<
    Val: ComplexExtendable,
    EF: ExtensionField<Val>,
    InputMmcs: Mmcs<Val>,
    FriMmcs: Mmcs<EF>,
> FirstLayer<'_, Val, EF, InputMmcs, FriMmcs> {
    /// Refuses a run of which the pairs of the first layer don't authenticate, by
    /// `FirstLayerMmcsError`.
    ///
    /// Fails with `Memory` where memory is refused.
    pub fn authenticate_first_layer(
        &self,
        alloc: Global,
    ) -> Result<(), VerifierError<InputMmcs::Error, FriMmcs::Error>>
        ensures shown { OnOk result (FirstLayerAuthenticates self.now.run.now.run) }
        ensures refused { IfErr result (Refuses self.now.run.now.run) }
    {
        let run = &self.run.run;
        let dimensions = pair_shapes(alloc, &self.run.heights)?;
        let places = without_bits(alloc, run.indices, 1)?;
        let openings = &run.proof.fri_proof.input_openings;
        let shown = run.params.mmcs.verify_multi_batch(
            alloc,
            &run.proof.first_layer_commitment,
            &dimensions,
            &places,
            &self.pairs,
            &openings.first_layer_proof,
        );
        match shown {
            Ok(()) => Ok(()),
            Err(e) if FriMmcs::is_memory(&e) => Err(FriError::Memory),
            Err(e) => Err(FriError::InputError(InputError::FirstLayerMmcsError(e))),
        }
    }
}

impl<
    Val: ComplexExtendable,
    EF: ExtensionField<Val>,
    InputMmcs: Mmcs<Val>,
    FriMmcs: Mmcs<EF>,
> CheckedRun<'_, Val, EF, InputMmcs, FriMmcs> {
    // Takes from the values of the codeword in this place of the heights its lambda times the
    // vanishing polynomial, adds the pairs at the queries to their rows, and folds them by the
    // inverses of their twiddles. Where memory is refused the rows are of no use.
    fn fold_word(
        &self,
        alloc: Global,
        place: usize,
        word: QueriedWord<Val, EF>,
        inv_twiddles: &[Val],
        rows: &mut [Vec<Vec<EF>>],
    ) -> Result<QueryValues<EF>, AllocError>
        requires place { slice_get (heights_of self.now.run) place ≡ Some word.log_height }
        requires word { queried word ≡ word_at self.now.run word.log_height }
        requires inverses { inv_twiddles.now
            ≡ map Val.ops.inv (twiddles_of self.now.run word.log_height) }
        requires rows { length rows.old ≡ length self.now.run.indices.now }
        ensures pairs { OnOk result (opened_rows rows.new
            ≡ with_pairs (opened_rows rows.old) (pairs_of self.now.run word.log_height)) }
        ensures folded { IfOk result (λ values.
            joining_of values ≡ folded_word self.now.run word.log_height) }
    {
        let QueriedWord {
            log_height,
            points,
            mut values,
        } = word;
        let run = &self.run;
        let (top, indices) = (run.log_max_height, run.indices);
        let openings = &run.proof.fri_proof.input_openings;
        let siblings = entries_at(alloc, &openings.first_layer_siblings, place)?;
        let degree = log_height - run.params.log_blowup;
        subtract_vanishing(run.proof.lambdas[place], degree, &points, &mut values);
        let bits = top - log_height;
        push_query_pairs(alloc, rows, bits, indices, &values, &siblings)?;
        fold_query_values_with_inv_twiddles(
            run.bivariate,
            bits,
            indices,
            inv_twiddles,
            &mut values,
            &siblings,
        );
        Ok(QueryValues { log_height, values })
    }
}

// The inverses of the queries' twiddles in these codewords, codeword after codeword, by one
// inversion.
fn inverse_first_twiddles<Val: ComplexExtendable, EF>(
    alloc: Global,
    log_max_height: usize,
    indices: &[usize],
    words: &[QueriedWord<Val, EF>],
) -> Result<Vec<Val>, AllocError>
    requires in_group { log_max_height < Val.CIRCLE_TWO_ADICITY }
    requires below { All (λ q. q < 2 ^ log_max_height) indices.now }
    requires heights { All (λ w. (1 ≤ w.log_height) × (w.log_height ≤ log_max_height)) words.now }
    requires points { All (λ w. map coordinates w.points.items ≡ map (query_point Val.ops
        Val.generators w.log_height log_max_height) indices.now) words.now }
    ensures { IfOk result (λ r. r.items ≡ map Val.ops.inv (flat_map (λ w. map (first_layer_twiddle
        Val.ops Val.generators w.log_height log_max_height) indices.now) words.now)) }
{
    let mut twiddles = Vec::with_capacity(alloc, words.len().saturating_mul(indices.len()))?;
    for word in words {
        let of_word = first_layer_twiddles(
            alloc,
            word.log_height,
            log_max_height,
            indices,
            &word.points,
        )?;
        twiddles.extend_from_slice(&of_word)?;
    }
    batch_multiplicative_inverse(alloc, &twiddles)
}

// An empty list for each of the indices.
fn empty_rows<T: Copy>(alloc: Global, indices: &[usize]) -> Result<OpenedRows<T>, AllocError>
    ensures { IfOk result (λ rows. opened_rows rows.items ≡ map (λ _. []) indices.now) }
{
    let mut rows = Vec::with_capacity(alloc, indices.len())?;
    for _ in indices {
        rows.push(Vec::new(alloc))?;
    }
    Ok(rows)
}

// Of each list the entry at a place.
fn entries_at<T: Copy>(alloc: Global, lists: &[Vec<T>], place: usize) -> Result<Vec<T>, AllocError>
    requires { All (λ list. place < length list.items) lists.now }
    ensures { IfOk result (λ entries. (d : T) →
        entries.items ≡ map (λ list. slice_index_or list.items place d) lists.now) }
{
    let mut entries = Vec::with_capacity(alloc, lists.len())?;
    for list in lists {
        entries.push(list[place])?;
    }
    Ok(entries)
}

// The shapes of the codewords of these heights, by pairs.
fn pair_shapes(alloc: Global, heights: &[usize]) -> Result<Vec<Dimensions>, AllocError>
    requires { All (λ h. (1 ≤ h) × (h ≤ 63)) heights.now }
    ensures { IfOk result (λ shapes. shapes.items ≡ map pair_shape heights.now) }
{
    let mut shapes = Vec::with_capacity(alloc, heights.len())?;
    for log_height in heights {
        shapes.push(Dimensions {
            width: 2,
            height: 1 << (*log_height - 1),
        })?;
    }
    Ok(shapes)
}
