//! Folding the values at queries, all queries of a codeword together.
//!
//! A query is an index below `2^log_max_height`, the greatest height that is committed. Of a
//! codeword of `2^(log_max_height - bits)` entries it reads the one at place `index >> bits`; its
//! pair has the index `index >> (bits + 1)`, and its sibling is the other entry of the pair. Round
//! `r` folds a codeword of `2^(log_max_height - 1 - r)` entries, so there `bits` is `r + 1`.
ghost use Rattle.std.specs.Prelude.{◌≡◌, ◌≢◌, ◌+◌, ◌/◌, ◌^◌, ◌<◌, ◌≤◌, [], ◌∷◌, ◌++◌};
ghost use Rattle.std.specs.Prelude.{List, length, map, All, IfOk, OnOk, OnErr};
ghost use Rattle.circle_commit.specs.Mmcs.{opened_rows};
ghost use Rattle.circle_point.specs.Point.{coordinates};
ghost use Rattle.circle_commit.specs.DotProduct.{pairwise};
ghost use Rattle.circle_folding.specs.Fold.{folds};
ghost use Rattle.circle_folding.specs.Queries.{query_point};
ghost use Rattle.circle_folding.specs.Chain.{first_layer_twiddle, round_twiddles};
ghost use Rattle.circle_folding.specs.Chain.{AreNextTwiddles, EachIsNext, asked_pairs, pair_of};

use crate::folding::fold_row_with_inv_twiddle;
use circle_commit::OpenedRows;
use circle_domain::{CircleDomain, cfft_permute_index};
use circle_field::{ComplexExtendable, ExtensionField, Field, batch_multiplicative_inverse};
use circle_point::Point;
use std::alloc::{AllocError, Global};

/// For each query the twiddle of its pair in a codeword of `2^log_height` entries of the first
/// layer, the y coordinate of the pair's first point: that of the query's own point, or its
/// opposite where the point stands at an odd place. The place is the query without its lowest
/// `log_max_height - log_height` bits.
///
/// Requires `1 <= log_height <= log_max_height <= 62`, `log_height < CIRCLE_TWO_ADICITY`, queries
/// below `2^log_max_height`, and their points, as [`query_points`](crate::query_points) gives them.
/// Fails where memory is refused.
pub fn first_layer_twiddles<F: ComplexExtendable>(
    alloc: Global,
    log_height: usize,
    log_max_height: usize,
    indices: &[usize],
    points: &[Point<F>],
) -> Result<Vec<F>, AllocError>
    requires positive { 1 ≤ log_height }
    requires within { log_height ≤ log_max_height }
    requires in_group { log_height < F.CIRCLE_TWO_ADICITY }
    requires small { log_max_height ≤ 62 }
    requires below { All (λ q. q < 2 ^ log_max_height) indices.now }
    requires points { map coordinates points.now
        ≡ map (query_point F.ops F.generators log_height log_max_height) indices.now }
    ensures { IfOk result (λ twiddles. twiddles.items
        ≡ map (first_layer_twiddle F.ops F.generators log_height log_max_height) indices.now) }
{
    let bits = log_max_height - log_height;
    let mut twiddles = Vec::with_capacity(alloc, indices.len())?;
    for (i, index) in indices.iter().enumerate() {
        let y = points[i].y();
        let place = *index >> bits;
        let twiddle = if place % 2 == 0 { y } else { -y };
        twiddles.push(twiddle)?;
    }
    Ok(twiddles)
}

/// For each query the twiddle of its pair in round 0, the x coordinate that the pair's first entry
/// belongs to.
///
/// Requires `2 <= log_max_height < CIRCLE_TWO_ADICITY` and indices below `2^log_max_height`. Fails
/// where memory is refused.
pub fn first_x_twiddles<F: ComplexExtendable>(
    alloc: Global,
    log_max_height: usize,
    indices: &[usize],
) -> Result<Vec<F>, AllocError>
    requires height { 2 ≤ log_max_height }
    requires in_group { log_max_height < F.CIRCLE_TWO_ADICITY }
    requires in_range { All (λ q. q < 2 ^ log_max_height) indices.now }
    ensures { IfOk result (λ twiddles. twiddles.items
        ≡ round_twiddles F.ops F.generators log_max_height 0 indices.now) }
{
    let domain = CircleDomain::<F>::standard(log_max_height);
    let mut twiddles = Vec::with_capacity(alloc, indices.len())?;
    for index in indices {
        let place = (*index >> 2) << 2;
        let point = domain.nth_point(cfft_permute_index(place, log_max_height));
        twiddles.push(point.x())?;
    }
    Ok(twiddles)
}

/// Takes the queries' twiddles of this round to those of the next: `t` becomes `2 t^2 - 1`, or its
/// opposite where the pair stands at an odd place among the pairs.
///
/// Requires a twiddle for each query, and `round < 62`. Takes no memory.
pub fn next_x_twiddles<F: ComplexExtendable>(round: usize, indices: &[usize], twiddles: &mut [F])
    requires count { length twiddles.old ≡ length indices.now }
    requires round { round < 62 }
    ensures { AreNextTwiddles F.ops F.generators F.CIRCLE_TWO_ADICITY round indices.now
        twiddles.old twiddles.new }
{
    for (i, twiddle) in twiddles.iter_mut().enumerate() {
        let doubled = twiddle.square().double() - F::ONE;
        let pair = indices[i] >> (round + 2);
        *twiddle = if pair % 2 == 0 { doubled } else { -doubled };
    }
}

/// For each query the one row of a codeword's commitment that is opened: the pair of the query's
/// value and its sibling. The value is the codeword's entry at the place that the query is without
/// its `bits` lowest bits.
///
/// Requires a value and a sibling for each query, and `bits < 63`. Fails where memory is refused.
pub fn query_pairs<T: Copy>(
    alloc: Global,
    bits: usize,
    indices: &[usize],
    values: &[T],
    siblings: &[T],
) -> Result<OpenedRows<T>, AllocError>
    requires values { length values.now ≡ length indices.now }
    requires siblings { length siblings.now ≡ length indices.now }
    requires bits { bits < 63 }
    ensures { IfOk result (λ rows. opened_rows rows.items
        ≡ map (λ pair. pair ∷ []) (asked_pairs bits indices.now values.now siblings.now)) }
{
    let mut rows = Vec::with_capacity(alloc, indices.len())?;
    for _ in indices {
        rows.push(Vec::new(alloc))?;
    }
    push_query_pairs(alloc, &mut rows, bits, indices, values, siblings)?;
    Ok(rows)
}

/// Adds to each query's rows the one that is opened of the commitment to one more codeword: the
/// pair of the query's value and its sibling. The value is the codeword's entry at the place that
/// the query is without its `bits` lowest bits.
///
/// Requires a list of rows, a value and a sibling for each query, and `bits < 63`. Where memory is
/// refused the rows are of no use.
pub fn push_query_pairs<T: Copy>(
    alloc: Global,
    rows: &mut [Vec<Vec<T>>],
    bits: usize,
    indices: &[usize],
    values: &[T],
    siblings: &[T],
) -> Result<(), AllocError>
    requires rows { length rows.old ≡ length indices.now }
    requires values { length values.now ≡ length indices.now }
    requires siblings { length siblings.now ≡ length indices.now }
    requires bits { bits < 63 }
    ensures { OnOk result (opened_rows rows.new ≡ pairwise (λ rs pair. rs ++ pair ∷ [])
        (opened_rows rows.old) (asked_pairs bits indices.now values.now siblings.now)) }
{
    for (i, row) in rows.iter_mut().enumerate() {
        row.push(pair_row(alloc, indices[i] >> bits, values[i], siblings[i])?)?;
    }
    Ok(())
}

/// Folds each query's pair by `beta`, where the query without its `bits` lowest bits is the place
/// of its value: the values become those of the folded codeword, to which whoever calls adds what
/// joins it.
///
/// Requires a twiddle that isn't 0, a value and a sibling for each query, and `bits < 63`. Where
/// memory is refused the values stay as they were.
pub fn fold_query_values<F: Field, EF: ExtensionField<F>>(
    alloc: Global,
    beta: EF,
    bits: usize,
    indices: &[usize],
    twiddles: &[F],
    values: &mut [EF],
    siblings: &[EF],
) -> Result<(), AllocError>
    requires twiddles { length twiddles.now ≡ length indices.now }
    requires nonzero { All (λ t. t ≢ F.ops.zero) twiddles.now }
    requires values { length values.old ≡ length indices.now }
    requires siblings { length siblings.now ≡ length indices.now }
    requires bits { bits < 63 }
    ensures folded { OnOk result (values.new ≡ folds EF.ops beta (map EF.embed twiddles.now)
        (asked_pairs bits indices.now values.old siblings.now)) }
    ensures each { OnOk result (EachIsNext EF.ops F.ops.zero EF.embed beta bits indices.now
        twiddles.now siblings.now values.old values.new) }
    ensures refused { OnErr result (values.new ≡ values.old) }
{
    let inverses = batch_multiplicative_inverse(alloc, twiddles)?;
    fold_query_values_with_inv_twiddles(beta, bits, indices, &inverses, values, siblings);
    Ok(())
}

/// Folds each query's pair as [`fold_query_values`] does, where the inverses of the twiddles are
/// there already: so one inversion can serve many codewords.
///
/// Requires the inverse of a twiddle that isn't 0, a value and a sibling for each query, and `bits
/// < 63`. Takes no memory.
pub fn fold_query_values_with_inv_twiddles<F: Field, EF: ExtensionField<F>>(
    beta: EF,
    bits: usize,
    indices: &[usize],
    inv_twiddles: &[F],
    values: &mut [EF],
    siblings: &[EF],
)
    requires inverses { length inv_twiddles.now ≡ length indices.now }
    requires values { length values.old ≡ length indices.now }
    requires siblings { length siblings.now ≡ length indices.now }
    requires bits { bits < 63 }
    ensures { (ts : List F) → All (λ t. t ≢ F.ops.zero) ts → inv_twiddles.now ≡ map F.ops.inv ts →
        values.new ≡ folds EF.ops beta (map EF.embed ts)
        (asked_pairs bits indices.now values.old siblings.now) }
{
    for (i, value) in values.iter_mut().enumerate() {
        let (low, high) = ordered(indices[i] >> bits, *value, siblings[i]);
        *value = fold_row_with_inv_twiddle(inv_twiddles[i], beta, low, high);
    }
}

// The pair of the value at a place and its sibling, as a row.
fn pair_row<T: Copy>(
    alloc: Global,
    place: usize,
    value: T,
    sibling: T,
) -> Result<Vec<T>, AllocError>
    ensures { IfOk result (λ row. row.items ≡ pair_of place value sibling) }
{
    let (low, high) = ordered(place, value, sibling);
    let mut row = Vec::with_capacity(alloc, 2)?;
    row.push(low)?;
    row.push(high)?;
    Ok(row)
}

// The pair of the value at a place and its sibling.
fn ordered<T: Copy>(place: usize, value: T, sibling: T) -> (T, T)
    ensures { result.0 ∷ result.1 ∷ [] ≡ pair_of place value sibling }
{
    if place % 2 == 0 {
        (value, sibling)
    } else {
        (sibling, value)
    }
}

/// The indices without their lowest `bits` bits.
///
/// Requires `bits < 64`. Fails where memory is refused.
pub fn without_bits(alloc: Global, indices: &[usize], bits: usize) -> Result<Vec<usize>, AllocError>
    requires { bits < 64 }
    ensures { IfOk result (λ rest. rest.items ≡ map (λ q. q / 2 ^ bits) indices.now) }
{
    let mut rest = Vec::with_capacity(alloc, indices.len())?;
    for index in indices {
        rest.push(*index >> bits)?;
    }
    Ok(rest)
}
