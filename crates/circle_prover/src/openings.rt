//! Committed rows at the queries, and the siblings of the entries there.
ghost use Rattle.std.specs.Prelude.{◌≡◌, ℕ, ◌≤◌, ◌<◌, ◌-◌, ◌+◌, ◌*◌, ◌^◌, [], ◌∷◌, length, map};
ghost use Rattle.std.specs.Prelude.{All, Some};
ghost use Rattle.std.specs.Prelude.{IfOk, slice_get};
ghost use Rattle.circle_commit.specs.Mmcs.{HaveHeightsOfPowers, max_height, opened_rows};
ghost use Rattle.circle_commit.specs.DotProduct.{pairwise};
ghost use Rattle.circle_codewords.specs.Words.{HaveHeights};
ghost use Rattle.circle_codewords.specs.Openings.{AreOpenedRounds, AreOpenedSiblings, OpensRows};
ghost use Rattle.circle_codewords.specs.Openings.{places_of, siblings_at};

use circle_commit::{Mmcs, OpenedRows};
use circle_field::Field;
use circle_folding::without_bits;
use circle_relation::CircleCommitPhaseMultiStep;
use std::alloc::{AllocError, Global};

/// The rows of committed matrices at the queries without their lowest `bits` bits, with a proof
/// that they are theirs.
///
/// Requires some query, each below the greatest height times `2^bits`, `bits <= 62`, and heights
/// that are powers of two. Fails where memory is refused.
pub(crate) fn open_rows<T: Copy, M: Mmcs<T>>(
    alloc: Global,
    mmcs: &M,
    indices: &[usize],
    bits: usize,
    kept: &M::ProverData,
) -> Result<(OpenedRows<T>, M::MultiProof), AllocError>
    requires some { 1 ≤ length indices.now }
    requires bits { bits ≤ 62 }
    requires powers { HaveHeightsOfPowers (M.matrices kept.now) }
    requires below { All (λ q. q < max_height (M.matrices kept.now) * 2 ^ bits) indices.now }
    ensures { IfOk result (λ r. OpensRows (M.commits mmcs.now) (M.authenticates mmcs.now)
        (M.matrices kept.now) (places_of bits indices.now) (opened_rows r.0.items) r.1) }
{
    let places = without_bits(alloc, indices, bits)?;
    mmcs.open_multi_batch(alloc, &places, kept)
}

// The siblings of the entries at a query, in rows of two.
fn siblings_of<EF: Field>(
    alloc: Global,
    log_max_height: usize,
    heights: &[usize],
    index: usize,
    rows: &[Vec<EF>],
) -> Result<Vec<EF>, AllocError>
    requires top { log_max_height ≤ 62 }
    requires heights { All (λ h. h ≤ log_max_height) heights.now }
    requires count { length rows.now ≡ length heights.now }
    requires pairs { All (λ row. length row.items ≡ 2) rows.now }
    ensures { IfOk result (λ r. r.items ≡ siblings_at EF.ops.zero log_max_height heights.now index
        (map (λ row. row.items) rows.now)) }
{
    let mut siblings = Vec::with_capacity(alloc, heights.len())?;
    for (log_height, row) in heights.iter().zip(rows) {
        let place = index >> (log_max_height - *log_height);
        siblings.push(row[1 - place % 2])?;
    }
    Ok(siblings)
}

// Those of all queries.
fn all_siblings<EF: Field>(
    alloc: Global,
    log_max_height: usize,
    heights: &[usize],
    indices: &[usize],
    rows: &[Vec<Vec<EF>>],
) -> Result<Vec<Vec<EF>>, AllocError>
    requires top { log_max_height ≤ 62 }
    requires heights { All (λ h. h ≤ log_max_height) heights.now }
    requires queries { length rows.now ≡ length indices.now }
    requires count { All (λ r. length r.items ≡ length heights.now) rows.now }
    requires pairs { All (λ r. All (λ row. length row.items ≡ 2) r.items) rows.now }
    ensures { IfOk result (λ r. map (λ s. s.items) r.items ≡ pairwise
        (siblings_at EF.ops.zero log_max_height heights.now) indices.now (opened_rows rows.now)) }
{
    let mut siblings = Vec::with_capacity(alloc, indices.len())?;
    for (index, opened) in indices.iter().zip(rows) {
        siblings.push(siblings_of(alloc, log_max_height, heights, *index, opened)?)?;
    }
    Ok(siblings)
}

/// Of the rows of codewords, by pairs, at the queries without their lowest `bits` bits, the
/// siblings of the queries' entries, with a proof of the rows.
///
/// Requires some query, each below `2^log_max_height`, `bits <= log_max_height <= 62`, for each of
/// the heights a matrix of half as many rows of two, and `2^(log_max_height - bits)` rows of the
/// greatest. Fails where memory is refused.
pub(crate) fn open_siblings<EF: Field, M: Mmcs<EF>>(
    alloc: Global,
    mmcs: &M,
    log_max_height: usize,
    heights: &[usize],
    indices: &[usize],
    bits: usize,
    kept: &M::ProverData,
) -> Result<(Vec<Vec<EF>>, M::MultiProof), AllocError>
    requires some { 1 ≤ length indices.now }
    requires below { All (λ q. q < 2 ^ log_max_height) indices.now }
    requires top { log_max_height ≤ 62 }
    requires bits { bits ≤ log_max_height }
    requires heights { All (λ h. h ≤ log_max_height) heights.now }
    requires shapes { HaveHeights heights.now (M.matrices kept.now) }
    requires greatest { max_height (M.matrices kept.now) ≡ 2 ^ (log_max_height - bits) }
    ensures { IfOk result (λ r. AreOpenedSiblings M.commits M.authenticates mmcs.now EF.ops.zero
        (M.matrices kept.now) log_max_height heights.now bits indices.now r.0.items r.1) }
{
    let (rows, proof) = open_rows(alloc, mmcs, indices, bits, kept)?;
    let siblings = all_siblings(alloc, log_max_height, heights, indices, &rows)?;
    Ok((siblings, proof))
}

/// For each round the siblings of the queries' entries in its codeword, with a proof of the rows
/// that these fall into. The codeword of round r, from 0 on, has `2^(log_max_height - 1 - r)`
/// entries, and a query reads the entry at its place without the lowest `r + 1` bits.
///
/// Requires some query, each below `2^log_max_height`, `log_max_height <= 62`, at most
/// `log_max_height - 2` rounds, and of each its codeword alone, by pairs. Fails where memory is
/// refused.
pub(crate) fn open_rounds<EF: Field, M: Mmcs<EF>>(
    alloc: Global,
    mmcs: &M,
    log_max_height: usize,
    indices: &[usize],
    kept: &[M::ProverData],
) -> Result<Vec<CircleCommitPhaseMultiStep<EF, M>>, AllocError>
    requires some { 1 ≤ length indices.now }
    requires below { All (λ q. q < 2 ^ log_max_height) indices.now }
    requires top { log_max_height ≤ 62 }
    requires rounds { length kept.now + 2 ≤ log_max_height }
    requires words { (n : ℕ) (d : M.ProverData) → slice_get kept.now n ≡ Some d →
        HaveHeights ((log_max_height - 1 - n) ∷ []) (M.matrices d) }
    ensures count { IfOk result (λ made. length made.items ≡ length kept.now) }
    ensures opened { IfOk result (λ made. AreOpenedRounds M.commits M.authenticates mmcs.now
        EF.ops.zero M.matrices log_max_height indices.now kept.now made.items) }
{
    let mut openings = Vec::with_capacity(alloc, kept.len())?;
    for (round, word) in kept.iter().enumerate() {
        let heights = [log_max_height - 1 - round];
        let (sibling_values, opening_proof) = open_siblings(
            alloc,
            mmcs,
            log_max_height,
            &heights,
            indices,
            round + 2,
            word,
        )?;
        openings.push(CircleCommitPhaseMultiStep {
            sibling_values,
            opening_proof,
        })?;
    }
    Ok(openings)
}
