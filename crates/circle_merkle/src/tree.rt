//! The tree over the rows of matrices.
ghost use Rattle.std.specs.Prelude.{◌≡◌, ℕ, ◌+◌, ◌*◌, ◌/◌, ◌^◌, ◌<◌, ◌==◌, [], length, map, IfOk, OnOk};
ghost use Rattle.std.specs.Prelude.{slice_index_or};
ghost use Rattle.std.specs.List.{list_any, range_with_len};
ghost use Rattle.sha2.specs.Sha256.{sha256};
ghost use Rattle.circle_commit.specs.Matrix.{IsPowerOfTwo};
ghost use Rattle.circle_commit.specs.RowMajorMatrix.{height_of};
ghost use Rattle.circle_commit.specs.Mmcs.{max_height};
ghost use Rattle.circle_merkle.specs.Messages.{pair_digest, row_digests};
ghost use Rattle.circle_merkle.specs.Authentication.{IsNextLevel, tree_levels};

use crate::hashing::{Hash, digest_of_pair, rows_digest};
use crate::lanes::LANES;
use crate::messages::{sixteen_pairs, sixteen_rows};
use crate::rows::MatrixRows;
use circle_commit::{Matrix, RowMajorMatrix, log2_strict};
use circle_field::ElementBytes;
use std::alloc::{AllocError, Global};

// Adds the digests of the rows of the matrices of this height, sixteen at a time while as many are
// left.
fn add_sixteen_rows<T: ElementBytes>(
    alloc: Global,
    matrices: &[RowMajorMatrix<T>],
    height: usize,
    level: &mut Vec<Hash>,
) -> Result<(), AllocError>
    requires { level.old.items ≡ [] }
    ensures { OnOk result (level.new.items ≡ row_digests T.bytes matrices.now height
        (height / 16 * 16)) }
{
    let mut messages = Vec::new(alloc);
    for group in 0..height / LANES {
        level.extend_from_slice(&sixteen_rows(&mut messages, matrices, height, LANES * group)?)?;
    }
    Ok(())
}

// The digests of the rows of the matrices of this height.
fn rows_level<T: ElementBytes>(
    alloc: Global,
    matrices: &[RowMajorMatrix<T>],
    height: usize,
) -> Result<Vec<Hash>, AllocError>
    ensures { IfOk result (λ level. level.items ≡ row_digests T.bytes matrices.now height height) }
{
    let mut level = Vec::with_capacity(alloc, height)?;
    add_sixteen_rows(alloc, matrices, height, &mut level)?;
    for i in height / LANES * LANES..height {
        level.push(rows_digest(&MatrixRows { matrices, i }, height))?;
    }
    Ok(level)
}

// Whether some matrix has this height.
fn some_has_height<T: ElementBytes>(matrices: &[RowMajorMatrix<T>], height: usize) -> bool
    ensures { result ≡ list_any (λ m. height_of m == height) matrices.now }
{
    matrices.iter().any(|m| m.height() == height)
}

// Adds the digests of pairs behind a byte, sixteen at a time while as many are left.
fn add_sixteen_pairs(
    alloc: Global,
    first: u8,
    pairs: &[Hash],
    level: &mut Vec<Hash>,
) -> Result<(), AllocError>
    requires { level.old.items ≡ [] }
    ensures { OnOk result (level.new.items ≡ map (pair_digest sha256 first pairs.now)
        (range_with_len 0 (length pairs.now / 32 * 16))) }
{
    let mut messages = Vec::new(alloc);
    for group in 0..pairs.len() / (2 * LANES) {
        level.extend_from_slice(&sixteen_pairs(&mut messages, first, pairs, LANES * group)?)?;
    }
    Ok(())
}

// The digests of pairs, each behind this byte.
fn pairs_level(alloc: Global, first: u8, pairs: &[Hash]) -> Result<Vec<Hash>, AllocError>
    ensures { IfOk result (λ level. level.items ≡ map (pair_digest sha256 first pairs.now)
        (range_with_len 0 (length pairs.now / 2))) }
{
    let mut level = Vec::with_capacity(alloc, pairs.len() / 2)?;
    add_sixteen_pairs(alloc, first, pairs, &mut level)?;
    for i in pairs.len() / (2 * LANES) * LANES..pairs.len() / 2 {
        level.push(digest_of_pair(first, &pairs[2 * i], &pairs[2 * i + 1]))?;
    }
    Ok(level)
}

// Each of the nodes' digests, and behind it that of the rows at its position.
fn with_rows(alloc: Global, nodes: &[Hash], rows: &[Hash]) -> Result<Vec<Hash>, AllocError>
    requires { length rows.now ≡ length nodes.now }
    ensures count { IfOk result (λ pairs. length pairs.items ≡ 2 * length nodes.now) }
    ensures pairs { IfOk result (λ pairs. (i : ℕ) → i < length nodes.now
        → (slice_index_or pairs.items (2 * i) [] ≡ slice_index_or nodes.now i [])
        × (slice_index_or pairs.items (2 * i + 1) [] ≡ slice_index_or rows.now i [])) }
{
    let mut pairs = Vec::with_capacity(alloc, nodes.len().saturating_mul(2))?;
    for i in 0..nodes.len() {
        pairs.push(nodes[i])?;
        pairs.push(rows[i])?;
    }
    Ok(pairs)
}

// The level above `below`, of this many positions.
fn next_level<T: ElementBytes>(
    alloc: Global,
    matrices: &[RowMajorMatrix<T>],
    below: &[Hash],
    height: usize,
) -> Result<Vec<Hash>, AllocError>
    requires { length below.now ≡ 2 * height }
    ensures { IfOk result (λ next.
        IsNextLevel sha256 T.bytes matrices.now height below.now next.items) }
{
    let nodes = pairs_level(alloc, 1, below)?;
    if !some_has_height(matrices, height) {
        return Ok(nodes);
    }
    let rows = rows_level(alloc, matrices, height)?;
    pairs_level(alloc, 2, &with_rows(alloc, &nodes, &rows)?)
}

/// The levels of the tree over the rows of matrices, the lowest first.
///
/// Requires that `top` is the greatest height of the matrices, and a power of two.
pub fn levels_of<T: ElementBytes>(
    alloc: Global,
    matrices: &[RowMajorMatrix<T>],
    top: usize,
) -> Result<Vec<Vec<Hash>>, AllocError>
    requires greatest { top ≡ max_height matrices.now }
    requires power { IsPowerOfTwo top }
    ensures { IfOk result (λ levels. (count : ℕ) → top ≡ 2 ^ count
        → map (λ level. level.items) levels.items ≡ tree_levels sha256 T.bytes matrices.now count) }
{
    let count = log2_strict(top);
    let mut levels = Vec::with_capacity(alloc, count + 1)?;
    levels.push(rows_level(alloc, matrices, top)?)?;
    for level in 0..count {
        let next = next_level(alloc, matrices, &levels[level], top >> (level + 1))?;
        levels.push(next)?;
    }
    Ok(levels)
}
