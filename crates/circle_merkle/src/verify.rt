//! Whether opened rows are those of a commitment.
ghost use Rattle.std.specs.Prelude.{◌≡◌, ℕ, ◌↔◌, List, map, IsTrue, IfOk, IfErr, OnOk};
ghost use Rattle.sha2.specs.Sha256.{sha256};
ghost use Rattle.circle_commit.specs.Mmcs.{opened_rows};
ghost use Rattle.circle_merkle.specs.Order.{first_places};
ghost use Rattle.circle_merkle.specs.Tree.{taken_below};
ghost use Rattle.circle_merkle.specs.Authentication.{Authenticates};
ghost use Rattle.circle_merkle.specs.Verdict.{IsFirstRefusal};

use crate::error::MerkleTreeError;
use crate::hashing::Hash;
use crate::order::{in_order, leave_firsts};
use crate::positions::climb;
use crate::root::Opening;
use crate::well_formed::{agrees, greatest_height, has_indices, has_shape};
use circle_commit::{Dimensions, log2_strict};
use circle_field::{ElementBytes, Field};
use std::alloc::{AllocError, Global};
use std::mem;

// Whether a proof of `count` digests has as many as are missing, under `levels` levels above the
// lowest. Takes the distinct indices in ascending order, each with its place.
fn has_count(
    alloc: Global,
    firsts: &[(usize, usize)],
    levels: usize,
    count: usize,
) -> Result<bool, AllocError>
    ensures { (indices : List ℕ) → firsts.now ≡ first_places indices levels
        → IfOk result (λ b. IsTrue b ↔ (count ≡ taken_below indices levels levels)) }
{
    let mut known = distinct_indices(alloc, firsts)?;
    let mut parents = Vec::with_capacity(alloc, known.len())?;
    let mut left = count;
    for _level in 0..levels {
        let missing = climb(&known, &mut parents)?;
        if missing > left {
            return Ok(false);
        }
        left -= missing;
        mem::swap(&mut known, &mut parents);
    }
    Ok(left == 0)
}

// The distinct indices, without their places.
fn distinct_indices(alloc: Global, firsts: &[(usize, usize)]) -> Result<Vec<usize>, AllocError>
    ensures { IfOk result (λ indices. indices.items ≡ map (λ first. first.0) firsts.now) }
{
    let mut indices = Vec::with_capacity(alloc, firsts.len())?;
    for first in firsts {
        indices.push(first.0)?;
    }
    Ok(indices)
}

// Whether two digests are the same.
fn same_digest(digest: &Hash, other: &Hash) -> bool
    ensures { IsTrue result ↔ (digest.now ≡ other.now) }
{
    digest.as_slice() == other.as_slice()
}

/// Whether the rows at the indices are those that the root was made of.
pub fn verify<T: Field + ElementBytes>(
    alloc: Global,
    commitment: &Hash,
    dimensions: &[Dimensions],
    indices: &[usize],
    opened: &[Vec<Vec<T>>],
    proof: &[Hash],
) -> Result<(), MerkleTreeError>
    ensures accepted { OnOk result (Authenticates sha256 T.bytes commitment.now dimensions.now
        indices.now (opened_rows opened.now) proof.now) }
    ensures refused { IfErr result (IsFirstRefusal sha256 T.bytes commitment.now dimensions.now
        indices.now (opened_rows opened.now) proof.now) }
{
    if !has_shape(dimensions, opened) {
        return Err(MerkleTreeError::WrongWidth);
    }
    let top = greatest_height(dimensions);
    if !has_indices(dimensions, indices, opened, top) {
        return Err(MerkleTreeError::WrongIndex);
    }
    let mut order = in_order(alloc, indices)?;
    if !agrees(dimensions, &order, opened, top) {
        return Err(MerkleTreeError::DisagreeingRows);
    }
    leave_firsts(&mut order);
    if !has_count(alloc, &order, log2_strict(top), proof.len())? {
        return Err(MerkleTreeError::WrongProofLength);
    }
    let opening = Opening {
        dimensions,
        indices,
        opened,
        top,
    };
    let root = opening.root(alloc, &order, proof)?;
    if !same_digest(&root, commitment) {
        return Err(MerkleTreeError::RootMismatch);
    }
    Ok(())
}
