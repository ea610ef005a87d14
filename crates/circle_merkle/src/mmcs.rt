//! The scheme: one root commits to matrices of several heights.
ghost use Rattle.std.specs.Prelude.{◌≡◌, ℕ, ◌<◌, ◌≤◌, List, length, map, All, IfOk, IfErr, OnOk};
ghost use Rattle.std.specs.Prelude.{IsTrue, vec_len};
ghost use Rattle.sha2.specs.Sha256.{sha256};
ghost use Rattle.circle_commit.specs.Matrix.{IsPowerOfTwo};
ghost use Rattle.circle_commit.specs.Mmcs.{HaveHeightsOfPowers, IsShownOf, max_height};
ghost use Rattle.circle_commit.specs.Mmcs.{row_at as row_at_of, rows_at, rows_at_each, opened_rows};
ghost use Rattle.circle_merkle.specs.Authentication.{ShaAuthenticates, IsShaRoot};
ghost use Rattle.circle_merkle.specs.Verdict.{IsFirstRefusal, says_memory};

use crate::error::MerkleTreeError;
use crate::hashing::Hash;
use crate::prover_data::ShaProverData;
use crate::verify::verify;
use circle_commit::{Dimensions, Matrix, Mmcs, OpenedRows, RowMajorMatrix, log2_strict};
use circle_field::{ElementBytes, Field};
use std::alloc::{AllocError, Global};
use std::marker::PhantomData;

/// The Merkle tree scheme over matrices with SHA-256 (FIPS 180-4).
///
/// The digest of rows is that of a byte 0 and the bytes of the rows' entries; of a node, that of a
/// byte 1 and the two digests below it; where rows of lower matrices stand at the node's position,
/// that of a byte 2, the node's digest and that of the rows.
#[derive(Clone, Copy, Debug)]
pub struct ShaMmcs<T> {
    entries: PhantomData<T>,
}

impl<T> ShaMmcs<T> {
    /// The scheme for entries of this type, which a caller names: `ShaMmcs::<Mersenne31>::new()`.
    pub fn new() -> Self {
        ShaMmcs {
            entries: PhantomData,
        }
    }
}

// The row of a matrix of this height at an index below the greatest height.
fn row_at(top: usize, height: usize, index: usize) -> usize
    requires greatest { IsPowerOfTwo top }
    requires power { IsPowerOfTwo height }
    requires within { height ≤ top }
    ensures { result ≡ row_at_of top height index }
{
    index >> (log2_strict(top) - log2_strict(height))
}

// The rows of the matrices at an index, one for each.
fn rows_of<T: ElementBytes>(
    alloc: Global,
    matrices: &[RowMajorMatrix<T>],
    top: usize,
    index: usize,
) -> Result<Vec<Vec<T>>, AllocError>
    requires greatest { top ≡ max_height matrices.now }
    requires powers_of_two { HaveHeightsOfPowers matrices.now }
    requires in_range { index < top }
    ensures { IfOk result (λ rows. map (λ row. row.items) rows.items ≡ rows_at matrices.now index) }
{
    let mut rows = Vec::with_capacity(alloc, matrices.len())?;
    for matrix in matrices {
        let row = matrix.row(row_at(top, matrix.height(), index));
        rows.push(Vec::from_slice(alloc, row)?)?;
    }
    Ok(rows)
}

impl<T: Field + ElementBytes> Mmcs<T> for ShaMmcs<T> {
    ghost use Rattle.circle_merkle.specs.ProverData.{matrices_of};

    type Commitment = [u8; 32];

    type ProverData = ShaProverData<T>;

    type MultiProof = Vec<[u8; 32]>;

    type Error = MerkleTreeError;

    ghost matrices = { matrices_of };

    ghost commits = { λ s matrices commitment. IsShaRoot T.bytes matrices commitment };

    ghost authenticates = { λ s commitment dims indices opened proof.
        ShaAuthenticates T.bytes commitment dims indices opened proof.items };

    ghost is_memory = { says_memory };

    fn commit(
        &self,
        alloc: Global,
        inputs: Vec<RowMajorMatrix<T>>,
    ) -> Result<(Hash, ShaProverData<T>), AllocError>
        requires some { 1 ≤ vec_len inputs }
        requires powers_of_two { HaveHeightsOfPowers inputs.items }
        ensures commitment { IfOk result (λ r. IsShaRoot T.bytes inputs.items r.0) }
        ensures data { IfOk result (λ r. matrices_of r.1 ≡ inputs.items) }
    {
        ShaProverData::new(alloc, inputs)
    }

    fn get_matrices<'a>(&self, prover_data: &'a ShaProverData<T>) -> &'a [RowMajorMatrix<T>]
        ensures { result.now ≡ matrices_of prover_data.now }
    {
        prover_data.matrices()
    }

    fn get_max_height(&self, prover_data: &ShaProverData<T>) -> usize
        ensures { result ≡ max_height (matrices_of prover_data.now) }
    {
        prover_data.max_height()
    }

    fn open_multi_batch(
        &self,
        alloc: Global,
        indices: &[usize],
        prover_data: &ShaProverData<T>,
    ) -> Result<(OpenedRows<T>, Vec<Hash>), AllocError>
        requires some { 1 ≤ length indices.now }
        requires in_range { All (λ i. i < max_height (matrices_of prover_data.now)) indices.now }
        ensures rows { IfOk result (λ r. opened_rows r.0.items
            ≡ rows_at_each (matrices_of prover_data.now) indices.now) }
        ensures proof { IfOk result (λ r. IsShownOf (IsShaRoot T.bytes) (ShaAuthenticates T.bytes)
            (matrices_of prover_data.now) indices.now (opened_rows r.0.items) r.1.items) }
    {
        let top = prover_data.max_height();
        let mut opened = Vec::with_capacity(alloc, indices.len())?;
        for index in indices {
            opened.push(rows_of(alloc, prover_data.matrices(), top, *index)?)?;
        }
        Ok((opened, prover_data.siblings(alloc, indices)?))
    }

    fn verify_multi_batch(
        &self,
        alloc: Global,
        commitment: &Hash,
        dimensions: &[Dimensions],
        indices: &[usize],
        opened_values: &[Vec<Vec<T>>],
        proof: &Vec<Hash>,
    ) -> Result<(), MerkleTreeError>
        ensures accepted { OnOk result (ShaAuthenticates T.bytes commitment.now dimensions.now
            indices.now (opened_rows opened_values.now) proof.now.items) }
        // Each refusal comes exactly where its condition is the first that holds.
        ensures first { IfErr result (IsFirstRefusal sha256 T.bytes commitment.now dimensions.now
            indices.now (opened_rows opened_values.now) proof.now.items) }
        ensures refused { IfErr result (λ e. ShaAuthenticates T.bytes commitment.now dimensions.now
            indices.now (opened_rows opened_values.now) proof.now.items → IsTrue (says_memory e)) }
    {
        verify(alloc, commitment, dimensions, indices, opened_values, proof)
    }

    fn is_memory(error: &MerkleTreeError) -> bool
        ensures { result ≡ says_memory error.now }
    {
        matches!(error, MerkleTreeError::Memory)
    }
}
