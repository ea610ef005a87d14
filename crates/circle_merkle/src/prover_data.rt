//! What is kept of committed matrices.
ghost use Rattle.std.specs.Prelude.{◌≡◌, ◌-◌, ◌^◌, ◌<◌, ◌≤◌, ◌++◌, true, All, IfOk, OnOk, map};
ghost use Rattle.std.specs.Prelude.{vec_len};
ghost use Rattle.sha2.specs.Sha256.{sha256};
ghost use Rattle.circle_commit.specs.RowMajorMatrix.{height_of};
ghost use Rattle.circle_commit.specs.Mmcs.{max_height};
ghost use Rattle.circle_merkle.specs.PowerTest.{is_power};
ghost use Rattle.circle_merkle.specs.Authentication.{upper_levels};
ghost use Rattle.circle_merkle.specs.Walk.{parents_of, siblings_of};

use crate::hashing::{Hash, rows_digest};
use crate::positions::{distinct, split_pair};
use crate::rows::MatrixRows;
use crate::tree::levels_of;
use circle_commit::{Matrix, RowMajorMatrix};
use circle_field::ElementBytes;
use std::alloc::{AllocError, Global};
use std::mem;

/// Committed matrices and the tree over their rows. The digests of its lowest level are those of
/// the rows, and aren't kept: they would take as much memory as all others.
#[derive(Drop)]
pub struct ShaProverData<T: ElementBytes> {
    matrices: Vec<RowMajorMatrix<T>>,
    top: usize,
    upper: Vec<Vec<Hash>>,
    ghost some_matrix: { 1 ≤ vec_len matrices },
    ghost powers_of_two: { All (λ m. is_power (height_of m) ≡ true) matrices.items },
    ghost greatest: { top ≡ max_height matrices.items },
    ghost levels: { top ≡ 2 ^ vec_len upper },
    ghost tree: { map (λ level. level.items) upper.items
        ≡ upper_levels sha256 T.bytes matrices.items (vec_len upper) },
}

impl<T: ElementBytes> ShaProverData<T> {
    ghost use Rattle.circle_merkle.specs.ProverData.{matrices_of, level_count, digest_of, due_proof};
    ghost use Rattle.circle_commit.specs.Matrix.{IsPowerOfTwo};
    ghost use Rattle.circle_merkle.specs.Authentication.{IsShaRoot};

    /// The root of the tree over the rows of matrices, and what is kept of it.
    ///
    /// Requires at least one matrix, and heights that are powers of two. Fails where memory is
    /// refused.
    pub fn new(alloc: Global, matrices: Vec<RowMajorMatrix<T>>) -> Result<(Hash, Self), AllocError>
        requires some { 1 ≤ vec_len matrices }
        requires powers_of_two { All (λ m. IsPowerOfTwo (height_of m)) matrices.items }
        ensures root { IfOk result (λ r. IsShaRoot T.bytes matrices.items r.0) }
        ensures matrices { IfOk result (λ r. matrices_of r.1 ≡ matrices.items) }
    {
        let top = greatest_height(&matrices);
        let mut levels = levels_of(alloc, &matrices, top)?;
        let root = levels[levels.len() - 1][0];
        let _lowest = levels.remove(0);
        let data = ShaProverData {
            matrices,
            top,
            upper: levels,
        };
        Ok((root, data))
    }

    /// The matrices.
    pub fn matrices(&self) -> &[RowMajorMatrix<T>]
        ensures { result.now ≡ matrices_of self.now }
    {
        &self.matrices
    }

    /// The greatest height of the matrices.
    pub fn max_height(&self) -> usize
        ensures { result ≡ max_height (matrices_of self.now) }
    {
        self.top
    }

    /// The digests of a proof for these indices: level after level, those of the siblings of known
    /// positions that aren't known.
    ///
    /// Requires indices below the greatest height. Fails where memory is refused.
    pub fn siblings(&self, alloc: Global, indices: &[usize]) -> Result<Vec<Hash>, AllocError>
        requires { All (λ i. i < max_height (matrices_of self.now)) indices.now }
        ensures { IfOk result (λ proof. proof.items ≡ due_proof T.bytes self.now indices.now) }
    {
        let mut known = distinct(alloc, indices)?;
        let mut parents = Vec::with_capacity(alloc, known.len())?;
        // Room for the digests where the indices stand as far apart as they can.
        let lone = self
            .upper
            .len()
            .saturating_sub(known.len().max(1).ilog2() as usize);
        let mut proof = Vec::with_capacity(alloc, known.len().saturating_mul(lone))?;
        for level in 0..self.upper.len() {
            self.climb_past(level, &known, &mut parents, &mut proof)?;
            mem::swap(&mut known, &mut parents);
        }
        Ok(proof)
    }

    // Makes `parents` the positions one level up from the known positions of a level, which stand
    // in ascending order, and appends to a proof the digests of the siblings that aren't known.
    fn climb_past(
        &self,
        level: usize,
        known: &[usize],
        parents: &mut Vec<usize>,
        proof: &mut Vec<Hash>,
    ) -> Result<(), AllocError>
        requires below { level < level_count self.now }
        requires within { All (λ i. i < 2 ^ (level_count self.now - level))
            (siblings_of known.now) }
        ensures parents { OnOk result (parents.new.items ≡ parents_of known.now) }
        ensures proof { OnOk result (proof.new.items
            ≡ proof.old.items ++ map (digest_of T.bytes self.now level) (siblings_of known.now)) }
    {
        parents.clear();
        let mut rest = known;
        while let Some((position, others)) = rest.split_first() {
            let (missing, after) = split_pair(*position, others);
            parents.push(*position / 2)?;
            if let Some(sibling) = missing {
                proof.push(self.digest(level, sibling))?;
            }
            rest = after;
        }
        Ok(())
    }

    // The digest at a position of a level.
    fn digest(&self, level: usize, position: usize) -> Hash
        requires below { level < level_count self.now }
        requires within { position < 2 ^ (level_count self.now - level) }
        ensures { result ≡ digest_of T.bytes self.now level position }
    {
        match level.checked_sub(1) {
            Some(above) => self.upper[above][position],
            None => {
                let rows = MatrixRows {
                    matrices: &self.matrices,
                    i: position,
                };
                rows_digest(&rows, self.top)
            }
        }
    }
}

// The greatest height of the matrices, 0 where there are none.
fn greatest_height<T: ElementBytes>(matrices: &[RowMajorMatrix<T>]) -> usize
    ensures { result ≡ max_height matrices.now }
{
    let mut top = 0;
    for matrix in matrices {
        top = matrix.height().max(top);
    }
    top
}
