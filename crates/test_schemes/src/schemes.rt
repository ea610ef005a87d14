//! Commitment schemes for tests: one that publishes the matrices, and one that shows nothing.
ghost use Rattle.std.specs.Prelude.{◌≡◌, ◌<◌, ◌≤◌, ◌↔◌, true, All, IfOk, IfErr, OnOk, IsOk, IsTrue};
ghost use Rattle.std.specs.Prelude.{length, vec_len};
ghost use Rattle.test_schemes.specs.declared.matrix_list.MatrixList.{MatrixList};
ghost use Rattle.circle_commit.specs.Mmcs.{HaveHeightsOfPowers, max_height, rows_at_each};
ghost use Rattle.circle_commit.specs.Mmcs.{opened_rows};

use crate::matrix_list::{MatrixList, shapes};
use circle_commit::{Dimensions, Mmcs, OpenedRows, RowMajorMatrix, are_below};
use circle_field::Field;
use std::alloc::{AllocError, Global};
use thiserror::Error;

/// The scheme whose commitment is the list of matrices and whose proof is empty: opened rows are
/// compared with those of the matrices. Its data is any list of matrices, an empty one too.
#[derive(Clone, Copy, Debug)]
pub struct ListMmcs;

/// The scheme that takes any rows for those of the matrices.
#[derive(Clone, Copy, Debug)]
pub struct TrustingMmcs;

/// Why the list of matrices doesn't show opened rows.
#[derive(Clone, Copy, Debug, Drop, Error, PartialEq, Eq)]
pub enum ListError {
    /// There are no indices, or one isn't below the greatest height.
    #[error("WrongIndex")]
    WrongIndex,
    /// The matrices have other shapes.
    #[error("WrongShape")]
    WrongShape,
    /// The matrices have other rows.
    #[error("WrongRows")]
    WrongRows,
    /// Memory was refused.
    #[error("Memory")]
    Memory,
}

impl From<AllocError> for ListError {
    ghost use Rattle.test_schemes.specs.declared.schemes.ListError.TheVariants.{Memory};

    ghost from_gives = { λ _ error. error ≡ Memory };

    fn from(_refused: AllocError) -> ListError {
        ListError::Memory
    }
}

/// What is committed to where nothing is shown.
#[derive(Clone, Copy, Debug)]
pub struct Nothing;

// Whether the shapes are the same.
fn same_shapes(shapes: &[Dimensions], others: &[Dimensions]) -> bool
    ensures { IsTrue result ↔ (shapes.now ≡ others.now) }
{
    shapes == others
}

// Whether the rows are the same.
fn same_rows<T: Field>(opened: &[Vec<Vec<T>>], others: &[Vec<Vec<T>>]) -> bool
    ensures { IsTrue result ↔ (opened_rows opened.now ≡ opened_rows others.now) }
{
    opened == others
}

impl<T: Field> Mmcs<T> for ListMmcs {
    ghost use Rattle.test_schemes.specs.MatrixList.{matrices_of};
    ghost use Rattle.test_schemes.specs.Schemes.{AreShown, Shows, says_memory};
    ghost use Rattle.test_schemes.specs.SameRows.{HaveSameRows};

    type Commitment = MatrixList<T>;

    type ProverData = MatrixList<T>;

    type MultiProof = Nothing;

    type Error = ListError;

    ghost matrices = { matrices_of };

    ghost commits = { λ s matrices commitment. HaveSameRows matrices (matrices_of commitment) };

    ghost authenticates = { λ s commitment dims indices opened proof.
        Shows (matrices_of commitment) dims indices opened };

    ghost is_memory = { says_memory };

    fn commit(
        &self,
        alloc: Global,
        inputs: Vec<RowMajorMatrix<T>>,
    ) -> Result<(MatrixList<T>, MatrixList<T>), AllocError>
        requires some { 1 ≤ vec_len inputs }
        requires powers_of_two { HaveHeightsOfPowers inputs.items }
        ensures commitment { IfOk result (λ r. HaveSameRows inputs.items (matrices_of r.0)) }
        ensures data { IfOk result (λ r. matrices_of r.1 ≡ inputs.items) }
    {
        let data = MatrixList::new(inputs);
        Ok((data.try_clone(alloc)?, data))
    }

    fn get_matrices<'a>(&self, prover_data: &'a MatrixList<T>) -> &'a [RowMajorMatrix<T>]
        ensures { result.now ≡ matrices_of prover_data.now }
    {
        prover_data.matrices()
    }

    fn get_max_height(&self, prover_data: &MatrixList<T>) -> usize
        ensures { result ≡ max_height (matrices_of prover_data.now) }
    {
        prover_data.max_height()
    }

    fn open_multi_batch(
        &self,
        alloc: Global,
        indices: &[usize],
        prover_data: &MatrixList<T>,
    ) -> Result<(OpenedRows<T>, Nothing), AllocError>
        requires some { 1 ≤ length indices.now }
        requires in_range { All (λ i. i < max_height (matrices_of prover_data.now)) indices.now }
        ensures rows { IfOk result (λ r. opened_rows r.0.items
            ≡ rows_at_each (matrices_of prover_data.now) indices.now) }
        ensures proof { IfOk result (λ r.
            AreShown prover_data.now indices.now (opened_rows r.0.items)) }
    {
        Ok((prover_data.rows_at_each(alloc, indices)?, Nothing))
    }

    fn verify_multi_batch(
        &self,
        alloc: Global,
        commitment: &MatrixList<T>,
        dimensions: &[Dimensions],
        indices: &[usize],
        opened_values: &[Vec<Vec<T>>],
        _proof: &Nothing,
    ) -> Result<(), ListError>
        ensures accepted { OnOk result (Shows (matrices_of commitment.now) dimensions.now
            indices.now (opened_rows opened_values.now)) }
        ensures refused { IfErr result (λ e. Shows (matrices_of commitment.now) dimensions.now
            indices.now (opened_rows opened_values.now) → IsTrue (says_memory e)) }
    {
        if indices.is_empty() || !are_below(indices, commitment.max_height()) {
            return Err(ListError::WrongIndex);
        }
        let due_shapes = shapes(alloc, commitment.matrices())?;
        if !same_shapes(dimensions, &due_shapes) {
            return Err(ListError::WrongShape);
        }
        let due = commitment.rows_at_each(alloc, indices)?;
        if !same_rows(opened_values, &due) {
            return Err(ListError::WrongRows);
        }
        Ok(())
    }

    fn is_memory(error: &ListError) -> bool
        ensures { result ≡ says_memory error.now }
    {
        matches!(error, ListError::Memory)
    }
}

impl<T: Copy> Mmcs<T> for TrustingMmcs {
    ghost use Rattle.test_schemes.specs.MatrixList.{matrices_of};

    type Commitment = Nothing;

    type ProverData = MatrixList<T>;

    type MultiProof = Nothing;

    type Error = AllocError;

    ghost matrices = { matrices_of };

    ghost commits = { λ s matrices commitment. Unit {0} };

    ghost authenticates = { λ s commitment dims indices opened proof. Unit {0} };

    ghost is_memory = { λ error. true };

    fn commit(
        &self,
        _alloc: Global,
        inputs: Vec<RowMajorMatrix<T>>,
    ) -> Result<(Nothing, MatrixList<T>), AllocError>
        requires some { 1 ≤ vec_len inputs }
        requires powers_of_two { HaveHeightsOfPowers inputs.items }
        ensures { IfOk result (λ r. matrices_of r.1 ≡ inputs.items) }
    {
        Ok((Nothing, MatrixList::new(inputs)))
    }

    fn get_matrices<'a>(&self, prover_data: &'a MatrixList<T>) -> &'a [RowMajorMatrix<T>]
        ensures { result.now ≡ matrices_of prover_data.now }
    {
        prover_data.matrices()
    }

    fn get_max_height(&self, prover_data: &MatrixList<T>) -> usize
        ensures { result ≡ max_height (matrices_of prover_data.now) }
    {
        prover_data.max_height()
    }

    fn open_multi_batch(
        &self,
        alloc: Global,
        indices: &[usize],
        prover_data: &MatrixList<T>,
    ) -> Result<(OpenedRows<T>, Nothing), AllocError>
        requires some { 1 ≤ length indices.now }
        requires in_range { All (λ i. i < max_height (matrices_of prover_data.now)) indices.now }
        ensures { IfOk result (λ r. opened_rows r.0.items
            ≡ rows_at_each (matrices_of prover_data.now) indices.now) }
    {
        Ok((prover_data.rows_at_each(alloc, indices)?, Nothing))
    }

    fn verify_multi_batch(
        &self,
        _alloc: Global,
        _commitment: &Nothing,
        _dimensions: &[Dimensions],
        _indices: &[usize],
        _opened_values: &[Vec<Vec<T>>],
        _proof: &Nothing,
    ) -> Result<(), AllocError>
        ensures { IsOk result }
    {
        Ok(())
    }

    fn is_memory(_error: &AllocError) -> bool
        ensures { result ≡ true }
    {
        true
    }
}
