//! Matrices of any heights, as a list.
ghost use Rattle.std.specs.Prelude.{◌≡◌, ◌<◌, ◌≤◌, All, IfOk, [], length, map, slice_index_or};
ghost use Rattle.std.specs.Int.{w64, to_be_bytes};
ghost use Rattle.circle_commit.specs.RowMajorMatrix.{height_of, rows};
ghost use Rattle.circle_commit.specs.Mmcs.{dimensions_of, max_height, row_at, rows_at};
ghost use Rattle.circle_commit.specs.Mmcs.{rows_at_each, opened_rows};
ghost use Rattle.test_schemes.specs.SameRows.{HaveSameRows};

use circle_challenger::{CanObserve, Sha256Challenger};
use circle_commit::{Dimensions, Matrix, OpenedRows, RowMajorMatrix};
use std::alloc::{AllocError, Global};
use std::fmt;

/// Matrices of any number and any heights.
#[derive(Drop)]
pub struct MatrixList<T: Copy> {
    matrices: Vec<RowMajorMatrix<T>>,
    top: usize,
    ghost greatest_height: { top ≡ max_height matrices.items },
}

impl<T: Copy> MatrixList<T> {
    ghost use Rattle.test_schemes.specs.MatrixList.{matrices_of};

    /// The list of these matrices.
    pub fn new(matrices: Vec<RowMajorMatrix<T>>) -> Self
        ensures { matrices_of result ≡ matrices.items }
    {
        let top = greatest_height(&matrices);
        MatrixList { matrices, top }
    }

    /// The matrices.
    pub fn matrices(&self) -> &[RowMajorMatrix<T>]
        ensures { result.now ≡ matrices_of self.now }
    {
        &self.matrices
    }

    /// The greatest height of the matrices, 0 where there are none.
    pub fn max_height(&self) -> usize
        ensures { result ≡ max_height (matrices_of self.now) }
    {
        self.top
    }

    /// A list of equal matrices. Fails where memory is refused.
    pub fn try_clone(&self, alloc: Global) -> Result<Self, AllocError>
        ensures { IfOk result (λ copy. HaveSameRows (matrices_of self.now) (matrices_of copy)) }
    {
        let matrices = copies(alloc, &self.matrices)?;
        Ok(MatrixList::new(matrices))
    }

    /// The rows of the matrices at each of the indices, empty ones where a matrix has none there.
    ///
    /// Fails where memory is refused.
    pub fn rows_at_each(
        &self,
        alloc: Global,
        indices: &[usize],
    ) -> Result<OpenedRows<T>, AllocError>
        ensures { IfOk result (λ opened. opened_rows opened.items
            ≡ rows_at_each (matrices_of self.now) indices.now) }
    {
        let mut opened = Vec::with_capacity(alloc, indices.len())?;
        for index in indices {
            opened.push(rows_of(alloc, &self.matrices, self.top, *index)?)?;
        }
        Ok(opened)
    }
}

impl<T: Copy> fmt::Debug for MatrixList<T> {
    fn fmt<W: fmt::Write>(&self, f: &mut fmt::Formatter<W>) -> fmt::Result {
        let count = self.matrices.len();
        write!(f, "a list of {count} matrices")
    }
}

// The greatest height of the matrices, 0 where there are none.
fn greatest_height<T: Copy>(matrices: &[RowMajorMatrix<T>]) -> usize
    ensures { result ≡ max_height matrices.now }
{
    let mut top = 0;
    for matrix in matrices {
        top = matrix.height().max(top);
    }
    top
}

// Equal matrices.
fn copies<T: Copy>(
    alloc: Global,
    matrices: &[RowMajorMatrix<T>],
) -> Result<Vec<RowMajorMatrix<T>>, AllocError>
    ensures { IfOk result (λ copies. HaveSameRows matrices.now copies.items) }
{
    let mut copies = Vec::with_capacity(alloc, matrices.len())?;
    for matrix in matrices {
        copies.push(matrix.try_clone(alloc)?)?;
    }
    Ok(copies)
}

/// The shapes of the matrices. Fails where memory is refused.
pub fn shapes<T: Copy>(
    alloc: Global,
    matrices: &[RowMajorMatrix<T>],
) -> Result<Vec<Dimensions>, AllocError>
    ensures { IfOk result (λ shapes. shapes.items ≡ dimensions_of matrices.now) }
{
    let mut shapes = Vec::with_capacity(alloc, matrices.len())?;
    for matrix in matrices {
        shapes.push(Dimensions {
            width: matrix.width(),
            height: matrix.height(),
        })?;
    }
    Ok(shapes)
}

// The row of a matrix at an index under a greatest height, an empty one where it has none there.
fn row_of<T: Copy>(
    alloc: Global,
    matrix: &RowMajorMatrix<T>,
    top: usize,
    index: usize,
) -> Result<Vec<T>, AllocError>
    requires { height_of matrix.now ≤ top }
    ensures { IfOk result (λ row. row.items
        ≡ slice_index_or (rows matrix.now) (row_at top (height_of matrix.now) index) []) }
{
    let height = matrix.height();
    if height == 0 {
        return Ok(Vec::new(alloc));
    }
    let r = index / (top / height);
    if r >= height {
        return Ok(Vec::new(alloc));
    }
    let row = Vec::from_slice(alloc, matrix.row(r))?;
    Ok(row)
}

// The rows of the matrices at an index, one for each.
fn rows_of<T: Copy>(
    alloc: Global,
    matrices: &[RowMajorMatrix<T>],
    top: usize,
    index: usize,
) -> Result<Vec<Vec<T>>, AllocError>
    requires { top ≡ max_height matrices.now }
    ensures { IfOk result (λ rows. map (λ row. row.items) rows.items ≡ rows_at matrices.now index) }
{
    let mut rows = Vec::with_capacity(alloc, matrices.len())?;
    for matrix in matrices {
        rows.push(row_of(alloc, matrix, top, index)?)?;
    }
    Ok(rows)
}

/// A challenger absorbs a list of matrices by their number alone, not by what is in them.
impl<T: Copy> CanObserve<MatrixList<T>> for Sha256Challenger {
    ghost use Rattle.circle_challenger.specs.Sponge.{absorbed};
    ghost use Rattle.test_schemes.specs.MatrixList.{matrices_of};

    ghost after_observe = { λ s list. absorbed s (to_be_bytes w64 (length (matrices_of list))) };

    fn observe(&mut self, value: &MatrixList<T>) {
        let count = value.matrices().len() as u64;
        self.observe_bytes(&count.to_be_bytes());
    }
}
