//! One row of each of several matrices: of committed ones, and as they are opened.
ghost use Rattle.std.specs.Prelude.{◌≡◌, ◌<◌, List, length, map, Some, slice_get, slice_index_or};
ghost use Rattle.circle_commit.specs.Mmcs.{dimensions_of};
ghost use Rattle.circle_commit.specs.declared.matrix.Dimensions.{Dimensions};
ghost use Rattle.circle_merkle.specs.Rows.{rows_of};

use circle_commit::{Dimensions, Matrix, RowMajorMatrix};

/// One row of each of several matrices.
pub trait RowOfEach<T> {
    ghost dimensions: { Self → List Dimensions };

    ghost rows: { Self → List (List T) };

    /// The number of matrices.
    fn count(&self) -> usize
        ensures { result ≡ length (dimensions self.now) };

    /// The height of matrix `j`.
    fn height(&self, j: usize) -> usize
        requires { j < length (dimensions self.now) }
        ensures { (d : Dimensions) → result ≡ (slice_index_or (dimensions self.now) j d).height };

    /// The row of matrix `j`.
    fn row(&self, j: usize) -> &[T]
        requires { j < length (dimensions self.now) }
        ensures { slice_get (rows self.now) j ≡ Some result.now };

    ghost one_each: { (s : Self) → length (rows s) ≡ length (dimensions s) };
}

/// Row `i` of each of the matrices, an empty one of a lower matrix.
#[derive(Drop)]
pub struct MatrixRows<'a, T> {
    /// The matrices.
    pub matrices: &'a [RowMajorMatrix<T>],
    /// The index of the rows.
    pub i: usize,
}

impl<T: Copy> RowOfEach<T> for MatrixRows<'_, T> {
    ghost use Rattle.circle_merkle.specs.RowBytes.{matrices_one_each};

    ghost dimensions = { λ s. dimensions_of s.matrices.now };

    ghost rows = { λ s. rows_of s.matrices.now s.i };

    ghost one_each = { λ s. matrices_one_each s.matrices.now s.i };

    fn count(&self) -> usize {
        self.matrices.len()
    }

    fn height(&self, j: usize) -> usize {
        self.matrices[j].height()
    }

    fn row(&self, j: usize) -> &[T] {
        let matrix = &self.matrices[j];
        if self.i < matrix.height() {
            return matrix.row(self.i);
        }
        &matrix.values()[..0]
    }
}

/// The rows that are opened at one index, one of each of the matrices.
#[derive(Drop)]
pub struct OpenedAt<'a, T> {
    /// The shapes of the matrices.
    pub dimensions: &'a [Dimensions],
    /// The rows.
    pub rows: &'a [Vec<T>],
    ghost one_each: { length rows.now ≡ length dimensions.now },
}

impl<T> RowOfEach<T> for OpenedAt<'_, T> {
    ghost use Rattle.std.proofs.Common.{◌∙◌};
    ghost use Rattle.std.proofs.lemmas.List.{length-map};

    ghost dimensions = { λ s. s.dimensions.now };

    ghost rows = { λ s. map (λ row. row.items) s.rows.now };

    ghost one_each = { λ s. length-map s.rows.now (λ row. row.items) ∙ s.one_each };

    fn count(&self) -> usize {
        self.dimensions.len()
    }

    fn height(&self, j: usize) -> usize {
        self.dimensions[j].height
    }

    fn row(&self, j: usize) -> &[T] {
        &self.rows[j]
    }
}
