//! Rows of a matrix that is stored elsewhere.
ghost use Rattle.std.specs.Prelude.{◌≡◌, ◌↔◌, ◌≤◌, ◌%◌, ◌/◌, length, IsSome, IfSome};
ghost use Rattle.circle_commit.specs.Matrix.{rows_from};

use crate::matrix::{Matrix, MatrixShape};

/// Rows of a matrix that is stored elsewhere, which are not copied.
#[derive(Drop)]
pub struct RowMajorMatrixView<'a, T> {
    values: &'a [T],
    width: usize,
    ghost width_positive: { 1 ≤ width },
    ghost whole_rows: { length values.now % width ≡ 0 },
}

impl<'a, T> RowMajorMatrixView<'a, T> {
    ghost use Rattle.circle_commit.specs.RowMajorMatrixView.{rows, width_of};

    /// The rows of these entries, row after row.
    ///
    /// Requires a width of at least 1 that divides the number of entries, as
    /// [`try_new`](Self::try_new) tests.
    pub fn new(values: &'a [T], width: usize) -> Self
        requires positive { 1 ≤ width }
        requires whole { length values.now % width ≡ 0 }
        ensures shape { width_of result ≡ width }
        ensures content { rows result ≡ rows_from width (length values.entry.now / width)
            values.entry.now }
    {
        RowMajorMatrixView { values, width }
    }

    /// What [`new`](Self::new) returns, and `None` where the width is 0 or doesn't divide the
    /// number of entries.
    pub fn try_new(values: &'a [T], width: usize) -> Option<Self>
        ensures some { IsSome result ↔ ((1 ≤ width) × (length values.entry.now % width ≡ 0)) }
        ensures shape { IfSome result (λ m. width_of m ≡ width) }
        ensures content { IfSome result (λ m. rows m
            ≡ rows_from width (length values.entry.now / width) values.entry.now) }
    {
        if width != 0 && values.len() % width == 0 {
            Some(Self::new(values, width))
        } else {
            None
        }
    }
}

impl<T> MatrixShape for RowMajorMatrixView<'_, T> {
    ghost use Rattle.circle_commit.specs.RowMajorMatrixView.{width_of, height_of};

    ghost width = { width_of };

    ghost height = { height_of };
}

impl<T> Matrix<T> for RowMajorMatrixView<'_, T> {
    ghost use Rattle.circle_commit.specs.RowMajorMatrixView.{rows, positive_width, length-rows, rows-width};

    ghost rows = { rows };

    ghost width_positive = { positive_width };

    ghost height_law = { length-rows };

    ghost width_law = { rows-width };

    fn width(&self) -> usize {
        self.width
    }

    fn height(&self) -> usize {
        self.values.len() / self.width
    }

    fn row(&self, r: usize) -> &[T] {
        let start = r * self.width;
        &self.values[start..start + self.width]
    }
}
