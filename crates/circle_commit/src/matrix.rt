//! Matrices by rows, and views of them under another order of the rows.
ghost use Rattle.std.specs.Prelude.{◌≡◌, ℕ, ◌+◌, ◌*◌, ◌^◌, ◌<◌, ◌≤◌, ◌%◌, ◌/◌, List, [], ◌∷◌, length, map};
ghost use Rattle.std.specs.Prelude.{Some, IfOk, All, slice_get, slice_index_or, take, drop};
ghost use Rattle.std.specs.Prelude.{vec_len, ◌↔◌, IsSome, IfSome, MatchResult};
ghost use Rattle.std.specs.List.{range_with_len};
ghost use Rattle.circle_commit.specs.DotProduct.{column_sums, pairwise, with_multiple};
ghost use Rattle.circle_commit.specs.Matrix.{mapped_rows, rows_from};

use crate::view::RowMajorMatrixView;
use circle_field::{ExtensionField, Field};
use std::alloc::{AllocError, Global};

/// The shape of a matrix as contracts see it.
///
/// It stands in a trait of its own, without the type of the entries, so that a type can name it in
/// an invariant.
pub trait MatrixShape {
    ghost width: { Self → ℕ };

    ghost height: { Self → ℕ };
}

/// A matrix that lends its rows.
pub trait Matrix<T>: MatrixShape {
    ghost rows: { Self → List (List T) };

    /// The number of columns, at least 1.
    fn width(&self) -> usize
        ensures { result ≡ Self.width self.now };

    /// The number of rows.
    fn height(&self) -> usize
        ensures { result ≡ Self.height self.now };

    /// The entries of row `r`.
    ///
    /// Requires `r < height`.
    fn row(&self, r: usize) -> &[T]
        requires { r < Self.height self.now }
        ensures { slice_get (rows self.now) r ≡ Some result.now };

    ghost width_positive: { (m : Self) → 1 ≤ Self.width m };

    ghost height_law: { (m : Self) → length (rows m) ≡ Self.height m };

    ghost width_law: { (m : Self) → All (λ row. length row ≡ Self.width m) (rows m) };
}

/// What a matrix over a field gives besides. Every such matrix has it.
pub trait FieldMatrix<F: Field>: Matrix<F> {
    /// For each column the sum of its entries, each times the weight of its row.
    ///
    /// Requires a weight for each row. Fails where memory is refused.
    fn columnwise_dot_product<EF: ExtensionField<F>>(
        &self,
        alloc: Global,
        weights: &[EF],
    ) -> Result<Vec<EF>, AllocError>
        requires { length weights.now ≡ Self.height self.now }
        ensures { IfOk result (λ sums. sums.items ≡ column_sums EF.ops F.ops.zero EF.embed
            (Self.rows self.now) (Self.width self.now) weights.now) }
    {
        let mut sums = zeros::<F, EF>(alloc, self.width())?;
        for (i, weight) in weights.iter().enumerate() {
            add_multiple(&mut sums, self.row(i), *weight);
        }
        Ok(sums)
    }

    /// What `columnwise_dot_product` returns for each of the lists of weights. The rows are gone
    /// over once for all of them.
    ///
    /// Requires in each list a weight for each row. Fails where memory is refused.
    fn columnwise_dot_products<EF: ExtensionField<F>>(
        &self,
        alloc: Global,
        weights: &[&[EF]],
    ) -> Result<Vec<Vec<EF>>, AllocError>
        requires { All (λ ws. length ws.now ≡ Self.height self.now) weights.now }
        ensures { IfOk result (λ all. map (λ s. s.items) all.items ≡ map (λ ws. column_sums EF.ops
            F.ops.zero EF.embed (Self.rows self.now) (Self.width self.now) ws.now) weights.now) }
    {
        let mut sums = zero_lists::<F, EF>(alloc, weights.len(), self.width())?;
        for i in 0..self.height() {
            add_row(&mut sums, self.row(i), weights, i);
        }
        Ok(sums)
    }
}

impl<F: Field, M: Matrix<F>> FieldMatrix<F> for M {}

// So many zeros.
fn zeros<F: Field, EF: ExtensionField<F>>(
    alloc: Global,
    count: usize,
) -> Result<Vec<EF>, AllocError>
    ensures { IfOk result (λ made. made.items ≡ map (λ _. EF.ops.zero) (range_with_len 0 count)) }
{
    let mut zeros = Vec::with_capacity(alloc, count)?;
    for _i in 0..count {
        zeros.push(EF::ZERO)?;
    }
    Ok(zeros)
}

// So many lists of as many zeros each.
fn zero_lists<F: Field, EF: ExtensionField<F>>(
    alloc: Global,
    lists: usize,
    count: usize,
) -> Result<Vec<Vec<EF>>, AllocError>
    ensures { IfOk result (λ made. map (λ sums. sums.items) made.items
        ≡ map (λ _. map (λ _. EF.ops.zero) (range_with_len 0 count)) (range_with_len 0 lists)) }
{
    let mut made = Vec::with_capacity(alloc, lists)?;
    for _i in 0..lists {
        made.push(zeros::<F, EF>(alloc, count)?)?;
    }
    Ok(made)
}

// Adds to each list of sums row `r`, times the weight of the list for it.
fn add_row<F: Field, EF: ExtensionField<F>>(
    sums: &mut [Vec<EF>],
    row: &[F],
    weights: &[&[EF]],
    r: usize,
)
    requires lists { length sums.old ≡ length weights.now }
    requires weighted { All (λ ws. r < length ws.now) weights.now }
    requires widths { All (λ s. length s.items ≡ length row.now) sums.old }
    ensures { map (λ s. s.items) sums.new ≡ pairwise (λ s ws. with_multiple EF.ops EF.embed
        (slice_index_or ws.now r EF.ops.zero) s row.now) (map (λ s. s.items) sums.old) weights.now }
{
    for (p, &list) in weights.iter().enumerate() {
        add_multiple(&mut sums[p], row, list[r]);
    }
}

// Adds to each sum the entry of the row times the weight.
fn add_multiple<F: Field, EF: ExtensionField<F>>(sums: &mut [EF], row: &[F], weight: EF)
    requires { length sums.old ≡ length row.now }
    ensures { sums.new ≡ with_multiple EF.ops EF.embed weight sums.old row.now }
{
    for (i, entry) in row.iter().enumerate() {
        sums[i] = sums[i] + weight.times_base(*entry);
    }
}

/// The number of entries of `height` rows of `width`. Fails exactly where it passes `usize`: no
/// memory holds that many.
pub fn entry_count(height: usize, width: usize) -> Result<usize, AllocError>
    ensures { MatchResult result (λ count. count ≡ height * width)
        (λ _. 2 ^ 64 ≤ height * width) }
{
    height.checked_mul(width).ok_or(AllocError)
}

/// The shape of a matrix.
#[derive(Clone, Copy, PartialEq, Eq, Debug)]
pub struct Dimensions {
    /// The number of columns.
    pub width: usize,
    /// The number of rows.
    pub height: usize,
}

/// A matrix of `Copy` entries, stored row after row: of at least one column and any number of rows.
#[derive(Drop)]
pub struct RowMajorMatrix<T> {
    values: Vec<T>,
    width: usize,
    ghost width_positive: { 1 ≤ width },
    ghost whole_rows: { vec_len values % width ≡ 0 },
}

impl<T: Copy> RowMajorMatrix<T> {
    ghost use Rattle.circle_commit.specs.RowMajorMatrix.{rows, width_of, height_of, values_of};
    ghost use Rattle.circle_commit.specs.RowMajorMatrixView.{rows as view_rows, width_of as view_width};

    /// The matrix with these entries, row after row.
    ///
    /// Requires a width of at least 1 that divides the number of entries, as
    /// [`try_new`](Self::try_new) tests.
    pub fn new(values: Vec<T>, width: usize) -> Self
        requires positive { 1 ≤ width }
        requires whole { vec_len values % width ≡ 0 }
        ensures shape { width_of result ≡ width }
        ensures content { rows result ≡ rows_from width (vec_len values / width) values.items }
    {
        RowMajorMatrix { values, width }
    }

    /// What [`new`](Self::new) returns, and `None` where the width is 0 or doesn't divide the
    /// number of entries.
    pub fn try_new(values: Vec<T>, width: usize) -> Option<Self>
        ensures some { IsSome result ↔ ((1 ≤ width) × (vec_len values % width ≡ 0)) }
        ensures shape { IfSome result (λ m. width_of m ≡ width) }
        ensures content { IfSome result (λ m. rows m
            ≡ rows_from width (vec_len values / width) values.items) }
    {
        if width != 0 && values.len() % width == 0 {
            Some(Self::new(values, width))
        } else {
            None
        }
    }

    /// The matrix of one column with these entries.
    pub fn new_col(values: Vec<T>) -> Self
        ensures shape { width_of result ≡ 1 }
        ensures content { rows result ≡ map (λ x. x ∷ []) values.items }
    {
        RowMajorMatrix { values, width: 1 }
    }

    /// A stored copy of the rows of a matrix. Fails where memory is refused.
    pub fn copy_of<M: Matrix<T>>(alloc: Global, matrix: &M) -> Result<Self, AllocError>
        ensures width { IfOk result (λ m. width_of m ≡ M.width matrix.now) }
        ensures rows { IfOk result (λ m. rows m ≡ M.rows matrix.now) }
    {
        let width = matrix.width();
        let height = matrix.height();
        let mut values = Vec::with_capacity(alloc, entry_count(height, width)?)?;
        for r in 0..height {
            values.extend_from_slice(matrix.row(r))?;
        }
        Ok(RowMajorMatrix::new(values, width))
    }

    /// An equal matrix. Fails where memory is refused.
    pub fn try_clone(&self, alloc: Global) -> Result<Self, AllocError>
        ensures width { IfOk result (λ m. width_of m ≡ width_of self.now) }
        ensures rows { IfOk result (λ m. rows m ≡ rows self.now) }
    {
        Self::copy_of(alloc, self)
    }

    /// The entries, row after row.
    pub fn values(&self) -> &[T]
        ensures { result.now ≡ values_of self.now }
    {
        self.values.as_slice()
    }

    /// The entries, row after row, for use without the matrix.
    pub fn into_values(self) -> Vec<T>
        ensures { result.items ≡ values_of self }
    {
        self.values
    }

    /// The first `n` rows and the others, as two views.
    ///
    /// Requires that `n` is at most the height.
    pub fn split_rows(&self, n: usize) -> (RowMajorMatrixView<'_, T>, RowMajorMatrixView<'_, T>)
        requires { n ≤ height_of self.now }
        ensures widths { (view_width result.0 ≡ width_of self.now)
            × (view_width result.1 ≡ width_of self.now) }
        ensures first { view_rows result.0 ≡ take n (rows self.now) }
        ensures others { view_rows result.1 ≡ drop n (rows self.now) }
    {
        let width = self.width;
        let (first, others) = self.values.split_at(n * width);
        (
            RowMajorMatrixView::new(first, width),
            RowMajorMatrixView::new(others, width),
        )
    }
}

impl<T> MatrixShape for RowMajorMatrix<T> {
    ghost use Rattle.circle_commit.specs.RowMajorMatrix.{width_of, height_of};

    ghost width = { width_of };

    ghost height = { height_of };
}

impl<T> Matrix<T> for RowMajorMatrix<T> {
    ghost use Rattle.circle_commit.specs.RowMajorMatrix.{rows, positive_width, length-rows, rows-width};

    ghost rows = { rows };

    ghost width_positive = { positive_width };

    ghost height_law = { length-rows };

    ghost width_law = { rows-width };

    fn width(&self) -> usize {
        self.width
    }

    fn height(&self) -> usize {
        self.values.len() / self.width
    }

    fn row(&self, r: usize) -> &[T] {
        let start = r * self.width;
        &self.values[start..start + self.width]
    }
}

/// Another order of a matrix's rows.
pub trait RowIndexMap {
    ghost height: { Self → ℕ };

    ghost map_row_index: { Self → ℕ → ℕ };

    /// The number of rows.
    fn height(&self) -> usize
        ensures { result ≡ height self.now };

    /// The row of the underlying matrix that stands at row `r`.
    ///
    /// Requires `r < height`.
    fn map_row_index(&self, r: usize) -> usize
        requires { r < height self.now }
        ensures { result ≡ map_row_index self.now r };
}

/// A matrix seen under another order of its rows, which are not copied.
#[derive(Drop)]
pub struct RowIndexMappedView<Map: RowIndexMap, M: MatrixShape> {
    /// Which row of `inner` stands at each row.
    pub index_map: Map,
    /// The underlying matrix.
    pub inner: M,
    pub ghost in_range: { (r : ℕ) → r < Map.height index_map
        → Map.map_row_index index_map r < M.height inner },
}

impl<Map: RowIndexMap, M: MatrixShape> MatrixShape for RowIndexMappedView<Map, M> {
    ghost width = { λ v. M.width v.inner };

    ghost height = { λ v. Map.height v.index_map };
}

impl<T, Map: RowIndexMap, M: Matrix<T>> Matrix<T> for RowIndexMappedView<Map, M> {
    ghost use Rattle.circle_commit.specs.RowFacts.{length-mapped_rows, mapped_rows-widths};
    ghost use Rattle.std.proofs.Common.{subst, sym};

    ghost rows = { λ v. mapped_rows (Map.map_row_index v.index_map) (Map.height v.index_map)
        (M.rows v.inner) };

    ghost width_positive = { λ v. M.width_positive v.inner };

    ghost height_law = { λ v. length-mapped_rows (Map.map_row_index v.index_map)
        (Map.height v.index_map) (M.rows v.inner) };

    ghost width_law = { λ v. mapped_rows-widths (Map.map_row_index v.index_map)
        (Map.height v.index_map) (M.width v.inner) (M.rows v.inner)
        (λ r h. subst (λ n. Map.map_row_index v.index_map r < n) (sym (M.height_law v.inner))
        (v.in_range r h))
        (M.width_law v.inner) };

    fn width(&self) -> usize {
        self.inner.width()
    }

    fn height(&self) -> usize {
        self.index_map.height()
    }

    fn row(&self, r: usize) -> &[T] {
        self.inner.row(self.index_map.map_row_index(r))
    }
}

impl<Map: RowIndexMap, M: MatrixShape> RowIndexMappedView<Map, M> {
    ghost use Rattle.circle_commit.specs.RowMajorMatrix.{rows, width_of};

    /// A stored copy of the rows as they are seen. Fails where memory is refused.
    pub fn to_row_major_matrix<T: Copy>(
        &self,
        alloc: Global,
    ) -> Result<RowMajorMatrix<T>, AllocError>
    where
        M: Matrix<T>,
        ensures width { IfOk result (λ m. width_of m ≡ M.width self.now.inner) }
        ensures rows { IfOk result (λ m. rows m
            ≡ ⟦<RowIndexMappedView<Map, M> as Matrix<T>>⟧.rows self.now) }
    {
        RowMajorMatrix::copy_of(alloc, self)
    }
}
