//! The rows of a block on the quotient's domain, column by column, and the windows of its lanes.
ghost use Rattle.std.specs.Prelude.{◌≡◌, ℕ, ◌+◌, ◌%◌, ◌<◌, [], All, length, map, slice_index_or};
ghost use Rattle.std.specs.Prelude.{slice_set};
ghost use Rattle.circle_field.specs.Field.{FieldOps};
ghost use Rattle.circle_commit.specs.DotProduct.{pairwise};
ghost use Rattle.circle_air.specs.Values.{Window, entry};
ghost use Rattle.circle_commit.specs.PeriodicLdeTable.{columns_of};
ghost use Rattle.circle_quotient.specs.Lanes.{lane_of};

use circle_air::evaluate::Windows;
use circle_commit::Matrix;
use circle_field::Field;

/// The windows of a block's lanes.
pub(crate) struct LaneWindows<'a, F> {
    /// For each column the entries of the rows.
    pub local: &'a [Vec<F>],
    /// For each column the entries of the next rows.
    pub next: &'a [Vec<F>],
    /// For each periodic column the values at the points of the whole domain, as far as they
    /// differ.
    pub periodic: &'a [Vec<F>],
    /// The public values.
    pub public_values: &'a [F],
    /// The place of the first lane on the whole domain.
    pub start: usize,
    ghost same_width: { length next.now ≡ length local.now },
    ghost periods: { All (λ column. 0 < length column.items) periodic.now },
}

impl<F> Drop for LaneWindows<'_, F> {
    fn drop(self) {
        let LaneWindows {
            local: _,
            next: _,
            periodic: _,
            public_values: _,
            start: _,
        } = self;
    }
}

// Writes the entries of a column, one for each lane, and 0 where there is none.
fn write_column<F: Field>(column: &[F], lanes: &mut [F])
    ensures { (r : ℕ) (d : F) → r < length lanes.new →
        slice_index_or lanes.new r d ≡ entry F.ops column.now r }
{
    for (r, lane) in lanes.iter_mut().enumerate() {
        *lane = if r < column.len() { column[r] } else { F::ZERO };
    }
}

/// Writes consecutive entries of a column, the first after the last.
pub(crate) fn write_cycle<F: Field>(column: &[F], first: usize, lanes: &mut [F])
    requires { 0 < length column.now }
    ensures { (r : ℕ) (d : F) → r < length lanes.new → slice_index_or lanes.new r d
        ≡ entry F.ops column.now ((first + r) % length column.now) }
{
    let mut at = first % column.len();
    for lane in lanes.iter_mut() {
        *lane = column[at];
        at = following(at, column.len());
    }
}

/// The place after this one, which is the first where this is the last.
pub(crate) fn following(at: usize, count: usize) -> usize
    requires { at < count }
    ensures next { result ≡ (at + 1) % count }
    ensures below { result < count }
{
    if at + 1 == count { 0 } else { at + 1 }
}

impl<F: Field> Windows<F> for LaneWindows<'_, F> {
    ghost width = { λ w. length w.local.now };

    ghost num_periodic_columns = { λ w. length w.periodic.now };

    ghost num_public_values = { λ w. length w.public_values.now };

    ghost window = { λ w r. record {
      local = lane_of F.ops w.local.now r;
      next = lane_of F.ops w.next.now r;
      periodic = map (λ column. entry F.ops column.items
          ((w.start + r) % length column.items)) w.periodic.now;
      public = w.public_values.now;
    } };

    fn write_local(&self, column: usize, lanes: &mut [F]) {
        write_column(&self.local[column], lanes);
    }

    fn write_next(&self, column: usize, lanes: &mut [F]) {
        write_column(&self.next[column], lanes);
    }

    fn write_periodic(&self, column: usize, lanes: &mut [F]) {
        write_cycle(&self.periodic[column], self.start, lanes);
    }

    fn public(&self, index: usize) -> F {
        self.public_values[index]
    }
}

// Writes the entries of a row into one lane of the columns.
fn write_row<F: Copy>(columns: &mut [Vec<F>], lane: usize, row: &[F])
    requires width { length columns.old ≡ length row.now }
    requires lane { All (λ column. lane < length column.items) columns.old }
    ensures { columns_of columns.new
        ≡ pairwise (λ column x. slice_set column lane x) (columns_of columns.old) row.now }
{
    for (c, entry) in row.iter().enumerate() {
        columns[c][lane] = *entry;
    }
}

/// Writes consecutive rows into the lanes of the columns, from `first` on, where the first row
/// comes after the last.
pub(crate) fn write_rows<F: Field, M: Matrix<F>>(
    columns: &mut [Vec<F>],
    lanes: usize,
    rows: &M,
    first: usize,
)
    requires width { length columns.old ≡ M.width rows.now }
    requires lanes { All (λ column. length column ≡ lanes) (columns_of columns.old) }
    requires first { first < M.height rows.now }
    ensures width { length columns.new ≡ length columns.old }
    ensures lanes { All (λ column. length column ≡ lanes) (columns_of columns.new) }
    ensures rows { (r : ℕ) → r < lanes → lane_of F.ops columns.new r
        ≡ slice_index_or (M.rows rows.now) ((first + r) % length (M.rows rows.now)) [] }
{
    let mut row = first;
    for lane in 0..lanes {
        write_row(columns, lane, rows.row(row));
        row = following(row, rows.height());
    }
}
