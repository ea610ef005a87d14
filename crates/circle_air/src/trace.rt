//! The windows of a trace's rows, a block at a time.
ghost use Rattle.std.specs.Prelude.{◌≡◌, ℕ, ◌+◌, ◌<◌, ◌%◌, [], length, map, slice_index_or};
ghost use Rattle.circle_field.specs.Field.{FieldOps};

use crate::air::Air;
use crate::evaluate::Windows;
use circle_commit::{Matrix, MatrixShape};
use circle_field::Field;

/// The number of rows of a block.
pub(crate) const LANES: usize = 32;

/// The windows of a block of rows, from a row of the trace on.
pub(crate) struct TraceWindows<'a, F, M: MatrixShape> {
    /// The AIR, for its periodic columns.
    pub air: &'a Air<F>,
    /// The rows.
    pub rows: &'a M,
    /// The public values.
    pub public_values: &'a [F],
    /// The first row of the block.
    pub start: usize,
    ghost in_range: { start < M.height rows.now },
}

impl<F, M: MatrixShape> Drop for TraceWindows<'_, F, M> {
    fn drop(self) {
        let TraceWindows {
            air: _,
            rows: _,
            public_values: _,
            start: _,
        } = self;
    }
}

impl<F: Field, M: Matrix<F>> Windows<F> for TraceWindows<'_, F, M> {
    ghost use Rattle.circle_air.specs.Air.{air_of};
    ghost use Rattle.circle_air.specs.Lanes.{window_past};

    ghost width = { λ w. M.width w.rows.now };

    ghost num_periodic_columns = { λ w. length (air_of w.air.now).periodic_columns };

    ghost num_public_values = { λ w. length w.public_values.now };

    ghost window = { λ w r. window_past F.ops (air_of w.air.now) (M.rows w.rows.now)
        w.public_values.now (w.start + r) };

    fn write_local(&self, column: usize, lanes: &mut [F]) {
        write_column(self.rows, column, self.start, lanes);
    }

    fn write_next(&self, column: usize, lanes: &mut [F]) {
        let first = following(self.start, self.rows.height());
        write_column(self.rows, column, first, lanes);
    }

    fn write_periodic(&self, column: usize, lanes: &mut [F]) {
        write_cycle(&self.air.periodic_columns()[column], self.start, lanes);
    }

    fn public(&self, index: usize) -> F {
        self.public_values[index]
    }
}

// The place after this one, which is the first where this is the last.
fn following(at: usize, count: usize) -> usize
    requires { at < count }
    ensures next { result ≡ (at + 1) % count }
    ensures below { result < count }
{
    if at + 1 == count { 0 } else { at + 1 }
}

// Writes the entries of a column at consecutive rows, the first after the last.
fn write_column<F: Field, M: Matrix<F>>(rows: &M, column: usize, first: usize, lanes: &mut [F])
    requires column { column < M.width rows.now }
    requires first { first < M.height rows.now }
    ensures { (r : ℕ) (d : F) → r < length lanes.new → slice_index_or lanes.new r d
        ≡ slice_index_or (slice_index_or (M.rows rows.now)
        ((first + r) % length (M.rows rows.now)) []) column d }
{
    let height = rows.height();
    let mut row = first;
    for entry in lanes.iter_mut() {
        *entry = rows.row(row)[column];
        row = following(row, height);
    }
}

// Writes consecutive entries of a list, the first after the last.
fn write_cycle<F: Field>(column: &[F], first: usize, lanes: &mut [F])
    requires { 0 < length column.now }
    ensures { (r : ℕ) (d : F) → r < length lanes.new → slice_index_or lanes.new r d
        ≡ slice_index_or column.now ((first + r) % length column.now) d }
{
    let mut at = first % column.len();
    for entry in lanes.iter_mut() {
        *entry = column[at];
        at = following(at, column.len());
    }
}
