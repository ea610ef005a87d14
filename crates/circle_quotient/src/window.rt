//! What the constraints of an AIR read at one point.
ghost use Rattle.std.specs.Prelude.{◌≡◌, ℕ, ◌<◌, length, slice_index_or};

use circle_air::evaluate::Windows;
use circle_field::Field;

/// What constraints read at a point, all in the field of the point's coordinates.
///
/// There are as many entries in `next` as in `local`.
pub struct PointWindow<'a, E> {
    /// The columns' values at the point.
    pub local: &'a [E],
    /// The columns' values at the next point.
    pub next: &'a [E],
    /// The periodic columns' values at the point.
    pub periodic: &'a [E],
    /// The public values.
    pub public_values: &'a [E],
    ghost same_width: { length next.now ≡ length local.now },
}

impl<E> Drop for PointWindow<'_, E> {
    fn drop(self) {
        let PointWindow {
            local: _,
            next: _,
            periodic: _,
            public_values: _,
        } = self;
    }
}

/// Writes the value at each lane.
pub(crate) fn write_same<E: Copy>(value: E, lanes: &mut [E])
    ensures { (r : ℕ) (d : E) → r < length lanes.new → slice_index_or lanes.new r d ≡ value }
{
    for lane in lanes.iter_mut() {
        *lane = value;
    }
}

impl<E: Field> Windows<E> for PointWindow<'_, E> {
    ghost use Rattle.circle_quotient.specs.Records.{window_of};

    ghost width = { λ w. length w.local.now };

    ghost num_periodic_columns = { λ w. length w.periodic.now };

    ghost num_public_values = { λ w. length w.public_values.now };

    ghost window = { λ w _. window_of w };

    fn write_local(&self, column: usize, lanes: &mut [E]) {
        write_same(self.local[column], lanes);
    }

    fn write_next(&self, column: usize, lanes: &mut [E]) {
        write_same(self.next[column], lanes);
    }

    fn write_periodic(&self, column: usize, lanes: &mut [E]) {
        write_same(self.periodic[column], lanes);
    }

    fn public(&self, index: usize) -> E {
        self.public_values[index]
    }
}
