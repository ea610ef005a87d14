//! Lengths of periodic columns.
ghost use Rattle.std.specs.Prelude.{◌≤◌, ◌↔◌, All, IsTrue, length, vec_len};
ghost use Rattle.circle_air.specs.Air.{air_of};

use circle_air::Air;
use circle_field::Mersenne31;

/// Whether no periodic column is longer than a trace of this height.
pub fn are_periods_short(air: &Air<Mersenne31>, height: usize) -> bool
    ensures { IsTrue result
        ↔ All (λ column. length column ≤ height) (air_of air.now).periodic_columns }
{
    are_at_most(air.periodic_columns(), height)
}

// Whether no column has more entries.
fn are_at_most(columns: &[Vec<Mersenne31>], count: usize) -> bool
    ensures { IsTrue result ↔ All (λ column. vec_len column ≤ count) columns.now }
{
    columns.iter().all(|column| column.len() <= count)
}
