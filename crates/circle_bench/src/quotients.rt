//! The values of a trace's columns and of its quotient on the quotient's domain.
ghost use Rattle.std.specs.Prelude.{◌≤◌, ◌↔◌, All, IsTrue, length, vec_len};
ghost use Rattle.circle_air.specs.Air.{air_of};

use crate::starks::Statement;
use circle_air::Air;
use circle_commit::{Matrix, RowMajorMatrix};
use circle_field::{Cubic, Mersenne31};
use circle_plane::{CircleDomain, CircleEvaluations};
use circle_quotient::quotient::quotient_values;
use circle_quotient::trace::ExtendedTrace;
use std::alloc::Global;
use std::io::{self, ErrorKind};

/// Matrices of [`Mersenne31`].
type Rows = RowMajorMatrix<Mersenne31>;

/// The greatest binary logarithm of a number of chunks here.
pub const MAX_LOG_CHUNKS: usize = 4;

/// The values at the points of the quotient's domain, in natural order, of the columns of a trace
/// that has these rows.
pub fn extended(alloc: Global, statement: &Statement, rows: Rows) -> io::Result<Rows> {
    let (log_n, height) = (statement.size.log_rows, statement.size.rows());
    let log_num_chunks = statement.air.log_num_quotient_chunks();
    if rows.height() != height || log_num_chunks > MAX_LOG_CHUNKS {
        return Err(unfit());
    }
    let domain = CircleDomain::standard(log_n);
    let target = CircleDomain::standard(log_n + log_num_chunks);
    if !domain.is_genuine() {
        return Err(unfit());
    }
    let evaluations = CircleEvaluations::from_natural_order(domain, rows);
    let natural = evaluations.extrapolate(alloc, target)?.to_natural_order();
    Ok(Rows::copy_of(alloc, &natural)?)
}

/// The values of the quotient of a trace whose columns have these values on the quotient's domain.
pub fn quotient(alloc: Global, statement: &Statement, rows: &Rows) -> io::Result<Vec<Cubic>> {
    let (air, log_n) = (statement.air, statement.size.log_rows);
    let log_num_chunks = air.log_num_quotient_chunks();
    if log_num_chunks == 0
        || log_num_chunks > MAX_LOG_CHUNKS
        || rows.height() != 1 << (log_n + log_num_chunks)
        || rows.width() != air.width()
        || statement.trace.public_values.len() != air.num_public_values()
        || !are_periods_short(air, statement.size.rows())
    {
        return Err(unfit());
    }
    let trace = ExtendedTrace {
        rows,
        log_n,
        log_num_chunks,
        public_values: &statement.trace.public_values,
    };
    Ok(quotient_values(alloc, air, &trace, statement.alpha)?)
}

/// The failure where a trace doesn't fit its AIR.
fn unfit() -> io::Error {
    io::Error::from(ErrorKind::InvalidInput)
}

/// Whether no periodic column is longer than a trace of this height.
fn are_periods_short(air: &Air<Mersenne31>, height: usize) -> bool
    ensures { IsTrue result
        ↔ All (λ column. length column ≤ height) (air_of air.now).periodic_columns }
{
    are_at_most(air.periodic_columns(), height)
}

/// Whether no column has more entries.
fn are_at_most(columns: &[Vec<Mersenne31>], count: usize) -> bool
    ensures { IsTrue result ↔ All (λ column. vec_len column ≤ count) columns.now }
{
    columns.iter().all(|column| column.len() <= count)
}
