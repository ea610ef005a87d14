//! Periodic columns on the quotient's domain.
ghost use Rattle.std.specs.Prelude.{◌≡◌, ℕ, ◌+◌, ◌≤◌, ◌<◌, ◌^◌, All, IfOk, Some, length, map};
ghost use Rattle.std.specs.Prelude.{vec_len};
ghost use Rattle.circle_commit.specs.Matrix.{IsPowerOfTwo};
ghost use Rattle.circle_commit.specs.PeriodicLdeTable.{entry_at, height_of, width_of};
ghost use Rattle.circle_plane.specs.declared.periodic.PeriodicError.TheVariants.{Memory};
ghost use Rattle.circle_air.specs.Values.{entry};
ghost use Rattle.circle_quotient.specs.Terms.{ArePeriodicColumns, IsPeriodicColumn};

use circle_commit::PeriodicLdeTable;
use circle_domain::CircleDomain;
use circle_field::{ComplexExtendable, Field};
use circle_plane::{PeriodicError, build_periodic_lde_table_circle};
use std::alloc::{AllocError, Global};
use std::slice;

// The entries of a table's first column.
fn first_column<F: Field>(alloc: Global, table: &PeriodicLdeTable<F>) -> Result<Vec<F>, AllocError>
    requires column { 1 ≤ width_of table.now }
    requires nonempty { 1 ≤ height_of table.now }
    ensures height { IfOk result (λ made. length made.items ≡ height_of table.now) }
    ensures entries { IfOk result (λ made. (i : ℕ) → i < height_of table.now →
        entry_at table.now i 0 ≡ Some (entry F.ops made.items i)) }
{
    let mut made = Vec::with_capacity(alloc, table.height())?;
    for i in 0..table.height() {
        made.push(table.get(i, 0))?;
    }
    Ok(made)
}

// The error of a table that is refused only when out of memory.
fn out_of_memory(error: PeriodicError) -> AllocError
    requires { error ≡ Memory }
{
    match error {
        PeriodicError::Memory => AllocError,
        _ => unreachable!(),
    }
}

// The values of a column that repeats over `2^log_n` rows at the points of the standard domain of
// `2^(log_n + log_num_chunks)` points in natural order, as far as they differ: as many as the
// column has entries, times `2^log_num_chunks`.
fn extended_column<F: ComplexExtendable>(
    alloc: Global,
    column: &Vec<F>,
    log_n: usize,
    log_num_chunks: usize,
) -> Result<Vec<F>, AllocError>
    requires positive { 1 ≤ log_n }
    requires in_group { log_n + log_num_chunks < F.CIRCLE_TWO_ADICITY }
    requires power { IsPowerOfTwo (length column.now.items) }
    requires period { length column.now.items ≤ 2 ^ log_n }
    ensures { IfOk result (λ made. IsPeriodicColumn F.ops F.generators log_n log_num_chunks
        column.now.items made.items) }
{
    let trace_domain = CircleDomain::standard(log_n);
    let quotient_domain = CircleDomain::standard(log_n + log_num_chunks);
    let columns = slice::from_ref(column);
    match build_periodic_lde_table_circle(alloc, columns, &trace_domain, &quotient_domain) {
        Ok(table) => first_column(alloc, &table),
        // The column repeats over the trace, and no table of one column is too large.
        Err(error) => Err(out_of_memory(error)),
    }
}

/// The values of columns that repeat over `2^log_n` rows at the points of the standard domain of
/// `2^(log_n + log_num_chunks)` points in natural order, as far as they differ: for each column as
/// many as it has entries, times `2^log_num_chunks`.
///
/// Requires `1 <= log_n`, `log_n + log_num_chunks < CIRCLE_TWO_ADICITY`, and columns of a power of
/// two of entries that is at most `2^log_n`. Fails only when out of memory.
pub(crate) fn extended_periodic_columns<F: ComplexExtendable>(
    alloc: Global,
    columns: &[Vec<F>],
    log_n: usize,
    log_num_chunks: usize,
) -> Result<Vec<Vec<F>>, AllocError>
    requires positive { 1 ≤ log_n }
    requires in_group { log_n + log_num_chunks < F.CIRCLE_TWO_ADICITY }
    requires powers { All (λ column. IsPowerOfTwo (length column.items)) columns.now }
    requires periods { All (λ column. length column.items ≤ 2 ^ log_n) columns.now }
    ensures { IfOk result (λ made. ArePeriodicColumns F.ops F.generators log_n log_num_chunks
        (map (λ column. column.items) columns.now) (map (λ column. column.items) made.items)) }
{
    let mut made = Vec::with_capacity(alloc, columns.len())?;
    for column in columns {
        made.push(extended_column(alloc, column, log_n, log_num_chunks)?)?;
    }
    Ok(made)
}
