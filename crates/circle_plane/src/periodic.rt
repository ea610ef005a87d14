//! Columns of a trace that repeat: their values off its domain (Circle STARKs, section 4.3).
//!
//! A column of `2^k` entries that repeats over a trace of `2^n` rows is a polynomial in the point
//! that is doubled `n - k` times, which is the polynomial with these entries as values on the
//! standard domain of `2^k` points. On an extension of the trace's domain its values repeat too.
ghost use Rattle.std.specs.Prelude.{◌≡◌, ℕ, ◌≤◌, ◌<◌, ◌-◌, ◌*◌, ◌^◌, ◌++◌};
ghost use Rattle.std.specs.Prelude.{[], All, IfOk, IfErr, OnOk, length, map, slice_index_or};
ghost use Rattle.std.specs.List.{range_with_len};
ghost use Rattle.circle_commit.specs.Matrix.{IsPowerOfTwo};
ghost use Rattle.circle_commit.specs.Mmcs.{greatest};
ghost use Rattle.circle_commit.specs.RowMajorMatrix.{rows, width_of, height_of};
ghost use Rattle.circle_domain.specs.Domain.{log_size};
ghost use Rattle.circle_domain.specs.Periodic.{IsPeriodicValue};
ghost use Rattle.circle_point.specs.Projective.{from_line};
ghost use Rattle.circle_plane.specs.PeriodicColumns.{IsPeriod, IsFault, IsFirstFault};
ghost use Rattle.circle_plane.specs.PeriodicColumns.{ArePeriodicValues, IsTableOn, IsRefusedOn};
ghost use Rattle.circle_plane.specs.PeriodicColumns.{HasValueAt, OfEachColumn, columns_of};
ghost use Rattle.circle_plane.specs.PeriodicRows.{AreExtendedOn, table_row};
ghost use Rattle.circle_plane.specs.declared.periodic.PeriodicError.TheVariants.{HeightTooLarge};
ghost use Rattle.circle_plane.specs.declared.periodic.PeriodicError.TheVariants.{Memory};

use crate::cfft::CircleEvaluations;
use circle_commit::{
    PeriodicEvaluator, PeriodicLdeTable, PolynomialSpace, RowMajorMatrix, entry_count,
    is_power_of_two, log2_strict,
};
use circle_domain::CircleDomain;
use circle_field::{ComplexExtendable, ExtensionField, Field};
use std::alloc::{AllocError, Global};
use thiserror::Error;

/// Why the table of periodic columns is refused: the first that holds. The columns are tested in
/// order, each by the first three.
#[derive(Clone, Copy, Debug, Drop, Error, PartialEq, Eq)]
pub enum PeriodicError {
    /// A column has no entries.
    #[error("a periodic column is empty")]
    Empty,
    /// The number of a column's entries isn't a power of two.
    #[error("the length of a periodic column is not a power of two")]
    NotPowerOfTwo,
    /// A column has more entries than the trace has rows.
    #[error("a periodic column is longer than the trace")]
    LongerThanTrace,
    /// The table's height times its number of columns passes `usize`.
    #[error("the table of periodic columns is too large")]
    HeightTooLarge,
    /// Memory was refused.
    #[error("out of memory")]
    Memory,
}

impl From<AllocError> for PeriodicError {
    ghost from_gives = { λ _ e. e ≡ Memory };

    fn from(_refused: AllocError) -> PeriodicError {
        PeriodicError::Memory
    }
}

/// The evaluation of periodic columns over domains of the circle.
#[derive(Clone, Copy, Debug, Default)]
pub struct CirclePeriodicEvaluator;

impl<F: ComplexExtendable> PeriodicEvaluator<F, CircleDomain<F>> for CirclePeriodicEvaluator {
    type Error = PeriodicError;

    ghost eval_on_lde_asks = { λ trace lde.
        (log_size trace ≤ log_size lde) × (log_size trace < F.CIRCLE_TWO_ADICITY) };

    ghost eval_on_lde_gives = { λ columns trace lde table.
        IsTableOn F.ops F.generators F.CIRCLE_TWO_ADICITY trace lde columns table };

    ghost eval_on_lde_refuses = { λ columns trace lde e. IsRefusedOn trace lde columns e };

    ghost eval_at_point_asks = { λ e l embed columns trace point. (c : ℕ) → c < length columns →
        HasValueAt F.CIRCLE_TWO_ADICITY F.ops F.generators l embed trace point
        (slice_index_or columns c []) };

    ghost eval_at_point_gives = { λ e l embed columns trace point values.
        (length values ≡ length columns) × ((c : ℕ) → c < length columns →
        IsPeriodicValue F.ops F.generators l embed (log_size trace) (slice_index_or columns c [])
        (from_line l point) (slice_index_or values c l.zero)) };

    /// The values of the columns at the points of `lde_domain` in natural order: the table's height
    /// is the longest period times how many times larger `lde_domain` is than the trace. Where
    /// `lde_domain` has more points than the group, only the table's height and width are promised.
    ///
    /// Requires that `lde_domain` is at least as large as the trace's domain, and of the latter
    /// `log_n < CIRCLE_TWO_ADICITY`. Refuses the first column that is empty, isn't of a power of
    /// two of entries, or is longer than the trace, then a table of more entries than `usize`
    /// counts; fails where memory is refused.
    fn eval_on_lde(
        alloc: Global,
        periodic_table: &[Vec<F>],
        trace_domain: &CircleDomain<F>,
        lde_domain: &CircleDomain<F>,
    ) -> Result<PeriodicLdeTable<F>, PeriodicError>
        requires larger { log_size trace_domain.now ≤ log_size lde_domain.now }
        requires in_group { log_size trace_domain.now < F.CIRCLE_TWO_ADICITY }
        ensures table { IfOk result (IsTableOn F.ops F.generators F.CIRCLE_TWO_ADICITY
            trace_domain.now lde_domain.now (columns_of periodic_table.now)) }
        ensures refusal { IfErr result (IsRefusedOn
            trace_domain.now lde_domain.now (columns_of periodic_table.now)) }
    {
        if periodic_table.is_empty() {
            return Ok(PeriodicLdeTable::empty());
        }
        let log_blowup = lde_domain.log_n() - trace_domain.log_n();
        let period = longest_period(periodic_table, CircleDomain::size(trace_domain))?;
        let height = checked_height(period, log_blowup, periodic_table.len())?;
        // The values of a constant are the constant, on any domain.
        if period == 1 {
            let constants = repeated_rows(alloc, periodic_table, height)?;
            return Ok(PeriodicLdeTable::new(constants));
        }
        let trace_log_n = trace_domain.log_n();
        let rows = extended_rows(
            alloc,
            periodic_table,
            period,
            height,
            trace_log_n,
            *lde_domain,
        )?;
        Ok(PeriodicLdeTable::new(rows))
    }

    /// The values of the columns at this point, in their order: 0 for a column without entries.
    ///
    /// Requires of each column what `evaluate_periodic_column_at` requires. Fails where memory is
    /// refused.
    fn eval_at_point<EF: ExtensionField<F>>(
        alloc: Global,
        periodic_table: &[Vec<F>],
        trace_domain: &CircleDomain<F>,
        point: EF,
    ) -> Result<Vec<EF>, AllocError>
        requires { OfEachColumn periodic_table.now (HasValueAt F.CIRCLE_TWO_ADICITY F.ops
            F.generators EF.ops EF.embed trace_domain.now point) }
        ensures count { IfOk result (λ values. length values.items ≡ length periodic_table.now) }
        ensures values { IfOk result (λ values. ArePeriodicValues F.ops F.generators EF.ops EF.embed
            (log_size trace_domain.now) (from_line EF.ops point) periodic_table.now values.items) }
    {
        let mut values = Vec::with_capacity(alloc, periodic_table.len())?;
        for column in periodic_table {
            values.push(trace_domain.evaluate_periodic_column_at(alloc, column, point)?)?;
        }
        Ok(values)
    }
}

/// The values of periodic columns of a trace at the points of `lde_domain` in natural order, as
/// [`CirclePeriodicEvaluator`] gives them, with the same conditions and refusals.
pub fn build_periodic_lde_table_circle<F: ComplexExtendable>(
    alloc: Global,
    periodic_table: &[Vec<F>],
    trace_domain: &CircleDomain<F>,
    lde_domain: &CircleDomain<F>,
) -> Result<PeriodicLdeTable<F>, PeriodicError>
    requires larger { log_size trace_domain.now ≤ log_size lde_domain.now }
    requires in_group { log_size trace_domain.now < F.CIRCLE_TWO_ADICITY }
    ensures table { IfOk result (IsTableOn F.ops F.generators F.CIRCLE_TWO_ADICITY
        trace_domain.now lde_domain.now (columns_of periodic_table.now)) }
    ensures refusal { IfErr result (IsRefusedOn
        trace_domain.now lde_domain.now (columns_of periodic_table.now)) }
{
    CirclePeriodicEvaluator::eval_on_lde(alloc, periodic_table, trace_domain, lde_domain)
}

// The greatest number of entries of a column.
fn longest_period<F: Field>(
    periodic_table: &[Vec<F>],
    trace_len: usize,
) -> Result<usize, PeriodicError>
    ensures fit { IfOk result (λ _.
        All (IsPeriod trace_len) (map length (columns_of periodic_table.now))) }
    ensures longest { IfOk result (λ period.
        period ≡ greatest (map length (columns_of periodic_table.now))) }
    ensures refusal { IfErr result
        (IsFirstFault trace_len (map length (columns_of periodic_table.now))) }
{
    let mut longest = 0;
    for column in periodic_table {
        check_period(column.len(), trace_len)?;
        longest = column.len().max(longest);
    }
    Ok(longest)
}

// Whether `period` entries repeat over `trace_len` rows.
fn check_period(period: usize, trace_len: usize) -> Result<(), PeriodicError>
    ensures fit { OnOk result (IsPeriod trace_len period) }
    ensures refusal { IfErr result (IsFault trace_len period) }
{
    if period == 0 {
        return Err(PeriodicError::Empty);
    }
    if !is_power_of_two(period) {
        return Err(PeriodicError::NotPowerOfTwo);
    }
    if period > trace_len {
        return Err(PeriodicError::LongerThanTrace);
    }
    Ok(())
}

// `period * 2^log_blowup`, where the entries of this many rows of `width` can be counted.
fn checked_height(period: usize, log_blowup: usize, width: usize) -> Result<usize, PeriodicError>
    requires period { 1 ≤ period }
    requires width { 1 ≤ width }
    ensures height { IfOk result (λ height. height ≡ period * 2 ^ log_blowup) }
    ensures counted { IfOk result (λ height. period * 2 ^ log_blowup * width < 2 ^ 64) }
    ensures refusal { IfErr result (λ e.
        (e ≡ HeightTooLarge) × (2 ^ 64 ≤ period * 2 ^ log_blowup * width)) }
{
    if log_blowup > 63 {
        return Err(PeriodicError::HeightTooLarge);
    }
    let height = period
        .checked_mul(1 << log_blowup)
        .ok_or(PeriodicError::HeightTooLarge)?;
    height
        .checked_mul(width)
        .ok_or(PeriodicError::HeightTooLarge)?;
    Ok(height)
}

// The values of the columns, of which the longest has `period` entries, on an extension of a trace
// of `2^trace_log_n` rows, as far as they differ: `height` rows.
fn extended_rows<F: ComplexExtendable>(
    alloc: Global,
    periodic_table: &[Vec<F>],
    period: usize,
    height: usize,
    trace_log_n: usize,
    lde_domain: CircleDomain<F>,
) -> Result<RowMajorMatrix<F>, AllocError>
    requires some { 1 ≤ length periodic_table.now }
    requires fit { All (IsPeriod (2 ^ trace_log_n)) (map length (columns_of periodic_table.now)) }
    requires longest { period ≡ greatest (map length (columns_of periodic_table.now)) }
    requires repeats { 2 ≤ period }
    requires height { height ≡ period * 2 ^ (log_size lde_domain - trace_log_n) }
    requires larger { trace_log_n ≤ log_size lde_domain }
    requires in_group { trace_log_n < F.CIRCLE_TWO_ADICITY }
    ensures width { IfOk result (λ made. width_of made ≡ length periodic_table.now) }
    ensures height { IfOk result (λ made. height_of made ≡ height) }
    ensures values { IfOk result (λ made. AreExtendedOn F.ops F.generators F.CIRCLE_TWO_ADICITY
        trace_log_n lde_domain (columns_of periodic_table.now) (rows made)) }
{
    let log_period = log2_strict(period);
    let log_blowup = lde_domain.log_n() - trace_log_n;
    // No domain has that many points, so there are no values that the rows could have to be.
    if log_blowup > F::CIRCLE_TWO_ADICITY - log_period {
        return repeated_rows(alloc, periodic_table, height);
    }
    let shift = lde_domain.shift().repeated_double(trace_log_n - log_period);
    let extension = CircleDomain::new(log_period + log_blowup, shift);
    let repeated = repeated_rows(alloc, periodic_table, period)?;
    let extended = CircleEvaluations::from_natural_order(
        CircleDomain::standard(log_period),
        repeated,
    ).extrapolate(alloc, extension)?;
    extended.to_natural_order().to_row_major_matrix(alloc)
}

// So many rows, in each the next entry of each column, which begins anew after its last.
fn repeated_rows<F: Field>(
    alloc: Global,
    columns: &[Vec<F>],
    height: usize,
) -> Result<RowMajorMatrix<F>, AllocError>
    requires some { 1 ≤ length columns.now }
    requires powers { All (λ column. IsPowerOfTwo (length column)) (columns_of columns.now) }
    ensures width { IfOk result (λ made. width_of made ≡ length columns.now) }
    ensures rows { IfOk result (λ made. rows made
        ≡ map (table_row F.ops.zero (columns_of columns.now)) (range_with_len 0 height)) }
{
    let mut values = Vec::with_capacity(alloc, entry_count(height, columns.len())?)?;
    for r in 0..height {
        append_row(&mut values, columns, r)?;
    }
    Ok(RowMajorMatrix::new(values, columns.len()))
}

// Appends the entry of each column at row `r` of its repetition.
fn append_row<F: Field>(values: &mut Vec<F>, columns: &[Vec<F>], r: usize) -> Result<(), AllocError>
    requires powers { All (λ column. IsPowerOfTwo (length column)) (columns_of columns.now) }
    ensures { OnOk result (values.new.items
        ≡ values.old.items ++ table_row F.ops.zero (columns_of columns.now) r) }
{
    for column in columns {
        values.push(column[r & (column.len() - 1)])?;
    }
    Ok(())
}
