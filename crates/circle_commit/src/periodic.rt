//! Columns that repeat over a domain, and their values on an extension of it.
ghost use Rattle.std.specs.Prelude.{◌≡◌, ◌≤◌, ◌<◌, List, [], Some, IfOk, IfErr};
ghost use Rattle.circle_field.specs.Field.{FieldOps};
ghost use Rattle.circle_commit.specs.PeriodicLdeTable.{columns_of};
ghost use Rattle.circle_commit.specs.declared.periodic.PeriodicLdeTable.{PeriodicLdeTable};

use crate::matrix::{Matrix, RowMajorMatrix};
use crate::space::PolynomialSpace;
use circle_field::{ExtensionField, Field};
use std::alloc::{AllocError, Global};

/// The values of periodic columns at the points of an extension of the trace's domain, in its
/// order: a column of the table for each. They repeat, so the table has only as many rows as
/// differ.
#[derive(Drop)]
pub struct PeriodicLdeTable<T> {
    // Without columns there is no matrix.
    values: Option<RowMajorMatrix<T>>,
}

impl<T: Copy> PeriodicLdeTable<T> {
    ghost use Rattle.circle_commit.specs.PeriodicLdeTable.{rows, width_of, height_of, entry_at};
    ghost use Rattle.circle_commit.specs.RowMajorMatrix.{rows as matrix_rows, width_of as matrix_width, height_of as matrix_height};

    /// The table with these rows, a column for each periodic column.
    pub fn new(values: RowMajorMatrix<T>) -> Self
        ensures width { width_of result ≡ matrix_width values }
        ensures height { height_of result ≡ matrix_height values }
        ensures rows { rows result ≡ matrix_rows values }
    {
        PeriodicLdeTable {
            values: Some(values),
        }
    }

    /// The table of no columns.
    pub fn empty() -> Self
        ensures width { width_of result ≡ 0 }
        ensures height { height_of result ≡ 0 }
        ensures rows { rows result ≡ [] }
    {
        PeriodicLdeTable { values: None }
    }

    /// The number of columns.
    pub fn width(&self) -> usize
        ensures { result ≡ width_of self.now }
    {
        match &self.values {
            Some(matrix) => matrix.width(),
            None => 0,
        }
    }

    /// The number of rows after which the values repeat.
    pub fn height(&self) -> usize
        ensures { result ≡ height_of self.now }
    {
        match &self.values {
            Some(matrix) => matrix.height(),
            None => 0,
        }
    }

    /// The value of column `c` at point `i` of the extension, which stands in row `i` modulo the
    /// height.
    ///
    /// Requires `c < width` and a table of at least one row.
    pub fn get(&self, i: usize, c: usize) -> T
        requires column { c < width_of self.now }
        requires nonempty { 1 ≤ height_of self.now }
        ensures { entry_at self.now i c ≡ Some result }
    {
        match &self.values {
            Some(matrix) => matrix.row(i % matrix.height())[c],
            None => unreachable!(),
        }
    }
}

/// How the columns of a trace that repeat are evaluated.
pub trait PeriodicEvaluator<F: Field, D: PolynomialSpace> {
    /// Why columns are refused.
    type Error;

    ghost eval_on_lde_asks: { D → D → Type 0 };

    ghost eval_on_lde_gives: { List (List F) → D → D → PeriodicLdeTable F → Type 0 };

    ghost eval_on_lde_refuses: { List (List F) → D → D → Self.Error → Type 0 };

    ghost eval_at_point_asks: { (E : Type 0) → FieldOps E → (F → E) → List (List F) → D → E
        → Type 0 };

    ghost eval_at_point_gives: { (E : Type 0) → FieldOps E → (F → E) → List (List F) → D → E
        → List E → Type 0 };

    /// The values of the columns on an extension of the trace's domain.
    fn eval_on_lde(
        alloc: Global,
        periodic_table: &[Vec<F>],
        trace_domain: &D,
        lde_domain: &D,
    ) -> Result<PeriodicLdeTable<F>, Self::Error>
        requires { eval_on_lde_asks trace_domain.now lde_domain.now }
        ensures table { IfOk result (λ table. eval_on_lde_gives (columns_of periodic_table.now)
            trace_domain.now lde_domain.now table) }
        ensures refusal { IfErr result (λ e. eval_on_lde_refuses (columns_of periodic_table.now)
            trace_domain.now lde_domain.now e) };

    /// The values of the columns at one point, in their order. Fails where memory is refused.
    fn eval_at_point<EF: ExtensionField<F>>(
        alloc: Global,
        periodic_table: &[Vec<F>],
        trace_domain: &D,
        point: EF,
    ) -> Result<Vec<EF>, AllocError>
        requires { eval_at_point_asks EF EF.ops EF.embed (columns_of periodic_table.now)
            trace_domain.now point }
        ensures { IfOk result (λ values. eval_at_point_gives EF EF.ops EF.embed
            (columns_of periodic_table.now) trace_domain.now point values.items) };
}
