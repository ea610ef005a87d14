//! The calls of matrices and of values on a domain that allocate nothing.
use crate::plane::{Domain, Rows, butterflies, elements};
use crate::told::{Stage, Told, digest, low_bits, told_numbers, unfit, with_number};
use anyhow::Result;
use circle_commit::{
    Matrix, PeriodicLdeTable, RowMajorMatrix, RowMajorMatrixView, entry_count, is_power_of_two,
};
use circle_field::Mersenne31;
use p3_circle::{CfftPermutable, CircleEvaluations, first_rows};
use std::alloc::Global;

// The number that the rows of a matrix come to.
fn of_rows<M: Matrix<Mersenne31>>(rows: &M) -> u32 {
    let mut sum = 0;
    for r in 0..rows.height() {
        sum = with_number(sum, digest(rows.row(r)));
    }
    sum
}

// The rows that these are split into, and those of a view.
fn of_parts(rows: &Rows) -> Result<[u32; 3]> {
    if rows.height() < 2 {
        return unfit("there are too few rows");
    }
    let (first, others) = rows.split_rows(2);
    let Some(view) = RowMajorMatrixView::try_new(rows.values(), 2) else {
        return unfit("the entries are no rows of two");
    };
    Ok([of_rows(&first), of_rows(&others), of_rows(&view)])
}

// The rows in the other order, from one order of a domain to the other and back.
fn of_orders(domain: Domain, rows: Rows) -> Result<u32> {
    if domain.log_n() > 31 || rows.height() != domain.size() {
        return unfit("there is not one row for each point");
    }
    let natural = CircleEvaluations::from_natural_order(domain, rows).to_cfft_order();
    if natural.height() != domain.size() {
        return unfit("there is not one row for each point");
    }
    let values = CircleEvaluations::from_cfft_order(domain, natural);
    Ok(of_rows(&values.to_natural_order()))
}

// The rows in the other order.
fn of_permuted(rows: Rows) -> Result<u32> {
    if !is_power_of_two(rows.height()) {
        return unfit("the height is no power of two");
    }
    Ok(of_rows(&rows.cfft_perm_rows()))
}

// The first rows in the transform's order, two of them.
fn of_first(domain: Domain, rows: &Rows) -> Result<u32> {
    if domain.log_n() == 0 || domain.log_n() > 31 || rows.height() != domain.size() {
        return unfit("there is not one row for each point");
    }
    Ok(of_rows(&first_rows(domain, rows, 1).to_cfft_order()))
}

// An entry of the table of these rows.
fn of_table(rows: Rows) -> Result<u32> {
    let table = PeriodicLdeTable::new(rows);
    if table.width() == 0 || table.height() == 0 {
        return unfit("the table is empty");
    }
    Ok(table.get(5, 0).value())
}

/// Those calls.
pub fn matrices(alloc: Global, stage: Stage) -> Result<Told> {
    let (rows, others) = (elements(alloc, 8)?, elements(alloc, 8)?);
    let (permuted, table) = (elements(alloc, 8)?, elements(alloc, 8)?);
    let counted = butterflies(alloc)?;
    stage.begin()?;
    let Some(rows) = RowMajorMatrix::try_new(rows, 2) else {
        return unfit("the entries are no rows of two");
    };
    let [first, second, view] = of_parts(&rows)?;
    let column = RowMajorMatrix::new_col(others);
    let begun = of_first(Domain::standard(3), &column)?;
    let no_columns = PeriodicLdeTable::<Mersenne31>::empty().width();
    Ok(told_numbers(&[
        first,
        second,
        view,
        low_bits(rows.width()),
        begun,
        low_bits(no_columns),
        of_orders(Domain::standard(3), column)?,
        of_permuted(RowMajorMatrix::new_col(permuted))?,
        of_table(RowMajorMatrix::new_col(table))?,
        digest(rows.into_values().as_slice()),
        low_bits(entry_count(3, 4)?),
        u32::from(counted.count() == 1),
    ]))
}
