//! Matrices and views at concrete types.
ghost use Rattle.std.specs.Prelude.{◌-◌};

use circle_commit::{
    Matrix, PeriodicLdeTable, RowIndexMap, RowIndexMappedView, RowMajorMatrix, RowMajorMatrixView,
};
use std::alloc::{AllocError, Global};
use std::process::Abort;
use std::test::Fail;

mod columns;

// The rows 0 1, 2 3, 4 5 and 6 7.
fn four_rows(alloc: Global) -> Result<RowMajorMatrix<u32>, AllocError> {
    let values = vec![in alloc; 0, 1, 2, 3, 4, 5, 6, 7]?;
    RowMajorMatrix::try_new(values, 2).ok_or(AllocError)
}

// The rows of any matrix, one after another.
fn entries<M: Matrix<u32>>(alloc: Global, matrix: &M) -> Result<Vec<u32>, AllocError> {
    let mut all = Vec::new(alloc);
    for r in 0..matrix.height() {
        all.extend_from_slice(matrix.row(r))?;
    }
    Ok(all)
}

// Asserts the shape of any matrix, and its entries row after row.
fn assert_matrix<M: Matrix<u32>>(
    rt: &impl Abort,
    alloc: Global,
    matrix: &M,
    shape: (usize, usize),
    expected: &[u32],
) -> Result<(), AllocError> {
    assert_eq!(rt; (matrix.width(), matrix.height()), shape);
    assert_entries(rt, &entries(alloc, matrix)?, expected);
    Ok(())
}

fn assert_entries(rt: &impl Abort, found: &[u32], expected: &[u32]) {
    assert_eq!(rt; found, expected);
}

// The number of the first rows, their entries, and the others' entries.
const SPLITS: &[(usize, &[u32], &[u32])] = &[
    (0, &[], &[0, 1, 2, 3, 4, 5, 6, 7]),
    (1, &[0, 1], &[2, 3, 4, 5, 6, 7]),
    (4, &[0, 1, 2, 3, 4, 5, 6, 7], &[]),
];

#[derive(Drop)]
struct Reversed(usize);

impl RowIndexMap for Reversed {
    ghost height = { λ m. m.0 };

    ghost map_row_index = { λ m r. m.0 - 1 - r };

    fn height(&self) -> usize {
        self.0
    }

    fn map_row_index(&self, r: usize) -> usize {
        self.0 - 1 - r
    }
}

#[test]
fn splits_rows(rt: HostRuntime) -> Result<(), Fail> {
    let matrix = four_rows(rt.alloc())?;
    assert_eq!(rt; matrix.height(), 4);
    for (rows, first, others) in SPLITS {
        assert!(rt; *rows <= matrix.height());
        let (upper, lower) = matrix.split_rows(*rows);
        assert_matrix(&rt, rt.alloc(), &upper, (2, *rows), first)?;
        assert_matrix(&rt, rt.alloc(), &lower, (2, 4 - *rows), others)?;
    }
    Ok(())
}

#[test]
fn one_column(rt: HostRuntime) -> Result<(), Fail> {
    let column = RowMajorMatrix::new_col(vec![in rt.alloc(); 5u32, 6, 7]?);
    assert_matrix(&rt, rt.alloc(), &column, (1, 3), &[5, 6, 7])?;
    assert!(rt; 2 < column.height());
    assert_entries(&rt, column.row(2), &[7]);
    assert_entries(&rt, column.values(), &[5, 6, 7]);
    assert_entries(&rt, &column.into_values(), &[5, 6, 7]);
    Ok(())
}

#[test]
fn a_mapped_view_of_a_part(rt: HostRuntime) -> Result<(), Fail> {
    let alloc = rt.alloc();
    let matrix = four_rows(alloc)?;
    assert_eq!(rt; matrix.height(), 4);
    let (_, inner) = matrix.split_rows(2);
    let index_map = Reversed(inner.height());
    let view = RowIndexMappedView { index_map, inner };
    assert_matrix(&rt, alloc, &view, (2, 2), &[6, 7, 4, 5])?;
    let stored = view.to_row_major_matrix::<u32>(alloc)?;
    assert_matrix(&rt, alloc, &stored, (2, 2), &[6, 7, 4, 5])?;
    Ok(())
}

#[test]
fn a_view_of_a_slice(rt: HostRuntime) -> Result<(), Fail> {
    let view = RowMajorMatrixView::new(&[1u32, 2, 3, 4, 5, 6], 3);
    assert_matrix(&rt, rt.alloc(), &view, (3, 2), &[1, 2, 3, 4, 5, 6])?;
    assert!(rt; RowMajorMatrixView::try_new(&[1u32, 2, 3], 2).is_none());
    Ok(())
}

// Rows and columns of the table of the four rows, and its entries there.
const PERIODIC_ENTRIES: &[(usize, usize, u32)] = &[
    (0, 0, 0),
    (2, 1, 5),
    (4, 0, 0),
    (7, 1, 7),
    (4_000_000_001, 1, 3),
];

#[test]
fn a_periodic_table_repeats_its_rows(rt: HostRuntime) -> Result<(), Fail> {
    let table = PeriodicLdeTable::new(four_rows(rt.alloc())?);
    assert_eq!(rt; (table.width(), table.height()), (2, 4));
    for (row, column, entry) in PERIODIC_ENTRIES {
        assert!(rt; *column < table.width());
        assert_eq!(rt; table.get(*row, *column), *entry, "at {row}");
    }
    Ok(())
}
