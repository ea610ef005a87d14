//! Sums of a matrix's columns by weights of its rows.
use circle_commit::{FieldMatrix, Matrix, RowMajorMatrix};
use circle_field::{Cubic, ExtensionField, Field, Mersenne31};
use std::alloc::{AllocError, Global};
use std::process::Abort;
use std::test::Fail;

fn cubic(c0: u64, c1: u64) -> Cubic {
    let coeffs = [
        Mersenne31::from_u64(c0),
        Mersenne31::from_u64(c1),
        Mersenne31::ZERO,
    ];
    Cubic::from_coefficients(&coeffs)
}

// The rows 1 2, 3 4 and 5 6.
fn three_rows(alloc: Global) -> Result<RowMajorMatrix<Mersenne31>, AllocError> {
    let mut values = Vec::new(alloc);
    for n in [1, 2, 3, 4, 5, 6] {
        values.push(Mersenne31::from_u64(n))?;
    }
    if values.len() != 6 {
        return Err(AllocError);
    }
    Ok(RowMajorMatrix::new(values, 2))
}

// Asserts that the lists have these entries.
fn assert_lists(rt: &impl Abort, lists: &[Vec<Cubic>], expected: &[[Cubic; 2]]) {
    assert_eq!(rt; lists.len(), expected.len());
    for (list, entries) in lists.iter().zip(expected) {
        assert_eq!(rt; list.as_slice(), entries.as_slice());
    }
}

#[test]
fn sums_of_columns_by_a_list_of_weights(rt: HostRuntime) -> Result<(), Fail> {
    let matrix = three_rows(rt.alloc())?;
    assert_eq!(rt; matrix.height(), 3);
    let powers = [cubic(1, 0), cubic(10, 0), cubic(100, 0)];
    let sums = matrix.columnwise_dot_product(rt.alloc(), &powers)?;
    assert_eq!(rt; sums.as_slice(), [cubic(531, 0), cubic(642, 0)].as_slice());
    Ok(())
}

#[test]
fn sums_of_columns_by_two_lists_of_weights(rt: HostRuntime) -> Result<(), Fail> {
    let matrix = three_rows(rt.alloc())?;
    assert_eq!(rt; matrix.height(), 3);
    let powers = [cubic(1, 0), cubic(10, 0), cubic(100, 0)];
    let others = [cubic(0, 1), cubic(0, 0), cubic(2, 0)];
    let by_powers = [cubic(531, 0), cubic(642, 0)];
    let by_others = [cubic(10, 1), cubic(12, 2)];
    let both = matrix.columnwise_dot_products(rt.alloc(), &[&powers, &others])?;
    assert_lists(&rt, &both, &[by_powers, by_others]);
    Ok(())
}
