//! The fold of a pair, and the folds by x as a strategy.
use circle_commit::RowMajorMatrix;
use circle_field::{Cubic, Field, Mersenne31};
use circle_folding::fold_row_with_inv_twiddle;
use std::process::Abort;
use test_schemes::expect;

mod strategy;

fn element(value: u64) -> Mersenne31 {
    Mersenne31::from_u64(value)
}

#[test]
fn the_fold_of_a_pair(rt: HostRuntime) {
    let folded = fold_row_with_inv_twiddle(element(1), element(3), element(10), element(4));
    expect!(&rt; folded == element(16));
}

// The rows of two that these entries make up.
fn rows_of_two(rt: &impl Abort, entries: Vec<Cubic>) -> RowMajorMatrix<Cubic> {
    assert!(rt; entries.len() % 2 == 0);
    RowMajorMatrix::new(entries, 2)
}
