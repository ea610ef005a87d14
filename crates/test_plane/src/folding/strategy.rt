//! The folds by x as a strategy.
use super::rows_of_two;
use crate::transform::MEMORY;
use circle_commit::{FriFoldingStrategy, Matrix, RowMajorMatrix};
use circle_field::{Cubic, ExtensionField, Field, Mersenne31};
use circle_folding::CircleFriFolding;
use circle_point::Point;
use std::alloc::Global;
use std::process::Abort;
use test_schemes::expect;

// How many further bits of an index any strategy takes.
fn bits<S: FriFoldingStrategy<Mersenne31, Cubic>>(strategy: &S) -> usize {
    strategy.extra_query_index_bits()
}

// The fold of the only pair of a codeword by any strategy.
fn fold_of<S: FriFoldingStrategy<Mersenne31, Cubic>>(
    strategy: &S,
    beta: Cubic,
    pair: [Cubic; 2],
) -> Cubic
    requires { S.fold_row_asks strategy.now 0 0 1 }
{
    strategy.fold_row(0, 0, 1, beta, pair)
}

// The folds of `2^log_height` rows, after a test of what is required.
fn folds_of(
    rt: &impl Abort,
    alloc: Global,
    beta: Cubic,
    log_height: usize,
    rows: RowMajorMatrix<Cubic>,
) -> Vec<Cubic> {
    assert!(rt; log_height <= 20 && rows.width() == 2 && rows.height() == 1 << log_height);
    let folds = <CircleFriFolding as FriFoldingStrategy<Mersenne31, Cubic>>::fold_matrix(
        &CircleFriFolding,
        alloc,
        beta,
        1,
        rows,
    );
    folds.expect(rt, MEMORY)
}

// The values of 3 + x at `t` and `-t`, the two x coordinates of a codeword of two entries.
fn pair() -> [Cubic; 2] {
    let t = Cubic::from_base(Point::<Mersenne31>::generator(3).x());
    [Cubic::from_u64(3) + t, Cubic::from_u64(3) - t]
}

#[test]
fn a_pair_folds_to_the_value_at_the_challenge(rt: HostRuntime) {
    let (beta, five) = (Cubic::from_u64(2), Cubic::from_u64(5));
    expect!(&rt; fold_of(&CircleFriFolding, beta, pair()) == five);
    let entries = Vec::from_slice(rt.alloc(), &pair()).expect(&rt, MEMORY);
    let folded = folds_of(&rt, rt.alloc(), beta, 0, rows_of_two(&rt, entries));
    expect!(&rt; folded.as_slice() == [five].as_slice());
}

#[test]
fn a_constant_of_many_pairs_folds_to_itself(rt: HostRuntime) {
    let seven = Cubic::from_u64(7);
    let entries = vec![in rt.alloc(); seven; 1 << 14].expect(&rt, MEMORY);
    let rows = rows_of_two(&rt, entries);
    let folded = folds_of(&rt, rt.alloc(), Cubic::from_u64(3), 13, rows);
    expect!(&rt; folded.len() == 1 << 13);
    for entry in &folded {
        expect!(&rt; *entry == seven);
    }
}

#[test]
fn one_further_bit(rt: HostRuntime) {
    expect!(rt; bits(&CircleFriFolding) == 1);
}
