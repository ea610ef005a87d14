//! The calls on rows and entries of codewords.
use crate::plane::cubic;
use crate::told::{Stage, Told, digest, low_bits, told_numbers, unfit};
use anyhow::Result;
use circle_commit::FriFoldingStrategy;
use circle_field::{Cubic, Field, Mersenne31};
use p3_circle::{CircleFriFolding, Point, deep_quotient_reduce_row, fold_x_row, x_value};

// The folds of a pair, by the call and by the strategy.
fn of_folds(beta: Cubic, pair: [Cubic; 2]) -> [Cubic; 2] {
    let folded = <CircleFriFolding as FriFoldingStrategy<Mersenne31, Cubic>>::fold_row(
        &CircleFriFolding,
        1,
        2,
        1,
        beta,
        pair,
    );
    [fold_x_row::<Mersenne31, Cubic>(1, 2, 1, beta, pair), folded]
}

// How many further bits of an index the strategy takes.
fn further_bits() -> usize {
    <CircleFriFolding as FriFoldingStrategy<Mersenne31, Cubic>>::extra_query_index_bits(
        &CircleFriFolding,
    )
}

// The value of a final polynomial, and the quotient of a row under a claim.
fn of_claims(alpha: Cubic, values: [Cubic; 2]) -> Option<[Cubic; 2]> {
    let zeta = Point::from_projective_line(cubic([0, 1, 0]))?;
    let row = [Mersenne31::ONE; 2];
    let point = Point::<Mersenne31>::generator(4);
    Some([
        x_value(&values, Mersenne31::TWO),
        deep_quotient_reduce_row(alpha, &values, point, zeta, &row, &values)?,
    ])
}

/// Those calls.
pub fn codewords(stage: Stage) -> Result<Told> {
    stage.begin()?;
    let values = [cubic([2, 7, 1]), cubic([8, 2, 8])];
    let folds = of_folds(cubic([3, 1, 4]), values);
    let Some(claims) = of_claims(cubic([1, 5, 9]), values) else {
        return unfit("a value is none");
    };
    Ok(told_numbers(&[digest(&folds), digest(&claims), low_bits(further_bits())]))
}
