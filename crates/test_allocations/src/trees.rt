//! A call on a Merkle tree.
use crate::plane::column;
use crate::told::{Stage, Told, told, unfit};
use anyhow::Result;
use circle_commit::{Dimensions, Matrix, Mmcs, are_below, heights_are_powers_of_two};
use circle_field::Mersenne31;
use circle_merkle::ShaMmcs;
use std::alloc::Global;

/// The rows of the column that are opened.
const INDICES: [usize; 3] = [7, 2, 7];

/// `Mmcs::verify_multi_batch` of rows of a column.
pub fn verdict(alloc: Global, stage: Stage) -> Result<Told> {
    let trees = ShaMmcs::<Mersenne31>::new();
    let matrices = vec![in alloc; column(alloc, 8)?]?;
    if matrices.is_empty() || !heights_are_powers_of_two(&matrices) {
        return unfit("a height is no power of two");
    }
    let (commitment, data) = trees.commit(alloc, matrices)?;
    if !are_below(&INDICES, trees.get_max_height(&data)) {
        return unfit("there is no such row");
    }
    let (rows, proof) = trees.open_multi_batch(alloc, &INDICES, &data)?;
    stage.begin()?;
    let shapes = [Dimensions {
        width: 1,
        height: 8,
    }];
    trees.verify_multi_batch(alloc, &commitment, &shapes, &INDICES, &rows, &proof)?;
    Ok(told("accepted"))
}
