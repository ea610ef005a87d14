//! Calls on codewords.
ghost use Rattle.std.specs.Prelude.{◌≡◌, ◌≤◌, ◌^◌, IfOk};
ghost use Rattle.circle_commit.specs.RowMajorMatrix.{height_of, width_of};

use crate::plane::cubic;
use crate::told::{Stage, Told, digest, shown, told, unfit};
use anyhow::Result;
use circle_commit::{Matrix, RowMajorMatrix};
use circle_field::{Cubic, Mersenne31};
use p3_circle::{extract_lambda, fold_x, fold_y};
use std::alloc::{AllocError, Global};

// A codeword of this many entries.
fn word(alloc: Global, count: u64) -> Result<Vec<Cubic>, AllocError> {
    let mut word = Vec::new(alloc);
    for i in 0..count {
        word.push(cubic([i, 1, i]))?;
    }
    Ok(word)
}

// What is taken out of a codeword.
fn taken(alloc: Global, stage: Stage, word: &mut [Cubic], log_size: usize) -> Result<u32> {
    if log_size < 2 || log_size > 8 || word.len() != 1 << log_size {
        return unfit("the length is none for the blowup");
    }
    stage.begin()?;
    let lambda = extract_lambda::<Mersenne31, Cubic>(alloc, word, 1)?;
    Ok(digest(&[lambda]))
}

/// `extract_lambda`, with the codeword that it leaves.
pub fn lambda(alloc: Global, stage: Stage, log_size: usize) -> Result<Told> {
    let mut word = word(alloc, 8)?;
    let answer = shown(taken(alloc, stage, &mut word, log_size));
    Ok(Told::of(format_args!("{}, left {}", answer.as_str(), digest(&word))))
}

// Codewords of two entries a row.
type Pairs = RowMajorMatrix<Cubic>;

// Rows of two, as many as this power of two.
fn pairs(alloc: Global, log_height: usize) -> Result<Pairs>
    ensures small { IfOk result (λ _. log_height ≤ 8) }
    ensures width { IfOk result (λ rows. width_of rows ≡ 2) }
    ensures height { IfOk result (λ rows. height_of rows ≡ 2 ^ log_height) }
{
    let entries = word(alloc, 16)?;
    if entries.len() % 2 != 0 {
        return unfit("the rows are no pairs");
    }
    let rows = RowMajorMatrix::new(entries, 2);
    if log_height > 8 || rows.width() != 2 || rows.height() != 1 << log_height {
        return unfit("the rows are no pairs, or their number another power of two");
    }
    Ok(rows)
}

/// `fold_y`.
pub fn by_y(alloc: Global, stage: Stage, log_height: usize) -> Result<Told> {
    let rows = pairs(alloc, log_height)?;
    let beta = cubic([3, 1, 4]);
    stage.begin()?;
    let folded = fold_y::<Mersenne31, Cubic, Pairs>(alloc, beta, &rows)?;
    Ok(told(digest(&folded)))
}

/// `fold_x`.
pub fn by_x(alloc: Global, stage: Stage, log_height: usize) -> Result<Told> {
    let rows = pairs(alloc, log_height)?;
    let beta = cubic([3, 1, 4]);
    stage.begin()?;
    let folded = fold_x::<Mersenne31, Cubic, Pairs>(alloc, beta, 1, &rows)?;
    Ok(told(digest(&folded)))
}
