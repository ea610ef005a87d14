//! The rows of a standard domain that go to one of its parts.
ghost use Rattle.std.specs.Prelude.{◌≡◌, ℕ, ◌+◌, ◌*◌, ◌/◌, ◌^◌, ◌<◌, IfOk};
ghost use Rattle.circle_commit.specs.Matrix.{mapped_rows};
ghost use Rattle.circle_commit.specs.RowMajorMatrix.{rows, width_of, height_of};
ghost use Rattle.circle_domain.specs.Splitting.{place_of};

use circle_commit::{Matrix, RowMajorMatrix};
use circle_field::Field;
use std::alloc::{AllocError, Global};

// The rows that go to a part, in order.
pub(crate) fn rows_of_part<F: Field>(
    alloc: Global,
    evals: &RowMajorMatrix<F>,
    num_chunks: usize,
    part: usize,
) -> Result<RowMajorMatrix<F>, AllocError>
    requires in_range { part < num_chunks }
    requires whole { (m : ℕ) × (height_of evals.now ≡ m * (2 * num_chunks)) }
    ensures width { IfOk result (λ chunk. width_of chunk ≡ width_of evals.now) }
    ensures rows { IfOk result (λ chunk. rows chunk ≡ mapped_rows
        (place_of num_chunks part) (height_of evals.now / num_chunks) (rows evals.now)) }
{
    let mut values = Vec::with_capacity(alloc, evals.values().len() / num_chunks)?;
    for r in 0..evals.height() / num_chunks {
        values.extend_from_slice(evals.row(row_in_whole(num_chunks, part, r)))?;
    }
    Ok(RowMajorMatrix::new(values, evals.width()))
}

// The row of the whole that stands at row `r` of a part: rows go to the parts
// `0 1 .. last last .. 1 0 0 1 ..`.
fn row_in_whole(num_chunks: usize, part: usize, r: usize) -> usize
    requires in_range { part < num_chunks }
    requires fits { (r / 2 + 1) * (2 * num_chunks) < 2 ^ 64 }
    ensures { result ≡ place_of num_chunks part r }
{
    let turn = r / 2 * (2 * num_chunks);
    if r % 2 == 0 {
        turn + part
    } else {
        turn + (2 * num_chunks - 1 - part)
    }
}
