//! Whether opened rows have the form of rows of a commitment.
ghost use Rattle.std.specs.Prelude.{◌≡◌, ℕ, ◌+◌, ◌*◌, ◌/◌, ◌<◌, ◌≤◌, ◌==◌, ◌↔◌, List, length, map};
ghost use Rattle.std.specs.Prelude.{All, IsTrue, vec_len};
ghost use Rattle.circle_commit.specs.Matrix.{IsPowerOfTwo};
ghost use Rattle.circle_commit.specs.Mmcs.{greatest, heights, opened_rows};
ghost use Rattle.circle_merkle.specs.Authentication.{HasShape, HasIndices, Agrees};
ghost use Rattle.circle_merkle.specs.Order.{IsOrdered};
ghost use Rattle.circle_merkle.specs.SamePosition.{NeighborsAgree};

use circle_commit::{Dimensions, is_power_of_two};
use circle_field::Field;

/// The greatest of the heights, 0 where there are no shapes.
pub fn greatest_height(dimensions: &[Dimensions]) -> usize
    ensures { result ≡ greatest (heights dimensions.now) }
{
    let mut top = 0;
    for dim in dimensions {
        top = dim.height.max(top);
    }
    top
}

// Whether every height is a power of two.
fn are_powers_of_two(dimensions: &[Dimensions]) -> bool
    ensures { IsTrue result ↔ All (λ dim. IsPowerOfTwo dim.height) dimensions.now }
{
    for dim in dimensions {
        if !is_power_of_two(dim.height) {
            return false;
        }
    }
    true
}

// Whether there is one row for each shape, of its width.
fn fit<T>(dimensions: &[Dimensions], rows: &[Vec<T>]) -> bool
    ensures { IsTrue result ↔ (map length (map (λ row. row.items) rows.now)
        ≡ map (λ dim. dim.width) dimensions.now) }
{
    if rows.len() != dimensions.len() {
        return false;
    }
    for j in 0..dimensions.len() {
        if rows[j].len() != dimensions[j].width {
            return false;
        }
    }
    true
}

/// Whether there are shapes, their heights are powers of two, and each list of rows has one row for
/// each of them, of its width.
pub fn has_shape<T>(dimensions: &[Dimensions], opened: &[Vec<Vec<T>>]) -> bool
    ensures { IsTrue result ↔ HasShape dimensions.now (opened_rows opened.now) }
{
    if dimensions.is_empty() || !are_powers_of_two(dimensions) {
        return false;
    }
    for rows in opened {
        if !fit(dimensions, rows) {
            return false;
        }
    }
    true
}

/// Whether there are indices, each below the greatest height and with its rows.
pub fn has_indices<T>(
    dimensions: &[Dimensions],
    indices: &[usize],
    opened: &[Vec<Vec<T>>],
    top: usize,
) -> bool
    requires { top ≡ greatest (heights dimensions.now) }
    ensures { IsTrue result ↔ HasIndices dimensions.now indices.now (opened_rows opened.now) }
{
    if indices.is_empty() || opened.len() != indices.len() {
        return false;
    }
    for index in indices {
        if *index >= top {
            return false;
        }
    }
    true
}

// Whether two rows have the same entries.
fn same_row<T: Field>(row: &[T], other: &[T]) -> bool
    ensures { IsTrue result ↔ (row.now ≡ other.now) }
{
    row == other
}

// Whether the rows of matrix `j` agree at neighboring indices that stand for one row of it.
fn column_agrees<T: Field>(
    order: &[(usize, usize)],
    opened: &[Vec<Vec<T>>],
    j: usize,
    divisor: usize,
) -> bool
    requires divisor { 1 ≤ divisor }
    requires places { All (λ entry. entry.1 < length opened.now) order.now }
    requires whole { All (λ rows. j < vec_len rows) opened.now }
    ensures { IsTrue result ↔ ((k : ℕ) → k + 1 < length order.now
        → NeighborsAgree order.now (opened_rows opened.now) divisor j k) }
{
    for k in 1..order.len() {
        let ((index, place), (next, next_place)) = (order[k - 1], order[k]);
        if index / divisor == next / divisor
            && !same_row(&opened[place][j], &opened[next_place][j])
        {
            return false;
        }
    }
    true
}

/// Whether the rows of one matrix at one position are equal.
///
/// Takes the indices in ascending order with their places.
pub fn agrees<T: Field>(
    dimensions: &[Dimensions],
    order: &[(usize, usize)],
    opened: &[Vec<Vec<T>>],
    top: usize,
) -> bool
    requires greatest { top ≡ greatest (heights dimensions.now) }
    requires shape { HasShape dimensions.now (opened_rows opened.now) }
    requires places { All (λ entry. entry.1 < length opened.now) order.now }
    ensures { (indices : List ℕ) → IsOrdered indices order.now
        → IsTrue result ↔ Agrees dimensions.now indices (opened_rows opened.now) }
{
    for j in 0..dimensions.len() {
        if !column_agrees(order, opened, j, top / dimensions[j].height) {
            return false;
        }
    }
    true
}
