//! A trace with its public values.
use circle_commit::RowMajorMatrix;

/// The rows of a trace, and the public values that belong to them.
#[derive(Drop)]
pub struct Trace<F> {
    /// The rows, a column for each of the AIR's.
    pub rows: RowMajorMatrix<F>,
    /// The public values.
    pub public_values: Vec<F>,
}
