//! A trace's rows on the quotient's domain.
ghost use Rattle.std.specs.Prelude.{◌≡◌, ◌≤◌, ◌+◌, ◌^◌};

use circle_commit::MatrixShape;

/// The rows of a trace on the domain of its quotient, which has `2^log_num_chunks` times as many
/// points as the trace has rows, and what constraints read besides.
///
/// Both logarithms are at least 1, and there are `2^(log_n + log_num_chunks)` rows.
pub struct ExtendedTrace<'a, F, M: MatrixShape> {
    /// The values of the trace's columns at the points of the quotient's domain, in natural order.
    pub rows: &'a M,
    /// The binary logarithm of the number of rows of the trace itself.
    pub log_n: usize,
    /// The binary logarithm of the number of chunks of the quotient.
    pub log_num_chunks: usize,
    /// The public values.
    pub public_values: &'a [F],
    ghost positive: { 1 ≤ log_n },
    ghost some_chunks: { 1 ≤ log_num_chunks },
    ghost height: { M.height rows.now ≡ 2 ^ (log_n + log_num_chunks) },
}

impl<F, M: MatrixShape> Drop for ExtendedTrace<'_, F, M> {
    fn drop(self) {
        let ExtendedTrace {
            rows: _,
            log_n: _,
            log_num_chunks: _,
            public_values: _,
        } = self;
    }
}
