//! Matrices that are opened, with the parameters under which each leaves something to fold.
ghost use Rattle.std.specs.Prelude.{◌+◌, ◌≤◌, length, All};

use circle_codewords::OpenedMatrix;
use circle_commit::FriParameters;
use circle_field::Operations;
use circle_relation::OverCircle;

/// Matrices that are opened under parameters that leave each something to fold.
#[derive(Drop)]
pub(crate) struct FoldableMatrices<'a, F: Copy, EF: OverCircle<F> + Operations, M> {
    /// The parameters, with the commitment scheme of the codewords.
    pub params: &'a FriParameters<M>,
    /// The matrices, at least one.
    pub matrices: &'a [OpenedMatrix<'a, F, EF>],
    pub ghost blowup: { 1 ≤ params.now.log_blowup },
    pub ghost some: { 1 ≤ length matrices.now },
    pub ghost tall: { All (λ m.
        params.now.log_blowup + params.now.log_final_poly_len + 2 ≤ m.log_height) matrices.now },
}
