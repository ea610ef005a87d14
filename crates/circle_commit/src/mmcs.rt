//! Commitments to several matrices at once, opened at many rows.
ghost use Rattle.std.specs.Prelude.{◌≡◌, ℕ, ◌^◌, ◌≤◌, ◌<◌, ◌↔◌, Bool, List, length, All, IsTrue};
ghost use Rattle.std.specs.Prelude.{OnOk, IfOk, IfErr, vec_len};
ghost use Rattle.circle_commit.specs.Matrix.{IsPowerOfTwo};
ghost use Rattle.circle_commit.specs.Mmcs.{HaveHeightsOfPowers, IsShownOf, max_height};
ghost use Rattle.circle_commit.specs.Mmcs.{rows_at_each, opened_rows};
ghost use Rattle.circle_commit.specs.declared.matrix.Dimensions.{Dimensions};
ghost use Rattle.circle_commit.specs.declared.matrix.RowMajorMatrix.{RowMajorMatrix};

use crate::matrix::{Dimensions, Matrix, RowMajorMatrix};
use std::alloc::{AllocError, Global};
use std::fmt::Debug;

/// Rows of several matrices, as they are opened: for each index, for each matrix, the entries.
pub type OpenedRows<T> = Vec<Vec<Vec<T>>>;

/// A scheme that commits to several matrices at once ("mixed matrix commitment scheme").
///
/// Its laws: data is its list of matrices; rows are accepted exactly where they are shown, unless
/// out of memory; what is opened is shown; and the row of a matrix of height `2^h` at index `i`
/// under the greatest height `2^H` is its row `i >> (H - h)`. `commit` alone requires heights that
/// are powers of two: data may be of any matrices, and of none.
pub trait Mmcs<T: Copy> {
    /// What is published of the matrices.
    type Commitment: Debug + Drop;

    /// What the committer keeps.
    type ProverData: Drop;

    /// What shows that opened rows are those that were committed to.
    type MultiProof: Debug + Drop;

    /// Why opened rows are refused.
    type Error: Debug + Drop;

    // The matrices that data is of: any list, of any heights.
    ghost matrices: { Self.ProverData → List (RowMajorMatrix T) };

    // The matrices have this commitment.
    ghost commits: { Self → List (RowMajorMatrix T) → Self.Commitment → Type 0 };

    // The rows at the indices, one for each of these shapes, are shown to be those of the
    // commitment.
    ghost authenticates: { Self → Self.Commitment → List Dimensions → List ℕ → List (List (List T))
        → Self.MultiProof → Type 0 };

    // The error says that memory was refused.
    ghost is_memory: { Self.Error → Bool };

    /// Commits to matrices.
    ///
    /// Requires at least one, and heights that are powers of two: [`heights_are_powers_of_two`]
    /// tests the second of a `Vec` too. Fails where memory is refused.
    fn commit(
        &self,
        alloc: Global,
        inputs: Vec<RowMajorMatrix<T>>,
    ) -> Result<(Self::Commitment, Self::ProverData), AllocError>
        requires some { 1 ≤ vec_len inputs }
        requires powers_of_two { HaveHeightsOfPowers inputs.items }
        ensures commitment { IfOk result (λ r. commits self.now inputs.items r.0) }
        ensures data { IfOk result (λ r. matrices r.1 ≡ inputs.items) };

    /// The matrices that were committed to.
    fn get_matrices<'a>(&self, prover_data: &'a Self::ProverData) -> &'a [RowMajorMatrix<T>]
        ensures { result.now ≡ matrices prover_data.now };

    /// The greatest height of the matrices, 0 where there are none.
    fn get_max_height(&self, prover_data: &Self::ProverData) -> usize
        ensures { result ≡ max_height (matrices prover_data.now) };

    /// The rows at the indices, and a proof that they are those that were committed to.
    ///
    /// Requires at least one index, each below the greatest height, as [`are_below`] tests; an
    /// index may stand there more than once. Fails where memory is refused.
    fn open_multi_batch(
        &self,
        alloc: Global,
        indices: &[usize],
        prover_data: &Self::ProverData,
    ) -> Result<(OpenedRows<T>, Self::MultiProof), AllocError>
        requires some { 1 ≤ length indices.now }
        requires in_range { All (λ i. i < max_height (matrices prover_data.now)) indices.now }
        // At heights that are powers of two an index names a row of each matrix.
        ensures rows { IfOk result (λ r. HaveHeightsOfPowers (matrices prover_data.now)
            → opened_rows r.0.items ≡ rows_at_each (matrices prover_data.now) indices.now) }
        ensures proof { IfOk result (λ r. IsShownOf (commits self.now) (authenticates self.now)
            (matrices prover_data.now) indices.now (opened_rows r.0.items) r.1) };

    /// Whether the rows at the indices are those of matrices of these shapes that the commitment
    /// was made of.
    ///
    /// Takes any input: what is malformed is refused.
    fn verify_multi_batch(
        &self,
        alloc: Global,
        commitment: &Self::Commitment,
        dimensions: &[Dimensions],
        indices: &[usize],
        opened_values: &[Vec<Vec<T>>],
        proof: &Self::MultiProof,
    ) -> Result<(), Self::Error>
        ensures accepted { OnOk result (authenticates self.now commitment.now dimensions.now
            indices.now (opened_rows opened_values.now) proof.now) }
        ensures refused { IfErr result (λ e. authenticates self.now commitment.now dimensions.now
            indices.now (opened_rows opened_values.now) proof.now → IsTrue (is_memory e)) };

    /// Whether the error says that memory was refused.
    fn is_memory(error: &Self::Error) -> bool
        ensures { result ≡ is_memory error.now };
}

/// Whether there is an `m` with `n = 2^m`.
pub fn is_power_of_two(n: usize) -> bool
    ensures { IsTrue result ↔ IsPowerOfTwo n }
{
    n > 0 && n == 1 << n.ilog2()
}

/// The binary logarithm of a power of two.
///
/// Requires that there is an `m` with `n = 2^m`, as [`is_power_of_two`] tests; that `m` is the
/// result.
pub fn log2_strict(n: usize) -> usize
    requires { IsPowerOfTwo n }
    ensures power { 2 ^ result ≡ n }
    ensures only { (m : ℕ) → n ≡ 2 ^ m → result ≡ m }
    ensures bound { result < 64 }
{
    n.ilog2() as usize
}

/// Whether each of the numbers is below a bound, as an opening requires of indices.
pub fn are_below(numbers: &[usize], bound: usize) -> bool
    ensures { IsTrue result ↔ All (λ n. n < bound) numbers.now }
{
    numbers.iter().all(|n| *n < bound)
}

/// Whether the heights of all matrices are powers of two, as a commitment requires.
pub fn heights_are_powers_of_two<T: Copy>(matrices: &[RowMajorMatrix<T>]) -> bool
    // Of the list by the name that a caller has for it, as that of a `Vec` that lends the slice.
    ensures yes { IsTrue result → (list : List (RowMajorMatrix T)) → matrices.now ≡ list
        → HaveHeightsOfPowers list }
    ensures no { HaveHeightsOfPowers matrices.now → IsTrue result }
{
    for matrix in matrices {
        if !is_power_of_two(matrix.height()) {
            return false;
        }
    }
    true
}
