//! The lengths of what a proof opens of the batches and of the first layer.
ghost use Rattle.std.specs.Prelude.{◌≡◌, ◌+◌, ◌≤◌, ◌==◌, ◌↔◌};
ghost use Rattle.std.specs.Prelude.{IsTrue, OnOk, IfOk, IfErr, All, length, vec_len};
ghost use Rattle.std.specs.List.{position};
ghost use Rattle.circle_relation.specs.Statement.{all_matrices};
ghost use Rattle.circle_verifier.specs.OfRun.{run_of, heights_of, HasInputs, Refuses};
ghost use Rattle.circle_verifier.specs.Shape.{have_values, rows_fit, opened_fit};
ghost use Rattle.circle_verifier.specs.Shape.{inputs_fit, siblings_fit};

use crate::checked::CheckedRun;
use crate::heights::has_domain;
use crate::run::OpenedRun;
use circle_commit::{
    BatchMultiOpening, CommitmentOpening, FriError, MatrixOpening, Mmcs, PointOpening,
};
use circle_field::{ComplexExtendable, ExtensionField};
use circle_relation::{InputError, VerifierError};
use std::alloc::Global;

// Whether all claims on a matrix have `count` values.
fn have_values<E>(points: &[PointOpening<E>], count: usize) -> bool
    ensures { result ≡ have_values points.now count }
{
    points.iter().all(|p| p.values.len() == count)
}

// Whether there is a row of each matrix, as long as the claims of its values.
fn rows_fit<E, D, T>(matrices: &[MatrixOpening<E, D>], rows: &[Vec<T>]) -> bool
    ensures { result ≡ rows_fit matrices.now rows.now }
{
    rows.len() == matrices.len()
        && matrices
            .iter()
            .zip(rows)
            .all(|(m, row)| have_values(&m.points, row.len()))
}

// Whether there are such rows for each query.
fn opened_fit<E, D, T>(
    num_queries: usize,
    matrices: &[MatrixOpening<E, D>],
    opened: &[Vec<Vec<T>>],
) -> bool
    ensures { result ≡ opened_fit num_queries matrices.now opened.now }
{
    opened.len() == num_queries && opened.iter().all(|rows| rows_fit(matrices, rows))
}

// Whether there are such rows of each batch.
fn inputs_fit<E, Com, D, T: Copy, M: Mmcs<T>>(
    num_queries: usize,
    claims: &[CommitmentOpening<E, Com, D>],
    inputs: &[BatchMultiOpening<T, M>],
) -> bool
    ensures { result ≡ inputs_fit num_queries claims.now inputs.now }
{
    inputs.len() == claims.len()
        && claims.iter().zip(inputs).all(|(b, o)| opened_fit(
            num_queries,
            &b.matrices,
            &o.opened_values,
        ))
}

// Whether there are `count` siblings for each query.
fn siblings_fit<T>(num_queries: usize, count: usize, siblings: &[Vec<T>]) -> bool
    ensures { result ≡ siblings_fit num_queries count siblings.now }
{
    siblings.len() == num_queries && siblings.iter().all(|s| s.len() == count)
}

// The first of a batch's matrices that is claimed at no point.
fn first_unclaimed<E, D>(matrices: &[MatrixOpening<E, D>]) -> Option<usize>
    ensures { result ≡ position (λ m. vec_len m.points == 0) matrices.now }
{
    matrices.iter().position(|m| m.points.is_empty())
}

impl<
    'a,
    Val: ComplexExtendable,
    EF: ExtensionField<Val>,
    InputMmcs: Mmcs<Val>,
    FriMmcs: Mmcs<EF>,
> OpenedRun<'a, Val, EF, InputMmcs, FriMmcs> {
    // Whether the lists that a proof opens of the batches and of the first layer have the lengths
    // that the claims and the queries fix.
    fn has_inputs(&self, num_heights: usize) -> bool
        requires { num_heights ≡ length (heights_of self.now) }
        ensures { IsTrue result ↔ HasInputs self.now }
    {
        let num_queries = self.indices.len();
        let inputs = &self.proof.fri_proof.input_openings;
        inputs_fit(num_queries, self.claims, &inputs.input_openings)
            && siblings_fit(num_queries, num_heights, &inputs.first_layer_siblings)
            && self.proof.lambdas.len() == num_heights
    }

    // Refuses the first matrix that is claimed at no point.
    #[tactic(auto, unfolding(circle_relation::specs::Reasons::IsReason))]
    fn check_points(&self) -> Result<(), VerifierError<InputMmcs::Error, FriMmcs::Error>>
        ensures claimed { OnOk result
            (All (λ m. 1 ≤ length m.claims) (all_matrices (run_of self.now).batches)) }
        ensures refused { IfErr result (Refuses self.now) }
    {
        for (batch, claim) in self.claims.iter().enumerate() {
            if let Some(matrix) = first_unclaimed(&claim.matrices) {
                let unclaimed = InputError::MatrixWithoutOpeningPoints { batch, matrix };
                return Err(FriError::InputError(unclaimed));
            }
        }
        Ok(())
    }

    // Refuses a domain on which nothing is left to fold.
    #[tactic(auto, unfolding(circle_relation::specs::Reasons::IsReason))]
    fn check_sizes(&self) -> Result<(), VerifierError<InputMmcs::Error, FriMmcs::Error>>
        ensures large { OnOk result (All (λ m. self.now.params.now.log_final_poly_len + 2 ≤ m.log_n)
            (all_matrices (run_of self.now).batches)) }
        ensures refused { IfErr result (Refuses self.now) }
    {
        let next_log_height = self.params.log_blowup + self.params.log_final_poly_len;
        if has_domain(self.claims, self.params.log_final_poly_len + 1) {
            return Err(FriError::UnconsumedReducedOpenings {
                next_log_height,
                remaining: 1,
            });
        }
        Ok(())
    }

    /// The run with the heights that are claimed, as its proof's lists have the lengths that are
    /// due. Refuses a run whose proof opens other numbers of batches, rows, entries, siblings or
    /// lambdas than the claims and the queries fix (`InputShapeError`), a matrix that is claimed at
    /// no point (`MatrixWithoutOpeningPoints`), and a domain on which nothing is left to fold
    /// (`UnconsumedReducedOpenings`).
    ///
    /// Fails with `Memory` where memory is refused.
    #[tactic(auto, unfolding(circle_relation::specs::Reasons::IsReason))]
    pub fn checked(
        self,
        alloc: Global,
    ) -> Result<
        CheckedRun<'a, Val, EF, InputMmcs, FriMmcs>,
        VerifierError<InputMmcs::Error, FriMmcs::Error>,
    >
        ensures run { IfOk result (λ checked. checked.run ≡ self.entry) }
        ensures refused { IfErr result (Refuses self.entry) }
    {
        let heights = self.claimed_heights(alloc)?;
        if !self.has_inputs(heights.len()) {
            return Err(FriError::InputError(InputError::InputShapeError));
        }
        self.check_points()?;
        self.check_sizes()?;
        Ok(CheckedRun { run: self, heights })
    }
}
