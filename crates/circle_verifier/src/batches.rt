//! The rows that a proof opens of the committed batches.
ghost use Rattle.std.specs.Prelude.{◌≡◌, ◌+◌, ◌/◌, ◌^◌, ◌≤◌, if◌then◌else◌};
ghost use Rattle.std.specs.Prelude.{map, All, OnOk, IfOk, IfErr};
ghost use Rattle.circle_domain.specs.Domain.{log_size};
ghost use Rattle.circle_relation.specs.Statement.{log_max_height};
ghost use Rattle.circle_relation.specs.StatementOf.{matrix_claim, matrix_claims};
ghost use Rattle.circle_verifier.specs.OfRun.{InputsAuthenticate, Refuses};
ghost use Rattle.circle_verifier.specs.Batches.{claimed_width, claimed_shape, AreShown, RefusesRows};

use crate::run::OpenedRun;
use circle_commit::{
    BatchMultiOpening, CommitmentOpening, Dimensions, FriError, MatrixOpening, Mmcs,
};
use circle_domain::CircleDomain;
use circle_field::{ComplexExtendable, ExtensionField};
use circle_folding::without_bits;
use circle_relation::{InputError, VerifierError};
use std::alloc::{AllocError, Global};

// The greatest logarithm of a height of a batch's matrices, or 0 where there is none.
fn log_max_height<F: ComplexExtendable, E>(
    log_blowup: usize,
    matrices: &[MatrixOpening<E, CircleDomain<F>>],
) -> usize
    requires { All (λ m. log_size m.domain + log_blowup ≤ 62) matrices.now }
    ensures { result ≡ log_max_height log_blowup (matrix_claims matrices.now) }
{
    let mut greatest = 0;
    for matrix in matrices {
        greatest = greatest.max(matrix.domain.log_n() + log_blowup);
    }
    greatest
}

// The number of values of the first claim on a matrix, or 0 where there is none.
fn claimed_width<F: ComplexExtendable, E>(matrix: &MatrixOpening<E, CircleDomain<F>>) -> usize
    ensures { result ≡ claimed_width (matrix_claim matrix.now) }
{
    match matrix.points.first() {
        Some(point) => point.values.len(),
        None => 0,
    }
}

// The shapes of a batch's matrices.
fn claimed_shapes<F: ComplexExtendable, E>(
    alloc: Global,
    log_blowup: usize,
    matrices: &[MatrixOpening<E, CircleDomain<F>>],
) -> Result<Vec<Dimensions>, AllocError>
    requires { All (λ m. log_size m.domain + log_blowup ≤ 62) matrices.now }
    ensures { IfOk result (λ shapes. shapes.items
        ≡ map (claimed_shape log_blowup) (matrix_claims matrices.now)) }
{
    let mut shapes = Vec::with_capacity(alloc, matrices.len())?;
    for matrix in matrices {
        shapes.push(Dimensions {
            width: claimed_width(matrix),
            height: 1 << (matrix.domain.log_n() + log_blowup),
        })?;
    }
    Ok(shapes)
}

// What a scheme's refusal of a batch's rows is returned as.
fn refusal<T: Copy, M: Mmcs<T>, WordsErr>(error: M::Error) -> VerifierError<M::Error, WordsErr>
    ensures { result ≡ (if M.is_memory error then FriError.Memory
        else FriError.InputError (InputError.InputMmcsError error)) }
{
    if M::is_memory(&error) {
        FriError::Memory
    } else {
        FriError::InputError(InputError::InputMmcsError(error))
    }
}

impl<
    Val: ComplexExtendable,
    EF: ExtensionField<Val>,
    InputMmcs: Mmcs<Val>,
    FriMmcs: Mmcs<EF>,
> OpenedRun<'_, Val, EF, InputMmcs, FriMmcs> {
    // Refuses a batch of which the rows don't authenticate at the queries.
    fn authenticate_batch(
        &self,
        alloc: Global,
        batch: &CommitmentOpening<EF, InputMmcs::Commitment, CircleDomain<Val>>,
        opening: &BatchMultiOpening<Val, InputMmcs>,
    ) -> Result<(), VerifierError<InputMmcs::Error, FriMmcs::Error>>
        requires heights { All (λ m. log_size m.domain + self.now.params.now.log_blowup
            ≤ self.now.log_max_height) batch.now.matrices.items }
        requires small { self.now.log_max_height ≤ 62 }
        ensures shown { OnOk result (AreShown self.now batch.now opening.now) }
        ensures refused { IfErr result
            (RefusesRows InputMmcs.is_memory (AreShown self.now batch.now opening.now)) }
    {
        let log_blowup = self.params.log_blowup;
        let shapes = claimed_shapes(alloc, log_blowup, &batch.matrices)?;
        let height = log_max_height(log_blowup, &batch.matrices);
        let places = without_bits(alloc, self.indices, self.log_max_height - height)?;
        let verified = self.mmcs.verify_multi_batch(
            alloc,
            &batch.commitment,
            &shapes,
            &places,
            &opening.opened_values,
            &opening.opening_proof,
        );
        match verified {
            Ok(()) => Ok(()),
            Err(error) => Err(refusal::<Val, InputMmcs, FriMmcs::Error>(error)),
        }
    }

    /// Refuses a run of which the rows of some batch don't authenticate at the queries, by
    /// `InputMmcsError`. The shapes of a batch's matrices are the numbers of values that are
    /// claimed at their first points, and the claimed heights; its rows stand at the queries
    /// without the bits by which its greatest height falls short of the greatest of all.
    ///
    /// Each batch is verified once, for all queries. Fails with `Memory` where memory is refused.
    pub fn authenticate_inputs(
        &self,
        alloc: Global,
    ) -> Result<(), VerifierError<InputMmcs::Error, FriMmcs::Error>>
        ensures shown { OnOk result (InputsAuthenticate self.now) }
        ensures refused { IfErr result (Refuses self.now) }
    {
        let inputs = &self.proof.fri_proof.input_openings.input_openings;
        for (batch, opening) in self.claims.iter().zip(inputs) {
            self.authenticate_batch(alloc, batch, opening)?;
        }
        Ok(())
    }
}
