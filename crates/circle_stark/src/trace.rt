//! The trace of which a proof is made, and what is refused of it before the challenger is seeded.
ghost use Rattle.std.specs.Prelude.{◌≡◌, ◌^◌, ◌≤◌, ℕ, IfErr, IfOk, false};
ghost use Rattle.circle_air.specs.Air.{air_of};
ghost use Rattle.circle_air.specs.Degrees.{IsLogOfChunks, degree_of_parts};
ghost use Rattle.circle_commit.specs.RowMajorMatrix.{height_of, width_of};
ghost use Rattle.circle_prover.specs.Requesting.{is_unfit};
ghost use Rattle.circle_relation.specs.TestsInOrder.{answer};
ghost use Rattle.circle_stark.specs.Provable.{IsProvable};
ghost use Rattle.circle_stark.specs.Refusals.{IsTested};
ghost use Rattle.circle_stark.specs.Trace.{IsNoViolation, shape_tests, size_tests, stated};
ghost use Rattle.circle_stark.specs.Trace.{tests_of_trace};

use crate::error::StarkProverError;
use crate::statement::{first_longer, is_too_large, is_too_small};
use circle_air::Air;
use circle_commit::{FriParameters, MAX_PROOF_OF_WORK_BITS, Matrix, RowMajorMatrix, log2_strict};
use circle_field::ComplexExtendable;

/// Rows of a trace, with the constraints that they are to satisfy.
#[derive(Drop)]
pub struct StarkTrace<'a, Val> {
    /// The constraints.
    pub air: &'a Air<Val>,
    /// The rows: the values of the columns at the points of a standard domain, in natural order.
    pub rows: RowMajorMatrix<Val>,
    /// The public values.
    pub public_values: &'a [Val],
}

/// The sizes of a trace that can be proved.
#[derive(Clone, Copy)]
pub(crate) struct TraceSizes {
    /// The binary logarithm of the number of rows.
    pub log_n: usize,
    /// The binary logarithm of the number of the quotient's chunks.
    pub log_chunks: usize,
}

// Whether parameters are not supported by the scheme's `open`.
fn are_unfit<M>(params: &FriParameters<M>) -> bool
    ensures { result ≡ is_unfit params.now }
{
    params.num_queries == 0
        || params.log_blowup == 0
        || params.max_log_arity != 1
        || params.batch_proof_of_work_bits > MAX_PROOF_OF_WORK_BITS
        || params.commit_proof_of_work_bits > MAX_PROOF_OF_WORK_BITS
        || params.query_proof_of_work_bits > MAX_PROOF_OF_WORK_BITS
}

// Refuses a trace that doesn't fit the AIR, or has a number of rows that isn't a power of two.
#[tactic(auto, unfolding(circle_relation::specs::TestsInOrder::answer))]
fn validate_shape<F: ComplexExtendable>(trace: &StarkTrace<F>) -> Result<(), StarkProverError>
    ensures { result ≡ answer (shape_tests (stated trace.now) (width_of trace.now.rows)
        (height_of trace.now.rows)) tt }
{
    let expected = trace.air.num_public_values();
    let got = trace.public_values.len();
    if got != expected {
        return Err(StarkProverError::PublicValuesMismatch { expected, got });
    }
    let expected = trace.air.width();
    let got = trace.rows.width();
    if got != expected {
        return Err(StarkProverError::WidthMismatch { expected, got });
    }
    if !trace.rows.height().is_power_of_two() {
        return Err(StarkProverError::HeightNotPowerOfTwo);
    }
    Ok(())
}

// Refuses a trace of sizes that can't be proved, periodic columns that are longer than it, or
// parameters that are not supported.
#[tactic(auto, unfolding(circle_relation::specs::TestsInOrder::answer))]
fn validate_sizes<F: ComplexExtendable, M>(
    params: &FriParameters<M>,
    sizes: TraceSizes,
    air: &Air<F>,
) -> Result<(), StarkProverError>
    requires { sizes.log_n ≤ 63 }
    ensures { result ≡ answer (size_tests F.CIRCLE_TWO_ADICITY params.now sizes.log_chunks
        sizes.log_n (air_of air.now).periodic_columns) tt }
{
    let TraceSizes { log_n, log_chunks } = sizes;
    if is_too_small(params, log_n) {
        return Err(StarkProverError::HeightTooSmall);
    }
    if is_too_large::<F, M>(params, log_chunks, log_n) {
        return Err(StarkProverError::HeightTooLarge);
    }
    match first_longer(log_n, air.periodic_columns()) {
        Some(column) => return Err(StarkProverError::PeriodTooLong { column }),
        None => {}
    }
    if are_unfit(params) {
        return Err(StarkProverError::UnfitParameters);
    }
    Ok(())
}

/// The sizes of a trace, which is tested: it fails with the first of these, as
/// [`prove`](crate::prove) says: `PublicValuesMismatch`, `WidthMismatch`, `HeightNotPowerOfTwo`,
/// `HeightTooSmall`, `HeightTooLarge`, `PeriodTooLong` and `UnfitParameters`. Takes no memory.
pub(crate) fn validated_sizes<F: ComplexExtendable, M>(
    params: &FriParameters<M>,
    trace: &StarkTrace<F>,
) -> Result<TraceSizes, StarkProverError>
    ensures tested { (k : ℕ) → IsLogOfChunks (degree_of_parts (air_of trace.now.air.now)) k →
        IsTested (tests_of_trace F.CIRCLE_TWO_ADICITY params.now k trace.now) result }
    ensures early { IfErr result IsNoViolation }
    ensures height { IfOk result (λ sizes. height_of trace.now.rows ≡ 2 ^ sizes.log_n) }
    ensures log_n { IfOk result (λ sizes. sizes.log_n ≡ (stated trace.now).log_n) }
    ensures provable { IfOk result (λ sizes. IsProvable F.CIRCLE_TWO_ADICITY params.now
        (stated trace.now) sizes.log_chunks) }
    ensures supported { IfOk result (λ _. is_unfit params.now ≡ false) }
    ensures width { IfOk result (λ _. width_of trace.now.rows ≡ (stated trace.now).parts.width) }
{
    validate_shape(trace)?;
    let sizes = TraceSizes {
        log_n: log2_strict(trace.rows.height()),
        log_chunks: trace.air.log_num_quotient_chunks(),
    };
    validate_sizes(params, sizes, trace.air)?;
    Ok(sizes)
}
