//! What is refused of a statement and a proof before the challenger is seeded.
ghost use Rattle.std.specs.Prelude.{◌≡◌, ◌≤◌, ℕ, IfOk, [], ◌∷◌, map, length};
ghost use Rattle.circle_air.specs.Degrees.{IsLogOfChunks, degree_of_parts};
ghost use Rattle.circle_relation.specs.TestsInOrder.{answer};
ghost use Rattle.circle_stark.specs.Provable.{IsProvable};
ghost use Rattle.circle_stark.specs.Refusals.{IsTested, chunk_tests, is_too_large, is_too_small};
ghost use Rattle.circle_stark.specs.Refusals.{first_longer, statement_tests, value_tests};
ghost use Rattle.circle_stark.specs.declared.error.StarkError.TheVariants.{QuotientChunkLength};
ghost use Rattle.circle_stark.specs.Statement.{statement_of, values_of};

use crate::error::StarkError;
use crate::proof::{StarkOpenedValues, StarkStatement};
use circle_commit::FriParameters;
use circle_field::{ComplexExtendable, ExtensionField, Field};

/// Whether a trace of `2^log_n` rows has too few to be folded.
pub(crate) fn is_too_small<M>(params: &FriParameters<M>, log_n: usize) -> bool
    ensures { result ≡ is_too_small params.now log_n }
{
    log_n < 2 || log_n - 2 < params.log_final_poly_len
}

/// Whether the group has no domain for the extension of a trace of `2^log_n` rows, or for its
/// quotient in `2^log_chunks` chunks.
pub(crate) fn is_too_large<F: ComplexExtendable, M>(
    params: &FriParameters<M>,
    log_chunks: usize,
    log_n: usize,
) -> bool
    ensures { result ≡ is_too_large F.CIRCLE_TWO_ADICITY params.now log_chunks log_n }
{
    let greatest = log_chunks.max(params.log_blowup);
    log_n.saturating_add(greatest) >= F::CIRCLE_TWO_ADICITY
}

/// The first periodic column that is longer than `2^log_n`.
///
/// Requires `log_n <= 63`.
#[tactic(auto, unfolding(crate::specs::Refusals::first_longer))]
pub(crate) fn first_longer<F>(log_n: usize, columns: &[Vec<F>]) -> Option<usize>
    requires { log_n ≤ 63 }
    ensures { result ≡ first_longer log_n 0 (map (λ column. column.items) columns.now) }
{
    for (column, values) in columns.iter().enumerate() {
        if values.len() > 1 << log_n {
            return Some(column);
        }
    }
    None
}

/// The binary logarithm of the number of the quotient's chunks of a statement, which is tested: it
/// fails with the first of these, as [`verify`](crate::verify) says: `PublicValuesMismatch`,
/// `HeightTooSmall`, `HeightTooLarge` and `PeriodTooLong`. Takes no memory.
pub(crate) fn validated_log_chunks<F: ComplexExtendable, M, E>(
    params: &FriParameters<M>,
    statement: &StarkStatement<F>,
) -> Result<usize, StarkError<E>>
    ensures tested { (k : ℕ) → IsLogOfChunks (degree_of_parts (statement_of statement.now).parts) k
        → IsTested (statement_tests F.CIRCLE_TWO_ADICITY params.now k (statement_of
        statement.now)) result }
    ensures provable { IfOk result (λ log_chunks. IsProvable F.CIRCLE_TWO_ADICITY params.now
        (statement_of statement.now) log_chunks) }
{
    let log_chunks = statement.air.log_num_quotient_chunks();
    validate_statement(params, log_chunks, statement)?;
    Ok(log_chunks)
}

// Refuses a statement by the first reason, of a quotient in `2^log_chunks` chunks.
#[tactic(auto, unfolding(circle_relation::specs::TestsInOrder::answer))]
fn validate_statement<F: ComplexExtendable, M, E>(
    params: &FriParameters<M>,
    log_chunks: usize,
    statement: &StarkStatement<F>,
) -> Result<(), StarkError<E>>
    ensures { result ≡ answer (statement_tests F.CIRCLE_TWO_ADICITY params.now log_chunks
        (statement_of statement.now)) tt }
{
    let (air, log_n) = (statement.air, statement.log_n);
    let expected = air.num_public_values();
    let got = statement.public_values.len();
    if got != expected {
        return Err(StarkError::PublicValuesMismatch { expected, got });
    }
    if is_too_small(params, log_n) {
        return Err(StarkError::HeightTooSmall);
    }
    if is_too_large::<F, M>(params, log_chunks, log_n) {
        return Err(StarkError::HeightTooLarge);
    }
    match first_longer(log_n, air.periodic_columns()) {
        Some(column) => Err(StarkError::PeriodTooLong { column }),
        None => Ok(()),
    }
}

// Refuses the first chunk that hasn't this number of columns.
#[tactic(auto, unfolding(circle_relation::specs::TestsInOrder::answer, crate::specs::Refusals::chunk_tests))]
fn validate_chunks<T, E>(expected: usize, chunks: &[Vec<T>]) -> Result<(), StarkError<E>>
    ensures { result ≡ answer (chunk_tests QuotientChunkLength expected 0
        (map (λ chunk. chunk.items) chunks.now)) tt }
{
    for (chunk, values) in chunks.iter().enumerate() {
        let got = values.len();
        if got != expected {
            return Err(StarkError::QuotientChunkLength {
                chunk,
                expected,
                got,
            });
        }
    }
    Ok(())
}

/// Refuses opened values by the first of these, of a trace of this width and a quotient in
/// `2^log_chunks` chunks: `TraceLocalLength`, `TraceNextLength`, `QuotientChunkCount` and
/// `QuotientChunkLength`, as [`verify`](crate::verify) says. Takes no memory.
///
/// Requires `log_chunks <= 63`.
#[tactic(auto, unfolding(circle_relation::specs::TestsInOrder::answer))]
pub(crate) fn validate_values<F: Field, EF: ExtensionField<F>, E>(
    width: usize,
    log_chunks: usize,
    values: &StarkOpenedValues<EF>,
) -> Result<(), StarkError<E>>
    requires { log_chunks ≤ 63 }
    ensures { result ≡ answer (value_tests log_chunks EF.DEGREE width (values_of values.now)) tt }
{
    let got = values.trace_local.len();
    if got != width {
        return Err(StarkError::TraceLocalLength {
            expected: width,
            got,
        });
    }
    let got = values.trace_next.len();
    if got != width {
        return Err(StarkError::TraceNextLength {
            expected: width,
            got,
        });
    }
    let expected = 1 << log_chunks;
    let got = values.quotient_chunks.len();
    if got != expected {
        return Err(StarkError::QuotientChunkCount { expected, got });
    }
    validate_chunks(EF::DEGREE, &values.quotient_chunks)
}
