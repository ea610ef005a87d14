//! The commitments of a prover: to the rows of a trace, and to its quotient in chunks.
ghost use Rattle.std.specs.Prelude.{◌≡◌, ◌+◌, ◌^◌, ◌<◌, ◌≤◌, IfErr, IfOk, length};
ghost use Rattle.circle_commit.specs.RowMajorMatrix.{height_of, width_of};
ghost use Rattle.circle_relation.specs.declared.error.ProverError.TheVariants.{Memory as ProverMemory};
ghost use Rattle.circle_stark.specs.Honest.{AreChunksCommitted, ContinuesTrace, IsTraceKept};
ghost use Rattle.circle_stark.specs.OfProvable.{CommitsTo, CommitsToQuotient, IsKept};
ghost use Rattle.circle_stark.specs.Statement.{statement_of};
ghost use Rattle.circle_stark.specs.declared.error.StarkProverError.TheVariants.{Memory};

use crate::error::StarkProverError;
use crate::lists::single;
use crate::proof::StarkStatement;
use crate::provable::ProvableOver;
use circle_challenger::{CanObserve, CanSample, GrindingChallenger};
use circle_commit::{Mmcs, RowMajorMatrix};
use circle_domain::CircleDomain;
use circle_field::{ComplexExtendable, ElementBytes, ExtensionField};
use circle_prover::ProverError;
use circle_quotient::chunks::quotient_chunks;
use circle_quotient::quotient::quotient_values;
use circle_quotient::trace::ExtendedTrace;
use p3_circle::CirclePcs;
use std::alloc::Global;

/// A commitment, and what the committer keeps.
pub(crate) type Committed<Val, InputMmcs> = (
    <InputMmcs as Mmcs<Val>>::Commitment,
    <InputMmcs as Mmcs<Val>>::ProverData,
);

// The refusal of a scheme that refuses nothing: it is out of memory.
fn out_of_memory(error: ProverError) -> StarkProverError
    requires { error ≡ ProverMemory }
    ensures { result ≡ Memory }
{
    match error {
        ProverError::Memory => StarkProverError::Memory,
        _ => unreachable!(),
    }
}

/// Commits to the rows of a statement's trace, as values on the standard domain of as many points.
pub(crate) fn commit_trace<Val, EF, InputMmcs, FriMmcs, C>(
    alloc: Global,
    provable: &ProvableOver<'_, Val, EF, InputMmcs, FriMmcs, C>,
    rows: RowMajorMatrix<Val>,
) -> Result<Committed<Val, InputMmcs>, StarkProverError>
where
    Val: ComplexExtendable + ElementBytes,
    EF: ExtensionField<Val>,
    InputMmcs: Mmcs<Val>,
    FriMmcs: Mmcs<EF>,
    C: CanSample<Val>
        + GrindingChallenger<Val>
        + CanObserve<InputMmcs::Commitment>
        + CanObserve<FriMmcs::Commitment>,
    requires height { height_of rows ≡ 2 ^ provable.now.statement.log_n }
    ensures refused { IfErr result (λ e. e ≡ Memory) }
    ensures committed { IfOk result (λ r. CommitsTo provable.now rows r.0 r.1) }
{
    let domain = CircleDomain::standard(provable.statement.log_n);
    let batch = single(alloc, (domain, rows))?;
    match provable.pcs.commit(alloc, batch) {
        Ok(committed) => Ok(committed),
        Err(error) => Err(out_of_memory(error)),
    }
}

// The rows of a statement's committed trace on the standard domain of `2^log_size` points.
fn extended_rows<Val: ComplexExtendable, InputMmcs: Mmcs<Val>, FriMmcs>(
    alloc: Global,
    pcs: &CirclePcs<Val, InputMmcs, FriMmcs>,
    statement: &StarkStatement<Val>,
    trace: &InputMmcs::ProverData,
    log_size: usize,
) -> Result<RowMajorMatrix<Val>, StarkProverError>
    requires kept { IsTraceKept Val.Operations Val.ops Val.generators pcs.now.fri_params.log_blowup
        statement.now.log_n (statement_of statement.now).parts.width
        (InputMmcs.matrices trace.now) }
    requires larger { statement.now.log_n ≤ log_size }
    requires foldable { pcs.now.fri_params.log_final_poly_len + 2 ≤ statement.now.log_n }
    requires extended { statement.now.log_n + pcs.now.fri_params.log_blowup
        < Val.CIRCLE_TWO_ADICITY }
    requires in_group { log_size + 1 ≤ Val.CIRCLE_TWO_ADICITY }
    ensures refused { IfErr result (λ e. e ≡ Memory) }
    ensures height { IfOk result (λ made. height_of made ≡ 2 ^ log_size) }
    ensures width { IfOk result (λ made. width_of made
        ≡ (statement_of statement.now).parts.width) }
    ensures values { IfOk result (ContinuesTrace Val.Operations Val.ops Val.generators
        pcs.now.fri_params.log_blowup statement.now.log_n log_size
        (InputMmcs.matrices trace.now)) }
{
    match pcs.get_evaluations_on_domain(alloc, trace, 0, CircleDomain::standard(log_size)) {
        Ok(rows) => Ok(rows),
        Err(error) => Err(out_of_memory(error)),
    }
}

// Commits to values on the quotient's domain, in chunks.
fn commit_chunks<Val, EF, InputMmcs, FriMmcs>(
    alloc: Global,
    pcs: &CirclePcs<Val, InputMmcs, FriMmcs>,
    log_n: usize,
    log_chunks: usize,
    values: Vec<EF>,
) -> Result<Committed<Val, InputMmcs>, StarkProverError>
where
    Val: ComplexExtendable,
    EF: ExtensionField<Val>,
    InputMmcs: Mmcs<Val>,
    requires foldable { pcs.now.fri_params.log_final_poly_len + 2 ≤ log_n }
    requires extended { log_n + pcs.now.fri_params.log_blowup < Val.CIRCLE_TWO_ADICITY }
    requires in_group { log_n + log_chunks < Val.CIRCLE_TWO_ADICITY }
    requires count { length values.items ≡ 2 ^ (log_n + log_chunks) }
    ensures refused { IfErr result (λ e. e ≡ Memory) }
    ensures committed { IfOk result (λ r. AreChunksCommitted Val.Operations Val.ops Val.generators
        pcs.now.fri_params.log_blowup (InputMmcs.commits pcs.now.mmcs) EF.coefficients EF.DEGREE
        log_n log_chunks values.items r.0 (InputMmcs.matrices r.1)) }
{
    let chunks = quotient_chunks::<Val, EF>(alloc, log_n, log_chunks, values)?;
    match pcs.commit(alloc, chunks) {
        Ok(committed) => Ok(committed),
        Err(error) => Err(out_of_memory(error)),
    }
}

/// Commits to the quotient of a committed trace's constraints, put together by the powers of
/// `alpha`: in chunks, each a matrix of the coefficients of its values.
///
/// Requires what [`commit_trace`] keeps.
pub(crate) fn commit_quotient<Val, EF, InputMmcs, FriMmcs, C>(
    alloc: Global,
    provable: &ProvableOver<'_, Val, EF, InputMmcs, FriMmcs, C>,
    trace: &InputMmcs::ProverData,
    alpha: EF,
) -> Result<Committed<Val, InputMmcs>, StarkProverError>
where
    Val: ComplexExtendable + ElementBytes,
    EF: ExtensionField<Val>,
    InputMmcs: Mmcs<Val>,
    FriMmcs: Mmcs<EF>,
    C: CanSample<Val>
        + GrindingChallenger<Val>
        + CanObserve<InputMmcs::Commitment>
        + CanObserve<FriMmcs::Commitment>,
    // It is required by itself, since with one clause alone the prover takes long to state the
    // place of a call.
    requires positive { 1 ≤ provable.now.statement.log_n }
    requires kept { IsKept provable.now trace.now }
    ensures refused { IfErr result (λ e. e ≡ Memory) }
    ensures committed { IfOk result (λ r.
        CommitsToQuotient provable.now trace.now alpha r.0 r.1) }
{
    let (pcs, log_chunks) = (provable.pcs, provable.log_chunks);
    let StarkStatement {
        air,
        log_n,
        public_values,
    } = provable.statement;
    let rows = extended_rows(alloc, pcs, &provable.statement, trace, log_n + log_chunks)?;
    let extended = ExtendedTrace {
        rows: &rows,
        log_n,
        log_num_chunks: log_chunks,
        public_values,
    };
    let values = quotient_values(alloc, air, &extended, alpha)?;
    commit_chunks(alloc, pcs, log_n, log_chunks, values)
}
