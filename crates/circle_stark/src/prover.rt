//! The prover.
ghost use Rattle.std.specs.Prelude.{◌≡◌, ◌≤◌, ◌^◌, IfErr, IfOk, OnOk, false, length};
ghost use Rattle.circle_air.specs.Satisfies.{Satisfies};
ghost use Rattle.circle_commit.specs.Honest.{AreTrueValues};
ghost use Rattle.circle_commit.specs.Pcs.{openings};
ghost use Rattle.circle_commit.specs.RowMajorMatrix.{height_of, rows as rows_of, width_of};
ghost use Rattle.circle_prover.specs.Requesting.{is_unfit};
ghost use Rattle.circle_stark.specs.OfProvable.{Accepts, AreOpenedAt, CanBeOpened, CommitsTo};
ghost use Rattle.circle_stark.specs.OfProvable.{CommitsToQuotient, Draws, HasNext, IsUnopened};
ghost use Rattle.circle_stark.specs.OfProvable.{IsUnopenedAt, Opens, stated_by};
ghost use Rattle.circle_stark.specs.Statement.{values_of};
ghost use Rattle.circle_stark.specs.Trace.{IsFirstTraceRefusal, IsOpeningRefusal};
ghost use Rattle.circle_stark.specs.Trace.{IsReportedAs, NamesViolation, stated, statement_by};
ghost use Rattle.circle_stark.specs.declared.error.StarkProverError.TheVariants.{Memory};

use crate::claims::OpenedPoints;
use crate::committing::{commit_quotient, commit_trace};
use crate::error::StarkProverError;
use crate::laws::basis_exists;
use crate::opening::{KeptData, requests_at, values_of_openings};
use crate::proof::{StarkOpenedValues, StarkProof, StarkStatement};
use crate::provable::{ProvableOver, ProvableStatement};
use crate::relation::StarkRelation;
use crate::trace::{StarkTrace, validated_sizes};
use crate::transcript::constraint_challenge;
use crate::verifier::Challenges;
use circle_air::check_constraints;
use circle_challenger::{CanObserve, CanSample, ChallengerState, GrindingChallenger};
use circle_commit::{Mmcs, OpenedValues, OpeningRequest, Pcs, PolynomialSpace, RowMajorMatrix};
use circle_field::{ComplexExtendable, ElementBytes, ExtensionField, Field};
use circle_prover::ProverError;
use circle_quotient::fit::is_fit;
use circle_relation::CirclePcsProof;
use p3_circle::CirclePcs;
use std::alloc::Global;
use std::marker::PhantomData;

// What a prover has once the point is drawn: what it committed to, with what it keeps of each, and
// the challenges.
#[derive(Drop)]
struct CommittedRun<Val: Field, EF, InputMmcs: Mmcs<Val>> {
    trace_commitment: InputMmcs::Commitment,
    trace_data: InputMmcs::ProverData,
    quotient_commitment: InputMmcs::Commitment,
    quotient_data: InputMmcs::ProverData,
    drawn: Challenges<EF>,
}

// Commits to a trace, draws a challenge, commits to the quotient and draws the point.
fn commit_and_draw<Val, EF, InputMmcs, FriMmcs, C>(
    alloc: Global,
    provable: &ProvableOver<'_, Val, EF, InputMmcs, FriMmcs, C>,
    rows: RowMajorMatrix<Val>,
    challenger: &mut C,
) -> Result<CommittedRun<Val, EF, InputMmcs>, StarkProverError>
where
    Val: ComplexExtendable + ElementBytes,
    EF: ExtensionField<Val>,
    InputMmcs: Mmcs<Val>,
    FriMmcs: Mmcs<EF>,
    C: CanSample<Val>
        + GrindingChallenger<Val>
        + CanObserve<InputMmcs::Commitment>
        + CanObserve<FriMmcs::Commitment>,
    requires height { height_of rows ≡ 2 ^ provable.now.statement.log_n }
    requires width { width_of rows ≡ (stated_by provable.now).parts.width }
    ensures refused { IfErr result (λ e. e ≡ Memory) }
    ensures trace { IfOk result (λ r.
        CommitsTo provable.now rows r.trace_commitment r.trace_data) }
    ensures quotient { IfOk result (λ r. CommitsToQuotient provable.now r.trace_data r.drawn.alpha
        r.quotient_commitment r.quotient_data) }
    ensures drawn { IfOk result (λ r. Draws provable.now r.trace_commitment r.quotient_commitment
        challenger.old r.drawn.alpha r.drawn.zeta challenger.new) }
{
    let (trace_commitment, trace_data) = commit_trace(alloc, provable, rows)?;
    let run = constraint_challenge(alloc, provable, challenger, &trace_commitment)?;
    let alpha = run.alpha;
    let (quotient_commitment, quotient_data) = commit_quotient(
        alloc,
        provable,
        &trace_data,
        alpha,
    )?;
    let zeta = run.out_of_domain_point(challenger, &quotient_commitment);
    Ok(CommittedRun {
        trace_commitment,
        trace_data,
        quotient_commitment,
        quotient_data,
        drawn: Challenges { alpha, zeta },
    })
}

// How a prover reports why the scheme opens nothing of what it committed to.
fn refusal_of_opening(error: ProverError) -> StarkProverError
    requires { IsOpeningRefusal error }
    ensures { IsReportedAs error result }
{
    match error {
        ProverError::NoGrindingWitness { phase } => StarkProverError::NoGrindingWitness { phase },
        ProverError::PointOnDomain => StarkProverError::PointOnDomain,
        ProverError::Memory => StarkProverError::Memory,
        _ => unreachable!(),
    }
}

// What a scheme opens for requests.
fn open_requests<P, EF, C>(
    alloc: Global,
    pcs: &P,
    requests: Vec<OpeningRequest<'_, P::ProverData, EF>>,
    challenger: &mut C,
) -> Result<(OpenedValues<EF>, P::Proof), P::ProverError>
where
    P: Pcs<EF, C>,
    EF: ExtensionField<<P::Domain as PolynomialSpace>::Val>,
    C: ChallengerState,
    // It is required by itself, since with one clause alone the prover takes long to state the
    // place of a call.
    requires some { 1 ≤ length requests.items }
    requires asks { P.open_asks pcs.now requests.items }
    ensures refused { IfErr result (P.open_refuses pcs.now requests.entry.items
        (C.state challenger.old) (C.state challenger.new)) }
    ensures opened { IfOk result (λ r. P.open_gives pcs.now requests.entry.items
        (C.state challenger.old) (openings r.0.items) r.1 (C.state challenger.new)) }
    ensures only { IfOk result (λ r. AreTrueValues (P.commits pcs.now) (P.values_of pcs.now)
        requests.entry.items (openings r.0.items)) }
{
    pcs.open(alloc, requests, challenger)
}

// Opens what was committed to at the drawn point: the trace there and at the next point, and each
// chunk of the quotient there.
fn open_run<Val, EF, InputMmcs, FriMmcs, C>(
    alloc: Global,
    provable: &ProvableOver<'_, Val, EF, InputMmcs, FriMmcs, C>,
    run: &CommittedRun<Val, EF, InputMmcs>,
    challenger: &mut C,
) -> Result<
    (
        StarkOpenedValues<EF>,
        CirclePcsProof<Val, EF, InputMmcs, FriMmcs, Val>,
    ),
    StarkProverError,
>
where
    Val: ComplexExtendable + ElementBytes,
    EF: ExtensionField<Val>,
    InputMmcs: Mmcs<Val>,
    FriMmcs: Mmcs<EF>,
    C: CanSample<Val>
        + GrindingChallenger<Val>
        + CanObserve<InputMmcs::Commitment>
        + CanObserve<FriMmcs::Commitment>,
    requires supported { is_unfit provable.now.pcs.now.fri_params ≡ false }
    requires trace { (x : _) ×
        CommitsTo provable.now x run.now.trace_commitment run.now.trace_data }
    requires quotient { CommitsToQuotient provable.now run.now.trace_data run.now.drawn.alpha
        run.now.quotient_commitment run.now.quotient_data }
    ensures fit { OnOk result (CanBeOpened provable.now run.now.drawn.zeta) }
    ensures unopened { IfErr result (IsUnopenedAt provable.now run.now.trace_data
        run.now.quotient_data run.now.drawn.zeta challenger.old challenger.new) }
    ensures next { OnOk result (HasNext provable.now run.now.drawn.zeta) }
    ensures opened { IfOk result (λ r. AreOpenedAt provable.now run.now.trace_data
        run.now.quotient_data run.now.drawn.zeta (values_of r.0) r.1 challenger.old
        challenger.new) }
{
    let zeta = run.drawn.zeta;
    let next = match is_fit::<Val, EF>(provable.statement.log_n, zeta) {
        Some(next) => next,
        None => return Err(StarkProverError::UnfitPoint),
    };
    let kept = KeptData {
        trace: &run.trace_data,
        quotient: &run.quotient_data,
    };
    let num_chunks = 1 << provable.log_chunks;
    let requests = requests_at(alloc, kept, num_chunks, OpenedPoints { zeta, next })?;
    let (values, proof) = match open_requests(alloc, provable.pcs, requests, challenger) {
        Ok(opened) => opened,
        Err(error) => return Err(refusal_of_opening(error)),
    };
    Ok((values_of_openings(alloc, values)?, proof))
}

// A proof of rows that satisfy the constraints.
fn prove_satisfied<Val, EF, InputMmcs, FriMmcs, C>(
    alloc: Global,
    provable: &ProvableOver<'_, Val, EF, InputMmcs, FriMmcs, C>,
    rows: RowMajorMatrix<Val>,
    challenger: &mut C,
) -> Result<StarkProof<Val, EF, InputMmcs, FriMmcs>, StarkProverError>
where
    Val: ComplexExtendable + ElementBytes,
    EF: ExtensionField<Val>,
    InputMmcs: Mmcs<Val>,
    FriMmcs: Mmcs<EF>,
    C: CanSample<Val>
        + GrindingChallenger<Val>
        + CanObserve<InputMmcs::Commitment>
        + CanObserve<FriMmcs::Commitment>,
    requires height { height_of rows ≡ 2 ^ provable.now.statement.log_n }
    requires width { width_of rows ≡ (stated_by provable.now).parts.width }
    requires supported { is_unfit provable.now.pcs.now.fri_params ≡ false }
    requires satisfied { Satisfies Val.ops (stated_by provable.now).parts (rows_of rows)
        (stated_by provable.now).public_values }
    ensures reason { IfErr result (IsUnopened provable.now rows challenger.old challenger.new) }
    ensures accepted { IfOk result (Accepts provable.now challenger.old challenger.new) }
    ensures values { IfOk result (Opens provable.now rows challenger.old) }
{
    let run = commit_and_draw(alloc, provable, rows, challenger)?;
    let (opened_values, opening_proof) = open_run(alloc, provable, &run, challenger)?;
    // The identity speaks of a basis. That it holds of what is opened needs no test.
    basis_exists::<Val, EF>();
    Ok(StarkProof {
        trace_commitment: run.trace_commitment,
        quotient_commitment: run.quotient_commitment,
        opened_values,
        opening_proof,
    })
}

/// A proof that the rows of a trace satisfy its AIR (Circle STARKs, IACR ePrint 2024/278, section
/// 5): of the statement of this AIR, the logarithm of the number of rows, and these public values.
///
/// Ok only where the rows satisfy the constraints. Then [`verify`](crate::verify) accepts the proof
/// under that statement, from the state in which `prove` was called, and leaves the challenger in
/// the state in which `prove` left it. The opened values of the trace are those of the only
/// polynomials with its rows.
///
/// Before the challenger is seeded, `prove` leaves it as it was and returns the first of these, by
/// tests that take no memory: `PublicValuesMismatch`; `WidthMismatch` where the rows haven't an
/// entry for each column; `HeightNotPowerOfTwo`; `HeightTooSmall` where there are fewer than
/// `2^(2 + log_final_poly_len)` rows; `HeightTooLarge` where the group has no domain for the
/// extension of the trace or for its quotient; `PeriodTooLong` of the first periodic column that is
/// longer than the trace; `UnfitParameters` where the scheme's `open` doesn't support the
/// parameters. Then it returns `Unsatisfied` with the first row at which a constraint doesn't hold,
/// and the first such constraint, and leaves the challenger as it was too.
///
/// Once the challenger is seeded, `UnfitPoint` where the drawn point can't be opened, and
/// `PointOnDomain` where it is on the domain that the trace is committed on, both with the
/// challenger as the draw left it; `NoGrindingWitness` where no witness passes. `Memory` where an
/// allocation is refused. The last two leave the challenger in an unspecified state.
pub fn prove<Val, EF, InputMmcs, FriMmcs, C>(
    alloc: Global,
    pcs: &CirclePcs<Val, InputMmcs, FriMmcs>,
    trace: StarkTrace<'_, Val>,
    challenger: &mut C,
) -> Result<StarkProof<Val, EF, InputMmcs, FriMmcs>, StarkProverError>
where
    Val: ComplexExtendable + ElementBytes,
    EF: ExtensionField<Val>,
    InputMmcs: Mmcs<Val>,
    FriMmcs: Mmcs<EF>,
    C: CanSample<Val>
        + GrindingChallenger<Val>
        + CanObserve<InputMmcs::Commitment>
        + CanObserve<FriMmcs::Commitment>,
    ensures first { IsFirstTraceRefusal Val.CIRCLE_TWO_ADICITY pcs.now.fri_params trace.entry result
        challenger.old challenger.new }
    ensures height { OnOk result (height_of trace.entry.rows ≡ 2 ^ (stated trace.entry).log_n) }
    ensures satisfied { OnOk result (Satisfies Val.ops (stated trace.entry).parts
        (rows_of trace.entry.rows) (stated trace.entry).public_values) }
    ensures unsatisfied { IfErr result
        (NamesViolation Val.ops trace.entry challenger.old challenger.new) }
    ensures reason { let p = ⟦<CirclePcs<Val, InputMmcs, FriMmcs> as StarkRelation<EF, C>>⟧ in
        IfErr result (p.unproved pcs.now trace.entry challenger.old challenger.new) }
    ensures accepted { let p = ⟦<CirclePcs<Val, InputMmcs, FriMmcs> as StarkRelation<EF, C>>⟧ in
        IfOk result (p.accepts pcs.now (statement_by trace.entry) challenger.old challenger.new) }
    ensures values { let p = ⟦<CirclePcs<Val, InputMmcs, FriMmcs> as StarkRelation<EF, C>>⟧ in
        IfOk result (p.opens pcs.now (statement_by trace.entry) trace.entry.rows challenger.old) }
{
    let sizes = validated_sizes(&pcs.fri_params, &trace)?;
    let StarkTrace {
        air,
        rows,
        public_values,
    } = trace;
    match check_constraints(alloc, air, &rows, public_values)? {
        Some(violation) => {
            return Err(StarkProverError::Unsatisfied {
                row: violation.row,
                constraint: violation.constraint,
            });
        }
        None => {}
    }
    let statement = StarkStatement {
        air,
        log_n: sizes.log_n,
        public_values,
    };
    let provable = ProvableStatement {
        pcs,
        statement,
        log_chunks: sizes.log_chunks,
        of: PhantomData,
    };
    prove_satisfied(alloc, &provable, rows, challenger)
}
