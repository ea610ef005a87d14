//! The verifier.
ghost use Rattle.std.specs.Prelude.{◌≡◌, ℕ, IfErr, IfOk, OnErr, OnOk};
ghost use Rattle.circle_air.specs.Degrees.{IsLogOfChunks, degree_of_parts};
ghost use Rattle.circle_stark.specs.OfProvable.{Accepts, Draws, Holds, Refuses, stated_by};
ghost use Rattle.circle_stark.specs.Provable.{HasShape, IsProvable};
ghost use Rattle.circle_stark.specs.Refusals.{IsFirstRefusal, IsTested, stark_tests};
ghost use Rattle.circle_stark.specs.Statement.{statement_of, values_of};
ghost use Rattle.circle_stark.specs.declared.error.StarkError.TheVariants.{Memory};

use crate::claims::{OpenedPoints, claims_of};
use crate::error::StarkError;
use crate::identity::has_identity;
use crate::proof::{StarkProof, StarkStatement};
use crate::provable::{ProvableOver, ProvableStatement};
use crate::relation::StarkRelation;
use crate::statement::{validate_values, validated_log_chunks};
use crate::transcript::constraint_challenge;
use circle_challenger::{CanObserve, CanSample, GrindingChallenger};
use circle_commit::{FriParameters, Mmcs};
use circle_field::{ComplexExtendable, ElementBytes, ExtensionField};
use circle_quotient::fit::is_fit;
use circle_relation::VerifierError;
use p3_circle::CirclePcs;
use std::alloc::{AllocError, Global};
use std::marker::PhantomData;

/// The challenges of a run before the scheme's.
#[derive(Clone, Copy)]
pub(crate) struct Challenges<EF> {
    /// The challenge that puts the constraints together.
    pub alpha: EF,
    /// The coordinate of the point at which all is opened.
    pub zeta: EF,
}

// Draws the challenges of a statement and a proof. Where memory is refused the challenger is left
// as it was.
fn draw<Val, EF, InputMmcs, FriMmcs, C>(
    alloc: Global,
    provable: &ProvableOver<'_, Val, EF, InputMmcs, FriMmcs, C>,
    trace: &InputMmcs::Commitment,
    quotient: &InputMmcs::Commitment,
    challenger: &mut C,
) -> Result<Challenges<EF>, AllocError>
where
    Val: ComplexExtendable + ElementBytes,
    EF: ExtensionField<Val>,
    InputMmcs: Mmcs<Val>,
    FriMmcs: Mmcs<EF>,
    C: CanSample<Val>
        + GrindingChallenger<Val>
        + CanObserve<InputMmcs::Commitment>
        + CanObserve<FriMmcs::Commitment>,
    ensures refused { OnErr result (challenger.new ≡ challenger.old) }
    ensures drawn { IfOk result (λ d. Draws provable.now trace.now quotient.now challenger.old
        d.alpha d.zeta challenger.new) }
{
    let run = constraint_challenge(alloc, provable, challenger, trace)?;
    let alpha = run.alpha;
    let zeta = run.out_of_domain_point(challenger, quotient);
    Ok(Challenges { alpha, zeta })
}

// The binary logarithm of the number of chunks of a statement whose proof can be judged. Refuses
// others by the first reason. Takes no memory.
fn validate<Val, EF, InputMmcs, FriMmcs>(
    params: &FriParameters<FriMmcs>,
    statement: &StarkStatement<Val>,
    proof: &StarkProof<Val, EF, InputMmcs, FriMmcs>,
) -> Result<usize, StarkError<VerifierError<InputMmcs::Error, FriMmcs::Error>>>
where
    Val: ComplexExtendable,
    EF: ExtensionField<Val>,
    InputMmcs: Mmcs<Val>,
    FriMmcs: Mmcs<EF>,
    ensures tested { (k : ℕ) → IsLogOfChunks (degree_of_parts (statement_of statement.now).parts) k
        → IsTested (stark_tests Val.CIRCLE_TWO_ADICITY params.now k EF.DEGREE
        (statement_of statement.now) (values_of proof.now.opened_values)) result }
    ensures provable { IfOk result (λ k. IsProvable Val.CIRCLE_TWO_ADICITY params.now
        (statement_of statement.now) k) }
    ensures shape { IfOk result (λ k. HasShape EF.DEGREE (statement_of statement.now).parts.width k
        (values_of proof.now.opened_values)) }
{
    let log_chunks = validated_log_chunks(params, statement)?;
    let width = statement.air.width();
    validate_values::<Val, EF, _>(width, log_chunks, &proof.opened_values)?;
    Ok(log_chunks)
}

// Whether a proof that can be judged is accepted, as `verify` says, once the challenger is seeded.
fn verify_seeded<Val, EF, InputMmcs, FriMmcs, C>(
    alloc: Global,
    provable: &ProvableOver<'_, Val, EF, InputMmcs, FriMmcs, C>,
    proof: &StarkProof<Val, EF, InputMmcs, FriMmcs>,
    challenger: &mut C,
) -> Result<(), StarkError<VerifierError<InputMmcs::Error, FriMmcs::Error>>>
where
    Val: ComplexExtendable + ElementBytes,
    EF: ExtensionField<Val>,
    InputMmcs: Mmcs<Val>,
    InputMmcs::Commitment: Copy,
    FriMmcs: Mmcs<EF>,
    C: CanSample<Val>
        + GrindingChallenger<Val>
        + CanObserve<InputMmcs::Commitment>
        + CanObserve<FriMmcs::Commitment>,
    requires shape { HasShape EF.DEGREE (stated_by provable.now).parts.width
        provable.now.log_chunks (values_of proof.now.opened_values) }
    ensures accepted { OnOk result
        (Accepts provable.now challenger.old challenger.new proof.now) }
    ensures complete { IfErr result
        (λ e. Holds provable.now challenger.old proof.now → e ≡ Memory) }
    ensures reason { IfErr result
        (Refuses provable.now proof.now challenger.old challenger.new) }
{
    let log_n = provable.statement.log_n;
    let trace = &proof.trace_commitment;
    let drawn = draw(
        alloc,
        provable,
        trace,
        &proof.quotient_commitment,
        challenger,
    )?;
    let zeta = drawn.zeta;
    let next = match is_fit::<Val, EF>(log_n, zeta) {
        Some(next) => next,
        None => return Err(StarkError::UnfitPoint),
    };
    let claims = claims_of(alloc, log_n, proof, OpenedPoints { zeta, next })?;
    let pcs = provable.pcs;
    pcs.verify(alloc, claims, &proof.opening_proof, challenger)?;
    let (statement, log_chunks) = (&provable.statement, provable.log_chunks);
    if !has_identity(alloc, statement, log_chunks, &proof.opened_values, drawn)? {
        return Err(StarkError::OodEvaluationMismatch);
    }
    Ok(())
}

/// Whether a proof shows that rows of a trace satisfy an AIR: Ok exactly where the relation
/// `StarkAccepts` holds of the statement, the proof and the drawn challenges, unless out of memory
/// (Circle STARKs, IACR ePrint 2024/278, section 5). Any input may be passed: what is malformed is
/// refused.
///
/// Before the challenger is seeded, `verify` leaves it as it was and returns the first of these, by
/// tests that take no memory: `PublicValuesMismatch`; `HeightTooSmall` where the trace has fewer
/// than `2^(2 + log_final_poly_len)` rows; `HeightTooLarge` where the group has no domain for its
/// extension or its quotient; `PeriodTooLong` of the first periodic column that is longer than the
/// trace; `TraceLocalLength` and `TraceNextLength` where there isn't a value for each column;
/// `QuotientChunkCount`, and `QuotientChunkLength` of the first chunk that hasn't a value for each
/// coefficient of an element.
///
/// Then `UnfitPoint` where the drawn point can't be opened, with the challenger as the draw left
/// it; `InvalidOpening` with what the scheme's verifier returns; and `OodEvaluationMismatch` where
/// the constraints at the point aren't the quotient times the vanishing polynomial. `Memory` where
/// an allocation is refused. An Ok leaves the challenger as the scheme's verifier does.
pub fn verify<Val, EF, InputMmcs, FriMmcs, C>(
    alloc: Global,
    pcs: &CirclePcs<Val, InputMmcs, FriMmcs>,
    statement: StarkStatement<'_, Val>,
    proof: &StarkProof<Val, EF, InputMmcs, FriMmcs>,
    challenger: &mut C,
) -> Result<(), StarkError<VerifierError<InputMmcs::Error, FriMmcs::Error>>>
where
    Val: ComplexExtendable + ElementBytes,
    EF: ExtensionField<Val>,
    InputMmcs: Mmcs<Val>,
    InputMmcs::Commitment: Copy,
    FriMmcs: Mmcs<EF>,
    C: CanSample<Val>
        + GrindingChallenger<Val>
        + CanObserve<InputMmcs::Commitment>
        + CanObserve<FriMmcs::Commitment>,
    ensures first { IsFirstRefusal Val.CIRCLE_TWO_ADICITY pcs.now.fri_params EF.DEGREE
        statement.entry proof.now.opened_values result challenger.old challenger.new }
    ensures accepted { let p = ⟦<CirclePcs<Val, InputMmcs, FriMmcs> as StarkRelation<EF, C>>⟧ in
        OnOk result (p.accepts pcs.now statement.entry challenger.old challenger.new proof.now) }
    ensures complete { let p = ⟦<CirclePcs<Val, InputMmcs, FriMmcs> as StarkRelation<EF, C>>⟧ in
        IfErr result (λ e. p.holds pcs.now statement.entry proof.now challenger.old → e ≡ Memory) }
    ensures reason { let p = ⟦<CirclePcs<Val, InputMmcs, FriMmcs> as StarkRelation<EF, C>>⟧ in
        IfErr result (p.refuses pcs.now statement.entry proof.now challenger.old challenger.new) }
{
    let log_chunks = validate(&pcs.fri_params, &statement, proof)?;
    let provable = ProvableStatement {
        pcs,
        statement,
        log_chunks,
        of: PhantomData,
    };
    verify_seeded(alloc, &provable, proof, challenger)
}
