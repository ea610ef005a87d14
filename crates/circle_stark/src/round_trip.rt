//! A prover and a verifier, one after the other.
ghost use Rattle.std.specs.Prelude.{◌≡◌, Err, IfErr, IfOk, OnErr, OnOk};
ghost use Rattle.circle_air.specs.Satisfies.{Satisfies};
ghost use Rattle.circle_commit.specs.RowMajorMatrix.{rows as rows_of};
ghost use Rattle.circle_stark.specs.Trace.{IfRefused, stated, statement_by};
ghost use Rattle.circle_stark.specs.RoundTrip.{IsOfProver, unproved, unverified};
ghost use Rattle.circle_stark.specs.declared.round_trip.StarkRoundTripError.TheVariants.{Prove};
ghost use Rattle.circle_stark.specs.declared.round_trip.StarkRoundTripError.TheVariants.{Verify};

use crate::error::{StarkError, StarkProverError};
use crate::proof::{StarkProof, StarkStatement};
use crate::prover::prove;
use crate::relation::StarkRelation;
use crate::trace::StarkTrace;
use crate::verifier::verify;
use circle_challenger::{CanObserve, CanSample, GrindingChallenger};
use circle_commit::{Matrix, Mmcs, log2_strict};
use circle_field::{ComplexExtendable, ElementBytes, ExtensionField};
use circle_relation::VerifierError;
use p3_circle::CirclePcs;
use std::alloc::Global;
use std::fmt::Display;
use thiserror::Error;

/// Why [`prove_and_verify`] returns no proof.
///
/// The parameter is the error of the scheme's verifier.
#[derive(Debug, Drop, Error)]
#[error_bound(OpeningError: Display)]
pub enum StarkRoundTripError<OpeningError> {
    /// There is no proof.
    #[error("there is no proof: {0}")]
    Prove(StarkProverError),
    /// The proof is refused. It never is, by the contract.
    #[error("the proof is refused: {0}")]
    Verify(StarkError<OpeningError>),
    /// Memory was refused.
    #[error("out of memory")]
    Memory,
}

impl<OpeningError> From<StarkProverError> for StarkRoundTripError<OpeningError> {
    ghost from_gives = { λ error e. e ≡ unproved error };

    fn from(error: StarkProverError) -> StarkRoundTripError<OpeningError> {
        match error {
            StarkProverError::Memory => StarkRoundTripError::Memory,
            error => StarkRoundTripError::Prove(error),
        }
    }
}

impl<OpeningError> From<StarkError<OpeningError>> for StarkRoundTripError<OpeningError> {
    ghost from_gives = { λ error e. e ≡ unverified error };

    fn from(error: StarkError<OpeningError>) -> StarkRoundTripError<OpeningError> {
        match error {
            StarkError::Memory => StarkRoundTripError::Memory,
            error => StarkRoundTripError::Verify(error),
        }
    }
}

/// Proves that the rows of a trace satisfy its AIR, and verifies the proof, by two challengers that
/// begin in one state.
///
/// Returns the proof, once it is accepted; then both challengers end in one state, and the rows
/// satisfy the constraints. Otherwise the result is the refusal of [`prove`], or `Memory`:
/// [`verify`] refuses no proof that `prove` returned, unless out of memory. A trace that `prove`
/// refuses before the challenger is seeded leaves both challengers as they were.
pub fn prove_and_verify<Val, EF, InputMmcs, FriMmcs, C>(
    alloc: Global,
    pcs: &CirclePcs<Val, InputMmcs, FriMmcs>,
    trace: StarkTrace<'_, Val>,
    prover: &mut C,
    verifier: &mut C,
) -> Result<
    StarkProof<Val, EF, InputMmcs, FriMmcs>,
    StarkRoundTripError<VerifierError<InputMmcs::Error, FriMmcs::Error>>,
>
where
    Val: ComplexExtendable + ElementBytes,
    EF: ExtensionField<Val>,
    InputMmcs: Mmcs<Val>,
    InputMmcs::Commitment: Copy,
    FriMmcs: Mmcs<EF>,
    C: CanSample<Val>
        + GrindingChallenger<Val>
        + CanObserve<InputMmcs::Commitment>
        + CanObserve<FriMmcs::Commitment>,
    requires same { C.state prover.old ≡ C.state verifier.old }
    ensures first { IfRefused Val.CIRCLE_TWO_ADICITY pcs.now.fri_params trace.entry
        (λ e. (result ≡ Err (Prove e)) × (prover.new ≡ prover.old) × (verifier.new ≡ verifier.old)) }
    ensures satisfied { OnOk result (Satisfies Val.ops (stated trace.entry).parts
        (rows_of trace.entry.rows) (stated trace.entry).public_values) }
    ensures accepted { let p = ⟦<CirclePcs<Val, InputMmcs, FriMmcs> as StarkRelation<EF, C>>⟧ in
        IfOk result (p.accepts pcs.now (statement_by trace.entry) prover.old prover.new) }
    ensures values { let p = ⟦<CirclePcs<Val, InputMmcs, FriMmcs> as StarkRelation<EF, C>>⟧ in
        IfOk result (p.opens pcs.now (statement_by trace.entry) trace.entry.rows prover.old) }
    ensures states { OnOk result (C.state prover.new ≡ C.state verifier.new) }
    ensures complete { IfErr result (λ e. (error : _) → e ≡ Verify error → ⊥) }
    ensures reason { let p = ⟦<CirclePcs<Val, InputMmcs, FriMmcs> as StarkRelation<EF, C>>⟧ in
        IfErr result (IsOfProver (p.unproved pcs.now trace.entry prover.old prover.new)) }
{
    let (air, public_values) = (trace.air, trace.public_values);
    let height = trace.rows.height();
    let proof = match prove(alloc, pcs, trace, prover) {
        Ok(proof) => proof,
        Err(error) => return Err(StarkRoundTripError::from(error)),
    };
    let statement = StarkStatement {
        air,
        log_n: log2_strict(height),
        public_values,
    };
    verify(alloc, pcs, statement, &proof, verifier)?;
    Ok(proof)
}
