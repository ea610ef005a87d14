//! The prover and the verifier, each by a challenger of its own that has absorbed nothing.
ghost use Rattle.std.specs.Prelude.{◌≡◌, OnOk, replicate};
ghost use Rattle.circle_air.specs.Satisfies.{Satisfies};
ghost use Rattle.circle_challenger.specs.Sha256Challenger.{state_of};
ghost use Rattle.circle_commit.specs.RowMajorMatrix.{rows};
ghost use Rattle.circle_field.specs.Mersenne31.{operations};
ghost use Rattle.circle_stark.specs.Trace.{stated};

use anyhow::Result;
use circle_presets::{Challenge, ChallengeMmcs, Challenger, Scheme, Val, ValMmcs};
use circle_stark::{StarkProof, StarkRelation, StarkStatement, StarkTrace};
use p3_circle::FriParameters;
use std::alloc::Global;

/// A proof, which is all that the prover publishes.
pub type Proof = StarkProof<Val, Challenge, ValMmcs, ChallengeMmcs>;

/// The verifier's choice. By conjecture it has 80 bits of security for up to `2^11` rows.
pub const PARAMETERS: FriParameters<()> = FriParameters {
    log_blowup: 1,
    log_final_poly_len: 0,
    max_log_arity: 1,
    num_queries: 89,
    batch_proof_of_work_bits: 0,
    commit_proof_of_work_bits: 0,
    query_proof_of_work_bits: 0,
    mmcs: (),
};

/// A proof that the rows of a trace satisfy its constraints. Ok only where they do.
pub fn prove(alloc: Global, pcs: &Scheme, trace: StarkTrace<'_, Val>) -> Result<Proof>
    ensures { OnOk result (Satisfies operations (stated trace.entry).parts
        (rows trace.entry.rows) (stated trace.entry).public_values) }
{
    let mut challenger = Challenger::new();
    Ok(circle_stark::prove(alloc, pcs, trace, &mut challenger)?)
}

/// Ok only where the relation that the verifier decides holds of the statement and the proof, from
/// a challenger that has absorbed nothing.
pub fn verify(
    alloc: Global,
    pcs: &Scheme,
    statement: StarkStatement<'_, Val>,
    proof: &Proof,
) -> Result<()>
    ensures { let p = ⟦<Scheme as StarkRelation<Challenge, Challenger>>⟧ in OnOk result
        ((c : _) × (state_of c ≡ replicate 32 0) × p.holds pcs.now statement.entry proof.now c) }
{
    let mut challenger = Challenger::new();
    Ok(circle_stark::verify(alloc, pcs, statement, proof, &mut challenger)?)
}
