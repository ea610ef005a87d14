//! A verifier, whose contract says what its Ok means.
ghost use Rattle.std.specs.Prelude.{◌≡◌, IfErr, OnOk};
ghost use Rattle.circle_callers.specs.Sums.{IsProofOf};
ghost use Rattle.circle_stark.specs.declared.error.StarkError.TheVariants.{Memory};

use crate::claim::{Claim, Proof};
use circle_airs::fibonacci_air;
use circle_presets::{Challenger, Scheme, VerifierError};
use circle_stark::{StarkError, StarkStatement, verify};
use std::alloc::Global;

/// Verifies a claim that the caller states for itself, by a proof from anyone.
///
/// Ok only where the proof is one of this very claim, from a challenger that has absorbed nothing.
/// Such a proof is refused only when out of memory.
pub fn verify_sum(
    alloc: Global,
    pcs: &Scheme,
    claim: Claim,
    proof: &Proof,
) -> Result<(), StarkError<VerifierError>>
    ensures accepted { OnOk result (IsProofOf pcs.now claim proof.now) }
    ensures complete { IfErr result (λ e. IsProofOf pcs.now claim proof.now → e ≡ Memory) }
{
    let Ok(air) = fibonacci_air(alloc) else {
        return Err(StarkError::Memory);
    };
    let statement = StarkStatement {
        air: &air,
        log_n: claim.log_n,
        public_values: &[claim.first, claim.second, claim.last],
    };
    verify(alloc, pcs, statement, proof, &mut Challenger::new())
}
