//! A prover, whose contract says for which reasons alone it fails.
ghost use Rattle.std.specs.Prelude.{◌≡◌, IfErr, IfOk};
ghost use Rattle.circle_callers.specs.Sums.{Fits, IsProofOf, true_claim};
ghost use Rattle.circle_callers.specs.Unlucky.{IsUnlucky};

use crate::claim::{Claim, Proof};
use circle_airs::{fibonacci_air, fibonacci_trace};
use circle_presets::{Challenger, Scheme, Val};
use circle_stark::{StarkProverError, StarkTrace, prove};
use std::alloc::Global;

/// The true claim about term `2^log_n` of the sequence that begins with `first` and `second`, and a
/// proof of it.
///
/// Requires parameters that the prover supports, under which a table of `2^log_n` rows is neither
/// too low nor too high. Then no row, size or parameter is a reason to fail: where there is no
/// proof, the drawn point was unfit or on the domain, no witness passed, or memory ran out.
pub fn prove_sum(
    alloc: Global,
    pcs: &Scheme,
    first: Val,
    second: Val,
    log_n: usize,
) -> Result<(Claim, Proof), StarkProverError>
    requires fits { Fits pcs.now.fri_params log_n }
    ensures claim { IfOk result (λ r. r.0 ≡ true_claim first second log_n) }
    ensures proof { IfOk result (λ r. IsProofOf pcs.now r.0 r.1) }
    ensures reason { IfErr result IsUnlucky }
{
    let Ok(air) = fibonacci_air(alloc) else {
        return Err(StarkProverError::Memory);
    };
    let made = fibonacci_trace(alloc, first, second, 1 << log_n)?;
    let claim = Claim {
        log_n,
        first,
        second,
        last: made.public_values[2],
    };
    let trace = StarkTrace {
        air: &air,
        rows: made.rows,
        public_values: &made.public_values,
    };
    let proof = prove(alloc, pcs, trace, &mut Challenger::new())?;
    Ok((claim, proof))
}
