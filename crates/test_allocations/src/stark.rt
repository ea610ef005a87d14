//! Calls of the STARK, on eight rows of Fibonacci numbers.
use crate::scheme::{number, params};
use crate::told::{Stage, Told, told};
use anyhow::Result;
use circle_air::{Air, AirError};
use circle_airs::{Trace, fibonacci_air, fibonacci_trace};
use circle_challenger::Sha256Challenger;
use circle_commit::FriParameters;
use circle_field::{Field, Mersenne31};
use circle_presets::{Challenge, ChallengeMmcs, Scheme, ValMmcs};
use circle_stark::{StarkProof, StarkStatement, StarkTrace};
use std::alloc::Global;

type Proof = StarkProof<Mersenne31, Challenge, ValMmcs, ChallengeMmcs>;

// The binary logarithm of the number of rows.
const LOG_N: usize = 3;

// The AIR, and the eight rows with their public values.
fn eight_rows(alloc: Global) -> Result<(Air<Mersenne31>, Trace<Mersenne31>), AirError> {
    let air = fibonacci_air(alloc)?;
    let trace = fibonacci_trace(alloc, Mersenne31::ONE, Mersenne31::ONE, 8)?;
    Ok((air, trace))
}

// The scheme with two queries.
fn scheme() -> Scheme {
    circle_presets::scheme(FriParameters {
        num_queries: 2,
        ..params()
    })
}

// What `prove` returns of a trace.
fn proved(alloc: Global, air: &Air<Mersenne31>, trace: Trace<Mersenne31>) -> Result<Proof> {
    let trace = StarkTrace {
        air,
        rows: trace.rows,
        public_values: &trace.public_values,
    };
    Ok(circle_stark::prove(alloc, &scheme(), trace, &mut Sha256Challenger::new())?)
}

/// `prove`.
pub fn prove(alloc: Global, stage: Stage) -> Result<Told> {
    let (air, trace) = eight_rows(alloc)?;
    stage.begin()?;
    let proof = proved(alloc, &air, trace)?;
    Ok(told(number(&proof.trace_commitment)))
}

/// `verify`.
pub fn verify(alloc: Global, stage: Stage) -> Result<Told> {
    let (air, trace) = eight_rows(alloc)?;
    let public_values = trace.public_values.clone()?;
    let proof = proved(alloc, &air, trace)?;
    stage.begin()?;
    let statement = StarkStatement {
        air: &air,
        log_n: LOG_N,
        public_values: &public_values,
    };
    let mut challenger = Sha256Challenger::new();
    circle_stark::verify(alloc, &scheme(), statement, &proof, &mut challenger)?;
    Ok(told("accepted"))
}

// What `prove_and_verify` returns of a trace.
fn proved_and_verified(
    alloc: Global,
    air: &Air<Mersenne31>,
    trace: Trace<Mersenne31>,
) -> Result<Proof> {
    let trace = StarkTrace {
        air,
        rows: trace.rows,
        public_values: &trace.public_values,
    };
    let (mut prover, mut verifier) = (Sha256Challenger::new(), Sha256Challenger::new());
    Ok(circle_stark::prove_and_verify(alloc, &scheme(), trace, &mut prover, &mut verifier)?)
}

/// `prove_and_verify`.
pub fn round_trip(alloc: Global, stage: Stage) -> Result<Told> {
    let (air, trace) = eight_rows(alloc)?;
    stage.begin()?;
    let proof = proved_and_verified(alloc, &air, trace)?;
    Ok(told(number(&proof.trace_commitment)))
}
