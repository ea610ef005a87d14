//! Proves two statements and verifies the proofs: a term of a sequence in which each is the sum of
//! the two before, and the end of a hash chain.
//!
//! For each, a prover makes the rows of a table and a proof that they satisfy constraints. A
//! verifier makes the statement for itself, and is handed the proof alone. The program prints the
//! digests of the constraints, which are those of the examples in Python and Rust.
#![tactic(auto)]

mod fibonacci;
mod hash_chain;
mod stark;

use anyhow::Result;
use circle_presets::{Scheme, scheme};
use std::alloc::{AllocError, Global};

fn run_fibonacci(alloc: Global, pcs: &Scheme) -> Result<[u8; 32]> {
    let proof = fibonacci::prove(alloc, pcs)?;
    fibonacci::verify(alloc, pcs, &proof)
}

fn run_hash_chain(alloc: Global, pcs: &Scheme) -> Result<[u8; 32]> {
    let proof = hash_chain::prove(alloc, pcs)?;
    hash_chain::verify(alloc, pcs, &proof)
}

/// The 64 hexadecimal digits of a digest.
fn digits(alloc: Global, digest: [u8; 32]) -> Result<String, AllocError> {
    hex::encode(alloc, digest.as_slice())
}

fn main(rt: HostRuntime) -> Result<()> {
    let alloc = rt.alloc();
    let pcs = scheme(stark::PARAMETERS);
    let digest = run_fibonacci(alloc, &pcs)?;
    println!(rt; "verified {}", digits(alloc, digest)?)?;
    let digest = run_hash_chain(alloc, &pcs)?;
    println!(rt; "verified {}", digits(alloc, digest)?)?;
    Ok(())
}
