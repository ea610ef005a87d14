//! Three short callers, each with a contract of its own that the libraries' contracts prove: what a
//! program may promise because it stands on `p3_circle` and `circle_stark`.
//!
//! - `verify_sum`: an Ok means that the relation `StarkAccepts` holds of the verifier's own claim
//!   and the proof, and no such proof is refused unless out of memory.
//! - `prove_sum`: a proof is accepted, and fails to be made only by ill luck or for want of memory,
//!   never because of the rows, their number or the parameters.
//! - `opened_at`: over any scheme of polynomial commitments the opened values are those of the
//!   committed polynomials, and a verifier refuses no opening unless out of memory.
//!
//! Its files:
//!
//! - In `src/`, `verifier.rt`, `prover.rt`: the callers of `circle_stark`. `any_scheme.rt`: that of
//!   the trait `Pcs`. `claim.rt`: the claim of the first two, and the type of its proofs.
//! - In `specs/`, `Sums`: the claim's statement and proofs, and which sizes fit. `Unlucky`: why
//!   there may be no proof. `Preset`: the scheme.
//! - In `proofs/`, `Claimed`: what is proved of a statement is so of its claim. `Fitting`: no test
//!   refuses a table that fits. `OneMatrix`: what is opened of one matrix at one point.
#![tactic(auto)]

pub mod any_scheme;
pub mod claim;
pub mod prover;
pub mod verifier;

pub use any_scheme::opened_at;
pub use claim::{Claim, Proof};
pub use prover::prove_sum;
pub use verifier::verify_sum;
