//! A STARK over the circle: proofs that rows of a trace satisfy constraints, and their verifier
//! (Circle STARKs, IACR ePrint 2024/278, section 5).
//!
//! What is proved, for every lawful field, extension, commitment scheme and challenger:
//!
//! - `verify` returns Ok exactly where the relation `StarkAccepts` holds of the statement, the
//!   proof and what is drawn, unless out of memory (`accepted`, `complete`). It returns the first of
//!   the refusals that need no challenge, with the challenger as it was (`first`), and each later
//!   one only where its reason holds (`reason`).
//! - `prove` returns Ok only where the rows satisfy the constraints (`satisfied`), and
//!   `StarkAccepts` holds of what it returns, from the state in which it was called to that which it
//!   leaves (`accepted`). The trace's opened values are those of the only polynomials with its rows
//!   (`values`). It returns the first of the refusals that need no challenge, with the challenger as
//!   it was (`first`). Where the rows don't satisfy the constraints it names the first row and
//!   constraint, with the challenger as it was (`unsatisfied`), and it fails in no other case but
//!   those that its page names (`reason`).
//! - `prove_and_verify` returns a proof that was accepted, with both challengers in one state. It
//!   fails as `prove` does (`first`, `reason`), and never because `verify` refuses (`complete`).
//! - `laws::opened_identity`: where opened values are those of columns, the identity that `verify`
//!   tests on the values holds of the columns. It is then as `laws::identity_binds` of
//!   `circle_quotient` requires it.
//! - A proof is written as JSON and read back, and a JSON value stands for one proof at most.
//!
//! Its files:
//!
//! - In `src/`, `verifier.rt`: `verify`. `statement.rt`: what is refused before the challenger is
//!   seeded. `provable.rt`: a statement that passed the tests, whose type carries what is known of
//!   its scheme and challengers. `transcript.rt`: what is drawn before the scheme's transcript.
//!   `claims.rt`: the claims of a proof. `identity.rt`: the identity at the drawn point.
//!   `prover.rt`: `prove`. `trace.rt`: what is refused of a trace. `committing.rt`, `opening.rt`:
//!   what a prover commits to and opens. `round_trip.rt`: `prove_and_verify`. `relation.rt`: what
//!   contracts cite. `laws.rt`: the law of opened values.
//! - In `specs/`, `Accepts`: the relation. `Draw`, `Steps`: the transcript. `Statement`, `Claims`,
//!   `Provable`: statements and proofs as lists, the claims, and their shape. `Refusals`, `Verdict`:
//!   refusals in order, and reasons. `Trace`, `Unproved`: the refusals of a trace, and why there is
//!   no proof. `Honest`, `Opened`: what an honest prover commits to and opens. `OpensRows`: the
//!   values that it opens. `Schemes`: all of that over a scheme and its challengers. `OfProvable`,
//!   `OfPaused`: the same of the values of a run. `RoundTrip`: the refusals of both. `Linked`: the
//!   columns behind opened values. `Json`: the members of objects.
//! - In `proofs/`, of `verify`: `Passing`: what tests establish. `Fixed`: the opened values fix the
//!   identity. `Selecting`: selectors of a standard domain. `Verdicts`: what is drawn fixes the
//!   verdict.
//! - In `proofs/`, of `prove`: `TracePassing`: what the tests of a trace establish.
//!   `Committable`: what is committed to passes the scheme's tests.
//!   `CommittedValues`: a committed trace's values on a larger domain. `ChunkSizes`, `OpenedRuns`,
//!   `Heads`: the lists of what is committed to and opened. `OpenedClaims`: the scheme accepts what
//!   is opened. `TrueValues`, `OpenedColumns`, `ChunkPolynomials`, `BasisSums`: it is the values of
//!   polynomials. `BasisElements`, `PointWindows`: both sides of the identity have a value.
//!   `HonestIdentity`: so the identity holds. `HonestRun`: all of it.
//! - In `proofs/`, of `opened_identity`: `CombinedChunks`: the value of a chunk's columns put
//!   together. `OpenedIdentity`: the law.
#![tactic(auto)]

mod claims;
mod committing;
pub mod error;
mod identity;
pub mod json;
pub mod laws;
mod lists;
mod opening;
pub mod proof;
mod provable;
pub mod prover;
pub mod relation;
pub mod round_trip;
mod statement;
pub mod trace;
mod transcript;
pub mod verifier;

pub use error::{StarkError, StarkProverError};
pub use proof::{StarkOpenedValues, StarkProof, StarkStatement};
pub use prover::prove;
pub use relation::StarkRelation;
pub use round_trip::{StarkRoundTripError, prove_and_verify};
pub use trace::StarkTrace;
pub use verifier::verify;
