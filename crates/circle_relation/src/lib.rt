//! When a verifier of Circle STARK openings (IACR ePrint 2024/278) accepts: what is claimed, what a
//! proof is made of, what is drawn, and the relation between them.
//!
//! `specs/Accepts` has the relation part by part, and `specs/Reasons` why a run is refused once the
//! challenges are drawn; where the relation holds, nothing but want of memory has a reason
//! (`proofs/Contradictions`). `specs/Statement`, `StatementOf` and `RunOf` say what claims and the
//! records of this crate are to them, and `specs/Rows` evaluates them at a worked opening.
//!
//! There is nothing to call here.
//!
//! Its files:
//!
//! - In `src/`, `run.rt`: `OverCircle`, by which a clause names the operations of a field, its
//!   circle and an extension by one name; the queries' values in codewords.
//! - In `specs/`, `Statement`, `StatementOf`: claims, a proof and challenges. `Accepts`: the
//!   relation, part by part. `Sums`, `Taken`: sums of quotients, and what a transcript absorbs.
//!   `Reasons`, `Failures`: why a run is refused. `RunOf`: what the records of a proof and of
//!   queries are to the relation. `Rows`: an opening. `TestsInOrder`: the first refusal that there
//!   is reason for.
//! - In `proofs/`, `Contradictions`: where the relation holds no refusal has a reason but want of
//!   memory. `AtQueries`, `ReducedSums`, `Ends`: lists over queries. `Pairs`: loops over pairs.
//!   `Described`: what describes a transcript. `Counts`: how much it draws. `Answering`, `Passed`:
//!   tests in order. `Kept`, `Shown`, `Results`.
#![tactic(auto)]

pub mod error;
pub mod proof;
pub mod run;

pub use error::{InputError, ProverError, VerifierError};
pub use proof::{CircleCommitPhaseMultiStep, CircleFriProof, CircleInputProof, CirclePcsProof};
pub use run::{OverCircle, QueriedWord, QueryValues};
