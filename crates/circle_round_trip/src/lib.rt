//! A committer and a verifier of any polynomial commitment scheme, played against each other.
//!
//! What is proved, for every scheme that is an instance of `Pcs`:
//!
//! - `round_trip` commits to batches, opens them at points and verifies: an honest run is accepted,
//!   and any other returns the refusal of the call that refused, for the reason that the scheme
//!   gives for it.
//!
//! Its files:
//!
//! - In `src/`, `any_scheme.rt`: `round_trip`, and what it takes and returns.
//! - In `specs/`, `RoundTrip`: batches at points, and why a round trip returns no values; also by
//!   the members of a scheme, as `AreHonestUnder`.
//! - In `proofs/`, `Batches`: batches that are committed to, requests for them, and claims.
#![tactic(auto)]

pub mod any_scheme;

pub use any_scheme::{BatchAtPoints, RoundTripError, round_trip};
