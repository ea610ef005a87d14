//! The opening of committed matrices at points, once their values there are known: the codewords of
//! Circle STARKs (IACR ePrint 2024/278, sections 4 and 6) are made, committed to and folded under
//! the challenges that the transcript draws from their commitments.
//!
//! The folds where committed matrices have the heights `2^6` and `2^4`, the blowup is 2 and the
//! final polynomial is a constant. A height joins where a round leaves as many entries as it folds
//! into:
//!
//! ```text
//!                  height 2^6              height 2^4
//!
//!                  64 entries              16 entries      the first layer, without the
//!                      |                       |           lambdas: one commitment for both
//!               fold by y               fold by y          both by one challenge
//!                      |                       |
//!                  32 entries                  |           committed to
//!              round 0, by x                   |
//!                  16 entries                  |           committed to
//!              round 1, by x                   |
//!                   8 entries <--- plus --- 8 entries      their sum is committed to
//!              round 2, by x
//!                   4 entries                              committed to
//!              round 3, by x
//!                   2 entries                              the values of the final polynomial
//! ```
//!
//! `OpenableRequests` carry that they can be opened. Before the challenger is seeded,
//! `OpenableRequests::new` refuses others by tests in order: it returns the first refusal that
//! there is reason for, and allocates nothing. `OpenableRequests::open` requires nothing.
//!
//! - In `src/`, `openable` has these requests, `requests` the tests. `prove` has the whole opening:
//!   `points` for the points, each made once, and the matrices with them, `values` for the values,
//!   `claims` and `heights` for what is requested, `run` for the run of
//!   the transcript, with `first_layer` and `rounds` in it, and `openings` for the rows and
//!   siblings at the queries. `foldable` has the matrices of the run as a value, which carries that
//!   each leaves something to fold. `schemes` is what contracts see of the fields, the challenger
//!   and the schemes.
//! - In `specs/`, `Requesting`: the tests of requests, in order. `Opening` says what is returned,
//!   by `Words`, the codewords under the challenges and what is committed to; `Failure` why a run
//!   fails. `OfRequests`, `OfFoldable`: the same over requests that can be opened, and over the
//!   value of a run. `Schemes`: the schemes by themselves.
//! - In `proofs/`, `CommittedHeights`, `OnDomain`, `RequestLists` and `Unrefused` are of the tests,
//!   `Growing`, `Lengths` and `FoldedLengths` of codewords, `Tops`, `Seen` and `TallMatrices` of
//!   heights, `Stuck` of the transcript, `Asked`, `Answered` and `Requested` of requested matrices
//!   as claims, `Held` and `OpenedPairs` of what a proof holds and opens. The
//!   folders have what is proved of the functions of the file of that name.
#![tactic(auto)]

mod claims;
mod first_layer;
mod foldable;
pub mod heights;
pub mod openable;
mod openings;
mod points;
pub mod prove;
pub mod requests;
mod rounds;
pub mod run;
mod schemes;
mod values;

pub use circle_relation::ProverError;
pub use heights::{log_min_trace_height, validate_height, validate_heights};
pub use openable::OpenableRequests;
pub use run::CommittedWords;
pub use schemes::OpeningOver;
